// What adding answers where it accepts: the number of the new event, and how many bytes its entry has.
#[derive(Clone, Copy, PartialEq, Eq, Debug)]
pub struct Added {
    pub event: u16,
    pub used: usize,
}
