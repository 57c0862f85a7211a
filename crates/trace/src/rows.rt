ghost use Rattle.std.specs.Prelude.{◌≡◌, ℕ, ◌<◌, false, ◌||◌, length, ◌==◌};
ghost use Rattle.trace.specs.Rows.{held, in_row, members};

use std::array;

// A set of events, as a row of 512 bits: event k is in it where bit k is set.
#[derive(Clone, Copy, Debug)]
pub struct CauseRow {
    words: [u64; 8],
}

impl CauseRow {
    // The row of no events.
    pub(crate) fn new() -> CauseRow
        ensures { (k : ℕ) → in_row result k ≡ false }
    {
        CauseRow { words: [0; 8] }
    }

    // Whether the event is in the row. A number above 511 is in no row.
    pub fn has(&self, event: u16) -> bool
        ensures { result ≡ in_row self.now event }
    {
        self.words
            .get(usize::from(event / 64))
            .is_some_and(|word| (word >> (event % 64)) % 2 == 1)
    }

    // How many events are in the row.
    pub fn count(&self) -> u32
        ensures { result ≡ length (members (in_row self.now) 512) }
    {
        count_held(&self.words)
    }

    // Puts one event in.
    pub(crate) fn insert(&mut self, event: u16)
        requires { event < 512 }
        ensures { (k : ℕ) → in_row self.new k ≡ (in_row self.old k || k == event) }
    {
        self.words[usize::from(event / 64)] |= 1u64 << (event % 64);
    }

    // Puts in all the events of another row.
    pub(crate) fn join(&mut self, other: &CauseRow)
        ensures { (k : ℕ) → in_row self.new k ≡ (in_row self.old k || in_row other.now k) }
    {
        self.words = array::from_fn(|i| self.words[i] | other.words[i]);
    }
}

// How many events are in the row of these words. A function of the slice, since a proof knows that each element of a slice
// that is passed fits in 64 bits, and does not know it of a field that is borrowed.
fn count_held(words: &[u64]) -> u32
    requires { length words.now ≡ 8 }
    ensures { result ≡ length (members (held words.now) 512) }
{
    words.iter().map(|word| word.count_ones()).sum()
}
