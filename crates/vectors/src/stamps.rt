use clock::Port;

// A stamp of R entries: port p owns entry p mod R.
#[derive(Clone, Copy, PartialEq, Eq, Debug)]
pub struct EntriesStamp<C, const R: usize> {
    pub port: Port,
    pub entries: [C; R],
}

// A stamp of the full vector: port p owns entry p.
pub type VectorStamp = EntriesStamp<u16, 8>;

// A stamp of the R-entries vector, whose ports share the entries.
pub type RevStamp = EntriesStamp<u8, 4>;
