ghost use Rattle.std.specs.Prelude.{◌≡◌, ◌+◌, ◌<◌, map};
ghost use Rattle.vectors.specs.Entries.{largest, one_more};
ghost use Rattle.vectors.specs.EntriesClocks.{clock_before, clock_answers};
ghost use Rattle.vectors.specs.Vectors.{full_vector, shared, rev, sharing};
ghost use Rattle.vectors.specs.VectorsLemmas.{sharing_lawful, sharing_meaning};

use crate::counters::Counter;
use crate::entries::{largest, none_exceeds, raise};
use crate::stamps::EntriesStamp;
use clock::{Clock, Order, Port, Refusal};
use std::marker::PhantomData;

// The clock of R entries that the ports share: port p owns entry p mod R.
#[derive(Clone, Copy)]
pub struct EntriesVector<C, const R: usize> {
    counter: PhantomData<C>,
    count: Count<R>,
}

// A number of entries, at least 1.
#[derive(Clone, Copy)]
struct Count<const R: usize> {
    ghost some: { 0 < R },
}

// The full vector clock: 8 entries of 16 bits, one for each port.
pub type FullVector = EntriesVector<u16, 8>;

impl FullVector {
    // The clock, and what its order and its answers are.
    pub fn new() -> FullVector
        ensures order { ⟦<FullVector as Order>⟧.precedes result ≡ clock_before full_vector }
        ensures answers { ⟦<FullVector as Clock>⟧.answers result ≡ clock_answers full_vector }
    {
        EntriesVector::sharing()
    }
}

// The R-entries vector clock: 4 entries of 8 bits.
pub type Rev = EntriesVector<u8, 4>;

impl Rev {
    // The clock, and what its order and its answers are.
    pub fn new() -> Rev
        ensures order { ⟦<Rev as Order>⟧.precedes result ≡ clock_before rev }
        ensures answers { ⟦<Rev as Clock>⟧.answers result ≡ clock_answers rev }
    {
        EntriesVector::sharing()
    }
}

impl<C: Counter, const R: usize> EntriesVector<C, R> {
    // The clock in which the ports share R entries.
    fn sharing() -> EntriesVector<C, R>
        requires { 0 < R }
    {
        EntriesVector {
            counter: PhantomData,
            count: Count {},
        }
    }

    // The entry that the port owns.
    fn owned(&self, port: Port) -> usize
        ensures value { result ≡ shared R port }
        ensures bound { result < R }
    {
        usize::from(port.number()) % R
    }

    // Raises by 1 the entry that the port owns.
    fn advance(&self, entries: &mut [C; R], port: Port)
        requires { largest R (map C.value entries.old) < C.CEILING }
        ensures { map C.value entries.new ≡ one_more R (shared R port) (map C.value entries.old) }
    {
        let own = self.owned(port);
        entries[own] = entries[own].next();
    }
}

impl<C: Counter, const R: usize> Order for EntriesVector<C, R> {
    type Item = EntriesStamp<C, R>;

    ghost precedes = { λ _. clock_before (sharing C.value C.of C.CEILING R) };

    ghost lawful = { λ c. sharing_lawful C.value C.of C.CEILING R c.count.some C.floor C.value_of };

    fn before(&self, a: &EntriesStamp<C, R>, b: &EntriesStamp<C, R>) -> bool {
        let own = self.owned(b.port);
        none_exceeds(&a.entries, &b.entries) && a.entries[own].get() < b.entries[own].get()
    }
}

impl<C: Counter, const R: usize> Clock for EntriesVector<C, R> {
    ghost answers = { λ _. clock_answers (sharing C.value C.of C.CEILING R) };

    ghost meaning = { λ c. sharing_meaning C.value C.of C.CEILING R c.count.some C.floor C.value_of };

    fn port(&self, s: &EntriesStamp<C, R>) -> Port {
        s.port
    }

    fn room(&self, s: &EntriesStamp<C, R>) -> u32 {
        u32::from(C::CEILING.saturating_sub(largest(&s.entries)))
    }

    fn same(&self, a: &EntriesStamp<C, R>, b: &EntriesStamp<C, R>) -> bool {
        a == b
    }

    fn start(&self, port: u8) -> Result<EntriesStamp<C, R>, Refusal> {
        Ok(EntriesStamp {
            port: Port::try_from(port)?,
            entries: [C::zero(); R],
        })
    }

    fn step(&self, s: &mut EntriesStamp<C, R>) -> Result<(), Refusal> {
        if self.room(s) == 0 {
            return Err(Refusal::NoRoom);
        }
        self.advance(&mut s.entries, s.port);
        Ok(())
    }

    fn take(&self, s: &mut EntriesStamp<C, R>, m: &EntriesStamp<C, R>) -> Result<(), Refusal> {
        if self.room(s) == 0 || self.room(m) == 0 {
            return Err(Refusal::NoRoom);
        }
        let taker = s.port;
        raise(&mut s.entries, &m.entries);
        self.advance(&mut s.entries, taker);
        Ok(())
    }
}
