ghost use Rattle.std.specs.Prelude.{◌≡◌};
ghost use Rattle.lamport.specs.KLamport.{rising, lamport_before, lamport_answers, RisingApart};
ghost use Rattle.lamport.specs.Laws.{lamport_lawful, lamport_meaning};

use clock::{Clock, Order, Port, Refusal};

// A stamp of the K-Lamport clock with its entries L0, L1 and L2. One made by hand may have entries that rise. No port owns
// an entry, so it is no case of the stamps whose entries the ports own.
#[derive(Clone, Copy, PartialEq, Eq, Debug)]
pub struct KLamportStamp {
    pub port: Port,
    pub entries: [u16; 3],
}

// The K-Lamport clock of 3 entries of 16 bits.
#[derive(Clone, Copy)]
pub struct KLamport;

impl KLamport {
    // Whether an entry of the stamp is greater than the one before it.
    pub fn rises(&self, s: &KLamportStamp) -> bool
        ensures value { result ≡ rising 3 s.now }
        ensures apart { RisingApart 3 }
    {
        let [l0, l1, l2] = s.entries;
        l0 < l1 || l1 < l2
    }
}

impl Order for KLamport {
    type Item = KLamportStamp;

    ghost precedes = { λ _. lamport_before 3 };

    ghost lawful = { λ c. lamport_lawful 3 };

    fn before(&self, a: &KLamportStamp, b: &KLamportStamp) -> bool {
        let [a0, a1, a2] = a.entries;
        let [b0, b1, b2] = b.entries;
        if self.rises(a) || self.rises(b) || a0 >= b0 {
            false
        } else if a.port == b.port {
            a1 <= b1 && a2 <= b2
        } else {
            a0 <= b1 && a1 <= b2
        }
    }
}

// The port, sameness and a start are written out for each clock's own stamps: a trait over the stamps would be longer.
impl Clock for KLamport {
    ghost answers = { λ _. lamport_answers 3 };

    ghost meaning = { λ c. lamport_meaning 3 };

    fn port(&self, s: &KLamportStamp) -> Port {
        s.port
    }

    fn room(&self, s: &KLamportStamp) -> u32 {
        if self.rises(s) {
            0
        } else {
            u32::from(u16::MAX - s.entries[0])
        }
    }

    fn same(&self, a: &KLamportStamp, b: &KLamportStamp) -> bool {
        a == b
    }

    fn start(&self, port: u8) -> Result<KLamportStamp, Refusal> {
        Ok(KLamportStamp {
            port: Port::try_from(port)?,
            entries: [0; 3],
        })
    }

    fn step(&self, s: &mut KLamportStamp) -> Result<(), Refusal> {
        if self.room(s) == 0 {
            return Err(Refusal::NoRoom);
        }
        let [l0, l1, l2] = s.entries;
        s.entries = [l0 + 1, l1, l2];
        Ok(())
    }

    fn take(&self, s: &mut KLamportStamp, m: &KLamportStamp) -> Result<(), Refusal> {
        if self.room(s) == 0 || self.room(m) == 0 {
            return Err(Refusal::NoRoom);
        }
        let [l0, l1, l2] = s.entries;
        let [w0, w1, _] = m.entries;
        s.entries = [l0.max(w0) + 1, l1.max(w0), l2.max(w1)];
        Ok(())
    }
}
