ghost use Rattle.examples.specs.Scalar.{ceiling_of, scalar_before, scalar_answers, MadeScalar};
ghost use Rattle.std.proofs.Common.{rules};

use crate::scalar::{Scalar, ScalarStamp};
use clock::{Clock, Order, Port, Refusal};

impl Scalar {
    // The clock of a ceiling; none below 255.
    pub fn new(ceiling: u32) -> Option<Scalar>
        ensures { MadeScalar ceiling result }
    {
        if ceiling < 255 {
            return None;
        }
        Some(Scalar { ceiling })
    }
}

impl Order for Scalar {
    type Item = ScalarStamp;

    ghost precedes = { λ _. scalar_before };

    ghost lawful = { Prim.search rules };

    fn before(&self, a: &ScalarStamp, b: &ScalarStamp) -> bool {
        a.time < b.time
    }
}

// The port, sameness and a start are written out for each clock's own stamps: a trait over the stamps would be longer.
impl Clock for Scalar {
    ghost answers = { λ c. scalar_answers (ceiling_of c) };

    ghost meaning = { Prim.search rules };

    fn port(&self, s: &ScalarStamp) -> Port {
        s.port
    }

    fn room(&self, s: &ScalarStamp) -> u32 {
        self.ceiling.saturating_sub(s.time)
    }

    fn same(&self, a: &ScalarStamp, b: &ScalarStamp) -> bool {
        a == b
    }

    fn start(&self, port: u8) -> Result<ScalarStamp, Refusal> {
        Ok(ScalarStamp {
            port: Port::try_from(port)?,
            time: 0,
        })
    }

    fn step(&self, s: &mut ScalarStamp) -> Result<(), Refusal> {
        if s.time >= self.ceiling {
            return Err(Refusal::NoRoom);
        }
        s.time += 1;
        Ok(())
    }

    fn take(&self, s: &mut ScalarStamp, m: &ScalarStamp) -> Result<(), Refusal> {
        let latest = s.time.max(m.time);
        if latest >= self.ceiling {
            return Err(Refusal::NoRoom);
        }
        s.time = latest + 1;
        Ok(())
    }
}
