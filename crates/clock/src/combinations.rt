ghost use Rattle.clock.specs.Combinations.{both_before, both_answers};
ghost use Rattle.std.proofs.Common.{rules};
ghost use Rattle.clock.specs.Both.{both_meaning};

use crate::clocks::Clock;
use crate::orders::Order;
use crate::ports::Port;
use crate::refusals::Refusal;

// Two clocks used together, of which each may be a combination. A stamp is the pair of their stamps.
#[derive(Clone, Copy)]
pub struct Combination<A, B> {
    pub left: A,
    pub right: B,
}

impl<A: Order, B: Order> Order for Combination<A, B> {
    type Item = (A::Item, B::Item);

    ghost precedes = { λ c. both_before (A.Order.precedes c.left) (B.Order.precedes c.right) };

    ghost lawful = { Prim.search rules };

    fn before(&self, a: &(A::Item, B::Item), b: &(A::Item, B::Item)) -> bool {
        self.left.before(&a.0, &b.0) && self.right.before(&a.1, &b.1)
    }
}

impl<A: Clock, B: Clock> Clock for Combination<A, B> {
    ghost answers = { λ c. both_answers (A.Clock.answers c.left) (B.Clock.answers c.right) };

    ghost meaning = { λ c. both_meaning (A.Clock.meaning c.left) (B.Clock.meaning c.right) };

    fn port(&self, s: &(A::Item, B::Item)) -> Port {
        self.left.port(&s.0)
    }

    fn room(&self, s: &(A::Item, B::Item)) -> u32 {
        self.left.room(&s.0).min(self.right.room(&s.1))
    }

    fn same(&self, a: &(A::Item, B::Item), b: &(A::Item, B::Item)) -> bool {
        self.left.same(&a.0, &b.0) && self.right.same(&a.1, &b.1)
    }

    fn start(&self, port: u8) -> Result<(A::Item, B::Item), Refusal> {
        Ok((self.left.start(port)?, self.right.start(port)?))
    }

    fn step(&self, s: &mut (A::Item, B::Item)) -> Result<(), Refusal> {
        let (mut left, mut right) = *s;
        self.left.step(&mut left)?;
        self.right.step(&mut right)?;
        *s = (left, right);
        Ok(())
    }

    fn take(&self, s: &mut (A::Item, B::Item), m: &(A::Item, B::Item)) -> Result<(), Refusal> {
        let (mut left, mut right) = *s;
        self.left.take(&mut left, &m.0)?;
        self.right.take(&mut right, &m.1)?;
        *s = (left, right);
        Ok(())
    }
}
