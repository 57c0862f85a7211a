ghost use Rattle.std.specs.Prelude.{◌≡◌, Decides};
ghost use Rattle.clock.specs.Clocks.{Answers, Meaning};
ghost use Rattle.clock.specs.Moves.{Started, Stepped, Taken, BeforeIfAccepted};

use crate::orders::Order;
use crate::ports::Port;
use crate::refusals::Refusal;

// A clock: a lawful order over its stamps, which also starts, steps and takes them. All its answers are functions of
// the clock and the stamps, so they are fixed when the clock is made.
pub trait Clock: Order {
    ghost answers: { Self → Answers Self.Item };

    // The port that the stamp names.
    fn port(&self, s: &Self::Item) -> Port
        ensures { result ≡ (answers self.now).port_of s.now };

    // The stamp's room: steps and takes use it only while that is at least 1.
    fn room(&self, s: &Self::Item) -> u32
        ensures { result ≡ (answers self.now).room s.now };

    // Whether all fields of two stamps agree.
    fn same(&self, a: &Self::Item, b: &Self::Item) -> bool
        ensures { Decides result (a.now ≡ b.now) };

    // A stamp of the port that stands for no event; refused with 4 above 7.
    fn start(&self, port: u8) -> Result<Self::Item, Refusal>
        ensures { Started (answers self.now) port result };

    // Puts the next stamp of its port in the place of s; refused with 10 where s has no room.
    fn step(&self, s: &mut Self::Item) -> Result<(), Refusal>
        ensures moved { Stepped (answers self.now) s.old s.new result }
        ensures later { BeforeIfAccepted (Self.Order.precedes self.now) s.old s.new result };

    // Puts the stamp after s and after the message's stamp m in the place of s; refused with 10 where either has no
    // room.
    fn take(&self, s: &mut Self::Item, m: &Self::Item) -> Result<(), Refusal>
        ensures moved { Taken (answers self.now) m.now s.old s.new result }
        ensures later { BeforeIfAccepted (Self.Order.precedes self.now) s.old s.new result }
        ensures follows { BeforeIfAccepted (Self.Order.precedes self.now) m.now s.new result };

    ghost meaning: { (c : Self) → Meaning (Self.Order.precedes c) (answers c) };
}
