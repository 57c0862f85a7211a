ghost use Rattle.std.specs.Prelude.{◌≡◌, Decides};
ghost use Rattle.trace.specs.HappenedBefore.{HappenedBefore};
ghost use Rattle.trace.specs.Decision.{happened};
ghost use Rattle.trace.specs.Of.{events_of};
ghost use Rattle.trace.specs.DecisionLemmas;

use crate::traces::Trace;
use clock::Order;

// Happened-before on event numbers. A number that is no event's is before nothing and after nothing.
impl Order for Trace {
    type Item = u16;

    ghost precedes = { λ t. happened (events_of t) };

    ghost lawful = { λ o. DecisionLemmas.lawful (events_of o) o.accepted };

    fn before(&self, a: &u16, b: &u16) -> bool
        ensures value { result ≡ happened (events_of self.now) a.now b.now }
        ensures exact { Decides result (HappenedBefore (events_of self.now) a.now b.now) }
    {
        self.happened_before(*a, *b).unwrap_or(false)
    }
}
