ghost use Rattle.std.specs.Prelude.{◌≡◌, IfOk, IfErr};
ghost use Rattle.trace.specs.Adding.{Reached};
ghost use Rattle.trace.specs.Causality.{CausalRuns, NoSuchEvents, BeforeAnswer, Causes, CausesAnswer, Direct, DirectAnswer};
ghost use Rattle.trace.specs.Of.{events_of};

use super::Trace;
use crate::causes::{DirectCauses, EventCauses};
use crate::entries::Entry;
use crate::rows::CauseRow;
use clock::Refusal;

impl Trace {
    // The accepted entries: event k at place k. They are what some list of tries leaves of a new trace, so what holds
    // after every list of tries holds of them.
    pub fn events(&self) -> &[Entry]
        ensures value { result.now ≡ events_of self.now }
        ensures reached { Reached (events_of self.now) }
        ensures runs { CausalRuns }
    {
        self.entries.as_slice()
    }

    // Whether event a happened before event b; a number that is no event's is refused.
    pub fn happened_before(&self, a: u16, b: u16) -> Result<bool, Refusal>
        ensures { BeforeAnswer (events_of self.now) a b result }
    {
        if usize::from(a) >= self.causes.len() {
            return Err(Refusal::NoSuchEvent);
        }
        Ok(self.causes_of(b)?.row.has(a))
    }

    // The direct causes of an event; a number that is no event's is refused.
    pub fn direct_causes(&self, event: u16) -> Result<DirectCauses, Refusal>
        ensures { DirectAnswer (events_of self.now) event result }
    {
        Ok(self.causes_of(event)?.direct)
    }

    // All events that happened before an event; a number that is no event's is refused.
    pub fn causes(&self, event: u16) -> Result<CauseRow, Refusal>
        ensures { CausesAnswer (events_of self.now) event result }
    {
        Ok(self.causes_of(event)?.row)
    }

    // What is kept of the causes of an event; a number that is no event's is refused.
    fn causes_of(&self, event: u16) -> Result<&EventCauses, Refusal>
        ensures direct { IfOk result (λ c. Direct (events_of self.now) event c.now.direct) }
        ensures row { IfOk result (λ c. Causes (events_of self.now) event c.now.row) }
        ensures missing { IfErr result (λ f. NoSuchEvents (events_of self.now) event event f) }
    {
        self.causes
            .get(usize::from(event))
            .ok_or(Refusal::NoSuchEvent)
    }
}
