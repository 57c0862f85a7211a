ghost use Rattle.std.specs.Prelude.{◌≡◌, ℕ, ◌<◌, ◌≤◌, true, ◌||◌, [], length, IfOk};
ghost use Rattle.trace.specs.Entries.{message_number};
ghost use Rattle.trace.specs.Adding.{tried, EntryAdds, Adds};
ghost use Rattle.trace.specs.Decision.{at_or_before};
ghost use Rattle.trace.specs.Invariants.{is_below, row_of};
ghost use Rattle.trace.specs.Of.{events_of};
ghost use Rattle.trace.specs.Rows.{in_row};

use super::Trace;
use crate::MOST_EVENTS;
use crate::added::Added;
use crate::causes::{DirectCauses, EventCauses};
use crate::entries::Entry;
use crate::messages::MessageTable;
use crate::rows::CauseRow;
use clock::Refusal;
use std::alloc::{AllocError, Global};

impl Trace {
    // A trace with no events, and memory for 512 of them.
    pub fn new(heap: Global) -> Result<Trace, AllocError>
        ensures { IfOk result (λ t. events_of t ≡ []) }
    {
        let entries = Vec::with_capacity(heap, MOST_EVENTS)?;
        let causes = Vec::with_capacity(heap, MOST_EVENTS)?;
        let messages = MessageTable::new(heap)?;
        Ok(Trace {
            entries,
            causes,
            messages,
            latest: [None; 8],
        })
    }

    // Tries one entry from the front of the bytes. No other call changes a trace.
    pub fn add(&mut self, bytes: &[u8]) -> Result<Added, Refusal>
        ensures answer { Adds (events_of self.old) (events_of self.new) bytes.now result }
        ensures after { events_of self.new ≡ tried (events_of self.old) bytes.now }
    {
        let (entry, used) = Entry::read(bytes)?;
        let event = self.accept(entry)?;
        Ok(Added { event, used })
    }

    // Accepts an entry as the next event, or refuses it and changes nothing.
    fn accept(&mut self, entry: Entry) -> Result<u16, Refusal>
        requires { message_number entry < 512 }
        ensures { EntryAdds (events_of self.old) (events_of self.new) entry result }
    {
        let count = self.entries.len();
        if count >= MOST_EVENTS {
            return Err(Refusal::TraceFull);
        }
        let event = count as u16;
        let send = self.messages.note(entry, event)?;
        let port = usize::from(entry.port().number());
        let previous = self.latest[port];
        let direct = DirectCauses { previous, send };
        let row = row_after(&self.causes, direct);
        self.latest[port] = Some(event);
        self.causes.push_reserved(EventCauses { direct, row });
        self.entries.push_reserved(entry);
        Ok(event)
    }
}

// The row of an event with these direct causes.
fn row_after(causes: &[EventCauses], direct: DirectCauses) -> CauseRow
    requires previous { is_below (length causes.now) direct.previous ≡ true }
    requires send { is_below (length causes.now) direct.send ≡ true }
    requires few { length causes.now ≤ 512 }
    ensures { (k : ℕ) → in_row result k ≡ (at_or_before (row_of causes.now) direct.previous k || at_or_before (row_of causes.now) direct.send k) }
{
    let mut row = CauseRow::new();
    add_cause(&mut row, causes, direct.previous);
    add_cause(&mut row, causes, direct.send);
    row
}

// Puts a direct cause in a row, with all that happened before it.
fn add_cause(row: &mut CauseRow, causes: &[EventCauses], cause: Option<u16>)
    requires cause { is_below (length causes.now) cause ≡ true }
    requires few { length causes.now ≤ 512 }
    ensures { (k : ℕ) → in_row row.new k ≡ (in_row row.old k || at_or_before (row_of causes.now) cause k) }
{
    if let Some(event) = cause {
        row.insert(event);
        row.join(&causes[usize::from(event)].row);
    }
}
