ghost use Rattle.std.specs.Prelude.{◌≡◌, ◌≤◌, length, vec_len, vec_capacity};
ghost use Rattle.trace.specs.Messages.{Agrees};
ghost use Rattle.trace.specs.Invariants.{Accepted, Latest, Caused, Acyclic, row_of, Closed};

use crate::causes::EventCauses;
use crate::entries::Entry;
use crate::messages::MessageTable;

mod adding;
mod asking;

// A trace: the accepted entries, event k at place k, and what is kept of them. Memory for 512 events is had when the
// trace is made, so adding never wants any.
#[derive(Drop)]
pub struct Trace {
    // the accepted entries, in a vector of their own since `events` lends them as a slice
    entries: Vec<Entry>,
    // the causes of each event
    causes: Vec<EventCauses>,
    // for each message number the events that sent and received it
    messages: MessageTable,
    // for each port the last event on it
    latest: [Option<u16>; 8],
    ghost entry_room: { 512 ≤ vec_capacity entries },
    ghost causes_room: { 512 ≤ vec_capacity causes },
    ghost few: { vec_len entries ≤ 512 },
    ghost even: { vec_len causes ≡ vec_len entries },
    ghost numbers: { vec_len messages.records ≡ 512 },
    ghost accepted: { Accepted entries.items },
    ghost agrees: { Agrees messages.records.items entries.items },
    ghost lasts: { Latest latest entries.items },
    ghost caused: { Caused causes.items entries.items },
    ghost acyclic: { Acyclic causes.items entries.items },
    ghost closed: { Closed entries.items (row_of causes.items) },
}
