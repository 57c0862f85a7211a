//! A trace of events on eight ports: adding entries, and what happened before what.
#![tactic(auto)]

mod added;
mod causes;
mod dumps;
mod entries;
mod messages;
mod orders;
mod rows;
mod traces;

// How many events a trace holds at most.
pub(crate) const MOST_EVENTS: usize = 512;

// How many message numbers there are, from 0 up.
pub(crate) const MESSAGE_NUMBERS: u16 = 512;

pub use added::Added;
pub use causes::DirectCauses;
pub use dumps::Dump;
pub use entries::Entry;
pub use rows::CauseRow;
pub use traces::Trace;
