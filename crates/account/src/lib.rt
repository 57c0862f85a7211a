//! The account of a dump as text: how many events it has, what refusal ended it, and for each event what happened before it.
#![tactic(auto)]

ghost use Rattle.std.specs.Prelude.{length, IfOk, Some, string_bytes};
ghost use Rattle.trace.specs.Dumps.{refused_number};
ghost use Rattle.trace.specs.Of.{events_of};
ghost use Rattle.trace.specs.Rows.{in_row, members};
ghost use Rattle.account.specs.Accounts.{AccountOf, first_line, entry_text, numbers_text, event_lines};

use clock::Refusal;
use std::alloc::{AllocError, Global};
use std::fmt;
use trace::{CauseRow, Dump, Entry, Trace};

// Reads a dump, and gives its account.
pub fn account(heap: Global, bytes: &[u8]) -> Result<String, AllocError>
    ensures { IfOk result (λ text. AccountOf bytes.now (string_bytes text)) }
{
    let dump = Dump::read(heap, bytes)?;
    let first = FirstLine {
        events: dump.trace.events().len(),
        refused: dump.refused,
    };
    let lines = EventLines(&dump.trace);
    format!(in heap; "{first}{lines}")
}

// How many events there are, and the number of the refusal that ended the dump, 0 for none.
#[derive(Clone, Copy)]
struct FirstLine {
    events: usize,
    refused: Option<Refusal>,
}

impl fmt::Display for FirstLine {
    ghost output = { λ line. Some (first_line line.events (refused_number line.refused)) };

    fn fmt<W: fmt::Write>(&self, f: &mut fmt::Formatter<W>) -> fmt::Result {
        let refused = self.refused.map_or(0, Refusal::number);
        writeln!(f, "events {} refused {refused}", self.events)
    }
}

// A line for each event of a trace.
#[derive(Clone, Copy)]
struct EventLines<'a>(&'a Trace);

impl fmt::Display for EventLines<'_> {
    ghost output = { λ lines. Some (event_lines (events_of lines.0.now) (length (events_of lines.0.now))) };

    #[tactic(auto, using(crate::proofs::Lines::lines_more, std::proofs::lemmas::Grind::put_two), unfolding(crate::specs::Accounts::event_lines))]
    fn fmt<W: fmt::Write>(&self, f: &mut fmt::Formatter<W>) -> fmt::Result {
        let trace = self.0;
        for (event, entry) in trace.events().iter().enumerate() {
            let event = event as u16;
            let row = trace.causes(event).unwrap();
            let causes = Causes { row: &row, event };
            writeln!(f, "{event}{} after{causes}", EntryText(*entry))?;
        }
        Ok(())
    }
}

// What an entry says: the kind, the port and, but for a local event, the message.
#[derive(Clone, Copy)]
struct EntryText(Entry);

impl fmt::Display for EntryText {
    ghost output = { λ text. Some (entry_text text.0) };

    fn fmt<W: fmt::Write>(&self, f: &mut fmt::Formatter<W>) -> fmt::Result {
        let port = self.0.port().number();
        match self.0 {
            Entry::Local { .. } => write!(f, " local {port}"),
            Entry::Send { message, .. } => write!(f, " send {port} {message}"),
            Entry::Receipt { message, .. } => write!(f, " receipt {port} {message}"),
        }
    }
}

// The events of a row that are below an event, each after a space.
#[derive(Clone, Copy)]
struct Causes<'a> {
    row: &'a CauseRow,
    event: u16,
}

impl fmt::Display for Causes<'_> {
    ghost output = { λ causes. Some (numbers_text (members (in_row causes.row.now) causes.event)) };

    #[tactic(auto, unfolding(trace::specs::Rows::members))]
    fn fmt<W: fmt::Write>(&self, f: &mut fmt::Formatter<W>) -> fmt::Result {
        // An `if` and no `filter`: where the writer is a type parameter, a loop over a closure's items gets no invariant.
        for cause in 0..self.event {
            if self.row.has(cause) {
                write!(f, " {cause}")?;
            }
        }
        Ok(())
    }
}
