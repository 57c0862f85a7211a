ghost use Rattle.std.specs.Prelude.{◌≡◌, ◌<◌, replicate, IfOk, vec_len};
ghost use Rattle.std.specs.Borrow.{sem};
ghost use Rattle.trace.specs.Entries.{message_number};
ghost use Rattle.trace.specs.Messages.{unused, record_at, Noted, SendNoted, ReceiptNoted};

use crate::MESSAGE_NUMBERS;
use crate::entries::Entry;
use clock::Refusal;
use std::alloc::{AllocError, Global};

// The events that sent and received one message.
#[derive(Clone, Copy, Default)]
pub(crate) struct MessageRecord {
    sender: Option<u16>,
    receiver: Option<u16>,
}

impl MessageRecord {
    // Notes that the event sends the message; refused, with nothing changed, where an event has sent it.
    fn note_send(&mut self, event: u16) -> Result<(), Refusal>
        ensures { SendNoted self.old self.new event result }
    {
        if self.sender.is_some() {
            return Err(Refusal::SentBefore);
        }
        self.sender = Some(event);
        Ok(())
    }

    // Notes that the event receives the message, and answers the event that sent it; refused, with nothing changed, where
    // none has sent it or one has received it.
    fn note_receipt(&mut self, event: u16) -> Result<u16, Refusal>
        ensures { ReceiptNoted self.old self.new event result }
    {
        let Some(sender) = self.sender else {
            return Err(Refusal::NotSent);
        };
        if self.receiver.is_some() {
            return Err(Refusal::ReceivedBefore);
        }
        self.receiver = Some(event);
        Ok(sender)
    }
}

// A record for each message number.
#[derive(Drop)]
pub(crate) struct MessageTable {
    records: Vec<MessageRecord>,
}

impl MessageTable {
    ghost use Rattle.trace.specs.Lending.{LendsRecord};

    // The table in which no message is sent.
    pub(crate) fn new(heap: Global) -> Result<MessageTable, AllocError>
        ensures { IfOk result (λ t. t.records.items ≡ replicate 512 unused) }
    {
        let records = vec![in heap; MessageRecord::default(); usize::from(MESSAGE_NUMBERS)]?;
        Ok(MessageTable { records })
    }

    // Lends the record of message n.
    fn record_mut(&mut self, n: u16) -> &mut MessageRecord
        requires { n < vec_len self.old.records }
        ensures* lent { sem 𝓛 (LendsRecord self.entry n result) }
        ensures value { result.now ≡ record_at self.old.records.items n }
    {
        &mut self.records[usize::from(n)]
    }

    // Notes the entry of a new event, and answers the event that sent what it receives, if it is a receipt.
    pub(crate) fn note(&mut self, entry: Entry, event: u16) -> Result<Option<u16>, Refusal>
        requires { message_number entry < vec_len self.old.records }
        ensures { Noted self.old.records.items self.new.records.items entry event result }
    {
        match entry {
            Entry::Local { .. } => Ok(None),
            Entry::Send { message, .. } => {
                self.record_mut(message).note_send(event)?;
                Ok(None)
            }
            Entry::Receipt { message, .. } => {
                let sender = self.record_mut(message).note_receipt(event)?;
                Ok(Some(sender))
            }
        }
    }
}
