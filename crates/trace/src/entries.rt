ghost use Rattle.std.specs.Prelude.{◌≡◌};
ghost use Rattle.trace.specs.Entries.{port_of};
ghost use Rattle.trace.specs.Forms.{MessageAnswer, ReadAnswer, FormRead};

use crate::MESSAGE_NUMBERS;
use clock::{Port, Refusal};

// What a card notes of one event.
#[derive(Clone, Copy, PartialEq, Eq, Debug)]
pub enum Entry {
    Local { port: Port },
    Send { port: Port, message: u16 },
    Receipt { port: Port, message: u16 },
}

impl Entry {
    // Reads one entry from the front of the bytes: the entry, and the number of bytes that it has.
    pub fn read(bytes: &[u8]) -> Result<(Entry, usize), Refusal>
        ensures value { ReadAnswer bytes.now result }
        ensures stored { FormRead bytes.now result }
    {
        match bytes {
            [] => Err(Refusal::NothingLeft),
            [1, port, ..] => {
                let port = Port::try_from(*port)?;
                Ok((Entry::Local { port }, 2))
            }
            [2, port, high, low, ..] => {
                let (port, message) = read_message(*port, *high, *low)?;
                Ok((Entry::Send { port, message }, 4))
            }
            [3, port, high, low, ..] => {
                let (port, message) = read_message(*port, *high, *low)?;
                Ok((Entry::Receipt { port, message }, 4))
            }
            [1..=3, ..] => Err(Refusal::TooFewBytes),
            _ => Err(Refusal::UnwantedKind),
        }
    }

    // The port of the event.
    pub fn port(self) -> Port
        ensures { result ≡ port_of self }
    {
        match self {
            Entry::Local { port } | Entry::Send { port, .. } | Entry::Receipt { port, .. } => port,
        }
    }
}

// The port and the message number of a send or a receipt, from the bytes of its body.
fn read_message(port: u8, high: u8, low: u8) -> Result<(Port, u16), Refusal>
    ensures { MessageAnswer port high low result }
{
    let port = Port::try_from(port)?;
    let message = u16::from_be_bytes([high, low]);
    if message >= MESSAGE_NUMBERS {
        return Err(Refusal::MessageTooHigh);
    }
    Ok((port, message))
}
