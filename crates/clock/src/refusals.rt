ghost use Rattle.std.specs.Prelude.{◌≡◌};
ghost use Rattle.clock.specs.Refusals.{refusal_number};

// Why a call is refused. A call answers the lowest number that applies, and then writes nothing.
#[derive(Clone, Copy, PartialEq, Eq, Debug)]
pub enum Refusal {
    // No byte is left where an entry or a stored stamp should begin.
    NothingLeft = 1,
    // The kind is not one that is wanted there.
    UnwantedKind = 2,
    // Fewer bytes are left than the kind calls for.
    TooFewBytes = 3,
    // A port is above 7.
    PortTooHigh = 4,
    // A message number is above 511.
    MessageTooHigh = 5,
    // The trace holds 512 events already.
    TraceFull = 6,
    // A send of a number that was sent before.
    SentBefore = 7,
    // A receipt of a number that nobody has sent.
    NotSent = 8,
    // A receipt of a number that has been received.
    ReceivedBefore = 9,
    // A step or a take, where a stamp in use has no room.
    NoRoom = 10,
    // Entries of a K-Lamport stamp rise.
    RisingEntries = 11,
    // The parts of a combination name different ports.
    PortsDiffer = 12,
    // An event number is not below the number of events, or of stamps.
    NoSuchEvent = 13,
    // A count is above the number of events.
    CountTooHigh = 14,
    // A list of the caller's is too short.
    ListTooShort = 15,
    // A selection has a number twice.
    NumberTwice = 16,
}

impl Refusal {
    // The number by which the refusal is known. A method and no `From`: `u8::from(refusal)` would not say which number.
    pub fn number(self) -> u8
        ensures { result ≡ refusal_number self }
    {
        self as u8
    }
}
