ghost use Rattle.std.specs.Prelude.{◌≡◌, ◌<◌};
ghost use Rattle.clock.specs.Ports.{port_number, PortAnswer};

use crate::refusals::Refusal;

// One of the eight ports of a card.
#[derive(Clone, Copy, PartialEq, Eq, Debug)]
pub enum Port {
    P0,
    P1,
    P2,
    P3,
    P4,
    P5,
    P6,
    P7,
}

impl TryFrom<u8> for Port {
    type Error = Refusal;

    ghost try_from_gives = { PortAnswer };

    // The port of a number, refused above 7.
    fn try_from(n: u8) -> Result<Port, Refusal> {
        match n {
            0 => Ok(Port::P0),
            1 => Ok(Port::P1),
            2 => Ok(Port::P2),
            3 => Ok(Port::P3),
            4 => Ok(Port::P4),
            5 => Ok(Port::P5),
            6 => Ok(Port::P6),
            7 => Ok(Port::P7),
            _ => Err(Refusal::PortTooHigh),
        }
    }
}

impl Port {
    // The port's number, 0 to 7. A method and no `From`: that for `u8` would read `usize::from(u8::from(port))` at an index,
    // and that for `usize` would not tell that the number is small.
    pub fn number(self) -> u8
        ensures value { result ≡ port_number self }
        ensures bound { result < 8 }
    {
        self as u8
    }
}
