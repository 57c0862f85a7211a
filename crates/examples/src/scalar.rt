// A clock from outside the library: Lamport's scalar clock, with a port. It shows that what the trait `Clock` asks for
// is enough to build one, settings included.
mod orders;

ghost use Rattle.std.specs.Prelude.{◌≤◌};

use clock::Port;

// A stamp of the scalar clock.
#[derive(Clone, Copy, PartialEq, Eq, Debug)]
pub struct ScalarStamp {
    pub port: Port,
    pub time: u32,
}

// The scalar clock with times up to a ceiling of at least 255.
#[derive(Clone, Copy)]
pub struct Scalar {
    ceiling: u32,
    ghost floor: { 255 ≤ ceiling },
}
