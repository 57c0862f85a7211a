ghost use Rattle.std.specs.Prelude.{◌≡◌, ℕ, ◌+◌, ◌<◌, ◌≤◌, Decides, refl};
ghost use Rattle.std.proofs.Common.{rules};

// An entry of a stamp: it holds a number, and is raised only below a ceiling of at least 255. Numbers of 8 and of 16 bits
// are such entries; the trait has no name outside the crate, so there are no others.
pub trait Counter: Copy + Eq {
    ghost CEILING: { ℕ };

    ghost value: { Self → ℕ };

    ghost of: { ℕ → Self };

    const CEILING: u16;

    // The counter that holds 0.
    fn zero() -> Self
        ensures { result ≡ of 0 };

    // The number that it holds.
    fn get(self) -> u16
        ensures { result ≡ value self };

    // The counter that holds 1 more; asked only below the ceiling.
    fn next(self) -> Self
        requires { value self < CEILING }
        ensures { result ≡ of (value self + 1) };

    ghost floor: { 255 ≤ CEILING };

    ghost value_of: { (n : ℕ) → value (of n) ≡ n };

    ghost of_value: { (x : Self) → of (value x) ≡ x };

    ghost identical: { (x y : Self) → Decides (Self.PartialEq.eq x y) (x ≡ y) };
}

impl Counter for u8 {
    ghost CEILING = { 255 };

    ghost value = { λ n. n };

    ghost of = { λ n. n };

    // A cast and no `From`: a constant's value calls no function.
    const CEILING: u16 = u8::MAX as u16;

    fn zero() -> u8 {
        0
    }

    fn get(self) -> u16 {
        u16::from(self)
    }

    fn next(self) -> u8 {
        self + 1
    }

    ghost floor = { Prim.search rules };

    ghost value_of = { λ n. refl };

    ghost of_value = { λ x. refl };

    ghost identical = { Prim.search rules };
}

impl Counter for u16 {
    ghost CEILING = { 65535 };

    ghost value = { λ n. n };

    ghost of = { λ n. n };

    const CEILING: u16 = u16::MAX;

    fn zero() -> u16 {
        0
    }

    fn get(self) -> u16 {
        self
    }

    fn next(self) -> u16 {
        self + 1
    }

    ghost floor = { Prim.search rules };

    ghost value_of = { λ n. refl };

    ghost of_value = { λ x. refl };

    ghost identical = { Prim.search rules };
}
