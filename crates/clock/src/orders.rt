ghost use Rattle.std.specs.Prelude.{◌≡◌, Bool};
ghost use Rattle.clock.specs.Orders.{Lawful};

// A lawful order: of two items it answers whether the first is before the second. The answer is a function of the
// order and the two items, so it is the same each time, and asking alters nothing.
pub trait Order {
    type Item: Copy;

    ghost precedes: { Self → Self.Item → Self.Item → Bool };

    fn before(&self, a: &Self::Item, b: &Self::Item) -> bool
        ensures { result ≡ precedes self.now a.now b.now };

    ghost lawful: { (o : Self) → Lawful (precedes o) };
}
