// The entries of a stamp as numbers.
ghost use Rattle.std.specs.Prelude.{◌≡◌, max, map};
ghost use Rattle.vectors.specs.Entries.{none_exceeds, largest, greater};

use crate::counters::Counter;

// Whether no entry of a exceeds that of b.
pub(crate) fn none_exceeds<C: Counter, const R: usize>(a: &[C; R], b: &[C; R]) -> bool
    ensures { result ≡ none_exceeds R (map C.value a.now) (map C.value b.now) }
{
    a.iter().zip(b).all(|(x, y)| x.get() <= y.get())
}

// The largest entry, 0 where there is none.
pub(crate) fn largest<C: Counter, const R: usize>(e: &[C; R]) -> u16
    ensures { result ≡ largest R (map C.value e.now) }
{
    e.iter().fold(0, |most, x| x.get().max(most))
}

// Makes each entry of e the greater of the two. It writes at the place that `enumerate` tells: after a loop over `iter_mut`
// a proof knows no entry, and `array::from_fn` would want a closure with clauses of its own.
pub(crate) fn raise<C: Counter, const R: usize>(e: &mut [C; R], m: &[C; R])
    ensures { map C.value e.new ≡ greater R (map C.value e.old) (map C.value m.now) }
{
    for (k, x) in m.iter().enumerate() {
        e[k] = greater_of(e[k], *x);
    }
}

// The counter that holds the greater number.
fn greater_of<C: Counter>(a: C, b: C) -> C
    ensures { C.value result ≡ max (C.value a) (C.value b) }
{
    if a.get() < b.get() { b } else { a }
}
