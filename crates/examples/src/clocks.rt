// Clocks on stamps made by hand and on short exchanges.
use crate::scalar::{Scalar, ScalarStamp};
use clock::{Clock, Combination, Order, Port, Refusal};
use lamport::{KLamport, KLamportStamp};
use std::process::Abort;
use std::test::Fail;
use vectors::{FullVector, Rev, RevStamp, VectorStamp};

// A stamp without room: a step of it, a take by it and a take of it are refused, and the stamps stay as they were.
fn stays<C: Clock>(rt: &impl Abort, clock: &C, without_room: C::Item, started: C::Item) {
    assert_eq!(rt; clock.room(&without_room), 0);
    let mut stamp = without_room;
    assert_eq!(rt; clock.step(&mut stamp), Err(Refusal::NoRoom));
    assert!(rt; clock.same(&stamp, &without_room));
    assert_eq!(rt; clock.take(&mut stamp, &started), Err(Refusal::NoRoom));
    assert!(rt; clock.same(&stamp, &without_room));
    let mut taker = started;
    assert_eq!(rt; clock.take(&mut taker, &without_room), Err(Refusal::NoRoom));
    assert!(rt; clock.same(&taker, &started));
}

// Neither stamp is before the other.
fn unordered<O: Order>(rt: &impl Abort, order: &O, a: O::Item, b: O::Item) {
    assert!(rt; !order.before(&a, &b));
    assert!(rt; !order.before(&b, &a));
}

#[test]
fn the_largest_entry_takes_the_room(rt: HostRuntime) -> Result<(), Fail> {
    let without_room = RevStamp {
        port: Port::P0,
        entries: [0, 255, 0, 0],
    };
    let rev = Rev::new();
    stays(&rt, &rev, without_room, rev.start(0)?);
    Ok(())
}

#[test]
fn the_strict_entry_is_that_of_the_later_port(rt: HostRuntime) -> Result<(), Fail> {
    let rev = Rev::new();
    let mut local = rev.start(1)?;
    rev.step(&mut local)?;
    let mut send = rev.start(2)?;
    rev.step(&mut send)?;
    let mut receipt = rev.start(5)?;
    rev.take(&mut receipt, &send)?;
    let expected = RevStamp {
        port: Port::P5,
        entries: [0, 1, 1, 0],
    };
    assert!(rt; rev.same(&receipt, &expected));
    assert!(rt; rev.before(&send, &receipt));
    unordered(&rt, &rev, local, receipt);
    Ok(())
}

#[test]
fn a_full_vector_tells_concurrent_events(rt: HostRuntime) -> Result<(), Fail> {
    let vector = FullVector::new();
    let mut send = vector.start(5)?;
    vector.step(&mut send)?;
    vector.step(&mut send)?;
    let mut receipt = vector.start(2)?;
    vector.take(&mut receipt, &send)?;
    let expected = VectorStamp {
        port: Port::P2,
        entries: [0, 0, 1, 0, 0, 2, 0, 0],
    };
    assert!(rt; vector.same(&receipt, &expected));
    assert!(rt; vector.before(&send, &receipt));
    let mut local = vector.start(1)?;
    vector.step(&mut local)?;
    unordered(&rt, &vector, local, receipt);
    Ok(())
}

// A rising stamp of port 2: without room, and ordered with no stamp of its own port or of another.
fn apart(rt: &impl Abort, entries: [u16; 3]) -> Result<(), Fail> {
    let rising = KLamportStamp {
        port: Port::P2,
        entries,
    };
    assert!(rt; KLamport.rises(&rising));
    let late = KLamportStamp {
        port: Port::P2,
        entries: [9, 9, 9],
    };
    let elsewhere = KLamportStamp {
        port: Port::P4,
        ..late
    };
    let started = KLamport.start(2)?;
    unordered(rt, &KLamport, rising, started);
    unordered(rt, &KLamport, rising, late);
    unordered(rt, &KLamport, rising, elsewhere);
    stays(rt, &KLamport, rising, started);
    Ok(())
}

#[test]
fn rising_entries_are_apart_from_all(rt: HostRuntime) -> Result<(), Fail> {
    apart(&rt, [3, 4, 0])?;
    apart(&rt, [5, 1, 2])
}

#[test]
fn a_relay_over_three_ports_reaches_the_last_entry(rt: HostRuntime) -> Result<(), Fail> {
    let mut first = KLamport.start(0)?;
    KLamport.step(&mut first)?;
    let mut second = KLamport.start(1)?;
    KLamport.take(&mut second, &first)?;
    KLamport.step(&mut second)?;
    let mut third = KLamport.start(2)?;
    KLamport.take(&mut third, &second)?;
    let expected = KLamportStamp {
        port: Port::P2,
        entries: [4, 3, 1],
    };
    assert!(rt; KLamport.same(&third, &expected));
    assert!(rt; KLamport.before(&first, &third));
    assert!(rt; KLamport.before(&second, &third));
    Ok(())
}

#[test]
fn nothing_moves_where_an_inner_part_has_no_room(rt: HostRuntime) -> Result<(), Fail> {
    let clock = Combination {
        left: FullVector::new(),
        right: Combination {
            left: Rev::new(),
            right: KLamport,
        },
    };
    let started = clock.start(3)?;
    let (outer, (inner, _)) = started;
    let last = KLamportStamp {
        port: Port::P3,
        entries: [65535, 0, 0],
    };
    stays(&rt, &clock, (outer, (inner, last)), started);
    let mut moved = started;
    clock.step(&mut moved)?;
    assert!(rt; clock.before(&started, &moved));
    assert!(rt; !clock.same(&started, &moved));
    assert_eq!(rt; clock.port(&moved), Port::P3);
    assert_eq!(rt; clock.room(&moved), 254);
    Ok(())
}

#[test]
fn no_clock_starts_above_port_7(rt: HostRuntime) {
    let clock = Combination {
        left: Rev::new(),
        right: KLamport,
    };
    assert!(rt; clock.start(7).is_ok());
    assert_eq!(rt; clock.start(8).err(), Some(Refusal::PortTooHigh));
    assert_eq!(rt;
        FullVector::new().start(255).err(),
        Some(Refusal::PortTooHigh)
    );
}

#[test]
fn a_clock_from_outside_combines(rt: HostRuntime) -> Result<(), Fail> {
    assert!(rt; Scalar::new(254).is_none());
    let scalar = Scalar::new(255).expect(&rt, "a ceiling of 255");
    let clock = Combination {
        left: scalar,
        right: Rev::new(),
    };
    let mut stamp = clock.start(6)?;
    clock.step(&mut stamp)?;
    let (time, _) = stamp;
    let expected = ScalarStamp {
        port: Port::P6,
        time: 1,
    };
    assert!(rt; scalar.same(&time, &expected));
    assert_eq!(rt; clock.room(&stamp), 254);
    Ok(())
}

// A step leaves the port, so only the entries tell the stamp from the one before it.
fn tells_a_step<C: Clock>(rt: &impl Abort, clock: &C) -> Result<(), Fail> {
    let started = clock.start(1)?;
    let mut moved = started;
    clock.step(&mut moved)?;
    assert_eq!(rt; clock.port(&moved), clock.port(&started));
    assert!(rt; !clock.same(&started, &moved));
    assert!(rt; clock.same(&moved, &moved));
    Ok(())
}

#[test]
fn a_stamp_is_not_the_same_as_its_step(rt: HostRuntime) -> Result<(), Fail> {
    tells_a_step(&rt, &FullVector::new())?;
    tells_a_step(&rt, &Rev::new())?;
    tells_a_step(&rt, &KLamport)
}
