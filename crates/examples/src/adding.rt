// Adding entries: what is accepted, each refusal once, and the bounds.
use clock::{Port, Refusal};
use std::alloc::Global;
use std::process::Abort;
use std::test::Fail;
use trace::{Added, Entry, Trace};

// The bytes are accepted as the given event, and `used` of them are used.
fn accepts(rt: &impl Abort, trace: &mut Trace, bytes: &[u8], event: u16, used: usize) {
    assert_eq!(rt; trace.add(bytes), Ok(Added { event, used }));
}

// The bytes are refused, and the trace has the events and the causes that it had.
fn refuses(
    rt: &impl Abort,
    heap: Global,
    trace: &mut Trace,
    bytes: &[u8],
    refusal: Refusal,
) -> Result<(), Fail> {
    let events = trace.events().to_vec(heap)?;
    let first = trace.direct_causes(0);
    let second = trace.direct_causes(1);
    assert_eq!(rt; trace.add(bytes), Err(refusal));
    assert!(rt; trace.events() == events.as_slice());
    assert_eq!(rt; trace.direct_causes(0), first);
    assert_eq!(rt; trace.direct_causes(1), second);
    Ok(())
}

#[test]
fn ports_up_to_7(rt: HostRuntime) -> Result<(), Fail> {
    let heap = rt.alloc();
    let mut trace = Trace::new(heap)?;
    accepts(&rt, &mut trace, &[1, 7], 0, 2);
    refuses(&rt, heap, &mut trace, &[1, 8], Refusal::PortTooHigh)?;
    assert_eq!(rt;
        trace.events().first().copied(),
        Some(Entry::Local { port: Port::P7 })
    );
    Ok(())
}

#[test]
fn message_numbers_up_to_511(rt: HostRuntime) -> Result<(), Fail> {
    let heap = rt.alloc();
    let mut trace = Trace::new(heap)?;
    accepts(&rt, &mut trace, &[2, 0, 1, 255], 0, 4);
    refuses(
        &rt,
        heap,
        &mut trace,
        &[2, 0, 2, 0],
        Refusal::MessageTooHigh,
    )?;
    assert_eq!(rt;
        trace.events().first().copied(),
        Some(Entry::Send {
            port: Port::P0,
            message: 511,
        })
    );
    Ok(())
}

#[test]
fn only_the_front_is_tried(rt: HostRuntime) -> Result<(), Fail> {
    let heap = rt.alloc();
    let mut trace = Trace::new(heap)?;
    accepts(&rt, &mut trace, &[1, 3, 9, 9, 9], 0, 2);
    accepts(&rt, &mut trace, &[2, 3, 0, 5, 9], 1, 4);
    Ok(())
}

#[test]
fn each_refusal(rt: HostRuntime) -> Result<(), Fail> {
    let heap = rt.alloc();
    let mut trace = Trace::new(heap)?;
    accepts(&rt, &mut trace, &[2, 5, 0, 0], 0, 4);
    refuses(&rt, heap, &mut trace, &[], Refusal::NothingLeft)?;
    refuses(&rt, heap, &mut trace, &[0, 0, 0, 0], Refusal::UnwantedKind)?;
    refuses(&rt, heap, &mut trace, &[4, 0, 0, 0], Refusal::UnwantedKind)?;
    refuses(&rt, heap, &mut trace, &[255], Refusal::UnwantedKind)?;
    refuses(&rt, heap, &mut trace, &[1], Refusal::TooFewBytes)?;
    refuses(&rt, heap, &mut trace, &[2, 0, 0], Refusal::TooFewBytes)?;
    refuses(&rt, heap, &mut trace, &[3, 9, 9], Refusal::TooFewBytes)?;
    refuses(&rt, heap, &mut trace, &[3, 8, 9, 9], Refusal::PortTooHigh)?;
    refuses(
        &rt,
        heap,
        &mut trace,
        &[3, 7, 9, 9],
        Refusal::MessageTooHigh,
    )?;
    refuses(&rt, heap, &mut trace, &[2, 1, 0, 0], Refusal::SentBefore)?;
    refuses(&rt, heap, &mut trace, &[3, 1, 0, 1], Refusal::NotSent)?;
    accepts(&rt, &mut trace, &[3, 1, 0, 0], 1, 4);
    refuses(
        &rt,
        heap,
        &mut trace,
        &[3, 2, 0, 0],
        Refusal::ReceivedBefore,
    )?;
    refuses(&rt, heap, &mut trace, &[2, 2, 0, 0], Refusal::SentBefore)
}

#[test]
fn a_receipt_on_the_sending_port(rt: HostRuntime) -> Result<(), Fail> {
    let heap = rt.alloc();
    let mut trace = Trace::new(heap)?;
    accepts(&rt, &mut trace, &[2, 6, 0, 9], 0, 4);
    accepts(&rt, &mut trace, &[3, 6, 0, 9], 1, 4);
    Ok(())
}

#[test]
fn at_most_512_events(rt: HostRuntime) -> Result<(), Fail> {
    let heap = rt.alloc();
    let mut trace = Trace::new(heap)?;
    for event in 0..512u16 {
        accepts(&rt, &mut trace, &[1, (event % 8) as u8], event, 2);
    }
    refuses(&rt, heap, &mut trace, &[1, 0], Refusal::TraceFull)?;
    refuses(&rt, heap, &mut trace, &[2, 0, 0, 0], Refusal::TraceFull)?;
    refuses(&rt, heap, &mut trace, &[3, 0, 0, 0], Refusal::TraceFull)?;
    refuses(&rt, heap, &mut trace, &[], Refusal::NothingLeft)?;
    refuses(&rt, heap, &mut trace, &[9], Refusal::UnwantedKind)?;
    refuses(&rt, heap, &mut trace, &[2, 0], Refusal::TooFewBytes)?;
    refuses(&rt, heap, &mut trace, &[2, 8, 0, 0], Refusal::PortTooHigh)?;
    refuses(
        &rt,
        heap,
        &mut trace,
        &[2, 7, 2, 0],
        Refusal::MessageTooHigh,
    )
}
