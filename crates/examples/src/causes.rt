// What happened before what.
use clock::{Order, Refusal};
use std::test::Fail;
use trace::{DirectCauses, Dump};

const FIVE: [u8; 14] = [1, 1, 1, 5, 2, 5, 0, 0, 3, 2, 0, 0, 1, 0];

#[test]
fn five_events(rt: HostRuntime) -> Result<(), Fail> {
    let trace = Dump::read(rt.alloc(), &FIVE)?.trace;
    assert_eq!(rt; trace.happened_before(1, 2), Ok(true));
    assert_eq!(rt; trace.happened_before(2, 3), Ok(true));
    assert_eq!(rt; trace.happened_before(1, 3), Ok(true));
    assert_eq!(rt; trace.happened_before(3, 1), Ok(false));
    assert_eq!(rt; trace.happened_before(0, 3), Ok(false));
    assert_eq!(rt; trace.happened_before(2, 2), Ok(false));
    assert_eq!(rt; trace.happened_before(4, 5), Err(Refusal::NoSuchEvent));
    assert_eq!(rt; trace.happened_before(5, 4), Err(Refusal::NoSuchEvent));
    Ok(())
}

#[test]
fn direct_causes(rt: HostRuntime) -> Result<(), Fail> {
    let trace = Dump::read(rt.alloc(), &FIVE)?.trace;
    assert_eq!(rt;
        trace.direct_causes(0),
        Ok(DirectCauses {
            previous: None,
            send: None,
        })
    );
    assert_eq!(rt;
        trace.direct_causes(2),
        Ok(DirectCauses {
            previous: Some(1),
            send: None,
        })
    );
    assert_eq!(rt;
        trace.direct_causes(3),
        Ok(DirectCauses {
            previous: None,
            send: Some(2),
        })
    );
    assert_eq!(rt; trace.direct_causes(5), Err(Refusal::NoSuchEvent));
    Ok(())
}

#[test]
fn a_receipt_on_the_sending_port(rt: HostRuntime) -> Result<(), Fail> {
    let trace = Dump::read(rt.alloc(), &[2, 6, 0, 9, 1, 6, 3, 6, 0, 9])?.trace;
    assert_eq!(rt;
        trace.direct_causes(2),
        Ok(DirectCauses {
            previous: Some(1),
            send: Some(0),
        })
    );
    Ok(())
}

#[test]
fn rows_of_causes(rt: HostRuntime) -> Result<(), Fail> {
    let trace = Dump::read(rt.alloc(), &FIVE)?.trace;
    let row = trace.causes(3)?;
    assert_eq!(rt; row.count(), 2);
    assert!(rt; row.has(1) && row.has(2) && !row.has(0) && !row.has(3));
    assert!(rt; !row.has(512) && !row.has(65535));
    assert_eq!(rt; trace.causes(0)?.count(), 0);
    assert!(rt; trace.causes(5).is_err());
    Ok(())
}

#[test]
fn numbers_that_are_no_events(rt: HostRuntime) -> Result<(), Fail> {
    let trace = Dump::read(rt.alloc(), &FIVE)?.trace;
    assert!(rt; trace.before(&1, &3) && !trace.before(&3, &1));
    assert!(rt; !trace.before(&1, &5) && !trace.before(&5, &1) && !trace.before(&600, &600));
    Ok(())
}
