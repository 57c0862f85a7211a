// Accounts of dumps, byte for byte.
use account::account;
use std::test::Fail;

#[test]
fn no_bytes(rt: HostRuntime) -> Result<(), Fail> {
    let text = account(rt.alloc(), &[])?;
    assert_eq!(rt; text.as_str(), "events 0 refused 0\n");
    Ok(())
}

#[test]
fn five_events(rt: HostRuntime) -> Result<(), Fail> {
    let text = account(rt.alloc(), &[1, 1, 1, 5, 2, 5, 0, 0, 3, 2, 0, 0, 1, 0])?;
    assert_eq!(rt;
        text.as_str(),
        "events 5 refused 0\n0 local 1 after\n1 local 5 after\n2 send 5 0 after 1\n3 receipt 2 0 after 1 2\n4 local 0 after\n"
    );
    Ok(())
}

#[test]
fn refused_midway(rt: HostRuntime) -> Result<(), Fail> {
    let text = account(
        rt.alloc(),
        &[2, 5, 1, 255, 3, 5, 1, 255, 3, 0, 1, 255, 1, 0],
    )?;
    assert_eq!(rt;
        text.as_str(),
        "events 2 refused 9\n0 send 5 511 after\n1 receipt 5 511 after 0\n"
    );
    Ok(())
}

#[test]
fn cut_off(rt: HostRuntime) -> Result<(), Fail> {
    let text = account(rt.alloc(), &[1, 0, 2, 5])?;
    assert_eq!(rt; text.as_str(), "events 1 refused 3\n0 local 0 after\n");
    Ok(())
}

#[test]
fn through_a_third_event(rt: HostRuntime) -> Result<(), Fail> {
    let text = account(
        rt.alloc(),
        &[1, 0, 2, 0, 0, 1, 3, 1, 0, 1, 2, 1, 0, 2, 3, 2, 0, 2, 1, 0],
    )?;
    assert_eq!(rt;
        text.as_str(),
        "events 6 refused 0\n0 local 0 after\n1 send 0 1 after 0\n2 receipt 1 1 after 0 1\n3 send 1 2 after 0 1 2\n4 receipt 2 2 after 0 1 2 3\n5 local 0 after 0 1\n"
    );
    Ok(())
}
