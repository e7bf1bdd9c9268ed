//! Operations that wait for a value of the counter.

use later_ops::Later;
use std::test::Fail;

/// Operations with their values are pushed, and then asked for at some values of the counter.
#[test]
fn the_first_that_is_due(rt: HostRuntime) -> Result<(), Fail> {
    let mut later: Later<u32> = Later::new(rt.alloc(), 3)?;
    assert!(rt; later.due(9).is_none(), "nothing is held");
    for (need, op) in [(5, 50), (3, 30), (4, 40)] {
        assert_eq!(rt; later.push(need, op), Ok(()), "pushed at {need}");
    }
    assert_eq!(rt; later.push(1, 10), Err(10), "no room for a fourth");
    let cases = [
        (2, None),
        (3, Some(30)),
        (5, Some(50)),
        (5, Some(40)),
        (9, None),
    ];
    for (current, first) in cases {
        assert_eq!(rt; later.due(current), first, "at {current}");
    }
    assert_eq!(rt; later.push(1, 10), Ok(()), "there is room again");
    Ok(())
}

/// The second push hands its operation back, and the first one stays.
#[test]
fn room_for_one(rt: HostRuntime) -> Result<(), Fail> {
    let mut later: Later<u32> = Later::new(rt.alloc(), 1)?;
    assert_eq!(rt; later.push(5, 50), Ok(()));
    assert_eq!(rt; later.push(3, 30), Err(30));
    assert_eq!(rt; later.due(5), Some(50));
    Ok(())
}

#[test]
fn no_room_at_all(rt: HostRuntime) -> Result<(), Fail> {
    let mut later: Later<u32> = Later::new(rt.alloc(), 0)?;
    assert_eq!(rt; later.push(1, 10), Err(10));
    Ok(())
}
