//! Numbers of funs. The expected values are those of plain counting.

use fun_table::FunCounts;
use std::test::Fail;

/// Two funs of one instance, which go one by one; another instance has none.
#[test]
fn funs_are_counted_by_instance(rt: HostRuntime) -> Result<(), Fail> {
    let mut counts = FunCounts::new(rt.alloc())?;
    counts.add(7)?;
    counts.add(7)?;
    assert_eq!(rt; counts.remove(7), 1);
    assert_eq!(rt; counts.count(8), 0);
    assert_eq!(rt; counts.count(7), 1);
    assert_eq!(rt; counts.remove(7), 0);
    assert_eq!(rt; counts.count(7), 0);
    Ok(())
}
