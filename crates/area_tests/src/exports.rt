//! Numbers of function names.

use export_table::{AddFault, ExportTable, MOST_ENTRIES};
use std::test::Fail;
use term_core::{AtomId, Mfa};

fn name(module: u32, name: u32, arity: u32) -> Mfa {
    Mfa {
        module: AtomId(module),
        name: AtomId(name),
        arity,
    }
}

/// Names get the numbers from 0 on in the order in which they come, and keep them.
#[test]
fn names_are_numbered_in_order(rt: HostRuntime) -> Result<(), Fail> {
    let mut table = ExportTable::new(rt.alloc())?;
    assert_eq!(rt; table.entry(name(3, 4, 0)), None, "nothing is held");
    let cases = [
        (name(3, 4, 0), 0),
        (name(3, 4, 1), 1),
        (name(3, 5, 0), 2),
        (name(4, 4, 0), 3),
        (name(3, 4, 1), 1),
        (name(3, 4, 0), 0),
    ];
    for (to, number) in cases {
        assert_eq!(rt; table.add(to), Ok(number), "{to:?}");
        assert_eq!(rt; table.entry(to), Some(number), "{to:?} is held");
    }
    assert_eq!(rt; table.entry(name(4, 5, 0)), None, "not held");
    Ok(())
}

/// Adds names of one module up to so many.
fn fill(table: &mut ExportTable, count: u32) -> bool {
    for number in 0..count {
        if table.add(name(3, number, 0)) != Ok(number) {
            return false;
        }
    }
    true
}

/// A full table takes no new name, and still has the numbers of those that it holds.
#[test]
fn a_full_table_keeps_its_names(rt: HostRuntime) -> Result<(), Fail> {
    let mut table = ExportTable::new(rt.alloc())?;
    assert!(rt;
        fill(&mut table, MOST_ENTRIES as u32),
        "each has its number"
    );
    assert_eq!(rt; table.add(name(4, 0, 0)), Err(AddFault::Full));
    assert_eq!(rt; table.entry(name(4, 0, 0)), None);
    assert_eq!(rt;
        table.add(name(3, 1023, 0)),
        Ok(1023),
        "the last one is held"
    );
    Ok(())
}
