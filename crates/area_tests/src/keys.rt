//! Keys of persistent terms, staged and published one by one, and looked up, all from one thread. The
//! expected values are those of the limits: 384 keys are held, and one more is refused.

ghost use Rattle.std.specs.Prelude.{◌≡◌, ◌+◌, ◌<◌, true};
ghost use Rattle.shared_words.specs.Making.{IsHanding, IsMemberBegun};
ghost use Rattle.progress_words.specs.Tokens.{written_by, IsWriterOf};
ghost use Rattle.term_table.specs.Tables.{IsTableOf};
ghost use Rattle.area_tests.specs.Keyed.{HasKeys};
ghost use Rattle.new_tables.specs.Leading.{IsLeading};

use crate::leading::lead_on;
use crate::tables::Any;
use progress_words::{Lead, lead, report};
use shared_words::{Member, Parts, Shared, Writer};
use std::alloc::Global;
use std::test::Fail;
use term_core::{AtomId, Found, Next, NoMemory};
use term_table::{Change, StageFault, TermTable, lookup};

/// How many keys are held at most.
const MOST: u32 = 384;

/// The generation with so many keys.
#[derive(Drop)]
struct Keys {
    count: u32,
}

impl Next for Keys {
    ghost use Rattle.std.specs.Prelude.{[]};
    ghost use Rattle.area_core.specs.Step.{empty_generation};
    ghost use Rattle.area_tests.specs.Keyed.{keys_to};

    ghost next = { λ k. record empty_generation { keys = keys_to k.count } };

    ghost blocks = { λ k. [] };
}

/// Stages and publishes one key more, with the integer of its number.
fn add_key(shared: &Shared<Any>, writer: &mut Writer, tables: &mut TermTable, count: u32) -> bool
    requires token { IsWriterOf shared.now.table.shared.table_id shared.now.table.shared.key writer.old }
    requires owned { IsTableOf tables.old (written_by writer.old) }
    requires keys { HasKeys count (written_by writer.old) }
    requires few { count < 384 }
    ensures token { IsWriterOf shared.now.table.shared.table_id shared.now.table.shared.key writer.new }
    ensures owned { IsTableOf tables.new (written_by writer.new) }
    ensures keys { result ≡ true → HasKeys (count + 1) (written_by writer.new) }
{
    let change = Change::Put {
        key: AtomId(count),
        value: u64::from(count) * 16 + 15,
    };
    match tables.stage_copy(shared, writer, change) {
        Err(_) => false,
        Ok(()) => {
            tables.publish(shared, writer, &Keys { count: count + 1 });
            true
        }
    }
}

/// Adds as many keys as can be held. The leader raises the counter behind each, so that the table that
/// was active is free when its turn comes again.
fn fill(
    shared: &Shared<Any>,
    writer: &mut Writer,
    leader: &mut Member,
    tables: &mut TermTable,
) -> bool
    requires token { IsWriterOf shared.now.table.shared.table_id shared.now.table.shared.key writer.old }
    requires leads { IsLeading shared.now.table.shared.table_id leader.old }
    requires owned { IsTableOf tables.old (written_by writer.old) }
    requires keys { HasKeys 0 (written_by writer.old) }
    ensures token { IsWriterOf shared.now.table.shared.table_id shared.now.table.shared.key writer.new }
    ensures leads { IsLeading shared.now.table.shared.table_id leader.new }
    ensures owned { IsTableOf tables.new (written_by writer.new) }
{
    for count in 0..MOST {
        if !add_key(shared, writer, tables, count) {
            return false;
        }
        let _first = lead_on(shared, leader);
        let _second = lead_on(shared, leader);
    }
    true
}

/// Whether one key more is refused, and then a change of one that is held is staged, given up, and
/// the key's erasure is staged.
fn stage_at_the_limit(
    shared: &Shared<Any>,
    writer: &mut Writer,
    tables: &mut TermTable,
) -> [bool; 3]
    requires token { IsWriterOf shared.now.table.shared.table_id shared.now.table.shared.key writer.old }
    requires owned { IsTableOf tables.old (written_by writer.old) }
{
    let new = Change::Put {
        key: AtomId(MOST),
        value: 15,
    };
    let full = tables.stage_copy(shared, writer, new) == Err(StageFault::Full);
    [
        full,
        stage_and_drop(shared, writer, tables),
        erase(shared, writer, tables),
    ]
}

/// Whether a change of a key that is held is staged. It is given up again.
fn stage_and_drop(shared: &Shared<Any>, writer: &mut Writer, tables: &mut TermTable) -> bool
    requires token { IsWriterOf shared.now.table.shared.table_id shared.now.table.shared.key writer.old }
    requires owned { IsTableOf tables.old (written_by writer.old) }
    ensures token { IsWriterOf shared.now.table.shared.table_id shared.now.table.shared.key writer.new }
    ensures owned { IsTableOf tables.new (written_by writer.new) }
{
    let held = Change::Put {
        key: AtomId(5),
        value: 31,
    };
    match tables.stage_copy(shared, writer, held) {
        Err(_) => false,
        Ok(()) => {
            tables.unstage();
            true
        }
    }
}

/// Whether the erasure of a key is staged.
fn erase(shared: &Shared<Any>, writer: &mut Writer, tables: &mut TermTable) -> bool
    requires token { IsWriterOf shared.now.table.shared.table_id shared.now.table.shared.key writer.old }
    requires owned { IsTableOf tables.old (written_by writer.old) }
{
    tables
        .stage_copy(shared, writer, Change::Erase { key: AtomId(7) })
        .is_ok()
}

/// What a key holds in the newest generation.
#[tactic(auto, using(crate::proofs::Keyed::leads_on_looking))]
fn look_up(shared: &Shared<Any>, leader: &mut Member, key: u32) -> Found
    requires leads { IsLeading shared.now.table.shared.table_id leader.old }
    ensures leads { IsLeading shared.now.table.shared.table_id leader.new }
{
    report(shared, leader);
    lookup(shared, leader, AtomId(key))
}

/// Takes the lead, fills the table, and answers whether all went well, what is staged then, and what
/// two keys hold.
#[tactic(auto, using(new_tables::proofs::Begun::of_begun, new_tables::proofs::Heading::leader_may, new_tables::proofs::Heading::leads_first, crate::proofs::Keyed::keyed_first))]
fn fill_and_look(
    shared: &Shared<Any>,
    writer: &mut Writer,
    leader: &mut Member,
    tables: &mut TermTable,
) -> Option<([bool; 3], Found, Found)>
    requires token { IsWriterOf shared.now.table.shared.table_id shared.now.table.shared.key writer.old }
    requires handing { IsHanding shared.now.table.shared.table_id shared.now.table.shared.key 1 writer.old.seat }
    requires begun { IsMemberBegun shared.now.table.shared.table_id 0 leader.old }
    requires owned { IsTableOf tables.old (written_by writer.old) }
{
    let Lead::Led = lead(shared, leader) else {
        return None;
    };
    if !fill(shared, writer, leader, tables) {
        return None;
    }
    let staged = stage_at_the_limit(shared, writer, tables);
    let held = look_up(shared, leader, 5);
    let lacking = look_up(shared, leader, MOST);
    Some((staged, held, lacking))
}

/// The same over a new table.
fn fill_new(alloc: Global) -> Result<Option<([bool; 3], Found, Found)>, NoMemory> {
    let (shared, parts) = Shared::<Any>::new(alloc, 1, 0)?;
    let Parts {
        mut writer,
        mut members,
        watchers: _,
    } = parts;
    let Some(mut leader) = members.pop() else {
        return Ok(None);
    };
    let mut tables = TermTable::new();
    Ok(fill_and_look(&shared, &mut writer, &mut leader, &mut tables))
}

/// 384 keys are held, each with its value; a new one is refused, and one that is held can be changed
/// or erased.
#[test]
fn as_many_keys_as_the_limit_are_held(rt: HostRuntime) -> Result<(), Fail> {
    let told = fill_new(rt.alloc())?;
    assert_eq!(rt;
        told,
        Some(([true, true, true], Found::Word(95), Found::Absent))
    );
    Ok(())
}
