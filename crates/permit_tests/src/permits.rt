//! A permit over a new table of words, all from one thread.

ghost use Rattle.std.specs.Prelude.{◌≡◌, [], ◌∷◌, All};
ghost use Rattle.area_core.specs.Step.{opening_published};
ghost use Rattle.shared_words.specs.Making.{IsMemberBegun};
ghost use Rattle.progress_words.specs.Tokens.{written_by};
ghost use Rattle.change_laws.specs.Names.{IsNumbered};
ghost use Rattle.server_core.specs.ServerState.{empty_state};
ghost use Rattle.script_core.specs.Sound.{IsScript};
ghost use Rattle.staging.specs.Stages.{AreAtRest};
ghost use Rattle.word_permit.specs.Runs.{IsBegunWith, IsOverWords};
ghost use Rattle.permit_tests.specs.Leading.{IsLeading};

use code_law::{CodeLaw, Naming};
use export_table::ExportTable;
use progress_words::{Lead, NotYet, advance, lead, report};
use script_core::{Script, ScriptCmd};
use script_text::read_script;
use shared_words::{Member, Parts, Shared};
use staging::Tables;
use std::alloc::Global;
use std::marker::Brand;
use std::test::Fail;
use term_core::NoMemory;
use word_permit::{AtOnce, CommandStep, Permit, Pumped, RunName, Spawned};
use write_permit::{NoGate, Seize};

/// A spawn, a put of a word, and a put of a term that has an area, with its erase.
const SCRIPT: &str = "beam script 1
loader
spawn m:main()
put k 7
put t {1,2}
erase t
go
";

/// What a permit of the script has done.
#[derive(Debug, PartialEq, Eq, Drop)]
struct Seen {
    /// The process of the spawn.
    spawned: Option<u32>,
    /// Each put was published in one step, and so was the erase.
    is_published: bool,
    is_all_done: bool,
    /// What became of the area of the term that was erased.
    pumped: [Pumped; 3],
    entries: usize,
    generation: u64,
}

/// The next command, where it is a spawn: its process, told with its note.
fn spawn<K: Naming, N: RunName>(
    permit: &mut Permit<K, N>,
    shared: &Shared<CodeLaw<K>>,
) -> Result<Option<u32>, NoMemory>
    requires { IsOverWords shared.now.table.shared.table_id shared.now.table.shared.key N.run }
{
    let Some(ScriptCmd::Spawn { .. }) = permit.next_command(0) else {
        return Ok(None);
    };
    let AtOnce { spawned, .. } = permit.at_once(shared, 0)?;
    match spawned {
        Some(Spawned { process, .. }) => Ok(Some(process)),
        None => Ok(None),
    }
}

/// The next command, which needs the permission: whether it was done in one step.
fn publish<K: Naming, N: RunName>(
    permit: &mut Permit<K, N>,
    shared: &Shared<CodeLaw<K>>,
) -> Result<bool, NoMemory>
    requires { IsOverWords shared.now.table.shared.table_id shared.now.table.shared.key N.run }
{
    let Some(ScriptCmd::Put { .. } | ScriptCmd::Erase { .. }) = permit.next_command(0) else {
        return Ok(false);
    };
    let Seize::Seized = permit.seize(0) else {
        return Ok(false);
    };
    match permit.advance_op(shared, 0, &NoGate)? {
        CommandStep::Done(_) => Ok(true),
        _ => Ok(false),
    }
}

/// The next three commands: whether each was done in one step.
fn publish_all<K: Naming, N: RunName>(
    permit: &mut Permit<K, N>,
    shared: &Shared<CodeLaw<K>>,
) -> Result<bool, NoMemory>
    requires { IsOverWords shared.now.table.shared.table_id shared.now.table.shared.key N.run }
{
    for _ in 0..3 {
        if !publish(permit, shared)? {
            return Ok(false);
        }
    }
    Ok(true)
}

/// The leader reports, and raises the counter.
#[tactic(auto, using(crate::proofs::Leading::leads_on))]
fn lead_on<K: Naming>(shared: &Shared<CodeLaw<K>>, leader: &mut Member)
    requires leads { IsLeading shared.now.table.shared.table_id leader.old }
    ensures leads { IsLeading shared.now.table.shared.table_id leader.new }
{
    report(shared, leader);
    let _answer = advance(shared, leader);
}

/// What is waited for, before the counter is raised.
fn pump<K: Naming, N: RunName>(
    permit: &mut Permit<K, N>,
    shared: &Shared<CodeLaw<K>>,
) -> Result<Pumped, NoMemory>
    requires { IsOverWords shared.now.table.shared.table_id shared.now.table.shared.key N.run }
{
    permit.pump(shared)
}

/// What becomes of the areas that wait, before the leader raises the counter by two, behind that, and once more.
fn pump_on<K: Naming, N: RunName>(
    permit: &mut Permit<K, N>,
    shared: &Shared<CodeLaw<K>>,
    leader: &mut Member,
) -> Result<[Pumped; 3], NoMemory>
    requires words { IsOverWords shared.now.table.shared.table_id shared.now.table.shared.key N.run }
    requires leads { IsLeading shared.now.table.shared.table_id leader.old }
{
    let waits = pump(permit, shared)?;
    lead_on(shared, leader);
    lead_on(shared, leader);
    let released = pump(permit, shared)?;
    let over = pump(permit, shared)?;
    Ok([waits, released, over])
}

/// The one member takes the lead for it.
#[tactic(auto, using(crate::proofs::Leading::leader_may, crate::proofs::Leading::leads_first, crate::proofs::Leading::begun_of))]
fn pump_all<K: Naming, N: RunName>(
    permit: &mut Permit<K, N>,
    shared: &Shared<CodeLaw<K>>,
    leader: &mut Member,
) -> Result<[Pumped; 3], NoMemory>
    requires words { IsOverWords shared.now.table.shared.table_id shared.now.table.shared.key N.run }
    requires begun { IsMemberBegun shared.now.table.shared.table_id 0 leader.old }
{
    let Lead::Led = lead(shared, leader) else {
        return Err(NoMemory);
    };
    pump_on(permit, shared, leader)
}

/// All commands of the script, and then the release of the area.
fn make_all<K: Naming, N: RunName>(
    permit: &mut Permit<K, N>,
    shared: &Shared<CodeLaw<K>>,
    leader: &mut Member,
) -> Result<Seen, NoMemory>
    requires words { IsOverWords shared.now.table.shared.table_id shared.now.table.shared.key N.run }
    requires begun { IsMemberBegun shared.now.table.shared.table_id 0 leader.old }
{
    let spawned = spawn(permit, shared)?;
    let is_published = publish_all(permit, shared)?;
    let is_all_done = permit.all_done();
    let pumped = pump_all(permit, shared, leader)?;
    Ok(Seen {
        spawned,
        is_published,
        is_all_done,
        pumped,
        entries: permit.journal().len(),
        generation: permit.generation(),
    })
}

/// A permit over these words makes the commands of the script.
fn over_run<K: Naming, N: RunName>(
    alloc: Global,
    shared: &Shared<CodeLaw<K>>,
    script: Script,
    tables: Tables,
    leader: &mut Member,
) -> Result<Seen, NoMemory>
    requires words { IsOverWords shared.now.table.shared.table_id shared.now.table.shared.key N.run }
    requires script { IsScript script }
    requires run { IsBegunWith tables script N.run }
    requires texts { All (IsNumbered K.names) script.modules }
    requires exports { tables.exports ≡ K.names }
    requires rest { AreAtRest K.names empty_state tables }
    requires opening { (written_by tables.writer).published ≡ opening_published ∷ [] }
    requires notes { (written_by tables.writer).notes ≡ [] }
    requires drops { (written_by tables.writer).looks.dropped ≡ [] }
    requires begun { IsMemberBegun shared.now.table.shared.table_id 0 leader.old }
{
    let mut permit = Permit::<K, N>::new(alloc, script, tables)?;
    make_all(&mut permit, shared, leader)
}

/// The words are new, and nobody has them but the writer.
fn over_words<K: Naming>(
    alloc: Global,
    script: Script,
    exports: ExportTable,
) -> Result<Seen, NoMemory>
    requires script { IsScript script }
    requires modules { script.modules ≡ [] }
    requires names { exports ≡ K.names }
{
    let (shared, parts) = Shared::<CodeLaw<K>>::new(alloc, 1, 0)?;
    let Parts {
        writer,
        mut members,
        watchers: _,
    } = parts;
    let Some(mut leader) = members.pop() else {
        return Err(NoMemory);
    };
    let tables = Tables::new(alloc, writer, exports)?;
    over_run::<K, Brand>(alloc, &shared, script, tables, &mut leader)
}

/// No name has a number.
fn over_script(alloc: Global, script: Script) -> Result<Seen, NoMemory>
    requires script { IsScript script }
    requires modules { script.modules ≡ [] }
{
    let exports = ExportTable::new(alloc)?;
    over_words::<Brand>(alloc, script, exports)
}

/// What `Permit::new` asks is what `Tables::new` gives of the writer of a new table, and each call of the permit can be made. The counter begins at 1, the
/// first area has the serial 1, and what was erased is awaited for two values of the counter.
#[test]
fn a_permit_over_new_words_makes_its_commands(rt: HostRuntime) -> Result<(), Fail> {
    let alloc = rt.alloc();
    let script = read_script(alloc, SCRIPT.as_bytes())?;
    let mut seen = None;
    if script.modules.as_slice().is_empty() {
        seen = Some(over_script(alloc, script)?);
    }
    let wanted = Seen {
        spawned: Some(0),
        is_published: true,
        is_all_done: true,
        pumped: [
            Pumped::NotYet(NotYet {
                need: 3,
                current: 1,
            }),
            Pumped::Released(1),
            Pumped::Nothing,
        ],
        entries: 5,
        generation: 3,
    };
    assert_eq!(rt; seen, Some(wanted));
    Ok(())
}
