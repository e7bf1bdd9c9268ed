//! A writer that waits for grace periods, beneath members that report all the time, one of which leads.

ghost use Rattle.std.specs.Prelude.{◌≡◌, ◌≤◌, ◌<◌, ◌+◌, ◌^◌, true, [], All};
ghost use Rattle.shared_words.specs.Views.{newest_number};
ghost use Rattle.progress_words.specs.Tokens.{view_of, written_by, IsMemberOf, IsWriterOf};
ghost use Rattle.progress_words.specs.Leads.{IsLeader};
ghost use Rattle.new_tables.specs.Running.{IsReady, IsEmpty};
ghost use Rattle.grace_bench.specs.Waiting.{HasAsked, IsOver};

use crate::tables::{Any, publish};
use crate::waits::{advance_once, ask};
use progress_words::{Lead, later, lead, report};
use shared_words::{Member, Parts, Shared, Writer};
use std::alloc::Global;
use std::hint::spin_loop;
use std::sync::Wait;
use std::sync::atomic::{AtomicU64, Ordering};
use std::thread::{Threads, for_each_mut, join};
use term_core::NoMemory;

/// How many readers there may be.
pub const MOST_READERS: u32 = 16;

/// How often the writer asks before it sleeps. liburcu asks as often.
const ASKED: u32 = 100;

/// The writer is awake. Any other number but the next one is the value of the counter until which it
/// sleeps.
const AWAKE: u64 = 0;

/// The writer is done.
const DONE: u64 = u64::MAX;

/// Makes a table of so many readers, one of which leads, and waits for so many grace periods. Answers
/// for how many it waited.
#[tactic(auto, using(crate::proofs::Members::all_ready, new_tables::proofs::Emptied::handing_empty, new_tables::proofs::Emptied::handing_first))]
pub fn wait_beside<R: Threads + Wait + Sync>(
    rt: &R,
    alloc: Global,
    readers: u32,
    times: u32,
) -> Result<u32, NoMemory>
    requires some { 1 ≤ readers }
    requires few { readers ≤ MOST_READERS }
{
    let (shared, parts) = Shared::<Any>::new(alloc, readers, 0)?;
    let Parts {
        writer,
        members,
        watchers: _,
    } = parts;
    let count = readers as usize;
    Ok(run_beside(rt, &shared, writer, members, count, times))
}

/// The writer waits in one thread, and each reader reports in its own.
fn run_beside<R: Threads + Wait + Sync>(
    rt: &R,
    shared: &Shared<Any>,
    writer: Writer,
    readers: Vec<Member>,
    count: usize,
    times: u32,
) -> u32
    requires token { IsWriterOf shared.now.table.shared.table_id shared.now.table.shared.key writer }
    requires empty { IsEmpty (written_by writer) }
    requires first { writer.generation ≡ 0 }
    requires count { 0 < count }
    requires readers { All (λ token. IsReady shared.now.table.shared.table_id token) readers.items }
{
    let word = AtomicU64::new(AWAKE);
    let state = &word;
    let (waited, ()) = join(
        rt,
        move || wait_often(rt, shared, writer, times, state),
        move || -> ()
            requires count { 0 < count }
            requires readers { All (λ token. IsReady shared.now.table.shared.table_id token) readers.items }
        { report_each(rt, shared, readers, count, state) },
    );
    waited
}

/// Each reader reports in a thread of its own, and the first one leads.
fn report_each<R: Threads + Wait + Sync>(
    rt: &R,
    shared: &Shared<Any>,
    mut readers: Vec<Member>,
    count: usize,
    state: &AtomicU64,
)
    requires count { 0 < count }
    requires ready { All (λ token. IsReady shared.now.table.shared.table_id token) readers.items }
{
    for_each_mut(
        rt,
        readers.as_mut_slice(),
        count,
        &|number, reader| {
            if number == 0 {
                lead_on(rt, shared, reader, state);
            } else {
                report_on(rt, shared, reader, state);
            }
        },
    );
}

/// Reports until the writer is done.
#[tactic(auto, using(new_tables::proofs::Leading::reported_ready, new_tables::proofs::Leading::ready_rests))]
fn report_on<R: Wait>(rt: &R, shared: &Shared<Any>, member: &mut Member, state: &AtomicU64)
    requires ready { IsReady shared.now.table.shared.table_id member.old }
{
    for _ in rt.forever() {
        if state.load(Ordering::SeqCst) == DONE {
            return;
        }
        report(shared, member);
    }
}

/// Takes the lead, and reports until the writer is done.
#[tactic(auto, using(new_tables::proofs::Leading::still_none))]
fn lead_on<R: Wait>(rt: &R, shared: &Shared<Any>, member: &mut Member, state: &AtomicU64)
    requires ready { IsReady shared.now.table.shared.table_id member.old }
{
    if let Lead::Led = lead(shared, member) {
        advance_on(rt, shared, member, state);
    }
}

/// Reports, and raises the counter where all have reported, until the writer is done.
fn advance_on<R: Wait>(rt: &R, shared: &Shared<Any>, leader: &mut Member, state: &AtomicU64)
    requires token { IsMemberOf shared.now.table.shared.table_id leader.old }
    requires leads { IsLeader (view_of leader.old) }
    requires slots { (view_of leader.old).slots ≡ [] }
{
    for _ in rt.forever() {
        let until = state.load(Ordering::SeqCst);
        if until == DONE {
            return;
        }
        let raised = advance_once(shared, leader);
        if until != AWAKE && raised >= until {
            wake(state, until);
        }
    }
}

/// Wakes the writer where it sleeps until this value.
fn wake(state: &AtomicU64, until: u64) {
    let found = state.compare_exchange(until, AWAKE, Ordering::SeqCst, Ordering::SeqCst);
    if found.is_ok() {
        state.wake_one();
    }
}

/// Waits for one grace period after the other, and then ends the readers. Answers for how many it waited.
fn wait_often<R: Wait>(
    rt: &R,
    shared: &Shared<Any>,
    mut writer: Writer,
    times: u32,
    state: &AtomicU64,
) -> u32
    requires token { IsWriterOf shared.now.table.shared.table_id shared.now.table.shared.key writer }
    requires empty { IsEmpty (written_by writer) }
    requires first { writer.generation ≡ 0 }
{
    for _ in 0..times {
        wait_once(rt, shared, &mut writer, state);
    }
    state.store(DONE, Ordering::SeqCst);
    times
}

/// Publishes a generation, and waits until no thread may read the one before.
fn wait_once<R: Wait>(rt: &R, shared: &Shared<Any>, writer: &mut Writer, state: &AtomicU64)
    requires token { IsWriterOf shared.now.table.shared.table_id shared.now.table.shared.key writer.old }
    requires empty { IsEmpty (written_by writer.old) }
    requires room { writer.old.generation + 1 < 2 ^ 59 }
    ensures token { IsWriterOf shared.now.table.shared.table_id shared.now.table.shared.key writer.new }
    ensures empty { IsEmpty (written_by writer.new) }
    ensures generation { writer.new.generation ≡ writer.old.generation + 1 }
{
    publish(shared, writer);
    wait_over(rt, shared, writer, state);
}

/// Waits until no thread may read a generation before the newest one. The leader wakes it where it
/// sleeps.
fn wait_over<R: Wait>(rt: &R, shared: &Shared<Any>, writer: &mut Writer, state: &AtomicU64)
    requires token { IsWriterOf shared.now.table.shared.table_id shared.now.table.shared.key writer.old }
    ensures token { IsWriterOf shared.now.table.shared.table_id shared.now.table.shared.key writer.new }
    ensures generation { writer.new.generation ≡ writer.old.generation }
    ensures asked { HasAsked (written_by writer.old) (written_by writer.new) }
    ensures over { IsOver (written_by writer.new) (newest_number (written_by writer.old).published) }
{
    let need = later(shared, writer);
    for _ in rt.forever() {
        if ask_often(shared, writer, need) {
            return;
        }
        state.store(need, Ordering::SeqCst);
        state.park(rt, (need % 4_294_967_296) as u32);
    }
}

/// Asks some times whether the value is reached.
fn ask_often(shared: &Shared<Any>, writer: &mut Writer, need: u64) -> bool
    requires token { IsWriterOf shared.now.table.shared.table_id shared.now.table.shared.key writer.old }
    ensures token { IsWriterOf shared.now.table.shared.table_id shared.now.table.shared.key writer.new }
    ensures generation { writer.new.generation ≡ writer.old.generation }
    ensures asked { HasAsked (written_by writer.old) (written_by writer.new) }
    ensures reached { result ≡ true → need ≤ (written_by writer.new).counter }
{
    for _ in 0..ASKED {
        if ask(shared, writer, need) {
            return true;
        }
        spin_loop();
    }
    false
}
