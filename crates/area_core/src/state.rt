//! A state of blocks and slots, and its single events.

mod loads;
mod progress;
mod writes;

ghost use Rattle.std.specs.Prelude.{◌≡◌, ◌≤◌, [], ◌∷◌, IsErrOf, IfOk, OnOk, OnErr, Some, None};
ghost use Rattle.prgr_core.specs.declared.fault.StepFault.TheVariants.{NotEnabled};
ghost use Rattle.area_core.specs.declared.map.TheConstants.{TABLE_WORDS as ALL_WORDS};
ghost use Rattle.area_core.specs.Map.{opening_words};
ghost use Rattle.area_core.specs.Step.{after, empty_generation, opening_of, opening_published, IsSound};

use crate::event::AreaEvent;
use crate::map::TABLE_WORDS;
use crate::table::{KeptList, Published, PublishedList, Root, Table, WordTable};
use loads::{
    confirm, join_note, load_counter, load_delay, load_root, load_slot, load_word, split_note,
};
use prgr_core::{NoMemory, PrgrState, StepFault};
use progress::{
    add_delay, begin_to_wake, drop_lead, fall_asleep, raise_counter, scan, sub_delay, take_lead,
};
use std::alloc::Global;
use std::marker::Model;
use term_core::{
    AreaRefList, AreaWordsList, CountList, ExportList, FunctionRefList, Generation, KeyTermList,
};
use writes::{store_entry, store_root, store_slot, store_word};

/// A state of the progress machine with the words of the shared table, and what is known of them.
#[derive(Debug, Drop)]
pub struct AreaState {
    table: Table,
    alloc: Global,
}

impl Model for AreaState {
    ghost use Rattle.area_core.specs.declared.table.Table.{Table};

    ghost Value = { Table };

    ghost view = { λ s. s.table };
}

impl AreaState {
    /// The state in which events begin: generation 0 is published, and no area is kept.
    pub fn new(alloc: Global, members: u32, watchers: u32) -> Result<AreaState, NoMemory>
        requires one { 1 ≤ members }
        requires few { members ≤ 16 }
        requires watched { watchers ≤ 4 }
        ensures ok { IfOk result (λ state. state ≡ opening_of members watchers ALL_WORDS) }
        ensures sound { IfOk result (λ state. IsSound state) }
    {
        let progress = PrgrState::new(alloc, members, watchers)?;
        match opening_table(alloc, progress, TABLE_WORDS as usize) {
            Err(_) => Err(NoMemory),
            Ok(table) => Ok(AreaState { table, alloc }),
        }
    }
}

/// The table in which events begin, of so many words.
fn opening_table(
    alloc: Global,
    progress: PrgrState,
    count: usize,
) -> Result<Table, term_core::NoMemory>
    ensures { IfOk result (λ table. table ≡ record { progress = progress; words = opening_words count; published = opening_published ∷ []; kept = [] }) }
{
    let words = WordTable::new(alloc, count)?;
    let mut published = PublishedList::new(alloc);
    published.push(opening_published(alloc))?;
    Ok(Table {
        progress,
        words,
        published,
        kept: KeptList::new(alloc),
    })
}

/// What stands published at first.
fn opening_published(alloc: Global) -> Published
    ensures { result ≡ opening_published }
{
    Published {
        root: Root {
            code: 0,
            bp: 0,
            term: 0,
        },
        state: empty_generation(alloc),
        areas: AreaRefList::new(alloc),
    }
}

/// Generation 0: nothing is loaded, and no key is held.
fn empty_generation(alloc: Global) -> Generation
    ensures { result ≡ empty_generation }
{
    Generation {
        exports: ExportList::new(alloc),
        traced: FunctionRefList::new(alloc),
        keys: KeyTermList::new(alloc),
        current: CountList::new(alloc),
        old: CountList::new(alloc),
        doomed: CountList::new(alloc),
        retired: CountList::new(alloc),
        areas: AreaWordsList::new(alloc),
    }
}

/// Makes one event. Where it is not enabled, nothing changes, and neither does it where memory is
/// refused.
pub fn area_step(state: &mut AreaState, event: &AreaEvent) -> Result<(), StepFault>
    ensures ok { OnOk result (after state.old event.now ≡ Some state.new) }
    // Where it is not enabled, it is refused as such, or for want of memory.
    ensures not_enabled { IsErrOf result NotEnabled → after state.old event.now ≡ None }
    ensures err { OnErr result (state.new ≡ state.old) }
{
    make(&mut state.table, state.alloc, event)
}

/// Makes one event.
fn make(table: &mut Table, alloc: Global, event: &AreaEvent) -> Result<(), StepFault>
    ensures ok { OnOk result (after table.old event.now ≡ Some table.new) }
    ensures not_enabled { IsErrOf result NotEnabled → after table.old event.now ≡ None }
    ensures err { OnErr result (table.new ≡ table.old) }
{
    match event {
        AreaEvent::LoadCounter { seat } => load_counter(table, *seat),
        AreaEvent::LoadRoot { seat } => load_root(table, *seat),
        AreaEvent::Confirm { member, value } => confirm(table, *member, *value),
        AreaEvent::LoadConfirmed { member, other } => scan(table, *member, *other),
        AreaEvent::StoreCounter { member } => raise_counter(table, *member),
        AreaEvent::TakeLead { member } => take_lead(table, *member),
        AreaEvent::DropLead { member } => drop_lead(table, *member),
        AreaEvent::LoadWord { seat, word } => load_word(table, *seat, *word),
        AreaEvent::StoreWord { word, value } => store_word(table, alloc, *word, *value),
        AreaEvent::StoreRoot {
            code,
            bp,
            term,
            next,
            areas,
        } => store_root(table, alloc, *code, *bp, *term, next, areas),
        AreaEvent::StoreWaiting { member } => fall_asleep(table, *member),
        AreaEvent::StoreEntering { member } => begin_to_wake(table, *member),
        AreaEvent::SplitNote { process } => split_note(table, *process),
        AreaEvent::JoinNote { member } => join_note(table, *member),
        AreaEvent::StoreSlot {
            member,
            process,
            place,
            value,
        } => store_slot(table, *member, *process, *place, *value),
        AreaEvent::LoadSlot { process, place } => load_slot(table, *process, *place),
        AreaEvent::StoreEntry { at, on } => store_entry(table, alloc, *at, *on),
        AreaEvent::AddDelay { watcher, which } => add_delay(table, *watcher, *which),
        AreaEvent::SubDelay { watcher, which } => sub_delay(table, *watcher, *which),
        AreaEvent::LoadDelay { member, which } => load_delay(table, *member, *which),
    }
}
