//! The events that store a word.

ghost use Rattle.std.specs.Prelude.{◌≡◌, false, IsTrue, IsErrOf, IfOk, OnOk, OnErr, Some, None};
ghost use Rattle.prgr_core.specs.declared.fault.StepFault.TheVariants.{NotEnabled};
ghost use Rattle.area_core.specs.declared.event.AreaEvent.TheVariants as events;
ghost use Rattle.area_core.specs.Roots.{fresh_areas};
ghost use Rattle.area_core.specs.Step.{after, appended, may_publish_in, may_write_slot, root_stored};
ghost use Rattle.area_core.specs.Stores.{holds_in_block, may_be_doom, may_be_retire};

use crate::map::{ANCHORS, PROCESSES, WordKind, block_place, entry_at, kind_of, slot_place};
use crate::readers::{Slots, held_generations, readable_generations};
use crate::roots::fresh_areas;
use crate::stores::entry_word;
use crate::table::{KeptList, Published, Root, Table};
use prgr_core::{Member, PrgrEvent, StepFault, step};
use std::alloc::Global;
use term_core::{AreaRefList, CodeRef, Generation, NoMemory};

/// The writer stores a word.
pub fn store_word(table: &mut Table, alloc: Global, word: u32, value: u64) -> Result<(), StepFault>
    ensures ok { OnOk result (after table.old (events.StoreWord word value) ≡ Some table.new) }
    ensures not_enabled { IsErrOf result NotEnabled → after table.old (events.StoreWord word value) ≡ None }
    ensures err { OnErr result (table.new ≡ table.old) }
{
    match readable_generations(alloc, &table.progress) {
        Err(_) => Err(StepFault::NoMemory),
        Ok(generations) => match kind_of(word) {
            WordKind::InBlock { block, at } => {
                if !table.may_store_in_block(generations.as_slice(), block, at, value) {
                    return Err(StepFault::NotEnabled);
                }
                table.words.set(u64::from(word), value);
                Ok(())
            }
            WordKind::Retire { block } => {
                if !may_all_retire(table, generations.as_slice(), block, value) {
                    return Err(StepFault::NotEnabled);
                }
                table.release(block, value);
                table.words.set(u64::from(word), value);
                Ok(())
            }
            WordKind::Doom { block } => {
                if !may_all_doom(table, generations.as_slice(), block, value) {
                    return Err(StepFault::NotEnabled);
                }
                table.words.set(u64::from(word), value);
                Ok(())
            }
            WordKind::Machine => Err(StepFault::NotEnabled),
            WordKind::Slot => Err(StepFault::NotEnabled),
            WordKind::Nowhere => Err(StepFault::NotEnabled),
        },
    }
}

/// Whether the retire word of the block may become this value.
fn may_all_retire(table: &Table, generations: &[u64], block: u32, value: u64) -> bool
    ensures { result ≡ holds_in_block table.now.kept block (may_be_retire table.now generations.now value) }
{
    table.kept.as_slice().iter().all(|area| area.area.block != block
        || table.may_be_retire(generations, value, area))
}

/// Whether the doom word of the block may become this value.
fn may_all_doom(table: &Table, generations: &[u64], block: u32, value: u64) -> bool
    ensures { result ≡ holds_in_block table.now.kept block (may_be_doom table.now generations.now value) }
{
    table.kept.as_slice().iter().all(|area| area.area.block != block
        || table.may_be_doom(generations, value, area))
}

/// The writer stores an entry word.
pub fn store_entry(table: &mut Table, alloc: Global, at: CodeRef, on: bool) -> Result<(), StepFault>
    ensures ok { OnOk result (after table.old (events.StoreEntry at on) ≡ Some table.new) }
    ensures not_enabled { IsErrOf result NotEnabled → after table.old (events.StoreEntry at on) ≡ None }
    ensures err { OnErr result (table.new ≡ table.old) }
{
    match readable_generations(alloc, &table.progress) {
        Err(_) => Err(StepFault::NoMemory),
        Ok(generations) => {
            if !table.may_store_entry(generations.as_slice(), at, on) {
                return Err(StepFault::NotEnabled);
            }
            let place = block_place(u64::from(at.area.block), entry_at(at.function));
            table.words.set(place, entry_word(on));
            Ok(())
        }
    }
}

/// A member stores a word of a slot.
pub fn store_slot(
    table: &mut Table,
    number: u32,
    process: u32,
    place: u32,
    value: u64,
) -> Result<(), StepFault>
    ensures ok { OnOk result (after table.old (events.StoreSlot number process place value) ≡ Some table.new) }
    ensures not_enabled { IsErrOf result NotEnabled → after table.old (events.StoreSlot number process place value) ≡ None }
    ensures err { OnErr result (table.new ≡ table.old) }
{
    match table.progress.members().get(number as usize).copied() {
        None => Err(StepFault::NotEnabled),
        Some(member) => {
            if !may_write_slot(table, &member, number, process, place)
                || !table.may_store_slot(process, place, value, member.generation)
            {
                return Err(StepFault::NotEnabled);
            }
            table.words.set(slot_place(process, place), value);
            Ok(())
        }
    }
}

/// Whether the slot is one of the member's, whose word is a value, and has this place.
fn may_write_slot(table: &Table, member: &Member, number: u32, process: u32, place: u32) -> bool
    ensures { result ≡ may_write_slot table.now member.now number process place }
{
    let slots = Slots::OfMember {
        member: number,
        members: table.progress.members().len(),
    };
    member.is_awake() && process < PROCESSES && slots.has(process) && place <= ANCHORS
}

/// The writer publishes the next generation, over these blocks.
pub fn store_root(
    table: &mut Table,
    alloc: Global,
    code: u32,
    bp: u32,
    term: u32,
    next: &Generation,
    areas: &AreaRefList,
) -> Result<(), StepFault>
    ensures ok { OnOk result (after table.old (events.StoreRoot code bp term next.now areas.now) ≡ Some table.new) }
    ensures not_enabled { IsErrOf result NotEnabled → after table.old (events.StoreRoot code bp term next.now areas.now) ≡ None }
    ensures err { OnErr result (table.new ≡ table.old) }
{
    let root = Root { code, bp, term };
    match to_publish(alloc, root, next, areas) {
        Err(_) => Err(StepFault::NoMemory),
        Ok(published) => publish(table, alloc, published),
    }
}

/// What a store of the root publishes.
fn to_publish(
    alloc: Global,
    root: Root,
    next: &Generation,
    areas: &AreaRefList,
) -> Result<Published, NoMemory>
    ensures { IfOk result (λ published. published ≡ record { root = root; state = next.now; areas = areas.now }) }
{
    let state = next.copy(alloc)?;
    let areas = AreaRefList::from_slice(alloc, areas.as_slice())?;
    Ok(Published { root, state, areas })
}

/// Publishes this as the next generation, where the words stand for it.
fn publish(table: &mut Table, alloc: Global, published: Published) -> Result<(), StepFault>
    ensures ok { OnOk result (root_stored table.old published ≡ Some table.new) }
    ensures not_enabled { IsErrOf result NotEnabled → root_stored table.old published ≡ None }
    ensures err { OnErr result (table.new ≡ table.old) }
{
    match weigh(table, alloc, &published) {
        Err(fault) => Err(fault),
        Ok(fresh) => match append(table, published, fresh) {
            Err(_) => Err(StepFault::NoMemory),
            Ok(()) => Ok(()),
        },
    }
}

/// The areas that are kept from now on, where the words stand for what is published next.
fn weigh(table: &Table, alloc: Global, published: &Published) -> Result<KeptList, StepFault>
    ensures fresh { IfOk result (λ fresh. fresh ≡ fresh_areas table.now.kept published.now) }
    ensures ok { OnOk result (IsTrue (may_publish_in table.now published.now)) }
    ensures not_enabled { IsErrOf result NotEnabled → may_publish_in table.now published.now ≡ false }
{
    let generation = table.progress.generation();
    if generation == u64::MAX {
        return Err(StepFault::NoMemory);
    }
    let held = match held_generations(alloc, &table.progress) {
        Err(_) => return Err(StepFault::NoMemory),
        Ok(held) => held,
    };
    let fresh = match fresh_areas(alloc, table.kept.as_slice(), published) {
        Err(_) => return Err(StepFault::NoMemory),
        Ok(fresh) => fresh,
    };
    if table.may_publish(held.as_slice(), fresh.as_slice(), generation + 1, published) {
        Ok(fresh)
    } else {
        Err(StepFault::NotEnabled)
    }
}

/// Appends what is published, and the areas that are kept from now on. Where memory is refused,
/// nothing is appended.
fn append(table: &mut Table, published: Published, fresh: KeptList) -> Result<(), NoMemory>
    ensures ok { OnOk result (appended table.old published fresh ≡ Some table.new) }
    ensures err { OnErr result (table.new ≡ table.old) }
{
    let count = table.published.len();
    let kept = table.kept.len();
    table.published.push(published)?;
    if table.kept.append(fresh).is_err() {
        table.published.truncate(count);
        return Err(NoMemory);
    }
    match step(&mut table.progress, PrgrEvent::Publish) {
        Ok(()) => Ok(()),
        Err(_) => {
            table.published.truncate(count);
            table.kept.truncate(kept);
            Err(NoMemory)
        }
    }
}
