//! Areas are taken and written before they are published, and given back where that comes to nothing.

ghost use Rattle.std.specs.Prelude.{◌≡◌, ◌<◌, ◌≤◌, ◌^◌, ℕ, length, slice_get, IfOk, IsSomeAnd, OnErr, Some};
ghost use Rattle.area_core.specs.Map.{room_of};
ghost use Rattle.progress_words.specs.Tokens.{written_by};
ghost use Rattle.server_core.specs.Decided.{Fits};
ghost use Rattle.code_index.specs.declared.index.Staging.TheVariants as indices;
ghost use Rattle.literal_areas.specs.Blocks.{first_of};
ghost use Rattle.staging.specs.Exported.{FitsSome};
ghost use Rattle.change_laws.specs.Changes.{Incoming, incoming};
ghost use Rattle.change_laws.specs.Images.{words_of};
ghost use Rattle.staging.specs.Placed.{PlaceAnswers, pool_of};
ghost use Rattle.staging.specs.Stages.{AreAtRest, HavePlaced, NextAnswers, PlacingAnswers};
ghost use Rattle.staging.specs.Whose.{AreTablesOf, KeepsKnown};

use crate::tables::Tables;
use code_index::writes_keep_index;
use code_law::{CodeLaw, Naming};
use literal_areas::{Pool, Take};
use server_core::{Change, Server};
use shared_words::{Served, Shared};
use std::alloc::Global;
use term_core::{AreaRef, NoMemory, WordList};
use term_table::writes_keep_tables;

/// The serials of areas are below this. One that would reach it is refused as memory is.
const SERIALS_END: u64 = 1 << 40;

/// Whether all that a change brings in has its areas.
#[derive(Clone, Copy, Debug, PartialEq, Eq)]
pub enum Placing {
    Whole,
    /// No block is free for the next one, and one waits for its release.
    AwaitRelease,
}

/// Takes an area of the pool, and stores its words in its block, which nobody reads.
fn place<N: Served>(tables: &mut Tables, shared: &Shared<N>, pool: Pool, words: &[u64]) -> Take
    requires tables { AreTablesOf shared.now.table.shared.table_id shared.now.table.shared.key tables.old }
    requires serials { tables.old.pools.next < 2 ^ 40 }
    requires room { length words.now ≤ room_of (first_of pool) }
    ensures answers { PlaceAnswers pool words.now tables.old tables.new result }
    ensures tables { AreTablesOf shared.now.table.shared.table_id shared.now.table.shared.key tables.new }
{
    writes_keep_index();
    writes_keep_tables();
    let take = tables.pools.take(pool);
    if let Take::Area(area) = take {
        tables.pools.write(shared, &mut tables.writer, area, words);
    }
    take
}

/// How much a change brings in.
fn incoming_count(change: &Change) -> usize
    ensures { result ≡ length (incoming change.now) }
{
    match change {
        Change::BringIn { modules, .. } => modules.len(),
        Change::HoldArea { .. } => 1,
        _ => 0,
    }
}

/// The pool of all that a change brings in.
fn incoming_pool(change: &Change) -> Pool
    ensures { (at : ℕ) (comes : Incoming) → slice_get (incoming change.now) at ≡ Some comes → result ≡ pool_of comes }
{
    match change {
        Change::BringIn { .. } => Pool::Big,
        Change::HoldArea { .. } => Pool::Small,
        Change::Nothing(_) => Pool::Big,
        Change::MakeOld { .. } => Pool::Big,
        Change::DropOld { .. } => Pool::Big,
        Change::Condemn { .. } => Pool::Big,
        Change::HoldWord { .. } => Pool::Big,
        Change::Forget { .. } => Pool::Big,
        Change::SetTrace { .. } => Pool::Big,
        Change::ClearTrace { .. } => Pool::Big,
        Change::GiveBack { .. } => Pool::Big,
    }
}

/// The words of what a change brings in at a place, with a serial.
fn incoming_words(
    alloc: Global,
    change: &Change,
    place: usize,
    serial: u64,
) -> Result<WordList, NoMemory>
    requires fits { FitsSome change.now }
    requires there { place < length (incoming change.now) }
    ensures { IfOk result (λ words. IsSomeAnd (slice_get (incoming change.now) place) (λ comes. words ≡ words_of serial comes)) }
{
    match change {
        Change::BringIn { modules, .. } => modules[place].words(alloc, serial),
        Change::HoldArea { stored, .. } => stored.words(alloc),
        _ => unreachable!(),
    }
}

/// Takes and writes the areas of what a change brings in, behind those that have theirs. Where memory is refused, those that were placed are
/// in the list.
///
/// Source: Erlang/OTP erts internal documentation, CodeLoading, and the manual page of persistent_term.
#[tactic(auto, using(crate::proofs::Known::known_on, crate::proofs::Known::known_same))]
pub fn place_incoming<K: Naming>(
    alloc: Global,
    tables: &mut Tables,
    shared: &Shared<CodeLaw<K>>,
    server: &Server,
    change: &Change,
    taken: &mut Vec<AreaRef>,
) -> Result<Placing, NoMemory>
    // the areas that were taken so far are placed
    requires tables { AreTablesOf shared.now.table.shared.table_id shared.now.table.shared.key tables.old }
    requires fits { Fits server.now change.now }
    requires placed { HavePlaced K.names server.now change.now tables.old taken.old.items }
    // whose tables they are stays
    ensures tables { AreTablesOf shared.now.table.shared.table_id shared.now.table.shared.key tables.new }
    ensures exports { tables.new.exports ≡ tables.old.exports }
    ensures index { tables.new.index ≡ tables.old.index }
    ensures terms { tables.new.terms ≡ tables.old.terms }
    // those that were taken now are placed besides
    ensures placed { HavePlaced K.names server.now change.now tables.new taken.new.items }
    ensures answers { IfOk result (PlacingAnswers change.now tables.new taken.new.items) }
    // nothing is published, and the writer keeps what it knew
    ensures published { (written_by tables.new.writer).published ≡ (written_by tables.old.writer).published }
    ensures known { KeepsKnown (written_by tables.old.writer) (written_by tables.new.writer) }
{
    for at in taken.len()..incoming_count(change) {
        match place_next(alloc, tables, shared, server, change, at, taken)? {
            Placing::Whole => {}
            Placing::AwaitRelease => return Ok(Placing::AwaitRelease),
        }
    }
    Ok(Placing::Whole)
}

/// Takes and writes the area of what a change brings in at this place, behind those before it.
#[tactic(auto, using(crate::proofs::Known::known_same))]
fn place_next<K: Naming>(
    alloc: Global,
    tables: &mut Tables,
    shared: &Shared<CodeLaw<K>>,
    _server: &Server,
    change: &Change,
    at: usize,
    taken: &mut Vec<AreaRef>,
) -> Result<Placing, NoMemory>
    // the tables are those of this table of words
    requires tables { AreTablesOf shared.now.table.shared.table_id shared.now.table.shared.key tables.old }
    // the change fits the server, the first of what it brings in has areas, and this is the next place
    requires fits { Fits _server.now change.now }
    requires placed { HavePlaced K.names _server.now change.now tables.old taken.old.items }
    requires next { at ≡ length taken.old.items }
    requires there { at < length (incoming change.now) }
    // the tables are as they were but for what was placed, and nothing is published
    ensures tables { AreTablesOf shared.now.table.shared.table_id shared.now.table.shared.key tables.new }
    ensures exports { tables.new.exports ≡ tables.old.exports }
    ensures index { tables.new.index ≡ tables.old.index }
    ensures terms { tables.new.terms ≡ tables.old.terms }
    // one more has its area, or none is free, or memory was refused
    ensures placed { HavePlaced K.names _server.now change.now tables.new taken.new.items }
    ensures answers { IfOk result (NextAnswers change.now at tables.new taken.new.items) }
    ensures err { OnErr result (length taken.new.items ≡ at) }
    ensures published { (written_by tables.new.writer).published ≡ (written_by tables.old.writer).published }
    ensures known { KeepsKnown (written_by tables.old.writer) (written_by tables.new.writer) }
{
    let serial = tables.pools.next_serial();
    if serial >= SERIALS_END {
        return Err(NoMemory);
    }
    let words = incoming_words(alloc, change, at, serial)?;
    taken.reserve(1)?;
    match place(tables, shared, incoming_pool(change), words.as_slice()) {
        Take::Area(area) => {
            taken.push_reserved(area);
            Ok(Placing::Whole)
        }
        Take::AwaitRelease => Ok(Placing::AwaitRelease),
        Take::AllLive => unreachable!(),
    }
}

/// Gives back the areas that a change has taken, the last one first.
pub fn give_back<K: Naming>(
    tables: &mut Tables,
    _shared: &Shared<CodeLaw<K>>,
    _server: &Server,
    _change: &Change,
    taken: Vec<AreaRef>,
)
    requires tables { AreTablesOf _shared.now.table.shared.table_id _shared.now.table.shared.key tables.old }
    requires placed { HavePlaced K.names _server.now _change.now tables.old taken.items }
    requires index { tables.old.index ≡ indices.Nothing }
    ensures tables { AreTablesOf _shared.now.table.shared.table_id _shared.now.table.shared.key tables.new }
    ensures exports { tables.new.exports ≡ tables.old.exports }
    ensures rest { AreAtRest K.names _server.now tables.new }
    ensures view { written_by tables.new.writer ≡ written_by tables.old.writer }
{
    let mut taken = taken;
    for back in 0..taken.len() {
        let Some(area) = taken.pop() else {
            unreachable!()
        };
        tables.pools.give_back(area);
    }
}
