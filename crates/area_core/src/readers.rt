//! Which words a thread may read.

ghost use Rattle.std.specs.Prelude.{◌≡◌, ◌+◌, ◌/◌, slice_get, OnOk, IfOk, ◌++◌};
ghost use Rattle.std.specs.List.{flat_map, list_any};
ghost use Rattle.std.specs.Option.{option_to_list};
ghost use Rattle.area_core.specs.Readers.{in_member, in_watcher, has_root, held_by, held_by_member, held_by_watcher, held_generations, has_instance_in, is_block_named, is_named_area, is_named_before, is_slot_of, is_read, is_read_under, may_read, own_slots_read, reaches_block, readable_generations, reads_in_block, reads_word, slots_read};

use crate::event::SeatName;
use crate::generations::names;
use crate::map::{
    ANCHORS, AREAS_START, BREAKPOINTS_START, FUNCTIONS, PROCESSES, TERMS_START, WordKind,
    anchor_place, kind_of,
};
use crate::table::{Published, Table, WordTable};
use prgr_core::{ENTERING, Loaded, Member, Phase, PrgrState, Watcher};
use std::alloc::Global;
use term_core::{CountList, NoMemory};

/// Slots of processes.
#[derive(Clone, Copy, Debug, PartialEq, Eq)]
pub enum Slots {
    All,
    /// Those of the processes of a member, of so many members; processes are dealt out in turn.
    OfMember { member: u32, members: usize },
}

impl Slots {
    /// Whether the slot of the process is one of these.
    pub fn has(self, process: u32) -> bool
        ensures { result ≡ is_slot_of self process }
    {
        match self {
            Slots::All => true,
            Slots::OfMember { member, members } => {
                members != 0 && process as usize % members == member as usize
            },
        }
    }
}

/// Whether the member has loaded the root since it loaded the counter.
fn has_root(loaded: Loaded) -> bool
    ensures { result ≡ has_root loaded }
{
    match loaded {
        Loaded::Nothing => false,
        Loaded::Counter(_) => false,
        Loaded::CounterAndRoot(_) => true,
    }
}

/// The generation that a member may read.
fn held_by_member(member: &Member) -> Option<u64>
    ensures { result ≡ held_by_member member.now }
{
    if member.is_awake() || (member.word == ENTERING && has_root(member.loaded)) {
        Some(member.generation)
    } else {
        None
    }
}

/// The generation that a watcher may read.
fn held_by_watcher(watcher: &Watcher) -> Option<u64>
    ensures { result ≡ held_by_watcher watcher.now }
{
    match watcher.phase {
        Phase::Claimed(_) => watcher.generation,
        _ => None,
    }
}

/// The generations that members and watchers hold.
pub fn held_generations(alloc: Global, progress: &PrgrState) -> Result<CountList, NoMemory>
    ensures { IfOk result (λ generations. generations ≡ held_generations progress.now) }
{
    let mut generations = CountList::new(alloc);
    push_members(&mut generations, progress.members())?;
    push_watchers(&mut generations, progress.watchers())?;
    Ok(generations)
}

/// The generations that some thread may read, or may come to by one load of the root.
pub fn readable_generations(alloc: Global, progress: &PrgrState) -> Result<CountList, NoMemory>
    ensures { IfOk result (λ generations. generations ≡ readable_generations progress.now) }
{
    let mut generations = CountList::new(alloc);
    generations.push(progress.generation())?;
    push_members(&mut generations, progress.members())?;
    push_watchers(&mut generations, progress.watchers())?;
    Ok(generations)
}

/// Appends a generation, if there is one.
fn push_held(generations: &mut CountList, held: Option<u64>) -> Result<(), NoMemory>
    ensures { OnOk result (generations.new ≡ generations.old ++ option_to_list held) }
{
    match held {
        None => Ok(()),
        Some(generation) => generations.push(generation),
    }
}

/// Appends the generations that members hold.
fn push_members(generations: &mut CountList, members: &[Member]) -> Result<(), NoMemory>
    ensures { OnOk result (generations.new ≡ generations.old ++ flat_map in_member members.now) }
{
    for member in members {
        push_held(generations, held_by_member(member))?;
    }
    Ok(())
}

/// Appends the generations that watchers hold.
fn push_watchers(generations: &mut CountList, watchers: &[Watcher]) -> Result<(), NoMemory>
    ensures { OnOk result (generations.new ≡ generations.old ++ flat_map in_watcher watchers.now) }
{
    for watcher in watchers {
        push_held(generations, held_by_watcher(watcher))?;
    }
    Ok(())
}

impl Published {
    /// Whether it reaches an area in the block.
    fn reaches_block(&self, block: u32) -> bool
        ensures { result ≡ reaches_block self.now block }
    {
        self.areas
            .as_slice()
            .iter()
            .any(|area| area.block == block && self.is_reached(area.serial))
    }

    /// Whether a current or old instance of it is in the block.
    fn has_instance_in(&self, block: u32) -> bool
        ensures { result ≡ has_instance_in self.now block }
    {
        self.areas.as_slice().iter().any(|area| area.block == block
            && self.is_instance(area.serial))
    }

    /// Whether a turn under it may read this word of a block.
    fn reads_in_block(&self, block: u32, at: u32) -> bool
        ensures { result ≡ reads_in_block self.now block at }
    {
        if block < BREAKPOINTS_START {
            block == self.root.code
        } else if block < TERMS_START {
            u64::from(block) == u64::from(BREAKPOINTS_START) + u64::from(self.root.bp)
                && self.has_instance_in(instance_block(at))
        } else if block < AREAS_START {
            u64::from(block) == u64::from(TERMS_START) + u64::from(self.root.term)
        } else {
            self.reaches_block(block)
        }
    }

    /// Whether a turn under it may read this word.
    fn reads_word(&self, kind: WordKind) -> bool
        ensures { result ≡ reads_word kind self.now }
    {
        match kind {
            WordKind::Machine => false,
            WordKind::Slot => false,
            WordKind::Retire { block } => self.reaches_block(block),
            WordKind::Doom { block } => self.reaches_block(block),
            WordKind::InBlock { block, at } => self.reads_in_block(block, at),
            WordKind::Nowhere => false,
        }
    }
}

/// The block of the instance to which a word of a breakpoint index belongs.
fn instance_block(at: u32) -> u32
    ensures { result ≡ AREAS_START + at / FUNCTIONS }
{
    AREAS_START + at / FUNCTIONS
}

/// Whether one of the first so many anchors of these slots names the area.
#[tactic(auto, using(crate::proofs::Counted::named_none, crate::proofs::Counted::named_next))]
fn is_named_before(slots: Slots, words: &WordTable, serial: u64, count: u32) -> bool
    ensures { result ≡ is_named_before slots words.now serial count }
{
    let mut named = false;
    for anchor in 0..count {
        named = named
            || (slots.has(anchor / ANCHORS) && names(words.get(anchor_place(anchor)), serial));
    }
    named
}

/// Whether an anchor of these slots names the area.
pub fn is_named(slots: Slots, words: &WordTable, serial: u64) -> bool
    ensures { result ≡ is_named_area slots words.now serial }
{
    is_named_before(slots, words, serial, PROCESSES * ANCHORS)
}

/// Whether what was published under the generation lets a turn read this word.
fn is_read_under(kind: WordKind, published: &[Published], generation: u64) -> bool
    ensures { result ≡ is_read_under kind (slice_get published.now generation) }
{
    match published.get(generation as usize) {
        None => false,
        Some(published) => published.reads_word(kind),
    }
}

/// Whether a turn under one of these generations may read the word.
fn is_read_by(published: &[Published], generations: &[u64], kind: WordKind) -> bool
    ensures { result ≡ list_any (λ g. is_read_under kind (slice_get published.now g)) generations.now }
{
    generations
        .iter()
        .any(|generation| is_read_under(kind, published, *generation))
}

impl Table {
    /// Whether an anchor of these slots names the kept area in the block.
    fn is_block_named(&self, slots: Slots, block: u32) -> bool
        ensures { result ≡ is_block_named slots self.now block }
    {
        self.kept.as_slice().iter().any(|area| area.area.block == block
            && is_named(slots, &self.words, area.area.serial))
    }

    /// Whether the word is one of an area that these slots name.
    fn slots_read(&self, slots: Slots, kind: WordKind) -> bool
        ensures { result ≡ slots_read slots self.now kind }
    {
        match kind {
            WordKind::Machine => false,
            WordKind::Slot => false,
            WordKind::Retire { block } => self.is_block_named(slots, block),
            WordKind::Doom { block } => self.is_block_named(slots, block),
            WordKind::InBlock { block, .. } => self.is_block_named(slots, block),
            WordKind::Nowhere => false,
        }
    }

    /// Whether the word is one of an area that the slots of the seat name.
    fn own_slots_read(&self, seat: SeatName, kind: WordKind) -> bool
        ensures { result ≡ own_slots_read self.now seat kind }
    {
        match seat {
            SeatName::Writer => false,
            SeatName::Member(member) => {
                let members = self.progress.members().len();
                self.slots_read(Slots::OfMember { member, members }, kind)
            }
            SeatName::Watcher(_) => false,
        }
    }

    /// The generation that a seat holds.
    fn held_by(&self, seat: SeatName) -> Option<u64>
        ensures { result ≡ held_by self.now.progress seat }
    {
        match seat {
            SeatName::Writer => Some(self.progress.generation()),
            SeatName::Member(member) => {
                held_by_member(self.progress.members().get(member as usize)?)
            }
            SeatName::Watcher(watcher) => {
                held_by_watcher(self.progress.watchers().get(watcher as usize)?)
            }
        }
    }

    /// Whether the seat may read the word.
    pub fn may_read(&self, seat: SeatName, word: u32) -> bool
        ensures { result ≡ may_read self.now seat word }
    {
        let kind = kind_of(word);
        match self.held_by(seat) {
            None => false,
            Some(generation) => {
                is_read_under(kind, self.published.as_slice(), generation)
                    || self.own_slots_read(seat, kind)
            }
        }
    }

    /// Whether some thread may read the word, under one of these generations or by a slot.
    pub fn is_read(&self, generations: &[u64], kind: WordKind) -> bool
        ensures { result ≡ is_read self.now generations.now kind }
    {
        is_read_by(self.published.as_slice(), generations, kind)
            || self.slots_read(Slots::All, kind)
    }
}
