//! What a state of blocks and slots is made of.

ghost use Rattle.std.specs.Prelude.{◌≡◌, ◌++◌, ◌∷◌, [], ◌==◌, ◌&&◌, not, length, take, slice_get, slice_set, IfOk, OnOk, OnErr};
ghost use Rattle.std.specs.List.{filter};
ghost use Rattle.area_core.specs.Stores.{is_released_at, is_retired_in};
ghost use Rattle.area_core.specs.Map.{word_at, opening_words};

use prgr_core::PrgrState;
use std::alloc::Global;
use std::marker::Model;
use term_core::{AreaRef, AreaRefList, Generation, Items, NoMemory, WordList};

/// What the root names: which of the blocks of each sort a generation reads.
#[derive(Clone, Copy, Debug, PartialEq, Eq)]
pub struct Root {
    /// The active code index, from 0.
    pub code: u32,
    /// The active breakpoint index, from 0.
    pub bp: u32,
    /// The active term table, from 0.
    pub term: u32,
}

/// A generation that was published, with its root and the blocks of its areas.
#[derive(Debug, Drop)]
pub struct Published {
    pub root: Root,
    pub state: Generation,
    pub areas: AreaRefList,
}

/// An area that was published and not yet released, with its block and its image.
#[derive(Debug, Drop)]
pub struct KeptArea {
    pub area: AreaRef,
    pub words: WordList,
}

/// The generations from 0 on.
pub type PublishedList = Items<Published>;

/// Kept areas in a row.
#[derive(Debug, Drop)]
pub struct KeptList {
    areas: Vec<KeptArea>,
}

impl Model for KeptList {
    ghost use Rattle.std.specs.Prelude.{List};
    ghost use Rattle.area_core.specs.declared.table.KeptArea.{KeptArea};

    ghost Value = { List KeptArea };

    ghost view = { λ l. l.areas.items };
}

impl KeptList {
    /// No area, in no memory.
    pub fn new(alloc: Global) -> KeptList
        ensures { result ≡ [] }
    {
        KeptList {
            areas: Vec::new(alloc),
        }
    }

    /// The areas in their order.
    pub fn as_slice(&self) -> &[KeptArea]
        ensures { result.now ≡ self.now }
    {
        self.areas.as_slice()
    }

    /// How many areas there are.
    pub fn len(&self) -> usize
        ensures { result ≡ length self.now }
    {
        self.areas.len()
    }

    /// Appends one area. Where memory is refused, nothing is appended.
    pub fn push(&mut self, area: KeptArea) -> Result<(), NoMemory>
        ensures ok { OnOk result (self.new ≡ self.old ++ area ∷ []) }
        ensures err { OnErr result (self.new ≡ self.old) }
    {
        self.areas.push(area)?;
        Ok(())
    }

    /// Appends these areas. Where memory is refused, nothing is appended.
    pub fn append(&mut self, areas: KeptList) -> Result<(), NoMemory>
        ensures ok { OnOk result (self.new ≡ self.old ++ areas) }
        ensures err { OnErr result (self.new ≡ self.old) }
    {
        let mut areas = areas.areas;
        self.areas.append(&mut areas)?;
        Ok(())
    }

    /// Drops the areas from a place on.
    pub fn truncate(&mut self, len: usize)
        ensures { self.new ≡ take len self.old }
    {
        self.areas.truncate(len);
    }

    /// Takes out the areas in the block that the generation of this number has retired, where the
    /// value is 0.
    pub fn release(&mut self, published: &[Published], generation: u64, block: u32, value: u64)
        ensures { self.new ≡ filter (λ k. not ((k.area.block == block) && is_released_at (slice_get published.now generation) value k)) self.old }
    {
        self.areas.retain(|area| {
            !(area.area.block == block && is_released_at(published, generation, value, area))
        });
    }
}

/// Whether the store of this value releases the area: 0, where the generation has retired it.
pub fn is_released_at(published: &[Published], generation: u64, value: u64, area: &KeptArea) -> bool
    ensures { result ≡ is_released_at (slice_get published.now generation) value area.now }
{
    value == 0 && is_retired_in(published, generation, area.area.serial)
}

/// Whether what was published under the number has retired the area.
fn is_retired_in(published: &[Published], generation: u64, serial: u64) -> bool
    ensures { result ≡ is_retired_in (slice_get published.now generation) serial }
{
    match published.get(generation as usize) {
        None => false,
        Some(published) => published.is_retired(serial),
    }
}

/// The words of the shared table from its first on. The words before the slots stand in the progress
/// machine; here they are not read.
#[derive(Debug, Drop)]
pub struct WordTable {
    words: Vec<u64>,
}

impl Model for WordTable {
    ghost use Rattle.std.specs.Prelude.{List, ℕ};

    ghost Value = { List ℕ };

    ghost view = { λ t. t.words.items };
}

impl WordTable {
    /// So many words, each 0.
    pub fn new(alloc: Global, count: usize) -> Result<WordTable, NoMemory>
        ensures { IfOk result (λ words. words ≡ opening_words count) }
    {
        let words = vec![in alloc; 0; count]?;
        Ok(WordTable { words })
    }

    /// The word at a place, or 0 where the table has no such word.
    pub fn get(&self, place: u64) -> u64
        ensures { result ≡ word_at self.now place }
    {
        self.words.get(place as usize).copied().unwrap_or(0)
    }

    /// Stores a word.
    pub fn set(&mut self, place: u64, value: u64)
        ensures { self.new ≡ slice_set self.old place value }
    {
        if (place as usize) < self.words.len() {
            self.words[place as usize] = value;
        }
    }
}

/// A state of the progress machine, the words of the table, and what is known of them.
#[derive(Debug, Drop)]
pub struct Table {
    pub progress: PrgrState,
    pub words: WordTable,
    pub published: PublishedList,
    /// The areas from their publication to their release.
    pub kept: KeptList,
}
