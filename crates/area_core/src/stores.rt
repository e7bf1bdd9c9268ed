//! When a store of one word keeps the block invariant.

ghost use Rattle.std.specs.Prelude.{◌≡◌, ◌||◌, not, slice_get};
ghost use Rattle.std.specs.List.{list_any};
ghost use Rattle.area_core.specs.Readers.{holds_at, holds_of_each};
ghost use Rattle.area_core.specs.Generations.{is_doomed_area, is_retired_area, is_traced_function, is_used, tells, are_alike};
ghost use Rattle.area_core.specs.Stores.{entry_word, holds_in_block, kept_after, is_framed, is_function_of, is_image_word, is_released_by, is_untraced, may_be_doom, may_be_entry, may_be_in_image, may_be_retire, may_name_frame, may_name_literal, may_release, may_store_anchor, may_store_entry, may_store_in_block, may_store_slot, stands_elsewhere};

use crate::generations::{agrees, names_frame, names_literal, serial_in, tells};
use crate::map::{ANCHORS, WordKind, slot_place};
use crate::readers::{Slots, is_named};
use crate::table::{KeptArea, Published, Table, WordTable, is_released_at};
use term_core::CodeRef;

impl Table {
    /// Whether none of these generations traces the function.
    fn is_untraced(&self, generations: &[u64], serial: u64, function: u32) -> bool
        ensures { result ≡ is_untraced self.now generations.now serial function }
    {
        let published = self.published.as_slice();
        generations.iter().all(|generation| leaves_untraced(
            published,
            *generation,
            serial,
            function,
        ))
    }

    /// Whether the entry word of a function may become this.
    fn may_be_entry(&self, generations: &[u64], serial: u64, function: u32, value: u64) -> bool
        ensures { result ≡ may_be_entry self.now generations.now serial function value }
    {
        value != 0 || self.is_untraced(generations, serial, function)
    }

    /// Whether a word of a kept area may become this value.
    fn may_be_in_image(&self, generations: &[u64], at: u32, value: u64, area: &KeptArea) -> bool
        ensures { result ≡ may_be_in_image self.now generations.now at value area.now }
    {
        if area.is_entry_word(at) {
            self.may_be_entry(
                generations,
                area.area.serial,
                (at / 4).saturating_sub(1),
                value,
            )
        } else {
            is_image_word(area.words.as_slice().get(at as usize).copied(), value)
        }
    }

    /// Whether a word of a block may be stored: no thread may read it, and kept areas keep their
    /// images.
    pub fn may_store_in_block(&self, generations: &[u64], block: u32, at: u32, value: u64) -> bool
        ensures { result ≡ may_store_in_block self.now generations.now block at value }
    {
        !self.is_read(generations, WordKind::InBlock { block, at })
            && self.may_all_be_in_image(generations, block, at, value)
    }

    /// Whether each kept area in the block keeps its image.
    fn may_all_be_in_image(&self, generations: &[u64], block: u32, at: u32, value: u64) -> bool
        ensures { result ≡ holds_in_block self.now.kept block (may_be_in_image self.now generations.now at value) }
    {
        self.kept.as_slice().iter().all(|area| {
            area.area.block != block || self.may_be_in_image(generations, at, value, area)
        })
    }

    /// Whether the store of this value into its retire word releases the area.
    fn is_released_by(&self, value: u64, area: &KeptArea) -> bool
        ensures { result ≡ is_released_by self.now value area.now }
    {
        let generation = self.progress.generation();
        is_released_at(self.published.as_slice(), generation, value, area)
    }

    /// Whether the area may be released: no slot names it, and no generation uses it.
    fn may_release(&self, generations: &[u64], area: &KeptArea) -> bool
        ensures { result ≡ may_release self.now generations.now area.now }
    {
        !is_named(Slots::All, &self.words, area.area.serial)
            && self.is_unused(generations, area.area.serial)
    }

    /// Whether none of these generations uses the area.
    fn is_unused(&self, generations: &[u64], serial: u64) -> bool
        ensures { result ≡ holds_of_each self.now.published generations.now (λ g p. not (is_used p serial)) }
    {
        let published = self.published.as_slice();
        generations
            .iter()
            .all(|generation| leaves_unused(published, *generation, serial))
    }

    /// Whether a retire word of this value tells of the area what each of these generations says.
    fn tells_retired(&self, generations: &[u64], value: u64, area: &KeptArea) -> bool
        ensures { result ≡ holds_of_each self.now.published generations.now (λ g p. are_alike (tells value g) (is_retired_area p area.now.area.serial)) }
    {
        let published = self.published.as_slice();
        let serial = area.area.serial;
        generations.iter().all(|generation| tells_retired(published, *generation, value, serial))
    }

    /// Takes out the area that the store of this value into the retire word of the block releases.
    pub fn release(&mut self, block: u32, value: u64)
        ensures { self.new ≡ record self.old { kept = kept_after self.old block value } }
    {
        let generation = self.progress.generation();
        self.kept
            .release(self.published.as_slice(), generation, block, value);
    }

    /// Whether the retire word of a kept area may become this value.
    pub fn may_be_retire(&self, generations: &[u64], value: u64, area: &KeptArea) -> bool
        ensures { result ≡ may_be_retire self.now generations.now value area.now }
    {
        if self.is_released_by(value, area) {
            self.may_release(generations, area)
        } else {
            self.tells_retired(generations, value, area)
        }
    }

    /// Whether the doom word of a kept area may become this value.
    pub fn may_be_doom(&self, generations: &[u64], value: u64, area: &KeptArea) -> bool
        ensures { result ≡ may_be_doom self.now generations.now value area.now }
    {
        let published = self.published.as_slice();
        let serial = area.area.serial;
        generations.iter().all(|generation| tells_doomed(published, *generation, value, serial))
    }

    /// Whether the entry word of a function may be stored.
    pub fn may_store_entry(&self, generations: &[u64], at: CodeRef, on: bool) -> bool
        ensures { result ≡ may_store_entry self.now generations.now at on }
    {
        has_function_of(at, self.kept.as_slice())
            && self.may_be_entry(generations, at.area.serial, at.function, entry_word(on))
    }

    /// Whether an anchor may be stored by a process under this generation.
    fn may_store_anchor(&self, process: u32, place: u32, value: u64, published: &Published) -> bool
        ensures { result ≡ may_store_anchor self.now process place value published.now }
    {
        let old = self.words.get(slot_place(process, place));
        let serial = serial_in(value);
        (value == 0 || !stands_elsewhere(&self.words, process, place, serial, ANCHORS))
            && may_name_frame(published, old, value)
            && may_name_literal(published, &self.words, process, old, value)
    }

    /// Whether a word of a slot may be stored by a process under the generation of this number.
    pub fn may_store_slot(&self, process: u32, place: u32, value: u64, generation: u64) -> bool
        ensures { result ≡ may_store_slot self.now process place value (slice_get self.now.published generation) }
    {
        match self.published.get(generation as usize) {
            None => false,
            Some(published) => {
                place == 0 || self.may_store_anchor(process, place, value, published)
            }
        }
    }
}

/// Whether the generation does not trace the function.
fn leaves_untraced(published: &[Published], generation: u64, serial: u64, function: u32) -> bool
    ensures { result ≡ holds_at published.now (λ g p. not (is_traced_function p serial function)) generation }
{
    match published.get(generation as usize) {
        None => true,
        Some(published) => !published.is_traced(serial, function),
    }
}

/// Whether the generation does not use the area.
fn leaves_unused(published: &[Published], generation: u64, serial: u64) -> bool
    ensures { result ≡ holds_at published.now (λ g p. not (is_used p serial)) generation }
{
    match published.get(generation as usize) {
        None => true,
        Some(published) => !published.is_used(serial),
    }
}

/// Whether a retire word of this value tells of the area what the generation says.
fn tells_retired(published: &[Published], generation: u64, value: u64, serial: u64) -> bool
    ensures { result ≡ holds_at published.now (λ g p. are_alike (tells value g) (is_retired_area p serial)) generation }
{
    match published.get(generation as usize) {
        None => true,
        Some(published) => agrees(tells(value, generation), published.is_retired(serial)),
    }
}

/// Whether a doom word of this value tells of the area what the generation says.
fn tells_doomed(published: &[Published], generation: u64, value: u64, serial: u64) -> bool
    ensures { result ≡ holds_at published.now (λ g p. is_retired_area p serial || are_alike (tells value g) (is_doomed_area p serial)) generation }
{
    match published.get(generation as usize) {
        None => true,
        Some(published) => {
            published.is_retired(serial)
                || agrees(tells(value, generation), published.is_doomed(serial))
        }
    }
}

/// Whether the function is one of a kept instance.
fn has_function_of(at: CodeRef, kept: &[KeptArea]) -> bool
    ensures { result ≡ list_any (is_function_of at) kept.now }
{
    kept.iter().any(|area| is_function_of(at, area))
}

/// The entry word as it is stored: 1 where it is on.
pub fn entry_word(on: bool) -> u64
    ensures { result ≡ entry_word on }
{
    if on { 1 } else { 0 }
}

/// Whether the word of an image, if there is one, is this value.
pub fn is_image_word(word: Option<u64>, value: u64) -> bool
    ensures { result ≡ is_image_word word value }
{
    match word {
        None => true,
        Some(word) => word == value,
    }
}

/// Whether the function is one of this kept instance.
fn is_function_of(at: CodeRef, area: &KeptArea) -> bool
    ensures { result ≡ is_function_of at area.now }
{
    area.area.serial == at.area.serial
        && area.area.block == at.area.block
        && area.has_function(at.function)
}

/// Whether another of the first so many anchors of the slot has this serial.
#[tactic(auto, using(crate::proofs::Counted::elsewhere_none, crate::proofs::Counted::elsewhere_next))]
fn stands_elsewhere(words: &WordTable, process: u32, place: u32, serial: u64, count: u32) -> bool
    ensures { result ≡ stands_elsewhere words.now process place serial count }
{
    let mut stands = false;
    for before in 0..count {
        let word = words.get(slot_place(process, before + 1));
        stands = stands || (before + 1 != place && word != 0 && serial_in(word) == serial);
    }
    stands
}

/// Whether one of the first so many anchors of the slot names the area for a frame.
#[tactic(auto, using(crate::proofs::Counted::framed_none, crate::proofs::Counted::framed_next))]
fn is_framed(words: &WordTable, process: u32, serial: u64, count: u32) -> bool
    ensures { result ≡ is_framed words.now process serial count }
{
    let mut framed = false;
    for before in 0..count {
        let word = words.get(slot_place(process, before + 1));
        framed = framed || names_frame(word, serial);
    }
    framed
}

/// Whether what an anchor newly names for a frame is current.
fn may_name_frame(published: &Published, old: u64, value: u64) -> bool
    ensures { result ≡ may_name_frame published.now old value }
{
    let serial = serial_in(value);
    !names_frame(value, serial) || names_frame(old, serial) || published.is_current(serial)
}

/// Whether what an anchor newly names for a literal is the area of a key, or one that the slot names
/// for a frame.
fn may_name_literal(
    published: &Published,
    words: &WordTable,
    process: u32,
    old: u64,
    value: u64,
) -> bool
    ensures { result ≡ may_name_literal published.now words.now process old value }
{
    let serial = serial_in(value);
    !names_literal(value, serial)
        || names_literal(old, serial)
        || published.is_key_area(serial)
        || is_framed(words, process, serial, ANCHORS)
}
