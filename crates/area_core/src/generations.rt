//! What a published generation says, and which words stand for that.

ghost use Rattle.std.specs.Prelude.{◌≡◌, ◌==◌, ◌&&◌};
ghost use Rattle.std.specs.List.{list_any};
ghost use Rattle.area_core.specs.Generations.{are_alike, functions_in_image, has_area, has_function, has_image, has_serial, holds_area, is_area_word, is_code_word, is_current, is_doomed_area, is_entry_word, is_instance, is_kept, is_kept_as, is_key_area, is_reached, is_retired_area, is_term_word, is_traced_function, is_used, leads_to, anchor_names_area, names_frame, names_literal, same_words, serial_in, tells, traced_word};

use crate::map::BIG_BLOCKS;
use crate::table::{KeptArea, Published};
use term_core::{AreaRef, AreaWords, FunctionRef, Holding};

/// Whether the serial is one of these.
pub fn has_serial(serials: &[u64], serial: u64) -> bool
    ensures { result ≡ has_serial serials.now serial }
{
    serials.iter().any(|held| *held == serial)
}

impl Published {
    /// Whether the instance is current.
    pub fn is_current(&self, serial: u64) -> bool
        ensures { result ≡ is_current self.now serial }
    {
        has_serial(self.state.current.as_slice(), serial)
    }

    /// Whether the instance is current or old.
    pub fn is_instance(&self, serial: u64) -> bool
        ensures { result ≡ is_instance self.now serial }
    {
        self.is_current(serial) || has_serial(self.state.old.as_slice(), serial)
    }

    /// Whether the area is that of a key.
    pub fn is_key_area(&self, serial: u64) -> bool
        ensures { result ≡ is_key_area self.now serial }
    {
        self.state
            .keys
            .as_slice()
            .iter()
            .any(|key| holds_area(serial, key.holding))
    }

    /// Whether a turn may come to the area by an external call or by a key.
    pub fn is_reached(&self, serial: u64) -> bool
        ensures { result ≡ is_reached self.now serial }
    {
        self.is_current(serial) || self.is_key_area(serial)
    }

    /// Whether the area is a current or old instance or that of a key.
    pub fn is_used(&self, serial: u64) -> bool
        ensures { result ≡ is_used self.now serial }
    {
        self.is_instance(serial) || self.is_key_area(serial)
    }

    /// Whether the area was dropped.
    pub fn is_retired(&self, serial: u64) -> bool
        ensures { result ≡ is_retired_area self.now serial }
    {
        has_serial(self.state.retired.as_slice(), serial)
    }

    /// Whether the instance is purged.
    pub fn is_doomed(&self, serial: u64) -> bool
        ensures { result ≡ is_doomed_area self.now serial }
    {
        has_serial(self.state.doomed.as_slice(), serial)
    }

    /// Whether calls of the function are traced.
    pub fn is_traced(&self, serial: u64, function: u32) -> bool
        ensures { result ≡ is_traced_function self.now serial function }
    {
        self.state.traced.as_slice().iter().any(|traced| traced.serial == serial
            && traced.function == function)
    }
}

/// Whether what a key holds is this area.
fn holds_area(serial: u64, holding: Holding) -> bool
    ensures { result ≡ holds_area serial holding }
{
    match holding {
        Holding::Word(_) => false,
        Holding::Area(held) => held == serial,
    }
}

/// Whether the area of this serial has this block.
fn has_area(areas: &[AreaRef], serial: u64, block: u32) -> bool
    ensures { result ≡ has_area areas.now serial block }
{
    areas
        .iter()
        .any(|area| area.serial == serial && area.block == block)
}

/// Whether the words are these.
fn same_words(words: &[u64], others: &[u64]) -> bool
    ensures { result ≡ same_words words.now others.now }
{
    words == others
}

/// Whether the area of this serial has this image.
fn has_image(areas: &[AreaWords], serial: u64, words: &[u64]) -> bool
    ensures { result ≡ has_image areas.now serial words.now }
{
    areas.iter().any(|area| area.serial == serial && same_words(area.words.as_slice(), words))
}

impl KeptArea {
    /// Whether it is the area of this serial as the generation has it: in its block, and with its image.
    pub fn is_kept_as(&self, published: &Published, serial: u64) -> bool
        ensures { result ≡ is_kept_as published.now serial self.now }
    {
        self.area.serial == serial
            && has_area(published.areas.as_slice(), serial, self.area.block)
            && has_image(
                published.state.areas.as_slice(),
                serial,
                self.words.as_slice(),
            )
    }

    /// Whether it is an instance, by its block, and has this function.
    pub fn has_function(&self, function: u32) -> bool
        ensures { result ≡ has_function self.now function }
    {
        self.area.block < BIG_BLOCKS && u64::from(function) < functions_of(self.words.as_slice())
    }

    /// Whether this word of it is the entry word of a function.
    pub fn is_entry_word(&self, at: u32) -> bool
        ensures { result ≡ is_entry_word self.now at }
    {
        6 <= at && at % 4 == 2 && self.has_function(at / 4 - 1)
    }
}

/// Whether an area of this serial is kept.
pub fn is_kept(kept: &[KeptArea], serial: u64) -> bool
    ensures { result ≡ is_kept kept.now serial }
{
    kept.iter().any(|area| area.area.serial == serial)
}

/// How many functions the image of an instance has.
pub fn functions_of(words: &[u64]) -> u64
    ensures { result ≡ functions_in_image words.now }
{
    words.get(3).copied().unwrap_or(0)
}

/// Whether the word of a code index leads to this function of the instance in this block.
fn leads_to(to: FunctionRef, area: AreaRef, word: u64) -> bool
    ensures { result ≡ leads_to to area word }
{
    area.serial == to.serial && word == 1 + u64::from(area.block) * 16 + u64::from(to.function)
}

/// Whether the word of a code index stands for what a function name reaches.
pub fn is_code_word(published: &Published, reached: Option<Option<FunctionRef>>, word: u64) -> bool
    ensures { result ≡ is_code_word published.now reached word }
{
    match reached {
        None => word == 0,
        Some(None) => word == 0,
        Some(Some(to)) => is_led_to(published.areas.as_slice(), to, word),
    }
}

/// Whether the word leads to this function of one of the areas.
fn is_led_to(areas: &[AreaRef], to: FunctionRef, word: u64) -> bool
    ensures { result ≡ list_any (λ a. leads_to to a word) areas.now }
{
    areas.iter().any(|area| leads_to(to, *area, word))
}

/// The word of a breakpoint index that stands for whether a function is traced.
pub fn traced_word(published: &Published, serial: u64, function: u32) -> u64
    ensures { result ≡ traced_word published.now serial function }
{
    if published.is_traced(serial, function) {
        1
    } else {
        0
    }
}

/// Whether the word of a term table leads to the area.
fn is_area_word(area: AreaRef, word: u64) -> bool
    ensures { result ≡ is_area_word area word }
{
    word % 16 == 5 && word / 16 % 512 == u64::from(area.block) && word / 8192 == area.serial
}

/// Whether the word of a term table stands for what a key holds.
pub fn is_term_word(published: &Published, holding: Holding, word: u64) -> bool
    ensures { result ≡ is_term_word published.now holding word }
{
    match holding {
        Holding::Word(value) => word == value,
        Holding::Area(serial) => is_word_to(published.areas.as_slice(), serial, word),
    }
}

/// Whether the word leads to the area of this serial.
fn is_word_to(areas: &[AreaRef], serial: u64, word: u64) -> bool
    ensures { result ≡ list_any (λ a. (a.serial == serial) && is_area_word a word) areas.now }
{
    areas
        .iter()
        .any(|area| area.serial == serial && is_area_word(*area, word))
}

/// Whether a retire or doom word tells that something is so under the generation.
pub fn tells(word: u64, generation: u64) -> bool
    ensures { result ≡ tells word generation }
{
    word != 0 && word <= generation
}

/// Whether both are so, or neither.
pub fn agrees(one: bool, other: bool) -> bool
    ensures { result ≡ are_alike one other }
{
    if one { other } else { !other }
}

/// The serial of the area that an anchor tells of.
pub fn serial_in(word: u64) -> u64
    ensures { result ≡ serial_in word }
{
    word / 4
}

/// Whether an anchor names this area.
pub fn names(word: u64, serial: u64) -> bool
    ensures { result ≡ anchor_names_area word serial }
{
    word % 4 != 0 && serial_in(word) == serial
}

/// Whether an anchor names this area for a frame.
pub fn names_frame(word: u64, serial: u64) -> bool
    ensures { result ≡ names_frame word serial }
{
    word % 2 == 1 && serial_in(word) == serial
}

/// Whether an anchor names this area for a literal.
pub fn names_literal(word: u64, serial: u64) -> bool
    ensures { result ≡ names_literal word serial }
{
    2 <= word % 4 && serial_in(word) == serial
}
