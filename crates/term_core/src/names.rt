ghost use Rattle.std.specs.Prelude.{◌≡◌, ◌↔◌, IsTrue, IsAscii, IfOk, OnOk, OnErr, IsErrOf, None, length, slice_get, option_map};
ghost use Rattle.std.specs.List.{list_all};
ghost use Rattle.term_core.specs.Names.{IsNames, AtomText, is_name_byte, is_atom_text as is_text_of_atom, number_of, names_with, given_names, set_texts};

use crate::atom::AtomId;
use crate::no_memory::NoMemory;
use indexmap::IndexSet;
use std::alloc::{AllocError, AllocFailed, Global};
use std::marker::Model;
use std::str;

/// How many names a table holds at most, with the three given ones.
pub const MOST_NAMES: usize = 4096;

/// How many bytes an atom has at most.
pub const LONGEST_ATOM: usize = 32;

/// Why a text got no number.
#[derive(Clone, Copy, Debug, PartialEq, Eq)]
pub enum NameFault {
    /// The text is new and the table is full.
    Full,
    /// Memory was refused. No clause says when.
    NoMemory,
}

impl From<AllocError> for NameFault {
    ghost use Rattle.std.specs.Prelude.{◌≡◌};
    ghost use Rattle.term_core.specs.declared.names.NameFault.TheVariants as faults;

    ghost from_gives = { λ _ e. e ≡ faults.NoMemory };

    fn from(_refused: AllocError) -> NameFault {
        NameFault::NoMemory
    }
}

impl<T: Drop> From<AllocFailed<T>> for NameFault {
    ghost use Rattle.std.specs.Prelude.{◌≡◌};
    ghost use Rattle.term_core.specs.declared.names.NameFault.TheVariants as faults;

    ghost from_gives = { λ _ e. e ≡ faults.NoMemory };

    fn from(_refused: AllocFailed<T>) -> NameFault {
        NameFault::NoMemory
    }
}

impl From<NoMemory> for NameFault {
    ghost use Rattle.std.specs.Prelude.{◌≡◌};
    ghost use Rattle.term_core.specs.declared.names.NameFault.TheVariants as faults;

    ghost from_gives = { λ _ e. e ≡ faults.NoMemory };

    fn from(_refused: NoMemory) -> NameFault {
        NameFault::NoMemory
    }
}

pub(crate) fn is_name_byte(byte: u8) -> bool
    ensures { result ≡ is_name_byte byte }
{
    byte.is_ascii_alphanumeric() || byte == b'_'
}

fn are_name_bytes(bytes: &[u8]) -> bool
    ensures { result ≡ list_all is_name_byte bytes.now }
{
    bytes.iter().all(|byte| is_name_byte(*byte))
}

/// Whether these bytes are the text of an atom.
pub fn is_atom_text(text: &[u8]) -> bool
    ensures { result ≡ is_text_of_atom text.now }
{
    match text.split_first() {
        None => false,
        Some((first, rest)) => {
            first.is_ascii_lowercase() && are_name_bytes(rest) && rest.len() < LONGEST_ATOM
        }
    }
}

// The same bytes as text.
pub(crate) fn ascii_text(bytes: &[u8]) -> &str
    requires { IsAscii bytes.now }
    ensures { result.now ≡ bytes.now }
{
    str::from_utf8(bytes).unwrap()
}

fn insert_text(texts: &mut IndexSet<String>, text: &str) -> Result<(), NoMemory>
    ensures ok { OnOk result (set_texts texts.new ≡ names_with (set_texts texts.old) text.now) }
    ensures err { OnErr result (set_texts texts.new ≡ set_texts texts.old) }
{
    let owned = String::from_str(*texts.allocator(), text)?;
    texts.insert(owned)?;
    Ok(())
}

/// The atoms of a script: each text has the number of its first appearance. `true`, `false` and `ok` are 0, 1 and 2.
///
/// Contracts see it as the list of the texts in the order of their numbers.
#[derive(Drop)]
pub struct Names {
    pub(crate) texts: IndexSet<String>,
}

impl Model for Names {
    ghost use Rattle.std.specs.Prelude.{ℕ, List};
    ghost use Rattle.term_core.specs.Names.{IsNames, set_texts};

    ghost Value = { List (List ℕ) };

    ghost view = { λ names. set_texts names.texts };

    ghost invariant = { λ names. IsNames (set_texts names.texts) };
}

impl Names {
    /// The three given names. It takes memory.
    pub fn new(alloc: Global) -> Result<Names, NoMemory>
        ensures given { IfOk result (λ names. names ≡ given_names) }
        ensures sound { IfOk result (λ names. IsNames names) }
    {
        let mut texts = IndexSet::new(alloc);
        insert_text(&mut texts, "true")?;
        insert_text(&mut texts, "false")?;
        insert_text(&mut texts, "ok")?;
        Ok(Names { texts })
    }

    /// The number of a text, which is the next one if the text is new. A new text takes memory.
    pub fn add(&mut self, text: &[u8]) -> Result<AtomId, NameFault>
        requires { IsTrue (is_text_of_atom text.now) }
        ensures ok { IfOk result (λ atom. AtomText self.old text.now atom.0 self.new) }
        ensures full { IsErrOf result NameFault.Full ↔ ((number_of self.old text.now ≡ None) × (length self.old ≡ MOST_NAMES)) }
        ensures err { OnErr result (self.new ≡ self.old) }
        ensures sound { IsNames self.new }
    {
        let text = ascii_text(text);
        if let Some(number) = self.texts.get_index_of(text) {
            return Ok(AtomId(number as u32));
        }
        let number = self.texts.len();
        if number >= MOST_NAMES {
            return Err(NameFault::Full);
        }
        insert_text(&mut self.texts, text)?;
        Ok(AtomId(number as u32))
    }

    /// The number of a text, if it has one.
    pub fn get(&self, text: &[u8]) -> Option<AtomId>
        ensures value { option_map (λ atom. atom.0) result ≡ number_of self.now text.now }
        ensures sound { IsNames self.now }
    {
        let texts = &self.texts;
        if !is_atom_text(text) {
            return None;
        }
        let number = texts.get_index_of(ascii_text(text))?;
        Some(AtomId(number as u32))
    }

    /// The text of an atom, if the atom is one of this table.
    pub fn text(&self, atom: AtomId) -> Option<&[u8]>
        ensures value { option_map (λ text. text.now) result ≡ slice_get self.now atom.0 }
        ensures sound { IsNames self.now }
    {
        let text = self.texts.get_index(atom.0 as usize)?;
        Some(text.as_bytes())
    }
}
