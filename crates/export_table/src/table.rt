ghost use Rattle.std.specs.Prelude.{◌≡◌, ◌↔◌, ◌<◌, ℕ, [], length, slice_get, IfOk, IsErrOf, None, OnErr, Ok, Some};
ghost use Rattle.std.specs.Option.{IfSome};
ghost use Rattle.term_core.specs.declared.atom.Mfa.{Mfa};
ghost use Rattle.export_table.specs.Exports.{HasEntry, entry_of};

use crate::fault::AddFault;
use crate::names::{FunctionKey, function_key, name_of_key};
use indexmap::IndexSet;
use std::alloc::Global;
use std::marker::Model;
use term_core::{Mfa, NoMemory};

/// How many names a table holds at most; a code index has a word for each.
pub const MOST_ENTRIES: usize = 1024;

/// The names of functions that a call from outside can reach, each with a number: a new name takes the
/// next one, from 0 on, and keeps it.
///
/// Contracts see the list of the names in the order of their numbers.
/// Rule: Erlang/OTP erts internal documentation, CodeLoading: export entries are made once and stay.
#[derive(Drop)]
pub struct ExportTable {
    keys: IndexSet<FunctionKey>,
}

impl Model for ExportTable {
    ghost use Rattle.std.specs.Prelude.{List, map};
    ghost use Rattle.term_core.specs.declared.atom.Mfa.{Mfa};
    ghost use Rattle.export_table.specs.Exports.{AreEntries};

    ghost Value = { List Mfa };

    ghost use Rattle.export_table.specs.FunctionKeys.{name_of_key};

    ghost view = { λ table. map name_of_key table.keys.keys };

    ghost invariant = { λ table. AreEntries (map name_of_key table.keys.keys) };
}

impl ExportTable {
    /// No names. It takes memory once a name is added.
    pub fn new(alloc: Global) -> Result<ExportTable, NoMemory>
        ensures { IfOk result (λ table. table ≡ []) }
    {
        Ok(ExportTable {
            keys: IndexSet::new(alloc),
        })
    }

    /// The number of a name. A new name takes the next one, and memory; each name that was held keeps
    /// its own. After a fault the table is as before.
    pub fn add(&mut self, to: Mfa) -> Result<u32, AddFault>
        ensures ok { IfOk result (λ number. HasEntry self.old to number self.new) }
        ensures known { (number : ℕ) → entry_of self.old to ≡ Some number → result ≡ Ok number }
        ensures kept { (name : Mfa) (number : ℕ) → entry_of self.old name ≡ Some number → entry_of self.new name ≡ Some number }
        ensures full { IsErrOf result AddFault.Full ↔ ((entry_of self.old to ≡ None) × (length self.old ≡ MOST_ENTRIES)) }
        ensures err { OnErr result (self.new ≡ self.old) }
    {
        let key = function_key(to);
        if let Some(number) = self.keys.get_index_of(&key) {
            return Ok(number as u32);
        }
        let number = self.keys.len();
        if number >= MOST_ENTRIES {
            return Err(AddFault::Full);
        }
        self.keys.insert(key)?;
        Ok(number as u32)
    }

    /// The number of a name, if it is held.
    pub fn entry(&self, to: Mfa) -> Option<u32>
        ensures value { result ≡ entry_of self.now to }
        ensures small { IfSome result (λ number. number < MOST_ENTRIES) }
    {
        let number = self.keys.get_index_of(&function_key(to))?;
        Some(number as u32)
    }

    /// The name of a number, if one has it.
    pub fn name(&self, number: u32) -> Option<Mfa>
        ensures { result ≡ slice_get self.now number }
    {
        let key = self.keys.get_index(number as usize)?;
        Some(name_of_key(*key))
    }
}
