//! The different functions that a script names, and the modules whose texts it gives.

ghost use Rattle.std.specs.Prelude.{◌≡◌};
ghost use Rattle.script_text.specs.Sets.{mfa_of_key, ref_of_key};

use crate::fault::Which;
use crate::reading::cause::LineCause;
use indexmap::IndexSet;
use script_core::MOST_FUNCTION_NAMES;
use server_core::ModRef;
use std::alloc::Global;
use std::marker::Model;
use term_core::Mfa;

/// A function by the numbers of its name.
#[derive(Clone, Copy, Debug, PartialEq, Eq, Hash)]
struct FunctionKey {
    module: u32,
    name: u32,
    arity: u32,
}

/// A module by the number of its name, and its version.
#[derive(Clone, Copy, Debug, PartialEq, Eq, Hash)]
struct RefKey {
    name: u32,
    version: u32,
}

/// Different functions. Contracts see them in the order in which they were added.
#[derive(Drop)]
pub struct FunctionSet {
    keys: IndexSet<FunctionKey>,
}

impl Model for FunctionSet {
    ghost use Rattle.std.specs.Prelude.{List, map};
    ghost use Rattle.term_core.specs.declared.atom.Mfa.{Mfa};

    ghost Value = { List Mfa };

    ghost use Rattle.script_text.specs.Sets.{mfa_of_key};

    ghost view = { λ s. map mfa_of_key s.keys.keys };
}

/// Different versions of modules. Contracts see them in the order in which they were added.
#[derive(Drop)]
pub struct RefSet {
    keys: IndexSet<RefKey>,
}

impl Model for RefSet {
    ghost use Rattle.std.specs.Prelude.{List, map};
    ghost use Rattle.server_core.specs.declared.command.ModRef.{ModRef};

    ghost Value = { List ModRef };

    ghost use Rattle.script_text.specs.Sets.{ref_of_key};

    ghost view = { λ s. map ref_of_key s.keys.keys };
}

fn function_key(function: Mfa) -> FunctionKey
    ensures { mfa_of_key result ≡ function }
{
    FunctionKey {
        module: function.module.0,
        name: function.name.0,
        arity: function.arity,
    }
}

fn ref_key(to: ModRef) -> RefKey
    ensures { ref_of_key result ≡ to }
{
    RefKey {
        name: to.name.0,
        version: to.version,
    }
}

impl FunctionSet {
    ghost use Rattle.std.specs.Prelude.{◌≡◌, []};
    ghost use Rattle.script_text.specs.Causes.{Gives};
    ghost use Rattle.script_text.specs.Sets.{mfa_added, passes_functions};

    /// No functions. It takes no memory.
    pub fn new(alloc: Global) -> FunctionSet
        ensures { result ≡ [] }
    {
        FunctionSet {
            keys: IndexSet::new(alloc),
        }
    }

    /// Whether one function more would be too many: it is new, and 1,024 others are held.
    pub fn is_over(&self, function: Mfa) -> bool
        ensures { result ≡ passes_functions self.now function }
    {
        self.keys.len() >= MOST_FUNCTION_NAMES && !self.keys.contains(&function_key(function))
    }

    /// Adds a function, unless that would be one too many.
    pub fn add(&mut self, function: Mfa) -> Result<(), LineCause>
        ensures { Gives (λ _. self.new) result (mfa_added self.old function) }
    {
        if self.is_over(function) {
            return Err(LineCause::Limit(Which::Exports));
        }
        self.keys.insert(function_key(function))?;
        Ok(())
    }
}

impl RefSet {
    ghost use Rattle.std.specs.Prelude.{◌≡◌, []};
    ghost use Rattle.script_text.specs.Causes.{Gives};
    ghost use Rattle.script_text.specs.Sets.{is_among, ref_added};

    /// No modules. It takes no memory.
    pub fn new(alloc: Global) -> RefSet
        ensures { result ≡ [] }
    {
        RefSet {
            keys: IndexSet::new(alloc),
        }
    }

    /// Whether the version is held.
    pub fn has(&self, to: ModRef) -> bool
        ensures { result ≡ is_among self.now to }
    {
        self.keys.contains(&ref_key(to))
    }

    /// Adds a version of a module, which is a fault where it is held.
    pub fn add(&mut self, to: ModRef) -> Result<(), LineCause>
        ensures { Gives (λ _. self.new) result (ref_added self.old to) }
    {
        if self.has(to) {
            return Err(LineCause::Duplicate);
        }
        self.keys.insert(ref_key(to))?;
        Ok(())
    }
}
