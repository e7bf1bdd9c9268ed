ghost use Rattle.std.specs.Prelude.{◌≡◌, [], ◌∷◌, ◌++◌, ◌==◌, filter, not, IfOk, ◌+◌, length};
ghost use Rattle.std.specs.List.{list_any};
ghost use Rattle.server_core.specs.Rooms.{IsBlock};
ghost use Rattle.server_core.specs.ServerState.{entry_of, is_same_entry};

use std::alloc::Global;
use std::marker::Model;
use term_core::{CodeRef, NoMemory};

/// The functions with a breakpoint, the newest last. Contracts see where they stand, their blocks left out.
#[derive(Drop)]
pub struct TraceTable {
    functions: Vec<CodeRef>,
}

impl Model for TraceTable {
    ghost use Rattle.std.specs.Prelude.{List, map};
    ghost use Rattle.server_core.specs.ServerState.{Entry, entry_of};

    ghost Value = { List Entry };

    ghost view = { λ it. map entry_of it.functions.items };
}

impl TraceTable {
    /// No functions. It takes no memory.
    pub fn new(alloc: Global) -> TraceTable
        ensures { result ≡ [] }
    {
        TraceTable {
            functions: Vec::new(alloc),
        }
    }

    /// Whether the function has a breakpoint.
    pub fn holds(&self, at: CodeRef) -> bool
        ensures { result ≡ list_any (is_same_entry (entry_of at)) self.now }
    {
        self.functions.iter().any(|other| is_same(at, *other))
    }

    /// A block for these functions and one more.
    pub fn room(&self, alloc: Global) -> Result<Vec<CodeRef>, NoMemory>
        ensures { IfOk result (λ block. IsBlock (length self.now + 1) block) }
    {
        let wanted = self.functions.len().checked_add(1).ok_or(NoMemory)?;
        Ok(Vec::with_capacity(alloc, wanted)?)
    }

    /// Moves the functions into the block, and appends this one.
    pub fn push(&mut self, at: CodeRef, mut block: Vec<CodeRef>)
        requires { IsBlock (length self.old + 1) block }
        ensures { self.new ≡ self.old ++ entry_of at ∷ [] }
    {
        block.append(&mut self.functions).unwrap();
        block.push_reserved(at);
        self.functions = block;
    }

    /// Takes the function's breakpoint away.
    pub fn remove(&mut self, at: CodeRef)
        ensures { self.new ≡ filter (λ other. not (is_same_entry (entry_of at) other)) self.old }
    {
        self.functions.retain(|other| !is_same(at, *other));
    }

    /// Takes all breakpoints of an instance away.
    pub fn forget(&mut self, serial: u64)
        ensures { self.new ≡ filter (λ e. not (e.serial == serial)) self.old }
    {
        self.functions.retain(|other| other.area.serial != serial);
    }
}

/// Whether these are one function of one instance.
fn is_same(at: CodeRef, other: CodeRef) -> bool
    ensures { result ≡ is_same_entry (entry_of at) (entry_of other) }
{
    at.area.serial == other.area.serial && at.function == other.function
}
