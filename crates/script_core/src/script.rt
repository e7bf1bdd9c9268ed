use mod_core::ModuleList;
use server_core::RefList;
use term_core::{AtomId, CountList, Items, Mfa, Names, Term, TermList};

/// How many bytes a script has at most.
pub const LONGEST_SCRIPT: usize = 1_048_576;

/// How many bytes a line of a script has at most, its line feed left out.
pub const LONGEST_LINE: usize = 4_096;

/// How many different functions a script names at most, in exports, external calls and spawns.
pub const MOST_FUNCTION_NAMES: usize = 1_024;

/// How many loader blocks a script has at most.
pub const MOST_LOADERS: usize = 8;

/// How many processes a script spawns at most.
pub const MOST_PROCESSES: usize = 64;

/// How many observers a script has at most.
pub const MOST_OBSERVERS: usize = 4;

/// How many snapshots an observer takes at most.
pub const MOST_SNAPSHOTS: u64 = 16;

/// A command of a loader block.
#[derive(Debug, Drop)]
pub enum ScriptCmd {
    /// The modules of the texts that are named come in at once.
    Load(RefList),
    /// The module's current code becomes old.
    Delete(AtomId),
    /// The module's old code goes, if no process stands in it.
    SoftPurge(AtomId),
    /// The module's old code goes, and processes that stand in it end.
    Purge(AtomId),
    /// Whether the module has old code.
    CheckOld(AtomId),
    /// The key holds the term.
    Put { key: AtomId, term: Term },
    /// The key holds no term.
    Erase(AtomId),
    /// A breakpoint of a function in its module's current instance is set or taken away.
    Trace { target: Mfa, on: bool },
    /// A process enters the function with these arguments.
    Spawn { target: Mfa, args: TermList },
}

/// The commands of one loader block, in order.
pub type CommandList = Items<ScriptCmd>;

/// The loader blocks of a script, in order.
pub type LoaderList = Items<CommandList>;

/// What a script says: its atoms, its module texts, its observers and its loaders' commands.
#[derive(Drop)]
pub struct Script {
    /// The atoms in the order of their first appearance.
    pub names: Names,
    /// The modules in the order of their texts.
    pub modules: ModuleList,
    /// How many snapshots each observer takes. Observers are numbered from 0 in this order.
    pub observers: CountList,
    /// Loaders are numbered from 0 in this order, and processes by their spawns.
    pub loaders: LoaderList,
}
