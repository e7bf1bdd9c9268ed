use term_core::{AtomId, AtomList, Items, Mfa, Term, TermList};

/// How many instances are live at most: current and old ones.
pub const MOST_INSTANCES: usize = 55;

/// How many keys hold a persistent term at most.
pub const MOST_KEYS: usize = 384;

/// How many of the persistent terms are complex at most.
pub const MOST_TERMS: usize = 256;

/// A version of a module, as a `load` names it.
#[derive(Clone, Copy, Debug, PartialEq, Eq)]
pub struct ModRef {
    pub name: AtomId,
    pub version: u32,
}

/// The modules of one `load`, in the order of its line.
pub type RefList = Items<ModRef>;

/// A command of the code server.
#[derive(Debug, Drop)]
pub enum Cmd {
    /// The modules come in at once, each as the current code of its name.
    Load(RefList),
    /// The module's current code becomes old.
    Delete(AtomId),
    /// The module's old code goes, unless a process lingers in it.
    SoftPurge {
        module: AtomId,
        lingers: Option<Linger>,
    },
    /// The module's old code is to go: a process that stands in it ends.
    Doom(AtomId),
    /// The module's doomed code goes. A process was killed by it, or none.
    Purge {
        module: AtomId,
        killed: bool,
    },
    /// Whether the module has old code.
    CheckOld(AtomId),
    /// The key holds the term, as by Erlang's `persistent_term:put/2`.
    Put {
        key: AtomId,
        term: Term,
    },
    /// The key holds nothing, as by `persistent_term:erase/1`.
    Erase(AtomId),
    /// A breakpoint in the current code is set, or taken away.
    Trace {
        target: Mfa,
        on: bool,
    },
    /// A process that will enter the function with these arguments.
    Spawn {
        target: Mfa,
        args: TermList,
    },
    /// The area with this serial, which no process names, is given back.
    Release(u64),
}

/// A process that stands in old code, and how many turns it has had.
#[derive(Clone, Copy, Debug, PartialEq, Eq)]
pub struct Linger {
    pub process: u32,
    pub turn: u32,
}

/// A limit of the server that a command met.
#[derive(Clone, Copy, Debug, PartialEq, Eq)]
pub enum Limit {
    /// More than 55 live instances.
    Instances,
    /// More than 384 keys.
    Keys,
    /// More than 256 complex terms that keys hold.
    Areas,
}

/// What the server answers to a command. Replies are answers, not faults.
#[derive(Debug, Drop)]
pub enum Reply {
    Ok,
    True,
    False,
    /// This process lingers in the old code.
    FalseBy(Linger),
    /// These modules still have old code, in the order of the list.
    NotPurged(AtomList),
    /// This is the first module that stands in the list again.
    Duplicated(AtomId),
    SystemLimit(Limit),
}

/// What a command gave: its reply, and the generation that it published, if it did.
#[derive(Debug, Drop)]
pub struct Applied {
    pub reply: Reply,
    /// The number of the generation that the command made, counted from 1.
    pub published: Option<u64>,
}
