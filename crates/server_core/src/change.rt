use crate::areas::Area;
use crate::command::Reply;
use crate::instance::LoadedModule;
use crate::keys::Held;
use crate::slots::RetiredRoom;
use crate::stored_term::StoredTerm;
use crate::versions::Serials;
use indexmap::IndexMap;
use term_core::{AtomId, CodeRef, Term};

/// What a command changes, decided and not yet made. It owns all the memory that making it takes.
///
/// Each variant that publishes has the number of the generation that it makes.
#[derive(Drop)]
pub enum Change {
    /// Nothing changes.
    Nothing(Reply),
    /// The modules come in at once.
    BringIn {
        generation: u64,
        modules: Vec<LoadedModule>,
        areas: Option<Vec<Area>>,
        versions: IndexMap<u32, Serials>,
    },
    /// The module's current code becomes old.
    MakeOld {
        generation: u64,
        module: AtomId,
    },
    /// The module's old code, which has this serial, goes. The reply is yes or no.
    DropOld {
        generation: u64,
        module: AtomId,
        serial: u64,
        yes: bool,
        retired: RetiredRoom,
    },
    /// The old code with this serial is to go.
    Condemn {
        generation: u64,
        serial: u64,
    },
    /// The key holds an integer or an atom.
    HoldWord {
        generation: u64,
        key: AtomId,
        term: Term,
        keys: IndexMap<u32, Held>,
        retired: RetiredRoom,
    },
    /// The key holds a complex term, with the words of its area.
    HoldArea {
        generation: u64,
        key: AtomId,
        term: Term,
        stored: StoredTerm,
        areas: Option<Vec<Area>>,
        keys: IndexMap<u32, Held>,
        retired: RetiredRoom,
    },
    /// The key holds nothing.
    Forget {
        generation: u64,
        key: AtomId,
        retired: RetiredRoom,
    },
    /// A breakpoint is set.
    SetTrace {
        generation: u64,
        at: CodeRef,
        traced: Vec<CodeRef>,
    },
    /// A breakpoint is taken away.
    ClearTrace {
        generation: u64,
        at: CodeRef,
    },
    /// The retired area with this serial is given back.
    GiveBack {
        serial: u64,
        released: Option<Vec<u64>>,
    },
}
