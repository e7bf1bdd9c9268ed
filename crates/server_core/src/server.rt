ghost use Rattle.std.specs.Prelude.{◌≡◌, ◌↔◌, [], IfOk, IfSome, IsErrOf, IsTrue, None, OnErr, Some, length, nat_lt, option_map, slice_get};
ghost use Rattle.std.specs.Bool.{OnFalse};
ghost use Rattle.std.specs.Option.{option_to_list};
ghost use Rattle.server_core.specs.CommandTable.{AreTexts, IsOfText, apply_of};
ghost use Rattle.server_core.specs.Decided.{Fits, change_made};
ghost use Rattle.server_core.specs.ServerState.{IsSound, current_of, dispatch_of, empty_state, entry_of, found_as, is_doomed, is_retired, is_traced, key_found, old_of, serial_behind, word_of};

use crate::answers::unpublished;
use crate::areas::AreaTable;
use crate::change::Change;
use crate::command::{Applied, Cmd, Reply};
use crate::fault::ApplyFault;
use crate::functions::export_of;
use crate::keys::KeyTable;
use crate::retired::RetiredAreas;
use crate::serials::SerialHistory;
use crate::traces::TraceTable;
use crate::versions::VersionTable;
use mod_core::ModuleList;
use std::alloc::Global;
use std::marker::Model;
use term_core::{AreaRef, AtomId, CodeRef, Found, Mfa, NoMemory};

/// The code server of one thread. It runs each command at once, and nothing reads it meanwhile.
#[derive(Drop)]
pub struct Server {
    pub(crate) alloc: Global,
    pub(crate) generation: u64,
    pub(crate) areas: AreaTable,
    pub(crate) versions: VersionTable,
    pub(crate) keys: KeyTable,
    pub(crate) traced: TraceTable,
    /// The old instance that is being purged.
    pub(crate) doomed: Option<u64>,
    pub(crate) retired: RetiredAreas,
    pub(crate) released: SerialHistory,
}

impl Model for Server {
    ghost use Rattle.std.specs.Coded.{codes};
    ghost use Rattle.term_core.specs.TermCode.{plain_term_code};
    ghost use Rattle.mod_core.specs.contracts.code.Module as module_contracts;
    ghost use Rattle.server_core.specs.ServerState.{ServerState};

    ghost Value = { ServerState };

    ghost coded = { Prim.hlevel (codes, module_contracts.the_row.coded, plain_term_code) };

    ghost use Rattle.server_core.specs.Tables.{HoldsSound, state_of};

    ghost view = { state_of };

    ghost invariant = { HoldsSound };
}

impl Server {
    /// Generation 0: nothing is loaded, and no key holds a term.
    pub fn new(alloc: Global) -> Result<Server, NoMemory>
        ensures empty { IfOk result (λ s. s ≡ empty_state) }
    {
        Ok(Server {
            alloc,
            generation: 0,
            areas: AreaTable::new(alloc),
            versions: VersionTable::new(alloc),
            keys: KeyTable::new(alloc),
            traced: TraceTable::new(alloc),
            doomed: None,
            retired: RetiredAreas::new(alloc),
            released: SerialHistory::new(alloc),
        })
    }

    /// Makes one command: decides it, and makes the change. After a fault the server is as before.
    pub fn apply(&mut self, cmd: &Cmd, texts: &ModuleList) -> Result<Applied, ApplyFault>
        requires given { AreTexts texts.now }
        requires put { IsOfText cmd.now }
        ensures ok { IfOk result (λ answer. apply_of texts.now self.old cmd.now ≡ Some (record { state = self.new; answer = answer })) }
        ensures not_enabled { IsErrOf result ApplyFault.NotEnabled ↔ (apply_of texts.now self.old cmd.now ≡ None) }
        ensures err { OnErr result (self.new ≡ self.old) }
        ensures sound { IsSound self.new }
    {
        let _ = &self.generation;
        let change = self.decide(cmd, texts)?;
        Ok(self.make(change))
    }

    /// What one command changes. It reads, and takes all the memory that making the change takes.
    ///
    /// Rule: the manual pages `code`, `erlang` and `persistent_term`; the order of the cases is docs/FORMATS.md's.
    pub fn decide(&self, cmd: &Cmd, texts: &ModuleList) -> Result<Change, ApplyFault>
        requires given { AreTexts texts.now }
        requires put { IsOfText cmd.now }
        ensures ok { IfOk result (λ change. apply_of texts.now self.now cmd.now ≡ Some (change_made self.now change)) }
        ensures fits { IfOk result (Fits self.now) }
        ensures not_enabled { IsErrOf result ApplyFault.NotEnabled ↔ (apply_of texts.now self.now cmd.now ≡ None) }
    {
        match cmd {
            Cmd::Load(refs) => self.decide_load(refs.as_slice(), texts),
            Cmd::Delete(module) => self.decide_delete(*module),
            Cmd::SoftPurge { module, lingers } => self.decide_soft_purge(*module, *lingers),
            Cmd::Doom(module) => self.decide_doom(*module),
            Cmd::Purge { module, killed } => self.decide_purge(*module, *killed),
            Cmd::CheckOld(module) => Ok(self.decide_check_old(*module)),
            Cmd::Put { key, term } => self.decide_put(*key, term),
            Cmd::Erase(key) => self.decide_erase(*key),
            Cmd::Trace { target, on } => self.decide_trace(*target, *on),
            Cmd::Spawn { .. } => Ok(Change::Nothing(Reply::Ok)),
            Cmd::Release(serial) => self.decide_release(*serial),
        }
    }

    /// Makes a change that was decided. It takes no memory and cannot fail.
    ///
    /// Since the decision areas may have been released: no change but a release depends on what is retired.
    pub fn make(&mut self, change: Change) -> Applied
        requires { Fits self.old change }
        ensures value { change_made self.old change ≡ record { state = self.new; answer = result } }
        ensures sound { IsSound self.new }
    {
        match change {
            Change::Nothing(reply) => {
                let _ = &self.generation;
                unpublished(reply)
            }
            Change::BringIn {
                generation,
                modules,
                areas,
                versions,
            } => self.bring_in(generation, modules, areas, versions),
            Change::MakeOld { generation, module } => self.make_old(generation, module),
            Change::DropOld {
                generation,
                module,
                serial,
                yes,
                retired,
            } => self.drop_old(generation, module, serial, yes, retired),
            Change::Condemn { generation, serial } => self.condemn(generation, serial),
            Change::HoldWord {
                generation,
                key,
                term,
                keys,
                retired,
            } => self.hold_word(generation, key, term, keys, retired),
            Change::HoldArea {
                generation,
                key,
                term,
                stored,
                areas,
                keys,
                retired,
            } => self.hold_area(generation, key, term, stored, areas, keys, retired),
            Change::Forget {
                generation,
                key,
                retired,
            } => self.forget(generation, key, retired),
            Change::SetTrace {
                generation,
                at,
                traced,
            } => self.set_trace(generation, at, traced),
            Change::ClearTrace { generation, at } => self.clear_trace(generation, at),
            Change::GiveBack { serial, released } => self.give_back(serial, released),
        }
    }

    /// How many generations were published.
    pub fn generation(&self) -> u64
        ensures value { result ≡ self.now.generation }
        ensures sound { IsSound self.now }
    {
        self.generation
    }

    /// The exported function of the module's current instance. None where there is none.
    pub fn dispatch(&self, to: Mfa) -> Option<CodeRef>
        ensures value { option_map entry_of result ≡ dispatch_of self.now to }
        ensures sound { IsSound self.now }
    {
        let serial = self.versions.current(to.module)?;
        let function = export_of(self.areas.code(serial)?, to)?;
        Some(CodeRef {
            area: AreaRef { serial, block: 0 },
            function: function as u32,
        })
    }

    /// A word of an area: of an instance's image, or of a complex term's. None where the serial is unknown, or the place is past the end.
    pub fn word(&self, area: AreaRef, at: u32) -> Option<u64>
        ensures { result ≡ word_of self.now area.serial at }
    {
        self.areas.word(area.serial, at)
    }

    /// What the key holds.
    pub fn term(&self, key: AtomId) -> Found
        ensures value { found_as result ≡ key_found self.now key.0 }
        ensures sound { IsSound self.now }
    {
        self.keys.found(key)
    }

    /// The serial of the module's current instance.
    pub fn current(&self, module: AtomId) -> Option<u64>
        ensures { result ≡ current_of self.now «module».0 }
    {
        self.versions.current(module)
    }

    /// The serial of the module's old instance.
    pub fn old(&self, module: AtomId) -> Option<u64>
        ensures { result ≡ old_of self.now «module».0 }
    {
        self.versions.old(module)
    }

    /// Whether the function has a breakpoint.
    pub fn traced(&self, at: CodeRef) -> bool
        ensures { result ≡ is_traced self.now (entry_of at) }
    {
        self.traced.holds(at)
    }

    /// Whether the instance with this serial is being purged.
    pub fn doomed(&self, serial: u64) -> bool
        ensures { result ≡ is_doomed self.now serial }
    {
        self.doomed == Some(serial)
    }

    /// The serial of the instance that is being purged.
    pub fn doomed_area(&self) -> Option<u64>
        ensures value { option_to_list result ≡ self.now.doomed }
        ensures sound { IsSound self.now }
    {
        self.doomed
    }

    /// Whether the area with this serial was dropped and not released.
    pub fn retired(&self, serial: u64) -> bool
        ensures { result ≡ is_retired self.now serial }
    {
        self.retired.holds(serial)
    }

    /// The serial of the area that was dropped first, of those that were not released.
    pub fn oldest_retired(&self) -> Option<u64>
        ensures value { result ≡ slice_get self.now.retired 0 }
        ensures waits { IfSome result (λ serial. IsTrue (is_retired self.now serial)) }
        ensures none { result ≡ None → self.now.retired ≡ [] }
        ensures sound { IsSound self.now }
    {
        self.retired.oldest()
    }

    /// The serial of the area that was dropped next behind this one, of those that were not released. None where this
    /// one is none of them, or the newest.
    pub fn retired_behind(&self, serial: u64) -> Option<u64>
        ensures value { result ≡ serial_behind self.now.retired serial }
        ensures waits { IfSome result (λ next. IsTrue (is_retired self.now next)) }
    {
        self.retired.behind(serial)
    }

    /// Whether an instance is being purged.
    pub(crate) fn is_purging(&self) -> bool
        ensures value { result ≡ nat_lt 0 (length self.now.doomed) }
        ensures rest { OnFalse result (self.now.doomed ≡ []) }
        ensures sound { IsSound self.now }
    {
        self.doomed.is_some()
    }
}
