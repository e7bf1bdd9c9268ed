ghost use Rattle.std.specs.Prelude.{◌≡◌, ◌↔◌, IfOk, IsErrOf, None, Some, is_some};
ghost use Rattle.server_core.specs.CommandTable.{answered, delete_of, doom_of, published, purge_of, soft_purge_of, unchanged, while_none_doomed, with_deleted, with_purged};
ghost use Rattle.server_core.specs.Decided.{CanBeDoomed, CanBeOld, CanGo, Fits, IsNext, RetiredFits, change_made, with_doomed};
ghost use Rattle.server_core.specs.ServerState.{IsSound, old_of};

use crate::answers::{answered, next_generation, published};
use crate::change::Change;
use crate::command::{Applied, Linger, Reply};
use crate::fault::ApplyFault;
use crate::server::Server;
use crate::slots::RetiredRoom;
use term_core::{AtomId, NoMemory};

impl Server {
    /// The module's current code is to become old.
    pub(crate) fn decide_delete(&self, module: AtomId) -> Result<Change, ApplyFault>
        ensures ok { IfOk result (λ change. while_none_doomed self.now (Some (delete_of self.now «module».0)) ≡ Some (change_made self.now change)) }
        ensures fits { IfOk result (Fits self.now) }
        ensures not_enabled { IsErrOf result ApplyFault.NotEnabled ↔ (while_none_doomed self.now (Some (delete_of self.now «module».0)) ≡ None) }
    {
        if self.is_purging() {
            return Err(ApplyFault::NotEnabled);
        }
        if self.old(module).is_some() || self.current(module).is_none() {
            return Ok(Change::Nothing(Reply::False));
        }
        let generation = next_generation(self.generation)?;
        Ok(Change::MakeOld { generation, module })
    }

    /// The module's current code becomes old, and the generation is published.
    pub(crate) fn make_old(&mut self, generation: u64, module: AtomId) -> Applied
        requires next { IsNext self.old generation }
        requires code { CanBeOld self.old «module».0 }
        ensures value { published (with_deleted self.old «module».0) Reply.True ≡ record { state = self.new; answer = result } }
        ensures sound { IsSound self.new }
    {
        self.versions.make_old(module);
        self.generation = generation;
        published(Reply::True, generation)
    }

    /// The module's old code is to go, unless a process lingers in it.
    pub(crate) fn decide_soft_purge(
        &self,
        module: AtomId,
        lingers: Option<Linger>,
    ) -> Result<Change, ApplyFault>
        ensures ok { IfOk result (λ change. while_none_doomed self.now (soft_purge_of self.now «module».0 lingers (old_of self.now «module».0)) ≡ Some (change_made self.now change)) }
        ensures fits { IfOk result (Fits self.now) }
        ensures not_enabled { IsErrOf result ApplyFault.NotEnabled ↔ (while_none_doomed self.now (soft_purge_of self.now «module».0 lingers (old_of self.now «module».0)) ≡ None) }
    {
        if self.is_purging() {
            return Err(ApplyFault::NotEnabled);
        }
        match (lingers, self.old(module)) {
            (None, None) => Ok(Change::Nothing(Reply::True)),
            (None, Some(serial)) => Ok(self.decide_drop(module, serial, true)?),
            (Some(_), None) => Err(ApplyFault::NotEnabled),
            (Some(linger), Some(_)) => Ok(Change::Nothing(Reply::FalseBy(linger))),
        }
    }

    /// The module's old code is to be doomed: then a process that stands in it ends.
    pub(crate) fn decide_doom(&self, module: AtomId) -> Result<Change, ApplyFault>
        ensures ok { IfOk result (λ change. while_none_doomed self.now (doom_of self.now (old_of self.now «module».0)) ≡ Some (change_made self.now change)) }
        ensures fits { IfOk result (Fits self.now) }
        ensures not_enabled { IsErrOf result ApplyFault.NotEnabled ↔ (while_none_doomed self.now (doom_of self.now (old_of self.now «module».0)) ≡ None) }
    {
        if self.is_purging() {
            return Err(ApplyFault::NotEnabled);
        }
        let Some(serial) = self.old(module) else {
            return Err(ApplyFault::NotEnabled);
        };
        let generation = next_generation(self.generation)?;
        Ok(Change::Condemn { generation, serial })
    }

    /// The old code with this serial is doomed, and the generation is published.
    pub(crate) fn condemn(&mut self, generation: u64, serial: u64) -> Applied
        requires next { IsNext self.old generation }
        requires code { CanBeDoomed self.old serial }
        ensures value { published (with_doomed self.old serial) Reply.Ok ≡ record { state = self.new; answer = result } }
        ensures sound { IsSound self.new }
    {
        self.doomed = Some(serial);
        self.generation = generation;
        published(Reply::Ok, generation)
    }

    /// The module's doomed code is to go. A process was killed by it, or none.
    pub(crate) fn decide_purge(&self, module: AtomId, killed: bool) -> Result<Change, ApplyFault>
        ensures ok { IfOk result (λ change. purge_of self.now «module».0 killed (old_of self.now «module».0) ≡ Some (change_made self.now change)) }
        ensures fits { IfOk result (Fits self.now) }
        ensures not_enabled { IsErrOf result ApplyFault.NotEnabled ↔ (purge_of self.now «module».0 killed (old_of self.now «module».0) ≡ None) }
    {
        let _ = &self.generation;
        match self.old(module) {
            Some(serial) => {
                if !self.doomed(serial) {
                    return Err(ApplyFault::NotEnabled);
                }
                Ok(self.decide_drop(module, serial, killed)?)
            }
            None => {
                if killed || self.is_purging() {
                    return Err(ApplyFault::NotEnabled);
                }
                Ok(Change::Nothing(Reply::False))
            }
        }
    }

    /// The room for old code that is to go.
    fn decide_drop(&self, module: AtomId, serial: u64, yes: bool) -> Result<Change, NoMemory>
        requires { CanGo self.now «module».0 serial }
        ensures ok { IfOk result (λ change. published (with_purged self.now «module».0 serial) (answered yes) ≡ change_made self.now change) }
        ensures fits { IfOk result (Fits self.now) }
    {
        let generation = next_generation(self.generation)?;
        let retired = self.retired.room(self.alloc, self.areas.next_serial())?;
        Ok(Change::DropOld {
            generation,
            module,
            serial,
            yes,
            retired,
        })
    }

    /// The module's old code is dropped and doomed no more, its area is retired, and its breakpoints
    /// are forgotten. The generation is published.
    pub(crate) fn drop_old(
        &mut self,
        generation: u64,
        module: AtomId,
        serial: u64,
        yes: bool,
        retired: RetiredRoom,
    ) -> Applied
        requires next { IsNext self.old generation }
        requires code { CanGo self.old «module».0 serial }
        requires room { RetiredFits self.old retired }
        ensures value { published (with_purged self.old «module».0 serial) (answered yes) ≡ record { state = self.new; answer = result } }
        ensures sound { IsSound self.new }
    {
        self.retired.push(serial, retired);
        self.versions.drop_old(module);
        self.traced.forget(serial);
        self.doomed = None;
        self.generation = generation;
        published(answered(yes), generation)
    }

    /// Whether the module has old code.
    pub(crate) fn decide_check_old(&self, module: AtomId) -> Change
        ensures value { unchanged self.now (answered (is_some (old_of self.now «module».0))) ≡ change_made self.now result }
        ensures fits { Fits self.now result }
    {
        Change::Nothing(answered(self.old(module).is_some()))
    }
}
