ghost use Rattle.std.specs.Prelude.{◌≡◌, ◌↔◌, ◌+◌, ◌<◌, ◌^◌, ◌≤◌, IfOk, IsErrOf, None, Some, [], All, length, map};
ghost use Rattle.mod_core.specs.Module.{IsModule};
ghost use Rattle.server_core.specs.CommandTable.{load_of, not_purged, published, while_none_doomed, with_all};
ghost use Rattle.server_core.specs.Decided.{AreasFit, FitsIn, Fits, IsNext, change_made};
ghost use Rattle.server_core.specs.Rooms.{HasPlaces, with_currents};
ghost use Rattle.server_core.specs.ServerState.{IsSound, live_count};

use crate::answers::{next_generation, published};
use crate::areas::Area;
use crate::change::Change;
use crate::command::{Applied, Limit, MOST_INSTANCES, ModRef, Reply};
use crate::fault::ApplyFault;
use crate::instance::LoadedModule;
use crate::server::Server;
use crate::texts::{are_given, repeated, stage};
use crate::versions::{Serials, VersionTable};
use indexmap::IndexMap;
use mod_core::ModuleList;
use term_core::{AtomList, NoMemory};

impl Server {
    /// The modules are to come in at once, unless a case before that one holds.
    pub(crate) fn decide_load(
        &self,
        refs: &[ModRef],
        texts: &ModuleList,
    ) -> Result<Change, ApplyFault>
        requires { All IsModule texts.now }
        ensures ok { IfOk result (λ change. while_none_doomed self.now (load_of texts.now self.now refs.now) ≡ Some (change_made self.now change)) }
        ensures fits { IfOk result (Fits self.now) }
        ensures not_enabled { IsErrOf result ApplyFault.NotEnabled ↔ (while_none_doomed self.now (load_of texts.now self.now refs.now) ≡ None) }
    {
        if self.is_purging() {
            return Err(ApplyFault::NotEnabled);
        }
        self.decide_at_rest(refs, texts)
    }

    /// The same, while no instance is being purged.
    fn decide_at_rest(&self, refs: &[ModRef], texts: &ModuleList) -> Result<Change, ApplyFault>
        requires texts { All IsModule texts.now }
        requires rest { self.now.doomed ≡ [] }
        ensures ok { IfOk result (λ change. load_of texts.now self.now refs.now ≡ Some (change_made self.now change)) }
        ensures fits { IfOk result (Fits self.now) }
        ensures not_enabled { IsErrOf result ApplyFault.NotEnabled ↔ (load_of texts.now self.now refs.now ≡ None) }
    {
        if !are_given(texts, refs) {
            return Err(ApplyFault::NotEnabled);
        }
        if let Some(name) = repeated(self.alloc, refs)? {
            return Ok(Change::Nothing(Reply::Duplicated(name)));
        }
        let kept = self.not_purged(refs)?;
        if !kept.is_empty() {
            return Ok(Change::Nothing(Reply::NotPurged(kept)));
        }
        if self.versions.live() + refs.len() > MOST_INSTANCES {
            return Ok(Change::Nothing(Reply::SystemLimit(Limit::Instances)));
        }
        let modules = stage(self.alloc, texts, refs)?;
        Ok(self.decide_bring_in(modules)?)
    }

    /// The modules of the list that have old code, in order.
    fn not_purged(&self, refs: &[ModRef]) -> Result<AtomList, NoMemory>
        ensures { IfOk result (λ names. names ≡ not_purged self.now refs.now) }
    {
        let mut names = AtomList::new(self.alloc);
        for to in refs {
            if self.versions.old(to.name).is_some() {
                names.push(to.name)?;
            }
        }
        Ok(names)
    }

    /// The room for modules that are to come in.
    fn decide_bring_in(&self, modules: Vec<LoadedModule>) -> Result<Change, NoMemory>
        requires { FitsIn self.now modules.items }
        ensures ok { IfOk result (λ change. published (with_all self.now modules.items) Reply.Ok ≡ change_made self.now change) }
        ensures fits { IfOk result (Fits self.now) }
    {
        let generation = next_generation(self.generation)?;
        let areas = self.areas.room(self.alloc, modules.len())?;
        let versions = self.versions.room(self.alloc, modules.len())?;
        Ok(Change::BringIn {
            generation,
            modules,
            areas,
            versions,
        })
    }

    /// The modules come in, and their generation is published.
    pub(crate) fn bring_in(
        &mut self,
        generation: u64,
        modules: Vec<LoadedModule>,
        areas: Option<Vec<Area>>,
        versions: IndexMap<u32, Serials>,
    ) -> Applied
        requires next { IsNext self.old generation }
        requires modules { FitsIn self.old modules.items }
        requires areas { AreasFit self.old (length modules.items) areas }
        requires versions { HasPlaces (length self.old.versions + length modules.items) versions }
        ensures value { published (with_all self.old modules.items) Reply.Ok ≡ record { state = self.new; answer = result } }
        ensures sound { IsSound self.new }
    {
        let first = self.areas.next_serial();
        self.versions.make_room(modules.len(), versions);
        make_all_current(&mut self.versions, modules.as_slice(), first);
        self.areas.append(modules, areas);
        self.generation = generation;
        published(Reply::Ok, generation)
    }
}

/// Each of the modules has a new instance as its current code, with serials in order.
fn make_all_current(versions: &mut VersionTable, modules: &[LoadedModule], first: u64)
    requires room { length modules.now ≤ versions.old.room }
    requires places { live_count versions.old.versions + length modules.now ≤ MOST_INSTANCES }
    requires serials { first + length modules.now < 2 ^ 64 }
    ensures { versions.new.versions ≡ with_currents versions.old.versions first (map (λ m. m.name.0) modules.now) }
{
    let mut serial = first;
    for instance in modules {
        versions.make_current(instance.code().name, serial);
        serial += 1;
    }
}
