ghost use Rattle.std.specs.Prelude.{◌≡◌, ◌+◌, ◌^◌, ◌≤◌, [], ◌∷◌, ◌++◌, IfOk, length, map, option_and_then, slice_get, vec_capacity, vec_len};
ghost use Rattle.std.specs.Option.{option_copied};
ghost use Rattle.server_core.specs.Areas.{area_at, instances_in, words_among};
ghost use Rattle.server_core.specs.Rooms.{HasRoom};
ghost use Rattle.server_core.specs.ServerState.{code_among};

use crate::growth;
use crate::growth::make_room;
use crate::instance::LoadedModule;
use crate::stored_term::StoredTerm;
use mod_core::Module;
use std::alloc::Global;
use std::marker::Model;
use term_core::NoMemory;

/// What has an area of its own: an instance of a module, or a complex term.
#[derive(Drop)]
pub enum Area {
    Loaded(LoadedModule),
    Stored(StoredTerm),
}

/// The areas that came in: the one with serial n stands at place n - 1.
#[derive(Drop)]
pub struct AreaTable {
    areas: Vec<Area>,
}

impl Model for AreaTable {
    ghost use Rattle.std.specs.Prelude.{List};
    ghost use Rattle.std.specs.Coded.{coded_list};
    ghost use Rattle.server_core.specs.declared.areas.Area.{Area};
    ghost use Rattle.server_core.specs.contracts.areas.Area as area_contracts;

    ghost Value = { List Area };

    ghost coded = { coded_list area_contracts.the_row.coded };

    ghost use Rattle.server_core.specs.RoomAhead.{HasAreasAhead};

    ghost view = { λ it. it.areas.items };

    ghost invariant = { HasAreasAhead };
}

impl AreaTable {
    /// No areas. It takes no memory.
    pub fn new(alloc: Global) -> AreaTable
        ensures { result ≡ [] }
    {
        AreaTable {
            areas: Vec::new(alloc),
        }
    }

    /// The serial of the area that comes in next.
    pub fn next_serial(&self) -> u64
        ensures value { result ≡ length self.now + 1 }
        ensures small { result ≤ 2 ^ 63 }
    {
        self.areas.len() as u64 + 1
    }

    /// The module of the instance with a serial.
    pub fn code(&self, serial: u64) -> Option<&Module>
        ensures { option_copied result ≡ code_among (instances_in 1 self.now) serial }
    {
        match self.get(serial)? {
            Area::Loaded(instance) => Some(instance.code()),
            Area::Stored(_) => None,
        }
    }

    /// A word of the area with a serial; places count words from 0.
    pub fn word(&self, serial: u64, at: u32) -> Option<u64>
        ensures { result ≡ option_and_then (λ words. slice_get words at) (words_among self.now serial) }
    {
        match self.get(serial)? {
            Area::Loaded(instance) => instance.word(serial, at),
            Area::Stored(term) => term.word(at),
        }
    }

    fn get(&self, serial: u64) -> Option<&Area>
        ensures { option_copied result ≡ area_at self.now serial }
    {
        let areas = self.areas.as_slice();
        areas.get(serial.checked_sub(1)? as usize)
    }

    /// The memory for so many areas more.
    pub fn room(&self, alloc: Global, more: usize) -> Result<Option<Vec<Area>>, NoMemory>
        ensures { IfOk result (λ block. HasRoom (length self.now) more block) }
    {
        growth::room(alloc, self.areas.len(), more)
    }

    /// The term gets the next serial.
    pub fn push(&mut self, term: StoredTerm, block: Option<Vec<Area>>)
        requires { HasRoom (length self.old) 1 block }
        ensures { self.new ≡ self.old ++ Area.Stored term ∷ [] }
    {
        make_room(&mut self.areas, 1, block);
        self.areas.push_reserved(Area::Stored(term));
    }

    /// The modules get the next serials, in order.
    pub fn append(&mut self, modules: Vec<LoadedModule>, block: Option<Vec<Area>>)
        requires { HasRoom (length self.old) (length modules.items) block }
        ensures { self.new ≡ self.old ++ map Area.Loaded modules.items }
    {
        make_room(&mut self.areas, modules.len(), block);
        push_all(&mut self.areas, modules);
    }
}

/// Appends each of the modules as what has an area.
fn push_all(areas: &mut Vec<Area>, modules: Vec<LoadedModule>)
    requires { vec_len areas.old + length modules.items ≤ vec_capacity areas.old }
    ensures items { areas.new.items ≡ areas.old.items ++ map Area.Loaded modules.items }
    ensures len { vec_len areas.new ≡ vec_len areas.old + length modules.items }
    ensures capacity { vec_capacity areas.new ≡ vec_capacity areas.old }
{
    for instance in modules {
        areas.push_reserved(Area::Loaded(instance));
    }
}
