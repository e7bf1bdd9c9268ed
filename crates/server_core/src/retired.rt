ghost use Rattle.std.specs.Prelude.{◌≡◌, [], ◌∷◌, ◌++◌, IfOk, IfSome, length, slice_get};
ghost use Rattle.std.specs.Option.{option_to_list};
ghost use Rattle.server_core.specs.CommandTable.{without_number};
ghost use Rattle.server_core.specs.RetiredSlots.{CanRetire, HasRetiredRoom};
ghost use Rattle.server_core.specs.ServerState.{is_serial_in, serial_behind};

use crate::slots::{RetiredRoom, SlotTable};
use std::alloc::Global;
use std::marker::Model;
use term_core::NoMemory;

/// The serials of the areas that were dropped and not released, in the order in which they were dropped.
///
/// Whether an area is one of them, and its release, are matters of one look. Its room is no matter of its length, since
/// any may go at any time, so each one more comes with blocks for all.
#[derive(Drop)]
pub struct RetiredAreas {
    table: SlotTable,
}

impl Model for RetiredAreas {
    ghost use Rattle.std.specs.Prelude.{ℕ, List};
    ghost use Rattle.server_core.specs.RetiredSlots.{HasSlotTable, serials_in};

    ghost Value = { List ℕ };

    ghost view = { λ it. serials_in it.table.slots.items };

    ghost invariant = { HasSlotTable };
}

impl RetiredAreas {
    /// No areas. It takes no memory.
    pub fn new(alloc: Global) -> RetiredAreas
        ensures { result ≡ [] }
    {
        RetiredAreas {
            table: SlotTable::new(alloc),
        }
    }

    /// Whether the serial is one of them.
    pub fn holds(&self, serial: u64) -> bool
        ensures { result ≡ is_serial_in self.now serial }
    {
        self.table.slot_of(serial).is_some()
    }

    /// The serial of the area that was dropped first.
    pub fn oldest(&self) -> Option<u64>
        ensures { result ≡ slice_get self.now 0 }
    {
        self.table.oldest()
    }

    /// The serial of the area that was dropped next behind this one.
    pub fn behind(&self, serial: u64) -> Option<u64>
        ensures { result ≡ serial_behind self.now serial }
    {
        self.table.behind(serial)
    }

    /// Room for one more, with a serial below this one.
    pub fn room(&self, alloc: Global, next_serial: u64) -> Result<RetiredRoom, NoMemory>
        ensures { IfOk result (HasRetiredRoom (length self.now) next_serial) }
    {
        self.table.room(alloc, next_serial as usize)
    }

    /// Appends the serial as the newest, in the blocks that `room` gave.
    pub fn push(&mut self, serial: u64, room: RetiredRoom)
        requires { CanRetire self.old serial room }
        ensures { self.new ≡ self.old ++ serial ∷ [] }
    {
        let RetiredRoom { slots, places } = room;
        self.table.make_slot(slots);
        self.table.make_place(serial, places);
        self.table.put(serial);
    }

    /// Appends the serial, if there is one.
    pub fn push_some(&mut self, serial: Option<u64>, room: RetiredRoom)
        requires { IfSome serial (λ n. CanRetire self.old n room) }
        ensures { self.new ≡ self.old ++ option_to_list serial }
    {
        if let Some(serial) = serial {
            self.push(serial, room);
        }
    }

    /// Takes the serial out, wherever it stands.
    pub fn remove(&mut self, serial: u64)
        ensures { self.new ≡ without_number serial self.old }
    {
        if let Some(slot) = self.table.slot_of(serial) {
            self.table.clear(slot, serial);
        }
    }
}
