ghost use Rattle.std.specs.Prelude.{◌≡◌, [], ◌∷◌, ◌++◌, IfOk, length};
ghost use Rattle.server_core.specs.Rooms.{HasRoom};

use crate::growth;
use std::alloc::Global;
use std::marker::Model;
use term_core::NoMemory;

/// Serials of areas that are never taken out, the newest last.
#[derive(Drop)]
pub struct SerialHistory {
    serials: Vec<u64>,
}

impl Model for SerialHistory {
    ghost use Rattle.std.specs.Prelude.{ℕ, List};

    ghost Value = { List ℕ };

    ghost use Rattle.server_core.specs.RoomAhead.{HasSerialsAhead};

    ghost view = { λ it. it.serials.items };

    ghost invariant = { HasSerialsAhead };
}

impl SerialHistory {
    /// No serials. It takes no memory.
    pub fn new(alloc: Global) -> SerialHistory
        ensures { result ≡ [] }
    {
        SerialHistory {
            serials: Vec::new(alloc),
        }
    }

    pub fn as_slice(&self) -> &[u64]
        ensures { result.now ≡ self.now }
    {
        self.serials.as_slice()
    }

    /// The memory for one more.
    pub fn room(&self, alloc: Global) -> Result<Option<Vec<u64>>, NoMemory>
        ensures { IfOk result (λ block. HasRoom (length self.now) 1 block) }
    {
        growth::room(alloc, self.serials.len(), 1)
    }

    pub fn push(&mut self, serial: u64, block: Option<Vec<u64>>)
        requires { HasRoom (length self.old) 1 block }
        ensures { self.new ≡ self.old ++ serial ∷ [] }
    {
        growth::make_room(&mut self.serials, 1, block);
        self.serials.push_reserved(serial);
    }
}
