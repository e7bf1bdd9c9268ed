ghost use Rattle.std.specs.Prelude.{◌≡◌, ◌<◌, ◌≤◌, false, nat_lt, [], length, IfOk};
ghost use Rattle.std.specs.List.{prefix_len};
ghost use Rattle.machine_core.specs.Holds.{IsIncreasing, is_among, with_serial, without_serial};

use std::alloc::Global;
use std::marker::Model;
use term_core::{MOST_AREAS, NoMemory};

/// Serials in increasing order, each once, with room for as many as a process holds areas.
#[derive(Drop)]
pub struct SerialList {
    serials: Vec<u64>,
}

impl Model for SerialList {
    ghost use Rattle.std.specs.Prelude.{ℕ, List, vec_capacity};
    ghost use Rattle.machine_core.specs.Holds.{HasRoom};

    ghost Value = { List ℕ };

    ghost view = { λ it. it.serials.items };

    ghost invariant = { λ it. HasRoom it.serials.items (vec_capacity it.serials) };
}

impl SerialList {
    /// No serials, with room for as many as a process holds areas.
    pub fn new(alloc: Global) -> Result<SerialList, NoMemory>
        ensures { IfOk result (λ it. it ≡ []) }
    {
        Ok(SerialList {
            serials: Vec::with_capacity(alloc, MOST_AREAS)?,
        })
    }

    /// The serials, the least first: at most as many as a process holds areas.
    pub fn as_slice(&self) -> &[u64]
        ensures value { result.now ≡ self.now }
        ensures few { length self.now ≤ MOST_AREAS }
        ensures increasing { IsIncreasing self.now }
    {
        self.serials.as_slice()
    }

    /// Whether a serial is one of these.
    pub fn contains(&self, serial: u64) -> bool
        ensures { result ≡ is_among self.now serial }
    {
        self.serials.contains(&serial)
    }

    /// Puts in a serial, if it is not there. It takes no memory.
    pub fn insert(&mut self, serial: u64)
        requires room { is_among self.old serial ≡ false → length self.old < MOST_AREAS }
        ensures { self.new ≡ with_serial self.old serial }
    {
        if self.contains(serial) {
            return;
        }
        let place = place_of(self.serials.as_slice(), serial);
        let _ = self.serials.insert(place, serial);
    }

    /// Takes out a serial, if it is there.
    pub fn remove(&mut self, serial: u64)
        ensures { self.new ≡ without_serial self.old serial }
    {
        if self.contains(serial) {
            let place = place_of(self.serials.as_slice(), serial);
            self.serials.remove(place);
        }
    }
}

/// How many serials from the front on are below this one.
fn place_of(serials: &[u64], serial: u64) -> usize
    ensures { result ≡ prefix_len (λ n. nat_lt n serial) serials.now }
{
    serials.iter().take_while(|held| **held < serial).count()
}
