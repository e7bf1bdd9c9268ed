//! The counts of funs by the serial of their instance.

ghost use Rattle.std.specs.Prelude.{◌≡◌, ◌+◌, ◌<◌, [], IfOk, OnOk, OnErr};
ghost use Rattle.fun_table.specs.FunNumbers.{AddsFun, fun_number};

use std::alloc::Global;
use std::collections::BTreeMap;
use std::marker::Model;
use term_core::NoMemory;

/// How many funs of each instance are counted. Contracts see a finite map, by the serials of instances that
/// have one at least, in their order. A look-up takes a time that grows with the logarithm of their number.
#[derive(Drop)]
pub struct FunCounts {
    counts: BTreeMap<u64, u64>,
}

impl Model for FunCounts {
    ghost use Rattle.std.specs.Prelude.{List, ℕ};
    ghost use Rattle.fun_table.specs.FunNumbers.{AreAtLeastOne};

    ghost Value = { List (ℕ × ℕ) };

    ghost view = { λ f. f.counts.entries };

    ghost invariant = { λ f. AreAtLeastOne f.counts.entries };
}

impl FunCounts {
    /// No funs. It takes no memory yet.
    pub fn new(alloc: Global) -> Result<FunCounts, NoMemory>
        ensures { IfOk result (λ made. made ≡ []) }
    {
        Ok(FunCounts {
            counts: BTreeMap::new(alloc),
        })
    }

    /// Counts one fun more of the instance with this serial. Where memory is refused, nothing changes.
    pub fn add(&mut self, serial: u64) -> Result<(), NoMemory>
        ensures ok { OnOk result (AddsFun serial self.old self.new) }
        ensures err { OnErr result (self.new ≡ self.old) }
    {
        let before = self.count(serial);
        if before == u64::MAX {
            return Err(NoMemory);
        }
        match self.counts.insert(serial, before + 1) {
            Ok(_) => Ok(()),
            Err(_) => Err(NoMemory),
        }
    }

    /// Counts one fun fewer of an instance that has one at least, and answers how many are left. It takes no
    /// memory.
    pub fn remove(&mut self, serial: u64) -> u64
        requires { 0 < fun_number self.old serial }
        ensures left { result + 1 ≡ fun_number self.old serial }
        ensures removed { AddsFun serial self.new self.old }
    {
        let left = self.count(serial) - 1;
        if left == 0 {
            let _ = self.counts.remove(&serial);
        } else {
            if let Some(count) = self.counts.get_mut(&serial) {
                *count = left;
            }
        }
        left
    }

    /// How many funs of this instance are counted.
    pub fn count(&self, serial: u64) -> u64
        ensures { result ≡ fun_number self.now serial }
    {
        self.counts.get(&serial).copied().unwrap_or(0)
    }
}
