//! The lists that a state holds. Contracts see each as a plain list.

ghost use Rattle.std.specs.Prelude.{◌≡◌, ◌++◌, ◌∷◌, [], ◌<◌, length, slice_get, slice_set, take, OnOk, OnErr, ◌-◌};
ghost use Rattle.prgr_core.specs.Needs.{need_of, with_need, without_need};

use crate::event::PrgrEvent;
use crate::fault::NoMemory;
use crate::member::{Member, Retirement};
use crate::watcher::Watcher;
use std::alloc::Global;
use std::collections::BTreeMap;
use std::marker::Model;

/// A `Vec` that contracts see as the list of its elements, so that records that hold it can be compared.
#[derive(Debug, Drop)]
pub struct Items<T> {
    items: Vec<T>,
}

/// The members, in the order of their numbers.
pub type MemberList = Items<Member>;

/// The watchers, in the order of their numbers.
pub type WatcherList = Items<Watcher>;

/// The retirements that were ever made, oldest first.
pub type RetirementList = Items<Retirement>;

/// Events, first to last.
pub type EventList = Items<PrgrEvent>;

impl<T> Model for Items<T> {
    ghost use Rattle.std.specs.Prelude.{List};
    ghost use Rattle.std.specs.Coded.{coded_list};

    ghost Value = { List T };

    ghost coded = { coded_list T.code };

    ghost view = { λ l. l.items.items };
}

impl<T> Items<T> {
    pub fn new(alloc: Global) -> Items<T>
        ensures { result ≡ [] }
    {
        Items {
            items: Vec::new(alloc),
        }
    }

    pub fn len(&self) -> usize
        ensures { result ≡ length self.now }
    {
        self.items.len()
    }

    pub fn as_slice(&self) -> &[T]
        ensures { result.now ≡ self.now }
    {
        self.items.as_slice()
    }
}

impl<T: Drop> Items<T> {
    /// Appends an element.
    pub fn push(&mut self, item: T) -> Result<(), NoMemory>
        ensures ok { OnOk result (self.new ≡ self.old ++ item ∷ []) }
        ensures err { OnErr result (self.new ≡ self.old) }
    {
        self.items.push(item)?;
        Ok(())
    }

    /// Takes the last element away.
    pub fn remove_last(&mut self)
        ensures { self.new ≡ take (length self.old - 1) self.old }
    {
        let _ = self.items.pop();
    }
}

impl<T: Copy> Items<T> {
    /// The element at a place, if there is one.
    pub fn get(&self, place: u32) -> Option<T>
        ensures { result ≡ slice_get self.now place }
    {
        self.items.get(place as usize).copied()
    }

    pub fn set(&mut self, place: u32, item: T)
        requires { place < length self.old }
        ensures { self.new ≡ slice_set self.old place item }
    {
        self.items[place as usize] = item;
    }
}

/// The retirements that are not released: each generation with its need, in the order of the
/// generations. A look-up takes a time that grows with the logarithm of their number.
#[derive(Debug, Drop)]
pub struct NeedMap {
    needs: BTreeMap<u64, u64>,
}

impl Model for NeedMap {
    ghost use Rattle.std.specs.Prelude.{List, ℕ};

    ghost Value = { List (ℕ × ℕ) };

    ghost view = { λ m. m.needs.entries };
}

impl NeedMap {
    pub fn new(alloc: Global) -> NeedMap
        ensures { result ≡ [] }
    {
        NeedMap {
            needs: BTreeMap::new(alloc),
        }
    }

    /// The need of a generation that is retired and not released.
    pub fn get(&self, generation: u64) -> Option<u64>
        ensures { result ≡ need_of self.now generation }
    {
        self.needs.get(&generation).copied()
    }

    pub fn insert(&mut self, generation: u64, need: u64) -> Result<(), NoMemory>
        ensures ok { OnOk result (self.new ≡ with_need self.old generation need) }
        ensures err { OnErr result (self.new ≡ self.old) }
    {
        match self.needs.insert(generation, need) {
            Ok(_) => Ok(()),
            Err(_) => Err(NoMemory),
        }
    }

    pub fn remove(&mut self, generation: u64)
        ensures { self.new ≡ without_need self.old generation }
    {
        let _ = self.needs.remove(&generation);
    }
}
