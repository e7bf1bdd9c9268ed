ghost use Rattle.std.specs.Prelude.{◌≡◌, ◌<◌, ◌≤◌, [], IfOk, IfSome, None, if◌then◌else◌, is_some, length, option_and_then, ◌+◌};
ghost use Rattle.term_core.specs.Image.{IsImmediate};
ghost use Rattle.term_core.specs.Plain.{plain};
ghost use Rattle.server_core.specs.CommandTable.{holds_equal, with_key, without_key};
ghost use Rattle.server_core.specs.Rooms.{HasPlaces, HasWord, area_among};
ghost use Rattle.server_core.specs.ServerState.{found_as, found_in, found_of, live_areas, persistent_among};

use crate::command::MOST_TERMS;
use indexmap::IndexMap;
use std::alloc::Global;
use std::marker::Model;
use term_core::{AreaRef, AtomId, Found, NoMemory, Term};

/// What a key holds: the term, and the serial of its area where it is complex.
#[derive(Drop)]
pub struct Held {
    term: Term,
    area: Option<u64>,
}

/// The persistent terms, in the order in which their keys came to hold one.
#[derive(Drop)]
pub struct KeyTable {
    held: IndexMap<u32, Held>,
    /// How many of the terms have an area.
    areas: usize,
}

impl Model for KeyTable {
    ghost use Rattle.std.specs.Coded.{codes};
    ghost use Rattle.term_core.specs.TermCode.{plain_term_code};
    ghost use Rattle.server_core.specs.Rooms.{KeyRooms};

    ghost Value = { KeyRooms };

    ghost coded = { Prim.hlevel (codes, plain_term_code) };

    ghost use Rattle.server_core.specs.KeyTable.{AreCounted, rooms_in};

    ghost view = { rooms_in };

    ghost invariant = { AreCounted };
}

impl KeyTable {
    /// No keys. It takes no memory.
    pub fn new(alloc: Global) -> KeyTable
        ensures { result.persistents ≡ [] }
    {
        KeyTable {
            held: IndexMap::new(alloc),
            areas: 0,
        }
    }

    /// How many keys hold a term.
    pub fn len(&self) -> usize
        ensures { result ≡ length self.now.persistents }
    {
        self.held.len()
    }

    /// How many of the terms have an area.
    pub fn areas(&self) -> usize
        ensures { result ≡ live_areas self.now.persistents }
    {
        self.areas
    }

    /// Whether the key holds a term.
    pub fn holds(&self, key: AtomId) -> bool
        ensures { result ≡ is_some (persistent_among self.now.persistents key.0) }
    {
        self.held.contains_key(&key.0)
    }

    /// Whether the key holds an equal term.
    pub fn holds_equal(&self, key: AtomId, term: &Term) -> bool
        ensures { result ≡ holds_equal (persistent_among self.now.persistents key.0) (plain term.now) }
    {
        match self.held.get(&key.0) {
            Some(held) => held.term == *term,
            None => false,
        }
    }

    /// What a reader of the key finds.
    pub fn found(&self, key: AtomId) -> Found
        requires { IfSome (persistent_among self.now.persistents key.0) HasWord }
        ensures { found_as result ≡ found_of (persistent_among self.now.persistents key.0) }
    {
        match self.held.get(&key.0) {
            Some(held) => found_in(held),
            None => Found::Absent,
        }
    }

    /// A map for these keys and one more. As in Erlang/OTP, a put takes time in proportion to the number of keys.
    pub fn room(&self, alloc: Global) -> Result<IndexMap<u32, Held>, NoMemory>
        ensures { IfOk result (λ map. HasPlaces (length self.now.persistents + 1) map) }
    {
        let wanted = self.held.len().checked_add(1).ok_or(NoMemory)?;
        Ok(IndexMap::with_capacity(alloc, wanted)?)
    }

    /// Moves the terms into the map.
    pub fn make_room(&mut self, mut map: IndexMap<u32, Held>)
        requires { HasPlaces (length self.old.persistents + 1) map }
        ensures same { self.new.persistents ≡ self.old.persistents }
        ensures room { 0 < self.new.room }
    {
        let _ = self.held.len();
        map.append(&mut self.held).unwrap();
        self.held = map;
    }

    /// The key holds the term from now on. Gives the area of the term that it held.
    pub fn put(&mut self, key: AtomId, term: Term, area: Option<u64>) -> Option<u64>
        requires room { 0 < self.old.room }
        requires few { live_areas self.old.persistents ≤ MOST_TERMS }
        ensures former { result ≡ area_among self.old.persistents key.0 }
        ensures persistents { self.new.persistents ≡ with_key self.old.persistents (record { key = key.0; term = plain term; area = area }) }
    {
        let held = Held { term, area };
        let former = area_of(self.held.insert(key.0, held).unwrap());
        self.areas += count_of(area);
        self.areas -= count_of(former);
        former
    }

    /// The key holds nothing from now on. Gives the area of the term that it held.
    pub fn erase(&mut self, key: AtomId) -> Option<u64>
        ensures former { result ≡ area_among self.old.persistents key.0 }
        ensures persistents { self.new.persistents ≡ without_key key.0 self.old.persistents }
    {
        let former = area_of(self.held.shift_remove(&key.0));
        self.areas -= count_of(former);
        former
    }
}

/// What a reader finds of a term that a key holds.
fn found_in(held: &Held) -> Found
    requires { held.now.area ≡ None → IsImmediate held.now.term }
    ensures { found_as result ≡ found_in (plain held.now.term) held.now.area }
{
    match held.area {
        Some(serial) => Found::Area(AreaRef { serial, block: 0 }),
        None => Found::Word(held.term.word()),
    }
}

/// The area of what a key held, if it held a term that has one.
fn area_of(held: Option<Held>) -> Option<u64>
    ensures { result ≡ option_and_then (λ h. h.area) held }
{
    held?.area
}

fn count_of(area: Option<u64>) -> usize
    ensures { result ≡ (if is_some area then 1 else 0) }
{
    usize::from(area.is_some())
}
