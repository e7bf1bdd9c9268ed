ghost use Rattle.std.specs.Prelude.{◌≡◌, ◌↔◌, ◌+◌, IfOk, IsErrOf, None, Some, false, length, true};
ghost use Rattle.term_core.specs.Image.{is_immediate};
ghost use Rattle.term_core.specs.Plain.{plain};
ghost use Rattle.server_core.specs.CommandTable.{erase_of, published, put_of, while_none_doomed, with_complex, with_erased, with_immediate, with_put};
ghost use Rattle.server_core.specs.Decided.{AreasFit, CanHold, Fits, IsNext, RetiredFits, change_made};
ghost use Rattle.server_core.specs.Rooms.{HasPlaces};
ghost use Rattle.server_core.specs.ServerState.{IsShortTerm, IsSound, persistent_of};

use crate::answers::{next_generation, published};
use crate::areas::Area;
use crate::change::Change;
use crate::command::{Applied, Limit, MOST_KEYS, MOST_TERMS, Reply};
use crate::fault::ApplyFault;
use crate::keys::Held;
use crate::server::Server;
use crate::slots::RetiredRoom;
use crate::stored_term::StoredTerm;
use indexmap::IndexMap;
use term_core::{AtomId, NoMemory, Term};

impl Server {
    /// The key is to hold the term, unless it holds an equal one or there are too many.
    pub(crate) fn decide_put(&self, key: AtomId, term: &Term) -> Result<Change, ApplyFault>
        requires { IsShortTerm (plain term.now) }
        ensures ok { IfOk result (λ change. while_none_doomed self.now (Some (put_of self.now key.0 (plain term.now))) ≡ Some (change_made self.now change)) }
        ensures fits { IfOk result (Fits self.now) }
        ensures not_enabled { IsErrOf result ApplyFault.NotEnabled ↔ (while_none_doomed self.now (Some (put_of self.now key.0 (plain term.now))) ≡ None) }
    {
        if self.is_purging() {
            return Err(ApplyFault::NotEnabled);
        }
        if self.keys.holds_equal(key, term) {
            return Ok(Change::Nothing(Reply::Ok));
        }
        if !self.keys.holds(key) && self.keys.len() >= MOST_KEYS {
            return Ok(Change::Nothing(Reply::SystemLimit(Limit::Keys)));
        }
        if !term.is_immediate() && self.keys.areas() >= MOST_TERMS {
            return Ok(Change::Nothing(Reply::SystemLimit(Limit::Areas)));
        }
        Ok(self.decide_hold(key, term)?)
    }

    /// The memory for a term that a key is to hold.
    fn decide_hold(&self, key: AtomId, term: &Term) -> Result<Change, NoMemory>
        requires { CanHold self.now key.0 (plain term.now) }
        ensures ok { IfOk result (λ change. published (with_put self.now key.0 (plain term.now)) Reply.Ok ≡ change_made self.now change) }
        ensures fits { IfOk result (Fits self.now) }
    {
        if term.is_immediate() {
            self.decide_word(key, term)
        } else {
            self.decide_area(key, term)
        }
    }

    /// The memory for an integer or an atom.
    fn decide_word(&self, key: AtomId, term: &Term) -> Result<Change, NoMemory>
        requires place { CanHold self.now key.0 (plain term.now) }
        requires immediate { is_immediate (plain term.now) ≡ true }
        ensures ok { IfOk result (λ change. published (with_immediate self.now key.0 (plain term.now)) Reply.Ok ≡ change_made self.now change) }
        ensures fits { IfOk result (Fits self.now) }
    {
        let generation = next_generation(self.generation)?;
        let term = term.copy(self.alloc)?;
        let keys = self.keys.room(self.alloc)?;
        let retired = self.retired.room(self.alloc, self.areas.next_serial())?;
        Ok(Change::HoldWord {
            generation,
            key,
            term,
            keys,
            retired,
        })
    }

    /// The memory for a complex term, and the words of its area.
    fn decide_area(&self, key: AtomId, term: &Term) -> Result<Change, NoMemory>
        requires place { CanHold self.now key.0 (plain term.now) }
        requires complex { is_immediate (plain term.now) ≡ false }
        ensures ok { IfOk result (λ change. published (with_complex self.now key.0 (plain term.now)) Reply.Ok ≡ change_made self.now change) }
        ensures fits { IfOk result (Fits self.now) }
    {
        let generation = next_generation(self.generation)?;
        let stored = StoredTerm::new(self.alloc, term)?;
        let term = term.copy(self.alloc)?;
        let areas = self.areas.room(self.alloc, 1)?;
        let keys = self.keys.room(self.alloc)?;
        let retired = self.retired.room(self.alloc, self.areas.next_serial())?;
        Ok(Change::HoldArea {
            generation,
            key,
            term,
            stored,
            areas,
            keys,
            retired,
        })
    }

    /// The key holds an integer or an atom, and the generation is published.
    pub(crate) fn hold_word(
        &mut self,
        generation: u64,
        key: AtomId,
        term: Term,
        keys: IndexMap<u32, Held>,
        retired: RetiredRoom,
    ) -> Applied
        requires next { IsNext self.old generation }
        requires place { CanHold self.old key.0 (plain term) }
        requires immediate { is_immediate (plain term) ≡ true }
        requires keys { HasPlaces (length self.old.keys + 1) keys }
        requires retired { RetiredFits self.old retired }
        ensures value { published (with_immediate self.old key.0 (plain term)) Reply.Ok ≡ record { state = self.new; answer = result } }
        ensures sound { IsSound self.new }
    {
        self.keys.make_room(keys);
        let former = self.keys.put(key, term, None);
        self.retired.push_some(former, retired);
        self.generation = generation;
        published(Reply::Ok, generation)
    }

    /// The key holds a complex term, which has an area of its own, and the generation is published.
    pub(crate) fn hold_area(
        &mut self,
        generation: u64,
        key: AtomId,
        term: Term,
        stored: StoredTerm,
        areas: Option<Vec<Area>>,
        keys: IndexMap<u32, Held>,
        retired: RetiredRoom,
    ) -> Applied
        requires next { IsNext self.old generation }
        requires place { CanHold self.old key.0 (plain term) }
        requires complex { is_immediate (plain term) ≡ false }
        requires stored { stored ≡ plain term }
        requires areas { AreasFit self.old 1 areas }
        requires keys { HasPlaces (length self.old.keys + 1) keys }
        requires retired { RetiredFits self.old retired }
        ensures value { published (with_complex self.old key.0 (plain term)) Reply.Ok ≡ record { state = self.new; answer = result } }
        ensures sound { IsSound self.new }
    {
        self.keys.make_room(keys);
        let serial = self.areas.next_serial();
        self.areas.push(stored, areas);
        let former = self.keys.put(key, term, Some(serial));
        self.retired.push_some(former, retired);
        self.generation = generation;
        published(Reply::Ok, generation)
    }

    /// The key is to hold nothing.
    pub(crate) fn decide_erase(&self, key: AtomId) -> Result<Change, ApplyFault>
        ensures ok { IfOk result (λ change. while_none_doomed self.now (Some (erase_of self.now key.0 (persistent_of self.now key.0))) ≡ Some (change_made self.now change)) }
        ensures fits { IfOk result (Fits self.now) }
        ensures not_enabled { IsErrOf result ApplyFault.NotEnabled ↔ (while_none_doomed self.now (Some (erase_of self.now key.0 (persistent_of self.now key.0))) ≡ None) }
    {
        if self.is_purging() {
            return Err(ApplyFault::NotEnabled);
        }
        if !self.keys.holds(key) {
            return Ok(Change::Nothing(Reply::False));
        }
        let generation = next_generation(self.generation)?;
        let retired = self.retired.room(self.alloc, self.areas.next_serial())?;
        Ok(Change::Forget {
            generation,
            key,
            retired,
        })
    }

    /// The key holds nothing, and the generation is published.
    pub(crate) fn forget(&mut self, generation: u64, key: AtomId, retired: RetiredRoom) -> Applied
        requires next { IsNext self.old generation }
        requires retired { RetiredFits self.old retired }
        ensures value { published (with_erased self.old key.0) Reply.True ≡ record { state = self.new; answer = result } }
        ensures sound { IsSound self.new }
    {
        let former = self.keys.erase(key);
        self.retired.push_some(former, retired);
        self.generation = generation;
        published(Reply::True, generation)
    }
}
