//! What all tokens have in common: a seat, by which each loads words.

ghost use Rattle.std.specs.Prelude.{◌≡◌};
ghost use Rattle.std.specs.Option.{option_map};
ghost use Rattle.shared_words.specs.Passes.{MayLoad, HasLoaded};

use crate::law::{Law, Served};
use crate::opening::Opening;
use crate::seats::{Member, Note, Watcher, Writer};
use crate::view::View;
use atomic_table::{Play, Shared};

/// The words as threads see them.
pub type Words<N> = Shared<(), View, Opening, Law<N>>;

/// A token of one seat.
pub trait Pass {
    ghost use Rattle.std.specs.Prelude.{ℕ, List, Option};
    ghost use Rattle.shared_words.specs.Seats.{SeatPlace};

    /// The seat.
    ghost seat: { Self → SeatPlace };

    /// The number that the token keeps: of a member its own, of the writer that of the newest
    /// generation, of a note that of its process, of a watcher that of the delay counts that it holds.
    ghost number: { Self → ℕ };

    /// The root word that a member or a watcher keeps; none of another token.
    ghost root: { Self → Option ℕ };

    /// The anchors of processes that a member keeps; none of another token.
    ghost anchors: { Self → List ℕ };

    /// Loads a word. The calls for each kind of step stand on it.
    fn load<M: Play<(), View>, N: Served>(&mut self, table: &Words<N>, word: usize) -> u64
        requires { MayLoad N.served table.now.key table.now.table_id M.then (seat self.old) word }
        ensures loaded { HasLoaded table.now.table_id M.then (seat self.old) (seat self.new) word result }
        ensures number { number self.new ≡ number self.old }
        ensures root { root self.new ≡ root self.old }
        ensures anchors { anchors self.new ≡ anchors self.old };

    /// Keeps the root word that was loaded, where the token keeps one.
    fn keep_root(&mut self, found: u64)
        ensures seat { seat self.new ≡ seat self.old }
        ensures number { number self.new ≡ number self.old }
        ensures root { root self.new ≡ option_map (λ _. found) (root self.old) }
        ensures anchors { anchors self.new ≡ anchors self.old };
}

impl Pass for Member {
    ghost use Rattle.std.specs.Prelude.{Some};

    ghost seat = { λ member. member.seat };

    ghost number = { λ member. member.number };

    ghost root = { λ member. Some member.root };

    ghost anchors = { λ member. member.anchors.items };

    fn load<M: Play<(), View>, N: Served>(&mut self, table: &Words<N>, word: usize) -> u64 {
        table.load::<M>(&mut self.seat, word)
    }

    fn keep_root(&mut self, found: u64) {
        self.root = found;
    }
}

impl Pass for Watcher {
    ghost use Rattle.std.specs.Prelude.{Some, []};

    ghost seat = { λ watcher. watcher.seat };

    ghost number = { λ watcher. watcher.holds };

    ghost root = { λ watcher. Some watcher.root };

    ghost anchors = { λ _. [] };

    fn load<M: Play<(), View>, N: Served>(&mut self, table: &Words<N>, word: usize) -> u64 {
        table.load::<M>(&mut self.seat, word)
    }

    fn keep_root(&mut self, found: u64) {
        self.root = found;
    }
}

impl Pass for Writer {
    ghost use Rattle.std.specs.Prelude.{None, []};

    ghost seat = { λ writer. writer.seat };

    ghost number = { λ writer. writer.generation };

    ghost root = { λ _. None };

    ghost anchors = { λ _. [] };

    fn load<M: Play<(), View>, N: Served>(&mut self, table: &Words<N>, word: usize) -> u64 {
        table.load::<M>(&mut self.seat, word)
    }

    fn keep_root(&mut self, _found: u64) {}
}

impl Pass for Note {
    ghost use Rattle.std.specs.Prelude.{None, []};

    ghost seat = { λ note. note.seat };

    ghost number = { λ note. note.process };

    ghost root = { λ _. None };

    ghost anchors = { λ _. [] };

    fn load<M: Play<(), View>, N: Served>(&mut self, table: &Words<N>, word: usize) -> u64 {
        table.load::<M>(&mut self.seat, word)
    }

    fn keep_root(&mut self, _found: u64) {}
}
