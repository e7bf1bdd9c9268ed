//! The steps on the progress counter.

ghost use Rattle.std.specs.Prelude.{◌≡◌};
ghost use Rattle.prgr_core.specs.Invariant.{CounterInRange};
ghost use Rattle.shared_words.specs.Seats.{IsSeatOf, IsSameSeat};
ghost use Rattle.shared_words.specs.Kinds.{MayLoadCounter, IsRising, counter_found};

use crate::law::Served;
use crate::pass::Pass;
use crate::plays::LoadCounter;
use crate::table::{COUNTER, Shared};

impl<N: Served> Shared<N> {
    /// Loads the counter. A member has then loaded it and confirmed nothing since; the writer keeps
    /// that its newest generation needs two more values, and finds no counter below the one before. A
    /// watcher may claim to read where it finds the counter whose delay count it has raised, or holds
    /// both counts.
    pub fn load_counter<P: Pass>(&self, pass: &mut P) -> u64
        requires token { IsSeatOf self.now.table.shared.table_id (P.seat pass.old) }
        requires may { MayLoadCounter (P.seat pass.old).me.0 }
        ensures token { IsSameSeat (P.seat pass.old) (P.seat pass.new) }
        ensures number { P.number pass.new ≡ P.number pass.old }
        ensures root { P.root pass.new ≡ P.root pass.old }
        ensures anchors { P.anchors pass.new ≡ P.anchors pass.old }
        ensures range { CounterInRange result }
        ensures rising { IsRising (P.seat pass.old).me.0 result }
        ensures view { (P.seat pass.new).me.0 ≡ counter_found result (P.seat pass.old).me.0 }
    {
        pass.load::<LoadCounter, N>(&self.table.shared, COUNTER as usize)
    }
}
