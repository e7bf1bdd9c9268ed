//! The steps on the root.

ghost use Rattle.std.specs.Prelude.{◌≡◌};
ghost use Rattle.std.specs.Option.{option_map};
ghost use Rattle.shared_words.specs.Seats.{IsSeatOf, IsSameSeat};
ghost use Rattle.shared_words.specs.Kinds.{MayLoadRoot, RootLoaded};

use crate::law::Served;
use crate::pass::Pass;
use crate::plays::LoadRoot;
use crate::table::{ROOT, Shared};

impl<N: Served> Shared<N> {
    /// Loads the root. The token has then learnt of all generations up to that of the root; a member
    /// that has loaded the counter holds that generation from now on, and none of its processes has a
    /// turn under way. What its slots name, of the areas of the generation that it held, stands in the new
    /// one too. So does a watcher that has a claim. A member and a watcher keep the root word.
    pub fn load_root<P: Pass>(&self, pass: &mut P) -> u64
        requires token { IsSeatOf self.now.table.shared.table_id (P.seat pass.old) }
        requires may { MayLoadRoot (P.seat pass.old).me.0 }
        ensures token { IsSameSeat (P.seat pass.old) (P.seat pass.new) }
        ensures number { P.number pass.new ≡ P.number pass.old }
        ensures root { P.root pass.new ≡ option_map (λ _. result) (P.root pass.old) }
        ensures anchors { P.anchors pass.new ≡ P.anchors pass.old }
        ensures view { RootLoaded N.served (P.seat pass.old).me.0 (P.seat pass.new).me.0 result }
    {
        let found = pass.load::<LoadRoot<N>, N>(&self.table.shared, ROOT as usize);
        pass.keep_root(found);
        found
    }
}
