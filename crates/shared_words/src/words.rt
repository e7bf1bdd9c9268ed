//! The load of the words of blocks.

ghost use Rattle.std.specs.Prelude.{◌≡◌};
ghost use Rattle.shared_words.specs.Seats.{IsSeatOf, IsSameSeat};
ghost use Rattle.shared_words.specs.Publishing.{MayLoadWord, IsOwnWord, WordTells, word_found};

use crate::law::Served;
use crate::pass::Pass;
use crate::plays::LoadWord;
use crate::table::Shared;

impl<N: Served> Shared<N> {
    /// Loads a word of a block, or its retire or doom word, that the generation reads which the token
    /// holds, or that is of an area which a slot of a member names and which stands in that generation.
    /// What the writer loads is what it has stored; a member and a watcher keep what they find.
    pub fn load_word<P: Pass>(&self, pass: &mut P, word: u32) -> u64
        requires token { IsSeatOf self.now.table.shared.table_id (P.seat pass.old) }
        requires may { MayLoadWord word (P.seat pass.old).me.0 }
        ensures token { IsSameSeat (P.seat pass.old) (P.seat pass.new) }
        ensures number { P.number pass.new ≡ P.number pass.old }
        ensures root { P.root pass.new ≡ P.root pass.old }
        ensures anchors { P.anchors pass.new ≡ P.anchors pass.old }
        ensures view { (P.seat pass.new).me.0 ≡ word_found word result (P.seat pass.old).me.0 }
        ensures own { IsOwnWord (P.seat pass.old).me.0 word result }
        ensures tells { WordTells (P.seat pass.old).me.0 word result }
    {
        pass.load::<LoadWord, N>(&self.table.shared, word as usize)
    }
}
