//! What the root word says to the writer.

ghost use Rattle.std.specs.Prelude.{◌≡◌};
ghost use Rattle.progress_words.specs.Tokens.{written_by, IsWriterOf, IsSameWriter};
ghost use Rattle.progress_words.specs.Roots.{IsNewestRoot};

use shared_words::{Served, Shared, Writer};

/// The numbers in a root word: the code index, the breakpoint index and the term table of a
/// generation, and its number.
#[derive(Clone, Copy, Debug, PartialEq, Eq)]
pub struct RootParts {
    pub code: u32,
    pub bp: u32,
    pub term: u32,
    pub generation: u64,
}

/// The root of the newest generation.
pub fn newest_root<N: Served>(shared: &Shared<N>, writer: &mut Writer) -> RootParts
    requires token { IsWriterOf shared.now.table.shared.table_id shared.now.table.shared.key writer.old }
    ensures token { IsWriterOf shared.now.table.shared.table_id shared.now.table.shared.key writer.new }
    ensures same { IsSameWriter writer.old writer.new }
    ensures view { written_by writer.new ≡ written_by writer.old }
    ensures root { IsNewestRoot (written_by writer.old) result }
{
    let root = shared.load_root(writer);
    RootParts {
        code: (root % 4) as u32,
        bp: (root / 4 % 2) as u32,
        term: (root / 8 % 4) as u32,
        generation: root / 32,
    }
}
