//! The call by which the staging of exports begins.

ghost use Rattle.std.specs.Prelude.{◌≡◌, ◌<◌};
ghost use Rattle.area_core.specs.declared.map.TheConstants.{EXPORT_ENTRIES};
ghost use Rattle.progress_words.specs.Tokens.{written_by, IsWriterOf, IsSameWriter};
ghost use Rattle.code_index.specs.declared.index.Staging.TheVariants as staging;
ghost use Rattle.progress_words.specs.Roots.{newest_of};
ghost use Rattle.code_index.specs.Staging.{active_index, staging_index, IsIndexOf, Stages};
ghost use Rattle.code_index.specs.Copied.{HasCopiedWord, HasCopied};

use crate::index::{CodeIndex, Staging};
use crate::places::{CODE_INDICES, EXPORT_ENTRIES, index_word};
use progress_words::newest_root;
use shared_words::{Served, Shared, Writer};

/// Copies one word of the active index into the staging index.
fn copy_word<N: Served>(
    shared: &Shared<N>,
    writer: &mut Writer,
    active: u32,
    block: u32,
    entry: u32,
)
    requires token { IsWriterOf shared.now.table.shared.table_id shared.now.table.shared.key writer.old }
    requires owned { IsIndexOf staging.Nothing (written_by writer.old) }
    requires active { active ≡ active_index (written_by writer.old) }
    requires staging { block ≡ staging_index (written_by writer.old) }
    requires entry { entry < EXPORT_ENTRIES }
    ensures token { IsWriterOf shared.now.table.shared.table_id shared.now.table.shared.key writer.new }
    ensures same { IsSameWriter writer.old writer.new }
    ensures copied { HasCopiedWord block entry (written_by writer.old) (written_by writer.new) }
{
    let word = shared.load_word(writer, index_word(active, entry));
    shared.store_word(writer, index_word(block, entry), word);
}

/// Copies the active index into the staging index.
fn copy_index<N: Served>(shared: &Shared<N>, writer: &mut Writer, active: u32, block: u32)
    requires token { IsWriterOf shared.now.table.shared.table_id shared.now.table.shared.key writer.old }
    requires owned { IsIndexOf staging.Nothing (written_by writer.old) }
    requires active { active ≡ active_index (written_by writer.old) }
    requires staging { block ≡ staging_index (written_by writer.old) }
    ensures token { IsWriterOf shared.now.table.shared.table_id shared.now.table.shared.key writer.new }
    ensures same { IsSameWriter writer.old writer.new }
    ensures copied { HasCopied block EXPORT_ENTRIES (written_by writer.old) (written_by writer.new) }
    ensures owned { IsIndexOf staging.Nothing (written_by writer.new) }
{
    for entry in 0..EXPORT_ENTRIES {
        copy_word(shared, writer, active, block, entry);
    }
}

impl CodeIndex {
    /// Begins to stage: copies the active code index into the one behind it, going round, which no
    /// thread reads.
    ///
    /// Source: Erlang/OTP erts internal documentation, CodeLoading.
    pub fn start<N: Served>(&mut self, shared: &Shared<N>, writer: &mut Writer)
        requires token { IsWriterOf shared.now.table.shared.table_id shared.now.table.shared.key writer.old }
        requires owned { IsIndexOf self.old (written_by writer.old) }
        requires nothing { self.old ≡ staging.Nothing }
        ensures token { IsWriterOf shared.now.table.shared.table_id shared.now.table.shared.key writer.new }
        ensures same { IsSameWriter writer.old writer.new }
        ensures started { self.new ≡ staging.Staged (staging_index (written_by writer.old)) }
        ensures copied { HasCopied (staging_index (written_by writer.old)) EXPORT_ENTRIES (written_by writer.old) (written_by writer.new) }
        ensures staged { Stages self.new (newest_of (written_by writer.old)) (written_by writer.new) }
        ensures owned { IsIndexOf self.new (written_by writer.new) }
    {
        let root = newest_root(shared, writer);
        let block = (root.code + 1) % CODE_INDICES;
        copy_index(shared, writer, root.code, block);
        self.staging = Staging::Staged { block };
    }
}
