//! The call by which one export is staged.

ghost use Rattle.std.specs.Prelude.{◌≡◌, ◌<◌};
ghost use Rattle.area_core.specs.declared.map.TheConstants.{EXPORT_ENTRIES};
ghost use Rattle.area_core.specs.declared.table.Published.{Published};
ghost use Rattle.area_core.specs.Map.{block_place};
ghost use Rattle.shared_words.specs.Publishing.{with_word};
ghost use Rattle.progress_words.specs.Tokens.{written_by, IsWriterOf, IsSameWriter};
ghost use Rattle.code_index.specs.Exports.{code_word, ExportsWith};
ghost use Rattle.code_index.specs.Staging.{IsStaged, IsIndexOf, Stages, block_of};

use crate::index::CodeIndex;
use crate::places::{code_word, index_word};
use shared_words::{Served, Shared, Writer};
use term_core::CodeRef;

impl CodeIndex {
    /// Stages what a call of the name of this number reaches once it is committed: a function, or
    /// nothing.
    ///
    /// Source: Erlang/OTP erts internal documentation, CodeLoading.
    pub fn set<N: Served>(
        &mut self,
        shared: &Shared<N>,
        writer: &mut Writer,
        entry: u32,
        to: Option<CodeRef>,
    )
        requires token { IsWriterOf shared.now.table.shared.table_id shared.now.table.shared.key writer.old }
        requires owned { IsIndexOf self.old (written_by writer.old) }
        requires staged { IsStaged self.old }
        requires entry { entry < EXPORT_ENTRIES }
        ensures token { IsWriterOf shared.now.table.shared.table_id shared.now.table.shared.key writer.new }
        ensures same { IsSameWriter writer.old writer.new }
        ensures index { self.new ≡ self.old }
        ensures stored { written_by writer.new ≡ with_word (block_place (block_of self.old) entry) (code_word to) (written_by writer.old) }
        ensures staged { (p q : Published) → Stages self.old p (written_by writer.old) → ExportsWith entry to p q → Stages self.new q (written_by writer.new) }
        ensures owned { IsIndexOf self.new (written_by writer.new) }
    {
        let word = index_word(self.staging.block(), entry);
        shared.store_word(writer, word, code_word(to));
    }
}
