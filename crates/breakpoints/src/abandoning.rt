//! The call by which a patch that has published nothing is taken back.

ghost use Rattle.std.specs.Prelude.{◌≡◌, Some};
ghost use Rattle.area_core.specs.Generations.{is_traced_function};
ghost use Rattle.progress_words.specs.Roots.{newest_of};
ghost use Rattle.progress_words.specs.Tokens.{written_by, IsSameWriter, IsWriterOf};
ghost use Rattle.breakpoints.specs.Indices.{AreIndices, BreakpointsRest, IsStagingUnread};
ghost use Rattle.breakpoints.specs.Patches.{HasPatched, IsPatchOf, IsPatchable, IsUnpublished};

use crate::patch::{Patch, Phase};
use crate::phases::decide;
use crate::places::decision_word;
use progress_words::newest_root;
use shared_words::{Served, Shared, Writer};
use term_core::CodeRef;

/// Whether the active index says that calls of a function are traced.
fn active_decision<N: Served>(shared: &Shared<N>, writer: &mut Writer, at: CodeRef) -> bool
    requires token { IsWriterOf shared.now.table.shared.table_id shared.now.table.shared.key writer.old }
    requires patchable { IsPatchable (written_by writer.old) at }
    requires indices { AreIndices (Some at) (written_by writer.old) }
    ensures token { IsWriterOf shared.now.table.shared.table_id shared.now.table.shared.key writer.new }
    ensures same { IsSameWriter writer.old writer.new }
    ensures view { written_by writer.new ≡ written_by writer.old }
    ensures value { result ≡ is_traced_function (newest_of (written_by writer.old)) at.area.serial at.function }
{
    let root = newest_root(shared, writer);
    let word = shared.load_word(writer, decision_word(root.bp, at.area.block, at.function));
    word == 1
}

/// Stores in the staging index what the active one says of a function.
fn unstage<N: Served>(shared: &Shared<N>, writer: &mut Writer, at: CodeRef)
    requires token { IsWriterOf shared.now.table.shared.table_id shared.now.table.shared.key writer.old }
    requires patchable { IsPatchable (written_by writer.old) at }
    requires indices { AreIndices (Some at) (written_by writer.old) }
    requires unread { IsStagingUnread (written_by writer.old) }
    ensures token { IsWriterOf shared.now.table.shared.table_id shared.now.table.shared.key writer.new }
    ensures same { IsSameWriter writer.old writer.new }
    ensures rest { BreakpointsRest (written_by writer.new) }
    ensures patched { HasPatched at (written_by writer.old) (written_by writer.new) }
    ensures words { written_by writer.new ≡ record (written_by writer.old) { words = (written_by writer.new).words } }
{
    let on = active_decision(shared, writer, at);
    decide(shared, writer, at, on);
}

impl Patch {
    /// Takes the patch back before it has published anything: the indices are at rest. The entry word of its function
    /// may lead calls to the decisions from then on, which costs such a call a look, and tells it the same.
    ///
    /// Source: this project's own.
    pub fn take_back<N: Served>(self, shared: &Shared<N>, writer: &mut Writer)
        requires token { IsWriterOf shared.now.table.shared.table_id shared.now.table.shared.key writer.old }
        requires patch { IsPatchOf self (written_by writer.old) }
        requires unpublished { IsUnpublished self.phase }
        ensures token { IsWriterOf shared.now.table.shared.table_id shared.now.table.shared.key writer.new }
        ensures same { IsSameWriter writer.old writer.new }
        ensures rest { BreakpointsRest (written_by writer.new) }
        ensures patched { HasPatched self.at (written_by writer.old) (written_by writer.new) }
        ensures words { written_by writer.new ≡ record (written_by writer.old) { words = (written_by writer.new).words } }
    {
        match self.phase {
            Phase::Begun => {}
            Phase::Staged { .. } => unstage(shared, writer, self.at),
            Phase::Entered { .. } => unstage(shared, writer, self.at),
            _ => unreachable!(),
        }
    }
}
