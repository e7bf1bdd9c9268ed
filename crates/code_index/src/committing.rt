//! The call by which what is staged is published.

ghost use Rattle.std.specs.Prelude.{◌≡◌, ◌≢◌, ◌<◌, ◌^◌, length, IfOk, IfErr};
ghost use Rattle.area_core.specs.declared.map.TheConstants.{CODE_INDICES, BREAKPOINT_INDICES, TERM_TABLES};
ghost use Rattle.area_core.specs.Step.{to_publish};
ghost use Rattle.shared_words.specs.Seats.{IsSameSeat};
ghost use Rattle.shared_words.specs.Publishing.{MayPublish, with_next};
ghost use Rattle.progress_words.specs.Tokens.{written_by, IsWriterOf, IsSameWriter};
ghost use Rattle.code_index.specs.declared.index.Staging.TheVariants as staging;
ghost use Rattle.code_index.specs.Staging.{IsIndexOf};
ghost use Rattle.code_index.specs.Committed.{MayCommit, HasBegun, HasCommitted, IsWaiting, committed};

use crate::index::{CodeIndex, Staging};
use progress_words::{NotYet, later, newest_root, reached};
use shared_words::{Next as Picked, Served, Shared, Writer};
use std::marker::Brand;
use term_core::Next;

impl Staging {
    /// The value that a commit waits for, which its first call takes.
    fn need<N: Served>(&mut self, shared: &Shared<N>, writer: &mut Writer) -> u64
        requires token { IsWriterOf shared.now.table.shared.table_id shared.now.table.shared.key writer.old }
        requires staged { self.old ≢ staging.Nothing }
        ensures token { IsWriterOf shared.now.table.shared.table_id shared.now.table.shared.key writer.new }
        ensures same { IsSameWriter writer.old writer.new }
        ensures begun { HasBegun self.old self.new (written_by writer.old) (written_by writer.new) result }
    {
        match *self {
            Staging::Nothing => 0,
            Staging::Staged { block } => {
                let need = later(shared, writer);
                *self = Staging::Committing { block, need };
                need
            }
            Staging::Committing { need, .. } => need,
        }
    }
}

/// Publishes what was picked, over these blocks.
fn publish<N: Served, M: Next, K: Picked>(
    shared: &Shared<N>,
    writer: &mut Writer,
    _next: &M,
    code: u32,
    bp: u32,
    term: u32,
)
    requires token { IsWriterOf shared.now.table.shared.table_id shared.now.table.shared.key writer.old }
    requires picked { K.next ≡ to_publish code bp term (M.next _next.now) (M.blocks _next.now) }
    requires may { MayPublish N.served (written_by writer.old) K.next }
    requires code { code < CODE_INDICES }
    requires bp { bp < BREAKPOINT_INDICES }
    requires term { term < TERM_TABLES }
    requires room { length (written_by writer.old).published < 2 ^ 40 }
    ensures token { IsWriterOf shared.now.table.shared.table_id shared.now.table.shared.key writer.new }
    ensures same { IsSameSeat writer.old.seat writer.new.seat }
    ensures published { written_by writer.new ≡ with_next K.next (written_by writer.old) }
{
    shared.store_root::<K>(writer, code, bp, term);
}

impl CodeIndex {
    /// Publishes the next generation, whose exports are those that are staged, by one store of the
    /// root, and answers its number. The first call takes a value of the progress counter to wait for;
    /// until it is reached the answer is `NotYet`, and nothing is published.
    ///
    /// Source: Erlang/OTP erts internal documentation, CodeLoading and ThreadProgress.
    pub fn commit<N: Served, M: Next>(
        &mut self,
        shared: &Shared<N>,
        writer: &mut Writer,
        next: &M,
    ) -> Result<u64, NotYet>
        requires token { IsWriterOf shared.now.table.shared.table_id shared.now.table.shared.key writer.old }
        requires owned { IsIndexOf self.old (written_by writer.old) }
        requires next { MayCommit N.served self.old (written_by writer.old) (committed (written_by writer.old) (M.next next.now) (M.blocks next.now)) }
        requires room { length (written_by writer.old).published < 2 ^ 40 }
        ensures token { IsWriterOf shared.now.table.shared.table_id shared.now.table.shared.key writer.new }
        ensures same { IsSameSeat writer.old.seat writer.new.seat }
        ensures committed { IfOk result (λ generation. HasCommitted self.old self.new (committed (written_by writer.old) (M.next next.now) (M.blocks next.now)) (written_by writer.old) (written_by writer.new) generation) }
        ensures waits { IfErr result (λ answer. IsWaiting self.old self.new (written_by writer.old) (written_by writer.new) answer) }
        ensures owned { IsIndexOf self.new (written_by writer.new) }
    {
        let need = self.staging.need(shared, writer);
        reached(shared, writer, need)?;
        let root = newest_root(shared, writer);
        let block = self.staging.block();
        publish::<N, M, Brand>(shared, writer, next, block, root.bp, root.term);
        self.staging = Staging::Nothing;
        Ok(root.generation + 1)
    }
}
