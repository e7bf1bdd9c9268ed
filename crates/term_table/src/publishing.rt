//! The call by which what is staged is published.

ghost use Rattle.std.specs.Prelude.{◌≡◌, ◌<◌, ◌^◌, length};
ghost use Rattle.area_core.specs.declared.map.TheConstants.{CODE_INDICES, BREAKPOINT_INDICES, TERM_TABLES as TABLES};
ghost use Rattle.area_core.specs.Step.{to_publish};
ghost use Rattle.shared_words.specs.Seats.{IsSameSeat};
ghost use Rattle.shared_words.specs.Publishing.{MayPublish, with_next};
ghost use Rattle.progress_words.specs.Tokens.{written_by, IsWriterOf};
ghost use Rattle.term_table.specs.Tables.{IsTableOf};
ghost use Rattle.term_table.specs.Published.{MayPublishTerms, HasPublished, restaged};

use crate::table::TermTable;
use progress_words::{later, newest_root};
use shared_words::{Next as Picked, Served, Shared, Writer};
use std::marker::Brand;
use term_core::Next;

/// Publishes what was picked, over these blocks.
fn publish_over<N: Served, M: Next, K: Picked>(
    shared: &Shared<N>,
    writer: &mut Writer,
    _next: &M,
    code: u32,
    bp: u32,
    term: u32,
)
    requires token { IsWriterOf shared.now.table.shared.table_id shared.now.table.shared.key writer.old }
    requires picked { K.next ≡ to_publish code bp term (M.next _next.now) (M.blocks _next.now) }
    requires may { MayPublish N.served (written_by writer.old) K.next }
    requires code { code < CODE_INDICES }
    requires bp { bp < BREAKPOINT_INDICES }
    requires term { term < TABLES }
    requires room { length (written_by writer.old).published < 2 ^ 40 }
    ensures token { IsWriterOf shared.now.table.shared.table_id shared.now.table.shared.key writer.new }
    ensures same { IsSameSeat writer.old.seat writer.new.seat }
    ensures published { written_by writer.new ≡ with_next K.next (written_by writer.old) }
{
    shared.store_root::<K>(writer, code, bp, term);
}

impl TermTable {
    /// Publishes the next generation, whose keys are those that are staged, by one store of the root,
    /// and answers its number. It then takes the value of the progress counter from which on no thread
    /// reads the table that was active.
    ///
    /// Source: Erlang/OTP, the manual page of persistent_term.
    pub fn publish<N: Served, M: Next>(
        &mut self,
        shared: &Shared<N>,
        writer: &mut Writer,
        next: &M,
    ) -> u64
        requires token { IsWriterOf shared.now.table.shared.table_id shared.now.table.shared.key writer.old }
        requires owned { IsTableOf self.old (written_by writer.old) }
        requires next { MayPublishTerms N.served self.old (written_by writer.old) (restaged (written_by writer.old) (M.next next.now) (M.blocks next.now)) }
        requires room { length (written_by writer.old).published < 2 ^ 40 }
        ensures token { IsWriterOf shared.now.table.shared.table_id shared.now.table.shared.key writer.new }
        ensures same { IsSameSeat writer.old.seat writer.new.seat }
        ensures published { HasPublished self.old self.new (restaged (written_by writer.old) (M.next next.now) (M.blocks next.now)) (written_by writer.old) (written_by writer.new) result }
        ensures owned { IsTableOf self.new (written_by writer.new) }
    {
        let root = newest_root(shared, writer);
        let table = (root.term + 1) % 4;
        publish_over::<N, M, Brand>(shared, writer, next, root.code, root.bp, table);
        self.needs[root.term as usize] = later(shared, writer);
        self.staged = None;
        root.generation + 1
    }
}
