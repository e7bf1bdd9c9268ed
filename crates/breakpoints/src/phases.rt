//! The steps of a patch, one for each phase.

ghost use Rattle.std.specs.Prelude.{◌≡◌, ◌<◌, ◌^◌, true, false, Some, length, IfErr, IfOk};
ghost use Rattle.area_core.specs.declared.map.TheConstants.{BREAKPOINT_INDICES, CODE_INDICES, TERM_TABLES};
ghost use Rattle.area_core.specs.declared.table.Published.{Published};
ghost use Rattle.area_core.specs.Step.{to_publish};
ghost use Rattle.area_core.specs.Stores.{entry_word};
ghost use Rattle.shared_words.specs.Seats.{IsSameSeat};
ghost use Rattle.shared_words.specs.Publishing.{MayPublish, with_next, with_word};
ghost use Rattle.progress_words.specs.Tokens.{written_by, IsSameWriter, IsWriterOf};
ghost use Rattle.breakpoints.specs.declared.patch.Phase.TheVariants as phases;
ghost use Rattle.breakpoints.specs.Indices.{AreIndices, IsStagingUnread, decision_place, staging_breakpoints};
ghost use Rattle.breakpoints.specs.Patches.{IsLastPhase, IsPatchOf, IsPatchable, Switches, phase_need};
ghost use Rattle.breakpoints.specs.Switched.{MaySwitch, PatchAnswers, PatchWaits, switched_over};

use crate::patch::{Patch, PatchStep, Phase};
use crate::places::{BREAKPOINT_INDICES, decision_value, decision_word};
use progress_words::{NotYet, later, newest_root, reached};
use shared_words::{Next as Picked, Served, Shared, Writer};
use std::marker::Brand;
use term_core::{CodeRef, Next};

/// Stores the decision on a function in the staging index.
pub(crate) fn decide<N: Served>(shared: &Shared<N>, writer: &mut Writer, at: CodeRef, on: bool)
    requires token { IsWriterOf shared.now.table.shared.table_id shared.now.table.shared.key writer.old }
    requires patchable { IsPatchable (written_by writer.old) at }
    requires indices { AreIndices (Some at) (written_by writer.old) }
    requires unread { IsStagingUnread (written_by writer.old) }
    ensures token { IsWriterOf shared.now.table.shared.table_id shared.now.table.shared.key writer.new }
    ensures same { IsSameWriter writer.old writer.new }
    ensures stored { written_by writer.new ≡ with_word (decision_place (staging_breakpoints (written_by writer.old)) at) (entry_word on) (written_by writer.old) }
{
    let root = newest_root(shared, writer);
    let bp = (root.bp + 1) % BREAKPOINT_INDICES;
    let word = decision_word(bp, at.area.block, at.function);
    shared.store_word(writer, word, decision_value(on));
}

/// Publishes what was picked, over these blocks.
fn publish<N: Served, M: Next, K: Picked>(
    shared: &Shared<N>,
    writer: &mut Writer,
    _next: &M,
    code: u32,
    bp: u32,
    term: u32,
)
    requires token { IsWriterOf shared.now.table.shared.table_id shared.now.table.shared.key writer.old }
    requires picked { K.next ≡ to_publish code bp term (M.next _next.now) (M.blocks _next.now) }
    requires may { MayPublish N.served (written_by writer.old) K.next }
    requires code { code < CODE_INDICES }
    requires bp { bp < BREAKPOINT_INDICES }
    requires term { term < TERM_TABLES }
    requires room { length (written_by writer.old).published < 2 ^ 40 }
    ensures token { IsWriterOf shared.now.table.shared.table_id shared.now.table.shared.key writer.new }
    ensures same { IsSameSeat writer.old.seat writer.new.seat }
    ensures published { written_by writer.new ≡ with_next K.next (written_by writer.old) }
{
    shared.store_root::<K>(writer, code, bp, term);
}

impl Patch {
    /// Stages the decision.
    pub(crate) fn stage<N: Served>(&mut self, shared: &Shared<N>, writer: &mut Writer) -> PatchStep
        requires token { IsWriterOf shared.now.table.shared.table_id shared.now.table.shared.key writer.old }
        requires patch { IsPatchOf self.old (written_by writer.old) }
        requires phase { self.old.phase ≡ phases.Begun }
        ensures token { IsWriterOf shared.now.table.shared.table_id shared.now.table.shared.key writer.new }
        ensures same { IsSameWriter writer.old writer.new }
        ensures at { self.new.at ≡ self.old.at }
        ensures on { self.new.on ≡ self.old.on }
        ensures patch { IsPatchOf self.new (written_by writer.new) }
        ensures answers { (p : Published) → PatchAnswers self.old self.new p (written_by writer.old) (written_by writer.new) result }
    {
        decide(shared, writer, self.at, self.on);
        let need = later(shared, writer);
        self.phase = Phase::Staged { need };
        PatchStep::Moved
    }

    /// Leads calls to the decisions, once the value is reached.
    pub(crate) fn enter<N: Served>(
        &mut self,
        shared: &Shared<N>,
        writer: &mut Writer,
        need: u64,
    ) -> Result<PatchStep, NotYet>
        requires token { IsWriterOf shared.now.table.shared.table_id shared.now.table.shared.key writer.old }
        requires patch { IsPatchOf self.old (written_by writer.old) }
        requires phase { self.old.phase ≡ phases.Staged need }
        requires set { self.old.on ≡ true }
        ensures token { IsWriterOf shared.now.table.shared.table_id shared.now.table.shared.key writer.new }
        ensures same { IsSameWriter writer.old writer.new }
        ensures at { self.new.at ≡ self.old.at }
        ensures on { self.new.on ≡ self.old.on }
        ensures patch { IsPatchOf self.new (written_by writer.new) }
        ensures answers { (p : Published) → IfOk result (λ step. PatchAnswers self.old self.new p (written_by writer.old) (written_by writer.new) step) }
        ensures waits { IfErr result (λ answer. PatchWaits self.old self.new (written_by writer.old) (written_by writer.new) answer) }
    {
        reached(shared, writer, need)?;
        shared.store_entry(writer, self.at, true);
        let need = later(shared, writer);
        self.phase = Phase::Entered { need };
        Ok(PatchStep::Moved)
    }

    /// Stores the root with the staging index, once the value is reached, and answers the number of
    /// the generation.
    pub(crate) fn switch<N: Served, M: Next>(
        &mut self,
        shared: &Shared<N>,
        writer: &mut Writer,
        next: &M,
        need: u64,
    ) -> Result<PatchStep, NotYet>
        requires token { IsWriterOf shared.now.table.shared.table_id shared.now.table.shared.key writer.old }
        requires patch { IsPatchOf self.old (written_by writer.old) }
        requires phase { phase_need self.old.phase ≡ Some need }
        requires due { Switches self.old.on self.old.phase }
        requires next { MaySwitch N.served self.old (written_by writer.old) (switched_over (written_by writer.old) (M.next next.now) (M.blocks next.now)) }
        requires room { length (written_by writer.old).published < 2 ^ 40 }
        ensures token { IsWriterOf shared.now.table.shared.table_id shared.now.table.shared.key writer.new }
        ensures same { IsSameSeat writer.old.seat writer.new.seat }
        ensures at { self.new.at ≡ self.old.at }
        ensures on { self.new.on ≡ self.old.on }
        ensures patch { IsPatchOf self.new (written_by writer.new) }
        ensures answers { IfOk result (λ step. PatchAnswers self.old self.new (switched_over (written_by writer.old) (M.next next.now) (M.blocks next.now)) (written_by writer.old) (written_by writer.new) step) }
        ensures waits { IfErr result (λ answer. PatchWaits self.old self.new (written_by writer.old) (written_by writer.new) answer) }
    {
        reached(shared, writer, need)?;
        let root = newest_root(shared, writer);
        let bp = (root.bp + 1) % BREAKPOINT_INDICES;
        publish::<N, M, Brand>(shared, writer, next, root.code, bp, root.term);
        let need = later(shared, writer);
        self.phase = Phase::Published { need };
        Ok(PatchStep::Published(root.generation + 1))
    }

    /// Leads calls past the decisions, once the value is reached.
    pub(crate) fn restore<N: Served>(
        &mut self,
        shared: &Shared<N>,
        writer: &mut Writer,
        need: u64,
    ) -> Result<PatchStep, NotYet>
        requires token { IsWriterOf shared.now.table.shared.table_id shared.now.table.shared.key writer.old }
        requires patch { IsPatchOf self.old (written_by writer.old) }
        requires phase { self.old.phase ≡ phases.Published need }
        requires cleared { self.old.on ≡ false }
        ensures token { IsWriterOf shared.now.table.shared.table_id shared.now.table.shared.key writer.new }
        ensures same { IsSameWriter writer.old writer.new }
        ensures at { self.new.at ≡ self.old.at }
        ensures on { self.new.on ≡ self.old.on }
        ensures patch { IsPatchOf self.new (written_by writer.new) }
        ensures answers { (p : Published) → IfOk result (λ step. PatchAnswers self.old self.new p (written_by writer.old) (written_by writer.new) step) }
        ensures waits { IfErr result (λ answer. PatchWaits self.old self.new (written_by writer.old) (written_by writer.new) answer) }
    {
        reached(shared, writer, need)?;
        shared.store_entry(writer, self.at, false);
        let need = later(shared, writer);
        self.phase = Phase::Restored { need };
        Ok(PatchStep::Moved)
    }

    /// Makes the index equal that was active before, once the value is reached.
    pub(crate) fn finish<N: Served>(
        &mut self,
        shared: &Shared<N>,
        writer: &mut Writer,
        need: u64,
    ) -> Result<PatchStep, NotYet>
        requires token { IsWriterOf shared.now.table.shared.table_id shared.now.table.shared.key writer.old }
        requires patch { IsPatchOf self.old (written_by writer.old) }
        requires phase { phase_need self.old.phase ≡ Some need }
        requires last { IsLastPhase self.old.on self.old.phase }
        ensures token { IsWriterOf shared.now.table.shared.table_id shared.now.table.shared.key writer.new }
        ensures same { IsSameWriter writer.old writer.new }
        ensures at { self.new.at ≡ self.old.at }
        ensures on { self.new.on ≡ self.old.on }
        ensures patch { IsPatchOf self.new (written_by writer.new) }
        ensures answers { (p : Published) → IfOk result (λ step. PatchAnswers self.old self.new p (written_by writer.old) (written_by writer.new) step) }
        ensures waits { IfErr result (λ answer. PatchWaits self.old self.new (written_by writer.old) (written_by writer.new) answer) }
    {
        reached(shared, writer, need)?;
        decide(shared, writer, self.at, self.on);
        self.phase = Phase::Finished;
        Ok(PatchStep::Finished)
    }
}
