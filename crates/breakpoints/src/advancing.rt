//! The call by which a patch comes to its next phase.

ghost use Rattle.std.specs.Prelude.{◌≡◌, ◌≢◌, ◌<◌, ◌^◌, length, IfErr, IfOk};
ghost use Rattle.shared_words.specs.Seats.{IsSameSeat};
ghost use Rattle.progress_words.specs.Tokens.{written_by, IsWriterOf};
ghost use Rattle.breakpoints.specs.declared.patch.Phase.TheVariants as phases;
ghost use Rattle.breakpoints.specs.Patches.{IsPatchOf, Switches};
ghost use Rattle.breakpoints.specs.Switched.{MaySwitch, PatchAnswers, PatchWaits, switched_over};

use crate::patch::{Patch, PatchStep, Phase};
use progress_words::NotYet;
use shared_words::{Served, Shared, Writer};
use term_core::Next;

impl Patch {
    /// Comes to the next phase, once the value of the one before is reached; until then the answer is
    /// `NotYet`, and nothing is stored. The generation is published by one store of the root.
    ///
    /// Source: Erlang/OTP erts internal documentation, Tracing and ThreadProgress.
    pub fn advance<N: Served, M: Next>(
        &mut self,
        shared: &Shared<N>,
        writer: &mut Writer,
        next: &M,
    ) -> Result<PatchStep, NotYet>
        requires token { IsWriterOf shared.now.table.shared.table_id shared.now.table.shared.key writer.old }
        requires patch { IsPatchOf self.old (written_by writer.old) }
        requires unfinished { self.old.phase ≢ phases.Finished }
        requires next { Switches self.old.on self.old.phase → MaySwitch N.served self.old (written_by writer.old) (switched_over (written_by writer.old) (M.next next.now) (M.blocks next.now)) }
        requires room { length (written_by writer.old).published < 2 ^ 40 }
        ensures token { IsWriterOf shared.now.table.shared.table_id shared.now.table.shared.key writer.new }
        ensures same { IsSameSeat writer.old.seat writer.new.seat }
        ensures at { self.new.at ≡ self.old.at }
        ensures on { self.new.on ≡ self.old.on }
        ensures patch { IsPatchOf self.new (written_by writer.new) }
        ensures answers { IfOk result (λ step. PatchAnswers self.old self.new (switched_over (written_by writer.old) (M.next next.now) (M.blocks next.now)) (written_by writer.old) (written_by writer.new) step) }
        ensures waits { IfErr result (λ answer. PatchWaits self.old self.new (written_by writer.old) (written_by writer.new) answer) }
    {
        match self.phase {
            Phase::Begun => Ok(self.stage(shared, writer)),
            Phase::Staged { need } if self.on => self.enter(shared, writer, need),
            Phase::Staged { need } => self.switch(shared, writer, next, need),
            Phase::Entered { need } => self.switch(shared, writer, next, need),
            Phase::Published { need } if self.on => self.finish(shared, writer, need),
            Phase::Published { need } => self.restore(shared, writer, need),
            Phase::Restored { need } => self.finish(shared, writer, need),
            Phase::Finished => unreachable!(),
        }
    }
}
