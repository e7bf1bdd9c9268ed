//! The calls by which the writer waits until a generation has passed.

ghost use Rattle.std.specs.Prelude.{◌≡◌, ℕ, ◌+◌, ◌≤◌, IfErr, OnOk};
ghost use Rattle.shared_words.specs.Views.{newest_number};
ghost use Rattle.progress_words.specs.Tokens.{written_by, IsWriterOf, IsSameWriter};
ghost use Rattle.progress_words.specs.Needs.{HasLoadedCounter, HasTaken, HasPassed, IsBelow};

use crate::answers::NotYet;
use shared_words::{Served, Shared, Writer};

/// How far above the counter a value to wait for lies.
const VALUES_AHEAD: u64 = 2;

/// A value of the counter to wait for: once it is reached, no thread reads a generation before the
/// one that is the newest now. It is two above the counter, since a member may be just about to
/// confirm the next value without having seen that generation.
///
/// Source: Erlang/OTP erts internal documentation, ThreadProgress.
#[tactic(auto, using(crate::proofs::Passing::taken_now, crate::proofs::Passing::loaded_now, crate::proofs::Passing::writer_counts))]
pub fn later<N: Served>(shared: &Shared<N>, writer: &mut Writer) -> u64
    requires token { IsWriterOf shared.now.table.shared.table_id shared.now.table.shared.key writer.old }
    ensures token { IsWriterOf shared.now.table.shared.table_id shared.now.table.shared.key writer.new }
    ensures same { IsSameWriter writer.old writer.new }
    ensures loaded { HasLoadedCounter (written_by writer.old) (written_by writer.new) }
    ensures need { result ≡ (written_by writer.new).counter + 2 }
    ensures taken { HasTaken (written_by writer.new) (newest_number (written_by writer.old).published) result }
{
    shared.load_counter(writer) + VALUES_AHEAD
}

/// Whether the counter has reached a value that `later` gave.
#[tactic(auto, using(crate::proofs::Passing::loaded_now, crate::proofs::Passing::writer_counts))]
pub fn reached<N: Served>(shared: &Shared<N>, writer: &mut Writer, need: u64) -> Result<(), NotYet>
    requires token { IsWriterOf shared.now.table.shared.table_id shared.now.table.shared.key writer.old }
    ensures token { IsWriterOf shared.now.table.shared.table_id shared.now.table.shared.key writer.new }
    ensures same { IsSameWriter writer.old writer.new }
    ensures loaded { HasLoadedCounter (written_by writer.old) (written_by writer.new) }
    ensures ok { OnOk result (need ≤ (written_by writer.new).counter) }
    ensures below { IfErr result (λ answer. IsBelow need (written_by writer.new) answer) }
    ensures grace { OnOk result ((generation : ℕ) → HasTaken (written_by writer.old) generation need → HasPassed N.served shared.now.table.shared.key (written_by writer.new) generation) }
{
    let current = shared.load_counter(writer);
    if current < need {
        return Err(NotYet { need, current });
    }
    Ok(())
}
