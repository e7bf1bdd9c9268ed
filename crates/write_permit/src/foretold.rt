ghost use Rattle.std.specs.Prelude.{◌≡◌, IfOk};
ghost use Rattle.server_core.specs.Decided.{Fits, change_made};
ghost use Rattle.server_core.specs.ServerState.{ServerState};

use server_core::{Applied, Change, Reply};
use std::alloc::Global;
use term_core::{AtomList, NoMemory};

/// What making a change will answer.
///
/// So an entry can join the journal before its change is made, and making it meets no want of memory.
pub fn foretold(alloc: Global, change: &Change) -> Result<Applied, NoMemory>
    ensures { (s : ServerState) → Fits s change.now → IfOk result (λ applied. applied ≡ (change_made s change.now).answer) }
{
    Ok(Applied {
        reply: reply_of(alloc, change)?,
        published: published_by(change),
    })
}

/// What making the change will reply.
fn reply_of(alloc: Global, change: &Change) -> Result<Reply, NoMemory>
    ensures { (s : ServerState) → IfOk result (λ reply. reply ≡ (change_made s change.now).answer.reply) }
{
    match change {
        Change::Nothing(reply) => copied(alloc, reply),
        Change::DropOld { yes: false, .. } => Ok(Reply::False),
        Change::DropOld { .. }
        | Change::MakeOld { .. }
        | Change::Forget { .. }
        | Change::SetTrace { .. }
        | Change::ClearTrace { .. } => Ok(Reply::True),
        Change::BringIn { .. }
        | Change::Condemn { .. }
        | Change::HoldWord { .. }
        | Change::HoldArea { .. }
        | Change::GiveBack { .. } => Ok(Reply::Ok),
    }
}

/// The generation that making the change will publish, if it does.
fn published_by(change: &Change) -> Option<u64>
    ensures { (s : ServerState) → Fits s change.now → result ≡ (change_made s change.now).answer.published }
{
    match change {
        Change::Nothing(_) | Change::GiveBack { .. } => None,
        Change::BringIn { generation, .. } => Some(*generation),
        Change::MakeOld { generation, .. } => Some(*generation),
        Change::DropOld { generation, .. } => Some(*generation),
        Change::Condemn { generation, .. } => Some(*generation),
        Change::HoldWord { generation, .. } => Some(*generation),
        Change::HoldArea { generation, .. } => Some(*generation),
        Change::Forget { generation, .. } => Some(*generation),
        Change::SetTrace { generation, .. } => Some(*generation),
        Change::ClearTrace { generation, .. } => Some(*generation),
    }
}

/// An equal reply.
fn copied(alloc: Global, reply: &Reply) -> Result<Reply, NoMemory>
    ensures { IfOk result (λ copy. copy ≡ reply.now) }
{
    Ok(match reply {
        Reply::Ok => Reply::Ok,
        Reply::True => Reply::True,
        Reply::False => Reply::False,
        Reply::FalseBy(linger) => Reply::FalseBy(*linger),
        Reply::NotPurged(modules) => {
            Reply::NotPurged(AtomList::from_slice(alloc, modules.as_slice())?)
        }
        Reply::Duplicated(module) => Reply::Duplicated(*module),
        Reply::SystemLimit(limit) => Reply::SystemLimit(*limit),
    })
}
