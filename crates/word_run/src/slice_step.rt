//! What a loader does in a lap, by its next command.

ghost use Rattle.std.specs.Prelude.{Some};
ghost use Rattle.std.specs.Option.{option_copied};
ghost use Rattle.word_run.specs.Loaders.{IsStepFor};

use script_core::ScriptCmd;

/// What a loader does in a lap, by its next command.
#[derive(Clone, Copy, Debug, PartialEq, Eq)]
pub enum SliceStep {
    /// All its commands are done.
    Over,
    /// It makes a spawn, or looks for old code.
    AtOnce,
    /// It goes on with a command that needs the permission.
    Operates,
}

/// What a loader does in a lap whose next command is this.
pub fn slice_step(command: Option<&ScriptCmd>) -> SliceStep
    ensures { IsStepFor (option_copied command.entry) result }
{
    match command {
        None => SliceStep::Over,
        Some(command) => step_for(command),
    }
}

/// What a loader does in a lap with this command.
fn step_for(command: &ScriptCmd) -> SliceStep
    ensures { IsStepFor (Some command.now) result }
{
    match command {
        ScriptCmd::Spawn { .. } => SliceStep::AtOnce,
        ScriptCmd::CheckOld(_) => SliceStep::AtOnce,
        ScriptCmd::Load(_) => SliceStep::Operates,
        ScriptCmd::Delete(_) => SliceStep::Operates,
        ScriptCmd::SoftPurge(_) => SliceStep::Operates,
        ScriptCmd::Purge(_) => SliceStep::Operates,
        ScriptCmd::Put { .. } => SliceStep::Operates,
        ScriptCmd::Erase(_) => SliceStep::Operates,
        ScriptCmd::Trace { .. } => SliceStep::Operates,
    }
}
