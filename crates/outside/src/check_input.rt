ghost use Rattle.std.specs.Prelude.{◌≡◌, ◌≤◌, ℕ, List, length, IfOk};
ghost use Rattle.script_core.specs.Sound.{IsScript};
ghost use Rattle.outside.specs.Inputs.{IsReadAs, IsScriptRead};
ghost use Rattle.outside.specs.Parting.{report_part, script_part};

use crate::parting::script_length;
use report_text::{ReportFault, read_report};
use run_log::RunLog;
use script_core::Script;
use script_text::{ScriptFault, read_script};
use std::alloc::Global;
use term_core::NoMemory;

/// How many bytes a script with a report behind it has at most.
pub const LONGEST_CHECK: usize = 16_777_216;

/// What a script with a report behind it was read as.
#[derive(Drop)]
pub enum CheckInput {
    /// A script, and the log that the report behind it shows.
    Read(Script, RunLog),
    /// No script stands there: this is its fault, or memory was refused.
    ScriptRefused(ScriptFault),
    /// No report stands behind the script: this is its first faulty line, counted from the report's first.
    ReportRefused(u32),
}

/// Reads a script and the report behind it. The script is judged first.
pub fn read_input(alloc: Global, bytes: &[u8]) -> Result<CheckInput, NoMemory>
    requires { length bytes.now ≤ LONGEST_CHECK }
    ensures { IfOk result (IsReadAs bytes.now) }
{
    let (script, report) = bytes.split_at(script_length(bytes));
    match read_script(alloc, script) {
        Ok(script) => read_behind(alloc, script, report),
        Err(fault) => Ok(CheckInput::ScriptRefused(fault)),
    }
}

/// Reads the report behind a script.
fn read_behind(alloc: Global, script: Script, report: &[u8]) -> Result<CheckInput, NoMemory>
    requires sound { IsScript script }
    requires short { length report.now ≤ LONGEST_CHECK }
    ensures { IfOk result (λ input. (bytes : List ℕ) → IsScriptRead (script_part bytes) script → report_part bytes ≡ report.now → IsReadAs bytes input) }
{
    match read_report(alloc, &script.names, report) {
        Ok(log) => Ok(CheckInput::Read(script, log)),
        Err(ReportFault::Syntax { line }) => Ok(CheckInput::ReportRefused(line)),
        Err(ReportFault::NoMemory) => Err(NoMemory),
    }
}
