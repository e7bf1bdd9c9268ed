//! The line of a refusal.

ghost use Rattle.std.specs.Prelude.{◌≡◌, ◌++◌, OnOk, OnErr};
ghost use Rattle.std.specs.Io.{StartsWith};
ghost use Rattle.script_text.specs.FaultText.{fault_text, refused_at, which_text};

use crate::fault::{ScriptFault, Which};
use term_core::{ByteList, NoMemory, print_number};

/// The word of a limit.
fn which_text(which: Which) -> &'static [u8]
    ensures { result.now ≡ which_text which }
{
    match which {
        Which::Integer => b"integer",
        Which::Term => b"term",
        Which::Names => b"names",
        Which::Functions => b"functions",
        Which::Module => b"module",
        Which::Exports => b"exports",
        Which::Processes => b"processes",
        Which::Loaders => b"loaders",
        Which::Observers => b"observers",
    }
}

/// Appends `refused`, the line and the cause, which begins with a space. A refusal may leave a part.
fn write_refusal(line: u32, cause: &[u8], out: &mut ByteList) -> Result<(), NoMemory>
    ensures ok { OnOk result (out.new ≡ out.old ++ refused_at line cause.now) }
    ensures kept { StartsWith out.new out.old }
{
    out.extend_from_slice(b"refused ")?;
    print_number(u64::from(line), out)?;
    out.extend_from_slice(cause)
}

/// Appends the line of a fault. A refusal may leave a part.
fn write_fault(fault: ScriptFault, out: &mut ByteList) -> Result<(), NoMemory>
    ensures ok { OnOk result (out.new ≡ out.old ++ fault_text fault) }
    ensures kept { StartsWith out.new out.old }
{
    match fault {
        ScriptFault::FileTooLong => write_refusal(0, b" file_too_long", out),
        ScriptFault::LineTooLong { line } => write_refusal(line, b" line_too_long", out),
        ScriptFault::Syntax { line } => write_refusal(line, b" syntax", out),
        ScriptFault::UnknownName { line } => write_refusal(line, b" unknown_name", out),
        ScriptFault::Duplicate { line } => write_refusal(line, b" duplicate", out),
        ScriptFault::Limit { line, which } => {
            write_refusal(line, b" limit ", out)?;
            out.extend_from_slice(which_text(which))
        }
        ScriptFault::NoMemory => Ok(()),
    }
}

/// Appends the line of a fault, as `refused 4 limit loaders`, without its line feed; nothing for want of memory.
/// Where memory is refused, nothing is appended.
pub fn print_fault(fault: ScriptFault, out: &mut ByteList) -> Result<(), NoMemory>
    ensures ok { OnOk result (out.new ≡ out.old ++ fault_text fault) }
    ensures err { OnErr result (out.new ≡ out.old) }
{
    let start = out.len();
    let written = write_fault(fault, out);
    if written.is_err() {
        out.truncate(start);
    }
    written
}
