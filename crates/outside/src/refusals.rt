ghost use Rattle.std.specs.Prelude.{◌≡◌, IfOk};
ghost use Rattle.outside.specs.Answers.{IsLine, refusal_text, report_syntax_text};

use crate::answer::{Answer, REFUSED};
use script_text::{ScriptFault, print_fault};
use std::alloc::Global;
use term_core::{ByteList, NoMemory, print_number};

/// The answer to a text that is refused: the line of its fault. An event list has two of the faults of scripts.
///
/// Want of memory is no fault of a text, and has no answer.
pub fn refusal(alloc: Global, fault: ScriptFault) -> Result<Answer, NoMemory>
    ensures line { IfOk result (λ a. IsLine REFUSED (refusal_text fault) a.status a.log a.text) }
    ensures known { IfOk result (λ _. fault ≡ ScriptFault.NoMemory → ⊥) }
{
    if let ScriptFault::NoMemory = fault {
        return Err(NoMemory);
    }
    let mut text = ByteList::new(alloc);
    print_fault(fault, &mut text)?;
    text.push(b'\n')?;
    Ok(Answer {
        status: REFUSED,
        log: None,
        text,
    })
}

/// The answer to a report that is refused: the number of its first faulty line, counted from the report's first line.
pub fn report_refusal(alloc: Global, line: u32) -> Result<Answer, NoMemory>
    ensures { IfOk result (λ a. IsLine REFUSED (report_syntax_text line) a.status a.log a.text) }
{
    let mut text = ByteList::from_slice(alloc, b"refused report ")?;
    print_number(u64::from(line), &mut text)?;
    text.extend_from_slice(b" syntax\n")?;
    Ok(Answer {
        status: REFUSED,
        log: None,
        text,
    })
}
