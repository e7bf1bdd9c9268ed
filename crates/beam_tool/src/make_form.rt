ghost use Rattle.std.specs.Prelude.{◌≤◌, IfOk};
ghost use Rattle.outside.specs.Answers.{IsLine};
ghost use Rattle.beam_tool.specs.TopCall.{seeded_script};
ghost use Rattle.script_text.specs.Canonical.{canonical_text};

use outside::{Answer, DONE};
use script_maker::{MOST_COMMANDS, make_script};
use script_text::{PrintFault, print_script};
use std::alloc::Global;
use term_core::{ByteList, NoMemory};

/// The canonical text of the script that a seed and a size make.
pub fn make_answer(alloc: Global, seed: u32, size: u32) -> Result<Answer, NoMemory>
    requires least { 1 ≤ size }
    requires most { size ≤ MOST_COMMANDS }
    ensures { IfOk result (λ a. IsLine DONE (canonical_text (seeded_script seed size)) a.status a.log a.text) }
{
    let script = make_script(alloc, seed, size)?;
    let mut text = ByteList::new(alloc);
    match print_script(&script, &mut text) {
        Ok(()) => Ok(Answer {
            status: DONE,
            log: None,
            text,
        }),
        Err(PrintFault::NoMemory) => Err(NoMemory),
        Err(PrintFault::TooLong) => unreachable!(),
    }
}
