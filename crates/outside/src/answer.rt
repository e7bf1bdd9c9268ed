ghost use Rattle.std.specs.Prelude.{IfOk};
ghost use Rattle.run_log.specs.Report.{line_of};
ghost use Rattle.outside.specs.Answers.{IsLine};

use crate::fault::ReadFault;
use run_log::RunLog;
use std::alloc::Global;
use term_core::{ByteList, NoMemory};

/// The work was done.
pub const DONE: u8 = 0;

/// What was read is no history: a report's log is not lawful, or an event of a list is not enabled.
pub const NOT_ALLOWED: u8 = 1;

/// The words have no form.
pub const NOT_UNDERSTOOD: u8 = 2;

/// The text is refused.
pub const REFUSED: u8 = 3;

/// The source failed.
pub const SOURCE_FAULT: u8 = 4;

/// The sink failed.
pub const SINK_FAULT: u8 = 5;

/// Memory was refused.
pub const NO_MEMORY: u8 = 6;

/// What a call comes to apart from writing.
#[derive(Debug, Drop)]
pub struct Answer {
    pub status: u8,
    pub log: Option<RunLog>,
    pub text: ByteList,
}

/// The answer of one line, which is given without its line feed.
pub fn line_answer(alloc: Global, status: u8, line: &[u8]) -> Result<Answer, NoMemory>
    ensures { IfOk result (λ a. IsLine status (line_of line.now) a.status a.log a.text) }
{
    let mut text = ByteList::from_slice(alloc, line)?;
    text.push(b'\n')?;
    Ok(Answer {
        status,
        log: None,
        text,
    })
}

/// Why a call came to nothing that is written.
#[derive(Clone, Copy, Debug, PartialEq, Eq)]
pub enum Stop {
    SourceFault,
    NoMemory,
}

impl From<NoMemory> for Stop {
    ghost use Rattle.std.specs.Prelude.{◌≡◌};
    ghost use Rattle.outside.specs.declared.answer.Stop.TheVariants as stops;

    ghost from_gives = { λ _ stop. stop ≡ stops.NoMemory };

    fn from(_refused: NoMemory) -> Stop {
        Stop::NoMemory
    }
}

impl From<ReadFault> for Stop {
    ghost use Rattle.outside.specs.Answers.{StopsFor};

    ghost from_gives = { StopsFor };

    fn from(fault: ReadFault) -> Stop {
        match fault {
            ReadFault::Failed => Stop::SourceFault,
            ReadFault::NoMemory => Stop::NoMemory,
        }
    }
}
