use term_core::NoMemory;

/// Why a text was not read as a report.
#[derive(Clone, Copy, Debug, PartialEq, Eq)]
pub enum ReportFault {
    /// No report goes on after this line, which is counted from 1. Where the text only stops too early, it is the last line.
    Syntax { line: u32 },
    /// Memory was refused. No clause says when.
    NoMemory,
}

impl From<NoMemory> for ReportFault {
    ghost use Rattle.std.specs.Prelude.{◌≡◌};
    ghost use Rattle.report_text.specs.declared.fault.ReportFault.TheVariants as faults;

    ghost from_gives = { λ _ e. e ≡ faults.NoMemory };

    fn from(_refused: NoMemory) -> ReportFault {
        ReportFault::NoMemory
    }
}
