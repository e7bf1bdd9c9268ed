//! That a report can show each lawful log of a script.
#![tactic(auto)]

ghost use Rattle.std.specs.Prelude.{◌≡◌, All, length};
ghost use Rattle.script_core.specs.declared.script.Script.{Script};
ghost use Rattle.script_core.specs.Sound.{IsScript};
ghost use Rattle.run_log.specs.declared.logs.RunLog.{RunLog};
ghost use Rattle.run_log.specs.Legal.{Legal};
ghost use Rattle.run_log.specs.WellFormed.{IsWellFormed};
ghost use Rattle.run_log.specs.WholeSpans.{AreWhole};
ghost use Rattle.log_forms.specs.Numbers.{FitsWords, IsShortJournal};

use run_log::EntryList;

/// A lawful log of a script, whose spans are whole and whose numbers fit into words, is well formed: a report can show it.
///
/// The law has no code; its clauses are the lemmas `well_formed` of proofs/SaidLogs and `fits_of` of proofs/ShortJournals.
pub fn lawful_logs_are_well_formed()
    ensures formed { (s : Script) (log : RunLog) → IsScript s → Legal s log → All (λ process. AreWhole process.spans) log.processes → FitsWords s log → IsWellFormed s.names log }
    ensures fits { (s : Script) (log : RunLog) → IsShortJournal log.journal → FitsWords s log }
{}

/// How many entries a journal has. One that stands in memory is short.
pub fn entry_count(journal: &EntryList) -> usize
    ensures count { result ≡ length journal.now }
    ensures short { IsShortJournal journal.now }
{
    journal.as_slice().len()
}
