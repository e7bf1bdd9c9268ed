ghost use Rattle.std.specs.Prelude.{◌≡◌, ◌≢◌, ◌≤◌, ◌<◌, ◌⊎◌, ◌↔◌, ℕ, false, List, Some, None, IfOk, IsErrOf, IsTrue, length, map, string_bytes};
ghost use Rattle.prgr_core.specs.EventText.{EventText};
ghost use Rattle.prgr_core.specs.declared.event.Events.{Events};
ghost use Rattle.prgr_core.specs.declared.progress.Progress.{Progress};
ghost use Rattle.prgr_core.specs.Step.{after_all, progress_opening, StopsAt};
ghost use Rattle.script_core.specs.declared.script.Script.{Script};
ghost use Rattle.script_text.specs.declared.fault.ScriptFault.{ScriptFault};
ghost use Rattle.script_text.specs.ScriptText.{ScriptText, FaultOf};
ghost use Rattle.run_log.specs.declared.logs.RunLog.{RunLog as RunLogValue};
ghost use Rattle.run_log.specs.Legal.{Legal};
ghost use Rattle.report_text.specs.declared.fault.ReportFault.{ReportFault};
ghost use Rattle.outside.specs.Outside.{Rose, TakesUpTo};
ghost use Rattle.outside.specs.Parting.{script_part};
ghost use Rattle.outside.specs.Inputs.{HasScriptAndReport, HasFaultyReport};
ghost use Rattle.beam_tool.specs.ClosedTables.{ClosingBy, HasTable, HasTableOfMade};
ghost use Rattle.beam_tool.specs.TopCall.{form_of as the_form_of, most_taken, IsAccepted, IsNoList, IsUnlawful, lawful_text, not_lawful_text, Verdict, Answered, Reported, Checked, SourceFailed, SinkFailed, Delivered, Ends, IsWithinLimits, reads, runs, Summarized, Made};

use crate::check_form::check_answer;
use crate::form::{Form, form_of};
use crate::make_form::make_answer;
use crate::progress_form::progress_answer;
use crate::run_form::run_answer;
use crate::trial_form::trial_answer;
use crate::work::{Work, unrun};
use outside::{
    Answer, DONE, LONGEST_CHECK, NO_MEMORY, NOT_ALLOWED, NOT_UNDERSTOOD, REFUSED, SINK_FAULT,
    SOURCE_FAULT, Sink, Source, Stop, write_whole,
};
use run_log::RunLog;
use script_core::LONGEST_SCRIPT;
use shared_words::Closed;
use std::alloc::Global;
use std::sync::Wait;
use std::thread::Threads;
use write_permit::Gate;

/// How a call ended: its status, the log of the run that it made, and the table of words that the threads of this run shared,
/// as it was closed.
#[derive(Drop)]
pub struct Finish {
    pub status: u8,
    pub log: Option<RunLog>,
    pub closed: Option<Closed>,
}

/// All that the program does: it takes the words after the program's name, reads the source where their form
/// reads, and writes the answer to the sink. All text is made in memory before the first write.
pub fn beam_top<R: Threads + Wait + Sync, S: Source, K: Sink, G: Gate>(
    rt: &R,
    alloc: Global,
    words: &[String],
    source: &mut S,
    sink: &mut K,
    gate: &G,
) -> Finish
    ensures known { result.status ≤ NO_MEMORY }

    // The headline: a run that is reported is a history of one code server.
    ensures headline { (schedulers : ℕ) → the_form_of (map string_bytes words.now) ≡ Some (Form.Run schedulers) → result.status ≡ DONE
        → Reported (S.left source.old) (S.left source.new) (K.got sink.old) (K.got sink.new) result.log }
    ensures headline_of_made { (seed size schedulers : ℕ) → the_form_of (map string_bytes words.now) ≡ Some (Form.Trial seed size schedulers) → result.status ≡ DONE
        → Summarized seed size (K.got sink.old) (K.got sink.new) result.log }

    // Beside the log, and only there, stands the table that the run closed: it has published the generations of the log's journal, and
    // has of each process one mark for each turn, in order, with that turn's generation and names.
    ensures closed { (result.closed ≡ None) ↔ (result.log ≡ None) }
    ensures closed_of_run { (schedulers : ℕ) → the_form_of (map string_bytes words.now) ≡ Some (Form.Run schedulers) → result.log ≢ None
        → HasTable (S.left source.old) (S.left source.new) result.log result.closed }
    ensures closed_of_made { (seed size schedulers : ℕ) → the_form_of (map string_bytes words.now) ≡ Some (Form.Trial seed size schedulers) → result.log ≢ None
        → HasTableOfMade seed size result.log result.closed }

    // A script that is made is written by its canonical text, which reads as this script.
    ensures made { (seed size : ℕ) → the_form_of (map string_bytes words.now) ≡ Some (Form.Make seed size) → result.status ≡ DONE
        → Made seed size (K.got sink.old) (K.got sink.new) }

    // What a run writes a check accepts: for the text that was read with what was written behind it, within the limit, the
    // clause on lawful reports says that a check answers 0, or that memory was refused.
    ensures accepted { (schedulers : ℕ) → the_form_of (map string_bytes words.now) ≡ Some (Form.Run schedulers) → result.status ≡ DONE
        → IsAccepted (S.left source.old) (S.left source.new) (K.got sink.old) (K.got sink.new) }

    // A report that is checked shows a history of one code server for the script before it, or it does not.
    ensures checked { the_form_of (map string_bytes words.now) ≡ Some Form.Check → result.status ≡ DONE
        → Checked Legal lawful_text (S.left source.old) (S.left source.new) (K.got sink.old) (K.got sink.new) }
    ensures checked_unlawful { the_form_of (map string_bytes words.now) ≡ Some Form.Check → result.status ≡ NOT_ALLOWED
        → Checked IsUnlawful not_lawful_text (S.left source.old) (S.left source.new) (K.got sink.old) (K.got sink.new) }

    // Statuses 0 to 3 come only for what the words, the bytes and the definitions give, and their text is written.
    ensures answered { result.status ≤ REFUSED → Answered (the_form_of (map string_bytes words.now))
        (S.left source.old) (S.left source.new) (K.got sink.old) (K.got sink.new) result.status result.log }

    // A fault is answered only where a count of faults rose in this call.
    ensures source_fault { result.status ≡ SOURCE_FAULT → SourceFailed (the_form_of (map string_bytes words.now))
        (S.faults source.old) (S.faults source.new) }
    ensures sink_fault { result.status ≡ SINK_FAULT → SinkFailed (the_form_of (map string_bytes words.now))
        (S.left source.old) (S.left source.new) (K.got sink.old) (K.got sink.new)
        (K.faults sink.old) (K.faults sink.new) result.log }

    // Reading stops with the first byte past the limit, whatever is left of the source.
    ensures stops { TakesUpTo (most_taken (the_form_of (map string_bytes words.now))) (S.left source.old) (S.left source.new) }

    // What is not read, not written and not logged.
    ensures unread { reads (the_form_of (map string_bytes words.now)) ≡ false → source.new ≡ source.old }
    ensures unwritten_at_source_fault { result.status ≡ SOURCE_FAULT → sink.new ≡ sink.old }
    ensures unwritten_at_no_memory { result.status ≡ NO_MEMORY → sink.new ≡ sink.old }
    ensures no_log { result.status ≢ DONE → result.status ≢ SINK_FAULT → result.log ≡ None }
    ensures no_log_unrun { runs (the_form_of (map string_bytes words.now)) ≡ false → result.log ≡ None }

    // Words of no form take no memory: they never answer that it was refused.
    ensures misread { the_form_of (map string_bytes words.now) ≡ None → result.status ≢ NO_MEMORY }

    // Where no count rose, the status is the one whose condition holds, or memory was refused.
    ensures complete_words { the_form_of (map string_bytes words.now) ≡ None
        → Rose (K.faults sink.old) (K.faults sink.new) ⊎ (result.status ≡ NOT_UNDERSTOOD) }
    ensures complete_run { (schedulers : ℕ) (bytes : List ℕ) (s : Script) → the_form_of (map string_bytes words.now) ≡ Some (Form.Run schedulers)
        → S.left source.old ≡ Some bytes → ScriptText bytes s
        → (Rose (S.faults source.old) (S.faults source.new) → ⊥) → (Rose (K.faults sink.old) (K.faults sink.new) → ⊥)
        → (result.status ≡ DONE) ⊎ (result.status ≡ NO_MEMORY) }
    ensures complete_refusal { (schedulers : ℕ) (bytes : List ℕ) (fault : ScriptFault) → the_form_of (map string_bytes words.now) ≡ Some (Form.Run schedulers)
        → S.left source.old ≡ Some bytes → FaultOf bytes fault
        → (Rose (S.faults source.old) (S.faults source.new) → ⊥) → (Rose (K.faults sink.old) (K.faults sink.new) → ⊥)
        → (result.status ≡ REFUSED) ⊎ (result.status ≡ NO_MEMORY) }
    ensures complete_make { (seed size : ℕ) → the_form_of (map string_bytes words.now) ≡ Some (Form.Make seed size)
        → (Rose (K.faults sink.old) (K.faults sink.new) → ⊥)
        → (result.status ≡ DONE) ⊎ (result.status ≡ NO_MEMORY) }
    ensures complete_trial { (seed size schedulers : ℕ) → the_form_of (map string_bytes words.now) ≡ Some (Form.Trial seed size schedulers)
        → (Rose (K.faults sink.old) (K.faults sink.new) → ⊥)
        → (result.status ≡ DONE) ⊎ (result.status ≡ NO_MEMORY) }
    ensures complete_lawful { (bytes : List ℕ) (s : Script) (log : RunLogValue) → the_form_of (map string_bytes words.now) ≡ Some Form.Check
        → S.left source.old ≡ Some bytes → length bytes ≤ LONGEST_CHECK → HasScriptAndReport bytes s log → Legal s log
        → (Rose (S.faults source.old) (S.faults source.new) → ⊥) → (Rose (K.faults sink.old) (K.faults sink.new) → ⊥)
        → (result.status ≡ DONE) ⊎ (result.status ≡ NO_MEMORY) }
    ensures complete_unlawful { (bytes : List ℕ) (s : Script) (log : RunLogValue) → the_form_of (map string_bytes words.now) ≡ Some Form.Check
        → S.left source.old ≡ Some bytes → length bytes ≤ LONGEST_CHECK → HasScriptAndReport bytes s log → IsUnlawful s log
        → (Rose (S.faults source.old) (S.faults source.new) → ⊥) → (Rose (K.faults sink.old) (K.faults sink.new) → ⊥)
        → (result.status ≡ NOT_ALLOWED) ⊎ (result.status ≡ NO_MEMORY) }
    ensures complete_script_fault { (bytes : List ℕ) (fault : ScriptFault) → the_form_of (map string_bytes words.now) ≡ Some Form.Check
        → S.left source.old ≡ Some bytes → (LONGEST_CHECK < length bytes) ⊎ FaultOf (script_part bytes) fault
        → (Rose (S.faults source.old) (S.faults source.new) → ⊥) → (Rose (K.faults sink.old) (K.faults sink.new) → ⊥)
        → (result.status ≡ REFUSED) ⊎ (result.status ≡ NO_MEMORY) }
    ensures complete_report_fault { (bytes : List ℕ) (s : Script) (fault : ReportFault) → the_form_of (map string_bytes words.now) ≡ Some Form.Check
        → S.left source.old ≡ Some bytes → HasFaultyReport bytes s fault
        → (Rose (S.faults source.old) (S.faults source.new) → ⊥) → (Rose (K.faults sink.old) (K.faults sink.new) → ⊥)
        → (result.status ≡ REFUSED) ⊎ (result.status ≡ NO_MEMORY) }
    ensures complete_replay { (bytes : List ℕ) (events : Events) (state : Progress) → the_form_of (map string_bytes words.now) ≡ Some Form.Progress
        → S.left source.old ≡ Some bytes → length bytes ≤ LONGEST_SCRIPT → EventText bytes events
        → after_all (progress_opening events.members events.watchers) events.list ≡ Some state
        → (Rose (S.faults source.old) (S.faults source.new) → ⊥) → (Rose (K.faults sink.old) (K.faults sink.new) → ⊥)
        → (result.status ≡ DONE) ⊎ (result.status ≡ NO_MEMORY) }
    ensures complete_stop { (bytes : List ℕ) (events : Events) (index : ℕ) (state : Progress) → the_form_of (map string_bytes words.now) ≡ Some Form.Progress
        → S.left source.old ≡ Some bytes → length bytes ≤ LONGEST_SCRIPT → EventText bytes events
        → StopsAt (progress_opening events.members events.watchers) events.list index state
        → (Rose (S.faults source.old) (S.faults source.new) → ⊥) → (Rose (K.faults sink.old) (K.faults sink.new) → ⊥)
        → (result.status ≡ NOT_ALLOWED) ⊎ (result.status ≡ NO_MEMORY) }
    ensures complete_fault { (bytes : List ℕ) → the_form_of (map string_bytes words.now) ≡ Some Form.Progress
        → S.left source.old ≡ Some bytes → (LONGEST_SCRIPT < length bytes) ⊎ IsNoList bytes
        → (Rose (S.faults source.old) (S.faults source.new) → ⊥) → (Rose (K.faults sink.old) (K.faults sink.new) → ⊥)
        → (result.status ≡ REFUSED) ⊎ (result.status ≡ NO_MEMORY) }
{
    ended(rt, alloc, words, source, sink, gate)
}

/// The whole call.
fn ended<R: Threads + Wait + Sync, S: Source, K: Sink, G: Gate>(
    rt: &R,
    alloc: Global,
    words: &[String],
    source: &mut S,
    sink: &mut K,
    gate: &G,
) -> Finish
    ensures ends { Ends (the_form_of (map string_bytes words.now)) (S.left source.old) (S.left source.new)
        (S.faults source.old) (S.faults source.new) (K.got sink.old) (K.got sink.new)
        (K.faults sink.old) (K.faults sink.new) result.status result.log }
    ensures closing { ClosingBy (S.left source.old) (S.left source.new) (the_form_of (map string_bytes words.now)) result.log result.closed }
    ensures stops { TakesUpTo (most_taken (the_form_of (map string_bytes words.now))) (S.left source.old) (S.left source.new) }
    ensures unread { reads (the_form_of (map string_bytes words.now)) ≡ false → source.new ≡ source.old }
    ensures unwritten_at_source_fault { result.status ≡ SOURCE_FAULT → sink.new ≡ sink.old }
    ensures unwritten_at_no_memory { result.status ≡ NO_MEMORY → sink.new ≡ sink.old }
{
    match form_of(words) {
        None => Finish {
            status: deliver(sink, NOT_UNDERSTOOD, b"words not understood\n"),
            log: None,
            closed: None,
        },
        Some(form) => match form_answer(rt, alloc, form, source, gate) {
            Ok(work) => finished(sink, work),
            Err(Stop::SourceFault) => stopped(SOURCE_FAULT),
            Err(Stop::NoMemory) => stopped(NO_MEMORY),
        },
    }
}

/// A call that wrote nothing.
fn stopped(status: u8) -> Finish
    ensures end { (result.status ≡ status) × (result.log ≡ None) }
    ensures closed { result.closed ≡ None }
{
    Finish {
        status,
        log: None,
        closed: None,
    }
}

/// What a form comes to apart from writing.
fn form_answer<R: Threads + Wait + Sync, S: Source, G: Gate>(
    rt: &R,
    alloc: Global,
    form: Form,
    source: &mut S,
    gate: &G,
) -> Result<Work, Stop>
    requires { IsWithinLimits form }
    ensures verdict { IfOk result
        (λ w. Verdict (S.left source.old) (S.left source.new) (Some form) w.answer.status w.answer.log w.answer.text) }
    ensures closing { IfOk result (λ w. ClosingBy (S.left source.old) (S.left source.new) (Some form) w.answer.log w.closed) }
    ensures failed { IsErrOf result Stop.SourceFault
        → Rose (S.faults source.old) (S.faults source.new) }
    ensures reading { IsErrOf result Stop.SourceFault → IsTrue (reads (Some form)) }
    ensures unread { reads (Some form) ≡ false → source.new ≡ source.old }
    ensures stops { TakesUpTo (most_taken (Some form)) (S.left source.old) (S.left source.new) }
{
    match form {
        Form::Run { schedulers } => run_answer(rt, alloc, schedulers, source, gate),
        Form::Check => check_answer(alloc, source),
        Form::Progress => progress_answer(alloc, source),
        Form::Make { seed, size } => Ok(unrun(make_answer(alloc, seed, size)?)),
        Form::Trial {
            seed,
            size,
            schedulers,
        } => Ok(trial_answer(rt, alloc, seed, size, schedulers, gate)?),
    }
}

/// Writes what a form came to, and tells it.
fn finished<K: Sink>(sink: &mut K, work: Work) -> Finish
    ensures delivered { Delivered (K.got sink.old) (K.got sink.new)
        (K.faults sink.old) (K.faults sink.new) work.answer.status work.answer.text result.status }
    ensures log { result.log ≡ work.answer.log }
    ensures closed { result.closed ≡ work.closed }
{
    let Work { answer, closed } = work;
    let Answer { status, log, text } = answer;
    Finish {
        status: deliver(sink, status, text.as_slice()),
        log,
        closed,
    }
}

/// Writes the text whole and answers the status, or the sink's fault.
fn deliver<K: Sink>(sink: &mut K, status: u8, text: &[u8]) -> u8
    ensures { Delivered (K.got sink.old) (K.got sink.new)
        (K.faults sink.old) (K.faults sink.new) status text.now result }
{
    match write_whole(sink, text) {
        Ok(()) => status,
        Err(_) => SINK_FAULT,
    }
}
