//! A process on its way to its scheduler.

ghost use Rattle.std.specs.Prelude.{◌≡◌, [], None};
ghost use Rattle.word_lap.specs.Newcomers.{IsNoted};

use crate::process_run::ProcessRun;
use crate::table_name::TableName;
use machine_core::{FrameList, Process};
use run_log::SpanList;
use shared_words::Note;
use std::alloc::Global;
use std::marker::{Model, PhantomData};
use term_core::{Mfa, TermList};

/// A process that was spawned and has had no turn, with the note of its spawner.
///
/// Contracts see its number, its target and arguments, and how many generations were published when it was spawned.
#[derive(Drop)]
pub struct Newcomer<T: TableName> {
    pub number: u32,
    pub target: Mfa,
    pub args: TermList,
    pub published: u64,
    pub note: Note,
    pub of: PhantomData<T>,
}

impl<T: TableName> Model for Newcomer<T> {
    ghost use Rattle.std.specs.Coded.{codes};
    ghost use Rattle.term_core.specs.contracts.atom.Mfa as mfa_contracts;
    ghost use Rattle.term_core.specs.contracts.term.TermList as args_contracts;
    ghost use Rattle.run_law.specs.Newcomers.{SpawnedProcess};
    ghost use Rattle.word_lap.specs.Newcomers.{IsNoted};

    ghost Value = { SpawnedProcess };

    ghost coded = { Prim.hlevel (codes, mfa_contracts.the_row.coded, args_contracts.the_row.coded) };

    ghost view = { λ n. record { number = n.number; target = n.target; args = n.args; published = n.published } };

    ghost invariant = { λ n. IsNoted T.table n.number n.published n.note };
}

/// The process before its first turn, and its note. It takes no memory.
pub fn begin<T: TableName>(alloc: Global, newcomer: Newcomer<T>) -> (ProcessRun, Note)
    ensures number { result.0.process.number ≡ newcomer.number }
    ensures target { result.0.process.target ≡ newcomer.target }
    ensures args { result.0.process.args ≡ newcomer.args }
    ensures turns { result.0.process.turns ≡ 0 }
    ensures frames { result.0.process.frames ≡ [] }
    ensures spans { result.0.spans ≡ [] }
    ensures fin { result.0.fin ≡ None }
    ensures note { IsNoted T.table newcomer.number newcomer.published result.1 }
{
    let Newcomer {
        number,
        target,
        args,
        note,
        ..
    } = newcomer;
    let process = Process {
        number,
        target,
        args,
        turns: 0,
        frames: FrameList::new(alloc),
    };
    let run = ProcessRun {
        process,
        spans: SpanList::new(alloc),
        fin: None,
    };
    (run, note)
}
