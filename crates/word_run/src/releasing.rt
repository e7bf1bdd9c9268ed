//! Releases while other threads run turns: in each lap one area that waits, if no thread reads it and no process names it.

ghost use Rattle.std.specs.Prelude.{List};
ghost use Rattle.inbox.specs.Ends.{Posting};
ghost use Rattle.run_law.specs.Newcomers.{SpawnedProcess as SpawnedSo};
ghost use Rattle.write_permit.specs.Book.{shown};
ghost use Rattle.word_permit.specs.Books.{KeepsRun};
ghost use Rattle.word_permit.specs.Runs.{IsOverWords};
ghost use Rattle.word_run.specs.Desks.{AddsInSlices, MakesOn};

use crate::desk::Desk;
use crate::slicing::{RoundName, Slicing};
use code_law::{CodeLaw, Naming};
use inbox::InboxNames;
use shared_words::Shared;
use std::sync::{Mutex, Wait};
use term_core::NoMemory;
use word_lap::TableName;
use word_permit::{Permit, Pumped, RunName};
use write_permit::{Gate, Place};

/// Under the lock, releases an area that waits, if no thread reads it and no process names it.
pub fn pump<K: Naming, N: RunName, T: TableName, I: InboxNames, E: RoundName, R: Wait, G: Gate>(
    rt: &R,
    shared: &Shared<CodeLaw<K>>,
    desk: &Mutex<Slicing<K, N, T, I, E>>,
    gate: &G,
    number: u32,
) -> Result<(), NoMemory>
    requires words { IsOverWords shared.now.table.shared.table_id shared.now.table.shared.key N.run }
{
    desk.lock(rt).pump(shared, gate, number)
}

impl<K: Naming, N: RunName, T: TableName, I: InboxNames, E: RoundName> Slicing<K, N, T, I, E> {
    /// Releases an area that waits, if no thread reads it and no process names it.
    #[tactic(auto, using(crate::proofs::Slices::slices_same, crate::proofs::Slices::slice_on))]
    pub fn pump<G: Gate>(
        &mut self,
        shared: &Shared<CodeLaw<K>>,
        gate: &G,
        number: u32,
    ) -> Result<(), NoMemory>
        requires words { IsOverWords shared.now.table.shared.table_id shared.now.table.shared.key N.run }
        ensures { AddsInSlices self.old self.new }
    {
        release(shared, gate, number, &mut self.desk)
    }
}

/// The same, on the desk.
fn release<K: Naming, N: RunName, T: TableName, I: InboxNames, G: Gate>(
    shared: &Shared<CodeLaw<K>>,
    gate: &G,
    number: u32,
    desk: &mut Desk<K, N, T, I>,
) -> Result<(), NoMemory>
    requires words { IsOverWords shared.now.table.shared.table_id shared.now.table.shared.key N.run }
    ensures { AddsInSlices desk.old desk.new }
{
    desk.permit.journal();
    let _homes = desk.posters.len();
    release_permit(shared, gate, number, &mut desk.permit)
}

/// The same, on the permit.
fn release_permit<K: Naming, N: RunName, G: Gate>(
    shared: &Shared<CodeLaw<K>>,
    gate: &G,
    number: u32,
    permit: &mut Permit<K, N>,
) -> Result<(), NoMemory>
    requires words { IsOverWords shared.now.table.shared.table_id shared.now.table.shared.key N.run }
    ensures made { (ends : List (Posting SpawnedSo)) → MakesOn (shown permit.old.plain) (shown permit.new.plain) ends ends }
    ensures kept { KeepsRun K.names N.run permit.new }
{
    permit.journal();
    let pumped = permit.pump(shared)?;
    pass_released(gate, number, pumped);
    Ok(())
}

/// Passes the gate where an area was released.
fn pass_released<G: Gate>(gate: &G, number: u32, pumped: Pumped) {
    if let Pumped::Released(_) = pumped {
        gate.at(Place::Released, number);
    }
}
