//! A step of a loader in a lap, under the lock: one call of the permit.

ghost use Rattle.std.specs.Prelude.{◌≡◌, ◌↔◌, ◌<◌, false, true, List, length, IfOk, IsSomeAnd, None, Some};
ghost use Rattle.inbox.specs.Ends.{Posting};
ghost use Rattle.run_law.specs.Newcomers.{SpawnedProcess as SpawnedSo};
ghost use Rattle.script_core.specs.declared.script.ScriptCmd.TheVariants.{Spawn};
ghost use Rattle.write_permit.specs.Book.{shown};
ghost use Rattle.write_permit.specs.Permit.{holder_of, needs_permission, next_of, seized_by};
ghost use Rattle.word_permit.specs.Books.{KeepsRun};
ghost use Rattle.word_permit.specs.Runs.{IsOverWords};
ghost use Rattle.word_run.specs.Desks.{AddsInSlices, HasHomes, MakesOn};
ghost use Rattle.word_run.specs.Loaders.{AreEnds, AreInboxes};
ghost use Rattle.word_run.specs.Names.{HasTable};

use crate::desk::Desk;
use crate::posting::post_home;
use crate::slice_step::{SliceStep, slice_step};
use crate::slicing::{RoundName, Slicing};
use code_law::{CodeLaw, Naming};
use inbox::{Inbox, InboxNames, Poster};
use script_core::ScriptCmd;
use shared_words::Shared;
use std::alloc::Global;
use std::sync::Wait;
use term_core::{Mfa, NoMemory, TermList};
use word_lap::{Newcomer, TableName};
use word_permit::{AtOnce, Permit, RunName};
use write_permit::{Gate, Seize};

impl<K: Naming, N: RunName, T: TableName, I: InboxNames, E: RoundName> Slicing<K, N, T, I, E> {
    /// One step of a loader's next command. Answers whether there was none: all its commands are done.
    #[tactic(auto, using(crate::proofs::Slices::slices_same, crate::proofs::Slices::slice_on))]
    pub fn step<R: Wait, G: Gate>(
        &mut self,
        alloc: Global,
        rt: &R,
        shared: &Shared<CodeLaw<K>>,
        inboxes: &[Inbox<Newcomer<T>, I>],
        gate: &G,
        who: u32,
    ) -> Result<bool, NoMemory>
        requires words { IsOverWords shared.now.table.shared.table_id shared.now.table.shared.key N.run }
        requires table { HasTable N.run T.table }
        requires homes { HasHomes E.began (length inboxes.now) }
        requires inboxes { AreInboxes inboxes.now }
        ensures adds { AddsInSlices self.old self.new }
        ensures over { IfOk result (λ over. (over ≡ true) ↔ (next_of (shown self.old.book.plain) who ≡ None)) }
    {
        let desk = &mut self.desk;
        match slice_step(desk.permit.next_command(who)) {
            SliceStep::Over => Ok(true),
            SliceStep::AtOnce => {
                make_at_once(alloc, rt, shared, inboxes, who, desk)?;
                Ok(false)
            }
            SliceStep::Operates => {
                operate(shared, gate, who, desk)?;
                Ok(false)
            }
        }
    }
}

/// The loader makes its spawn, whose process is posted home, or looks for old code.
fn make_at_once<K: Naming, N: RunName, T: TableName, I: InboxNames, R: Wait>(
    alloc: Global,
    rt: &R,
    shared: &Shared<CodeLaw<K>>,
    inboxes: &[Inbox<Newcomer<T>, I>],
    who: u32,
    desk: &mut Desk<K, N, T, I>,
) -> Result<(), NoMemory>
    requires words { IsOverWords shared.now.table.shared.table_id shared.now.table.shared.key N.run }
    requires table { HasTable N.run T.table }
    requires next { IsSomeAnd (next_of (shown desk.old.book.plain) who) (λ command. needs_permission command ≡ false) }
    requires homes { length inboxes.now ≡ length desk.old.posted }
    requires inboxes { AreInboxes inboxes.now }
    ensures { AddsInSlices desk.old desk.new }
{
    desk.permit.journal();
    make_and_post(
        alloc,
        rt,
        shared,
        inboxes,
        who,
        &mut desk.permit,
        &mut desk.posters,
    )
}

/// The same, with the permit and the ends apart.
fn make_and_post<K: Naming, N: RunName, T: TableName, I: InboxNames, R: Wait>(
    alloc: Global,
    rt: &R,
    shared: &Shared<CodeLaw<K>>,
    inboxes: &[Inbox<Newcomer<T>, I>],
    who: u32,
    permit: &mut Permit<K, N>,
    posters: &mut [Poster<Newcomer<T>, I>],
) -> Result<(), NoMemory>
    requires words { IsOverWords shared.now.table.shared.table_id shared.now.table.shared.key N.run }
    requires table { HasTable N.run T.table }
    requires next { IsSomeAnd (next_of (shown permit.old.plain) who) (λ command. needs_permission command ≡ false) }
    requires some { 0 < length posters.old }
    requires homes { length inboxes.now ≡ length posters.old }
    requires inboxes { AreInboxes inboxes.now }
    requires ends { AreEnds posters.old }
    ensures made { MakesOn (shown permit.old.plain) (shown permit.new.plain) posters.old posters.new }
    ensures kept { KeepsRun K.names N.run permit.new }
{
    permit.journal();
    if let Some(ScriptCmd::Spawn { target, args }) = permit.next_command(who) {
        let target = *target;
        let args = args.copy(alloc)?;
        return spawn(rt, shared, inboxes, who, target, args, permit, posters);
    }
    permit.at_once(shared, who)?;
    Ok(())
}

/// The loader makes its spawn, and the process is posted home.
fn spawn<K: Naming, N: RunName, T: TableName, I: InboxNames, R: Wait>(
    rt: &R,
    shared: &Shared<CodeLaw<K>>,
    inboxes: &[Inbox<Newcomer<T>, I>],
    who: u32,
    target: Mfa,
    args: TermList,
    permit: &mut Permit<K, N>,
    posters: &mut [Poster<Newcomer<T>, I>],
) -> Result<(), NoMemory>
    requires words { IsOverWords shared.now.table.shared.table_id shared.now.table.shared.key N.run }
    requires table { HasTable N.run T.table }
    requires next { next_of (shown permit.old.plain) who ≡ Some (Spawn target args) }
    requires some { 0 < length posters.old }
    requires homes { length inboxes.now ≡ length posters.old }
    requires inboxes { AreInboxes inboxes.now }
    requires ends { AreEnds posters.old }
    ensures made { MakesOn (shown permit.old.plain) (shown permit.new.plain) posters.old posters.new }
    ensures kept { KeepsRun K.names N.run permit.new }
{
    permit.journal();
    let published = permit.generation();
    let AtOnce { spawned, .. } = permit.at_once(shared, who)?;
    match spawned {
        Some(spawned) => post_home(rt, spawned, published, target, args, inboxes, posters),
        None => Ok(()),
    }
}

/// The loader goes on with its command, if it has the permission or gets it.
fn operate<K: Naming, N: RunName, T: TableName, I: InboxNames, G: Gate>(
    shared: &Shared<CodeLaw<K>>,
    gate: &G,
    who: u32,
    desk: &mut Desk<K, N, T, I>,
) -> Result<(), NoMemory>
    requires words { IsOverWords shared.now.table.shared.table_id shared.now.table.shared.key N.run }
    requires next { IsSomeAnd (next_of (shown desk.old.book.plain) who) (λ command. needs_permission command ≡ true) }
    ensures { AddsInSlices desk.old desk.new }
{
    desk.permit.journal();
    let _homes = desk.posters.len();
    operate_permit(shared, gate, who, &mut desk.permit)
}

/// The same, on the permit.
fn operate_permit<K: Naming, N: RunName, G: Gate>(
    shared: &Shared<CodeLaw<K>>,
    gate: &G,
    who: u32,
    permit: &mut Permit<K, N>,
) -> Result<(), NoMemory>
    requires words { IsOverWords shared.now.table.shared.table_id shared.now.table.shared.key N.run }
    requires next { IsSomeAnd (next_of (shown permit.old.plain) who) (λ command. needs_permission command ≡ true) }
    ensures made { (ends : List (Posting SpawnedSo)) → MakesOn (shown permit.old.plain) (shown permit.new.plain) ends ends }
    ensures kept { KeepsRun K.names N.run permit.new }
{
    permit.journal();
    if !has_permission(permit, who) {
        return Ok(());
    }
    go_on(shared, gate, who, permit)
}

/// The loader that has the permission goes on.
fn go_on<K: Naming, N: RunName, G: Gate>(
    shared: &Shared<CodeLaw<K>>,
    gate: &G,
    who: u32,
    permit: &mut Permit<K, N>,
) -> Result<(), NoMemory>
    requires words { IsOverWords shared.now.table.shared.table_id shared.now.table.shared.key N.run }
    requires holds { holder_of permit.old.plain.holder ≡ Some who }
    ensures made { (ends : List (Posting SpawnedSo)) → MakesOn (shown permit.old.plain) (shown permit.new.plain) ends ends }
    ensures kept { KeepsRun K.names N.run permit.new }
{
    permit.journal();
    permit.advance_op(shared, who, gate)?;
    Ok(())
}

/// Asks for the permission. Answers whether the loader has it now.
fn has_permission<K: Naming, N: RunName>(permit: &mut Permit<K, N>, who: u32) -> bool
    requires { IsSomeAnd (next_of (shown permit.old.plain) who) (λ command. needs_permission command ≡ true) }
    ensures state { shown permit.new.plain ≡ record (shown permit.old.plain) { holder = seized_by who permit.old.plain.holder } }
    ensures held { result ≡ true → holder_of permit.new.plain.holder ≡ Some who }
    ensures kept { KeepsRun K.names N.run permit.new }
{
    match permit.seize(who) {
        Seize::Seized => true,
        Seize::Held { by } => by == who,
    }
}
