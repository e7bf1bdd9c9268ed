//! The permission to change the code, with the words that all threads share.

ghost use Rattle.std.specs.Prelude.{◌≡◌, ◌↔◌, ℕ, ◌∷◌, [], false, true, IfOk, IsSomeAnd, IsTrue, OnErr, OnOk, None, Some, All};
ghost use Rattle.std.specs.Option.{option_copied};
ghost use Rattle.area_core.specs.Step.{opening_published};
ghost use Rattle.progress_words.specs.Tokens.{written_by};
ghost use Rattle.change_laws.specs.Names.{IsNumbered};
ghost use Rattle.server_core.specs.ServerState.{empty_state};
ghost use Rattle.script_core.specs.Sound.{IsScript};
ghost use Rattle.staging.specs.Stages.{AreAtRest};
ghost use Rattle.write_permit.specs.Book.{shown};
ghost use Rattle.write_permit.specs.Permit.{at_once_of, holder_of, needs_permission, next_of, seize_answer, seized_by};
ghost use Rattle.word_permit.specs.Books.{HasGivenUp, IsBegun, IsWaitingStill, KeepsRun};
ghost use Rattle.word_permit.specs.Notes.{HandsOut, KeepsButNote, next_spawned};
ghost use Rattle.word_permit.specs.Pumped.{PumpAnswers, ReleasesNone};
ghost use Rattle.word_permit.specs.Purged.{CommandAnswers, HasGrown};
ghost use Rattle.word_permit.specs.Runs.{IsBegunWith, IsOverWords};

use crate::answers::{AtOnce, CommandStep, Finished, Pumped};
use crate::book::WordBook;
use crate::noting::make_next;
use crate::operations::advance_run;
use crate::pumping::pump_book;
use crate::run_name::RunName;
use crate::steps::{begin_book, finish_book, seize};
use code_law::{CodeLaw, Naming};
use run_log::EntryList;
use script_core::{Script, ScriptCmd};
use server_core::Server;
use shared_words::Shared;
use staging::Tables;
use std::alloc::Global;
use std::marker::{Model, PhantomData};
use term_core::NoMemory;
use write_permit::gate::pass;
use write_permit::steps::{all_done, next_command};
use write_permit::{Gate, Seize};

/// The permission to change the code, with all that a change is made on: the journal, the server to which it leads, how far each loader is, and the
/// tables of the one writer of the shared words.
///
/// One loader at a time has it, for the commands that need it.
#[derive(Drop)]
pub struct Permit<K: Naming, N: RunName> {
    book: WordBook,
    names: PhantomData<K>,
    run: PhantomData<N>,
}

impl<K: Naming, N: RunName> Model for Permit<K, N> {
    ghost use Rattle.word_permit.specs.contracts.book.WordBook as book_contracts;
    ghost use Rattle.word_permit.specs.declared.book.WordBook.{WordBook};
    ghost use Rattle.word_permit.specs.Books.{KeepsRun};

    ghost Value = { WordBook };

    ghost coded = { book_contracts.the_row.coded };

    ghost view = { λ p. p.book };

    ghost invariant = { λ p. KeepsRun K.names N.run p.book };
}

impl<K: Naming, N: RunName> Permit<K, N> {
    /// A permit of a script, before its first command, with the tables of a writer that has made no step. It takes memory.
    pub fn new(alloc: Global, script: Script, tables: Tables) -> Result<Permit<K, N>, NoMemory>
        requires script { IsScript script }
        requires run { IsBegunWith tables script N.run }
        requires texts { All (IsNumbered K.names) script.modules }
        requires exports { tables.exports ≡ K.names }
        requires rest { AreAtRest K.names empty_state tables }
        requires opening { (written_by tables.writer).published ≡ opening_published ∷ [] }
        requires notes { (written_by tables.writer).notes ≡ [] }
        requires drops { (written_by tables.writer).looks.dropped ≡ [] }
        ensures begun { IfOk result (λ p. IsBegun script tables p) }
        ensures kept { IfOk result (λ p. KeepsRun K.names N.run p) }
    {
        let book = begin_book::<K>(alloc, script, tables)?;
        Ok(Permit {
            book,
            names: PhantomData,
            run: PhantomData,
        })
    }

    /// The first command of a loader that is not done. None where all are done.
    pub fn next_command(&self, who: u32) -> Option<&ScriptCmd>
        ensures { option_copied result ≡ next_of (shown self.now.plain) who }
    {
        next_command(&self.book.plain, who)
    }

    /// Whether the commands of all loaders are done.
    pub fn all_done(&self) -> bool
        ensures { IsTrue result ↔ ((loader : ℕ) → next_of (shown self.now.plain) loader ≡ None) }
    {
        all_done(&self.book.plain)
    }

    /// Gives the permission to a loader whose next command needs it, unless another one has it. What waits is as before.
    pub fn seize(&mut self, who: u32) -> Seize
        requires { IsSomeAnd (next_of (shown self.old.plain) who) (λ command. needs_permission command ≡ true) }
        ensures answer { result ≡ seize_answer self.old.plain.holder }
        ensures state { shown self.new.plain ≡ record (shown self.old.plain) { holder = seized_by who self.old.plain.holder } }
        ensures tables { self.new.tables ≡ self.old.tables }
        ensures seized { result ≡ Seize.Seized → holder_of self.new.plain.holder ≡ Some who }
        ensures held { result ≡ Seize.Held who → holder_of self.new.plain.holder ≡ Some who }
        ensures waits { IsWaitingStill self.old self.new }
        ensures kept { KeepsRun K.names N.run self.new }
    {
        seize(&mut self.book, who)
    }

    /// Goes on with the next command of the loader that has the permission, until an answer is due.
    ///
    /// A trace goes by phases, each behind a wait: its decision is staged in the index that no thread reads, its entry word leads calls to the indices, the
    /// root is stored and its entry joins, and the other index comes to say the same. `Done` comes after the last phase. A breakpoint that is cleared has its
    /// entry word stored behind the root.
    ///
    /// A soft purge waits at the newest generation, and then looks through the slots of all processes. A purge dooms the old code first, and gives the
    /// permission up only once a look is clear of it: `Lingers` names the process for which it waits, and the next call looks again.
    ///
    /// `Done` gives the permission up. Its entry joined the journal in the call that stored the root. Until then nothing of the command is published but
    /// the doom of a purge and the generation of a trace, and else `NotYet` and `AwaitRelease` leave all but the phase as it was. After `NoMemory` what was
    /// staged is taken back, the active generation stays, and the loader gives the permission up unless its old code is doomed; behind the root no phase of a
    /// trace takes memory. The gate is passed once for each entry that published. What a release waits for stays as it is.
    ///
    /// Rule: erts internal documentation, CodeLoading: stage, wait for thread progress, commit; and Tracing; and the manual page code (purge, soft_purge).
    pub fn advance_op<G: Gate>(
        &mut self,
        shared: &Shared<CodeLaw<K>>,
        who: u32,
        gate: &G,
    ) -> Result<CommandStep, NoMemory>
        requires words { IsOverWords shared.now.table.shared.table_id shared.now.table.shared.key N.run }
        requires holds { holder_of self.old.plain.holder ≡ Some who }
        ensures ok { IfOk result (CommandAnswers who self.old self.new) }
        ensures err { OnErr result (HasGivenUp self.old self.new) }
        ensures grown { HasGrown self.old.plain self.new.plain }
        ensures need { self.new.need ≡ self.old.need }
        ensures kept { KeepsRun K.names N.run self.new }
    {
        let before = self.book.plain.server.generation();
        let step = advance_run::<K, N>(&mut self.book, shared, who)?;
        pass(gate, who, before, self.book.plain.server.generation());
        Ok(step)
    }

    /// Makes the next command of a loader, which is a spawn or a look for old code. The process of a spawn is handed out with its note, by which it learns
    /// of the generations that were published at the spawn. What waits to be published, for a release or for a look is as before; after `NoMemory` the whole
    /// permit is.
    pub fn at_once(&mut self, shared: &Shared<CodeLaw<K>>, who: u32) -> Result<AtOnce, NoMemory>
        requires words { IsOverWords shared.now.table.shared.table_id shared.now.table.shared.key N.run }
        requires next { IsSomeAnd (next_of (shown self.old.plain) who) (λ command. needs_permission command ≡ false) }
        ensures ok { IfOk result (λ a. at_once_of (shown self.old.plain) who ≡ Some (record { state = shown self.new.plain; answer = a.applied })) }
        ensures spawned { IfOk result (λ a. HandsOut shared.now.table.shared.table_id (written_by self.old.tables.writer) (next_spawned (shown self.old.plain) who) a.spawned) }
        ensures tables { OnOk result (KeepsButNote (next_spawned (shown self.old.plain) who) self.old.tables self.new.tables) }
        ensures err { OnErr result (shown self.new.plain ≡ shown self.old.plain) }
        ensures err_tables { OnErr result (self.new.tables ≡ self.old.tables) }
        ensures waits { IsWaitingStill self.old self.new }
        ensures kept { KeepsRun K.names N.run self.new }
    {
        make_next(&mut self.book, shared, who)
    }

    /// Releases an area that waits, once no thread reads a generation that uses it and no slot names it; else it tells what is waited for, or who names an
    /// area. A command that waits goes on to wait as it did. After `NoMemory` nothing is released.
    ///
    /// Rule: the manual page persistent_term, and erts internal documentation, ThreadProgress.
    pub fn pump(&mut self, shared: &Shared<CodeLaw<K>>) -> Result<Pumped, NoMemory>
        requires words { IsOverWords shared.now.table.shared.table_id shared.now.table.shared.key N.run }
        ensures ok { IfOk result (PumpAnswers self.old self.new) }
        ensures err { OnErr result (ReleasesNone self.old self.new) }
        ensures kept { KeepsRun K.names N.run self.new }
    {
        pump_book(&mut self.book, shared)
    }

    /// The entries so far.
    pub fn journal(&self) -> &EntryList
        ensures value { result.now ≡ self.now.plain.journal }
        ensures kept { KeepsRun K.names N.run self.now }
    {
        &self.book.plain.journal
    }

    /// The server to which the journal leads.
    pub fn server(&self) -> &Server
        ensures value { result.now ≡ self.now.plain.server }
        ensures kept { KeepsRun K.names N.run self.now }
    {
        &self.book.plain.server
    }

    /// The number of the newest generation.
    pub fn generation(&self) -> u64
        ensures { result ≡ self.now.plain.server.generation }
    {
        self.book.plain.server.generation()
    }

    /// Hands out the journal and the tables as they are, also where a loader has the permission. What is known of them, a call of `journal` in front of
    /// this one tells.
    pub fn finish(self) -> Finished
        ensures journal { result.journal ≡ self.plain.journal }
        ensures tables { result.tables ≡ self.tables }
    {
        finish_book(self.book)
    }
}
