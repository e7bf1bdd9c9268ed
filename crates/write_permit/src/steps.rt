ghost use Rattle.std.specs.Prelude.{◌≡◌, ◌+◌, ◌^◌, ◌<◌, ◌↔◌, ℕ, false, is_some, length, IfOk, IsSome, IsSomeAnd, IsTrue, OnErr, None, Some, if◌then◌else◌};
ghost use Rattle.std.specs.Option.{option_copied};
ghost use Rattle.write_permit.specs.Book.{IsBook, shown};
ghost use Rattle.write_permit.specs.Permit.{at_once_of, done_of, needs_permission, next_of, spawned_by};

use crate::book::{Book, make};
use crate::commands::{is_spawn, opening};
use crate::loader_run::LoaderRun;
use run_log::Who;
use script_core::ScriptCmd;
use server_core::Applied;
use term_core::NoMemory;

/// The first command of a loader that is not done.
pub fn next_command(book: &Book, who: u32) -> Option<&ScriptCmd>
    requires { length book.now.loaders.items ≡ length book.now.script.loaders }
    ensures next { option_copied result ≡ next_of (shown book.now) who }
    ensures room { IsSome result → done_of book.now.loaders.items who + 1 < 2 ^ 64 }
{
    let loader = book.loaders.get(who as usize)?;
    let commands = book.script.loaders.get(who as usize)?;
    if loader.done < commands.len() {
        commands.get(loader.done)
    } else {
        None
    }
}

/// Whether the commands of all loaders are done.
pub fn all_done(book: &Book) -> bool
    requires { IsBook book.now }
    ensures { IsTrue result ↔ ((loader : ℕ) → next_of (shown book.now) loader ≡ None) }
{
    for who in 0..book.loaders.len() {
        let loader = who as u32;
        if has_next(book, loader) {
            return false;
        }
    }
    true
}

/// Whether a loader has a command that is not done.
fn has_next(book: &Book, who: u32) -> bool
    requires { length book.now.loaders.items ≡ length book.now.script.loaders }
    ensures { result ≡ is_some (next_of (shown book.now) who) }
{
    next_command(book, who).is_some()
}

/// Makes the next command of a loader, which needs no permission. With its answer the number of the process is told, where it is a spawn.
pub fn make_at_once(book: &mut Book, who: u32) -> Result<(Applied, Option<u32>), NoMemory>
    requires book { IsBook book.old }
    requires next { IsSomeAnd (next_of (shown book.old) who) (λ command. needs_permission command ≡ false) }
    ensures ok { IfOk result (λ a. at_once_of (shown book.old) who ≡ Some (record { state = shown book.new; answer = a.0 })) }
    ensures spawned { IfOk result (λ a. a.1 ≡ spawned_by (shown book.old) who (next_of (shown book.old) who)) }
    ensures err { OnErr result (shown book.new ≡ shown book.old) }
    ensures book { IsBook book.new }
{
    let Some(command) = next_command(book, who) else {
        unreachable!()
    };
    let spawns = is_spawn(command);
    let cmd = opening(book.alloc, command)?;
    let applied = make(book, Who::Loader(who), cmd)?;
    let loader = &mut book.loaders[who as usize];
    let spawned = spawned(loader.next_process as u32, spawns);
    count(loader, spawns);
    Ok((applied, spawned))
}

/// The number, where the command makes a process.
fn spawned(process: u32, spawns: bool) -> Option<u32>
    ensures { result ≡ (if spawns then Some process else None) }
{
    if spawns { Some(process) } else { None }
}

/// One command more of the loader is done.
pub fn count(loader: &mut LoaderRun, spawns: bool)
    requires done { loader.old.done + 1 < 2 ^ 64 }
    requires next { loader.old.next_process + 1 < 2 ^ 64 }
    ensures { loader.new ≡ record { done = loader.old.done + 1; next_process = loader.old.next_process + (if spawns then 1 else 0) } }
{
    loader.done += 1;
    if spawns {
        loader.next_process += 1;
    }
}
