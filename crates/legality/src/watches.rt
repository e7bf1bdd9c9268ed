ghost use Rattle.std.specs.Prelude.{◌≡◌, IfOk};
ghost use Rattle.legality.specs.Sweeps.{AreWatches, watch_in};

use run_log::Entry;
use server_core::{Cmd, Server};
use span_check::Watch;
use std::alloc::Global;
use term_core::NoMemory;

/// What these entries make to be watched of a process, in the order of its turns. It takes memory where there is something.
pub fn watches_of(
    alloc: Global,
    server: &Server,
    number: u32,
    ahead: &[Entry],
) -> Result<Vec<Watch>, NoMemory>
    ensures { IfOk result (λ watches. AreWatches server.now number ahead.now watches.items) }
{
    let mut watches = Vec::new(alloc);
    for entry in ahead {
        if let Some(watch) = watch_in(server, number, &entry.cmd) {
            watches.push(watch)?;
        }
    }
    watches.sort_unstable_by_key(|watch| watch.turn);
    Ok(watches)
}

/// What the command makes to be watched of a process.
fn watch_in(server: &Server, number: u32, cmd: &Cmd) -> Option<Watch>
    ensures { result ≡ watch_in server.now number cmd.now }
{
    match cmd {
        Cmd::SoftPurge {
            module,
            lingers: Some(linger),
        } => {
            if linger.process != number {
                return None;
            }
            let serial = server.old(*module)?;
            Some(Watch {
                turn: linger.turn,
                serial,
            })
        }
        _ => None,
    }
}
