ghost use Rattle.std.specs.Prelude.{◌≡◌, ◌<◌, ◌↔◌, false, length, IsTrue, IfSome, All};
ghost use Rattle.span_check.specs.Standings.{HasItsNames};
ghost use Rattle.legality.specs.Looks.{AreKilled, IsPurged, IsTold, names_area, some_names, some_stands, stands_in};

use crate::shape::is_killed;
use run_log::ProcessLogList;
use server_core::{Cmd, Linger, Server};
use span_check::Standing;
use term_core::CountList;

/// Whether what the command tells of the processes is so, as they stand. Whether a process lingers was judged with its turns.
pub fn is_told(
    server: &Server,
    standings: &[Standing],
    processes: &ProcessLogList,
    killed: &CountList,
    cmd: &Cmd,
) -> bool
    requires named { All HasItsNames standings.now }
    requires killed { AreKilled killed.now processes.now }
    ensures { IsTrue result ↔ IsTold server.now standings.now processes.now cmd.now }
{
    match cmd {
        Cmd::SoftPurge {
            module,
            lingers: Some(linger),
        } => is_linger_known(server.old(*module), *linger, processes),
        Cmd::SoftPurge {
            module,
            lingers: None,
        } => is_left(server.old(*module), standings),
        Cmd::Purge {
            module,
            killed: told,
        } => is_purged(server.old(*module), *told, standings, processes, killed),
        Cmd::Release(serial) => !some_names(standings, *serial),
        _ => true,
    }
}

/// Whether the process that is told to linger in old code is there.
fn is_linger_known(old: Option<u64>, linger: Linger, processes: &ProcessLogList) -> bool
    ensures { IsTrue result ↔ IfSome old (λ serial. linger.process < length processes.now) }
{
    old.is_none() || (linger.process as usize) < processes.len()
}

/// Whether no process stands in the old code, if there is such code.
fn is_left(old: Option<u64>, standings: &[Standing]) -> bool
    requires { All HasItsNames standings.now }
    ensures { IsTrue result ↔ IfSome old (λ serial. some_stands serial standings.now ≡ false) }
{
    match old {
        Some(serial) => !some_stands(standings, serial),
        None => true,
    }
}

/// Whether no process stands in the old code, if there is such code, and it is told whether one was killed.
fn is_purged(
    old: Option<u64>,
    told: bool,
    standings: &[Standing],
    processes: &ProcessLogList,
    killed: &CountList,
) -> bool
    requires named { All HasItsNames standings.now }
    requires killed { AreKilled killed.now processes.now }
    ensures { IsTrue result ↔ IfSome old (IsPurged standings.now processes.now told) }
{
    match old {
        Some(serial) => !some_stands(standings, serial) && told == is_killed(killed, serial),
        None => true,
    }
}

/// Whether a process stands in the instance.
fn some_stands(standings: &[Standing], serial: u64) -> bool
    requires { All HasItsNames standings.now }
    ensures { result ≡ some_stands serial standings.now }
{
    for standing in standings {
        if stands_in(standing, serial) {
            return true;
        }
    }
    false
}

/// Whether a process names the area.
fn some_names(standings: &[Standing], serial: u64) -> bool
    requires { All HasItsNames standings.now }
    ensures { result ≡ some_names serial standings.now }
{
    for standing in standings {
        if names(standing, serial) {
            return true;
        }
    }
    false
}

/// Whether the process stands in the instance.
fn stands_in(standing: &Standing, serial: u64) -> bool
    requires { HasItsNames standing.now }
    ensures { result ≡ stands_in serial standing.now }
{
    standing.stands_in(serial)
}

/// Whether the process names the area.
fn names(standing: &Standing, serial: u64) -> bool
    requires { HasItsNames standing.now }
    ensures { result ≡ names_area serial standing.now }
{
    standing.names(serial)
}
