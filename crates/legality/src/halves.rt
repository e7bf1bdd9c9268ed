ghost use Rattle.std.specs.Prelude.{◌≡◌, ◌↔◌, IsTrue};
ghost use Rattle.run_log.specs.Legal.{MayStand, MayStandBetween, MayStart, half_after};

use run_log::{Entry, HalfPurge, Who};
use server_core::{Cmd, Server};

/// Whether the entry may stand where this purge waits, or none.
pub fn may_stand(server: &Server, half: Option<HalfPurge>, entry: &Entry) -> bool
    ensures { IsTrue result ↔ MayStand server.now half entry.now }
{
    match half {
        Some(half) => may_stand_between(half, entry.who, &entry.cmd),
        None => may_start(server, &entry.cmd),
    }
}

/// Whether the command may stand where no purge waits: a purge may where there is no old code.
fn may_start(server: &Server, cmd: &Cmd) -> bool
    ensures { IsTrue result ↔ MayStart server.now cmd.now }
{
    match cmd {
        Cmd::Purge { module, .. } => server.old(*module).is_none(),
        _ => true,
    }
}

/// Whether the command may stand between the halves of a purge.
fn may_stand_between(half: HalfPurge, who: Who, cmd: &Cmd) -> bool
    ensures { IsTrue result ↔ MayStandBetween half who cmd.now }
{
    match cmd {
        Cmd::Purge { module, .. } => is_same_who(who, half.who) && *module == half.module,
        Cmd::CheckOld(_) | Cmd::Spawn { .. } | Cmd::Release(_) => !is_same_who(who, half.who),
        _ => false,
    }
}

/// Whether the two are one.
fn is_same_who(who: Who, other: Who) -> bool
    ensures { IsTrue result ↔ (who ≡ other) }
{
    who == other
}

/// The purge that waits after the entry, if one does.
pub fn half_after(half: Option<HalfPurge>, entry: &Entry) -> Option<HalfPurge>
    ensures { result ≡ half_after half entry.now.who entry.now.cmd }
{
    match &entry.cmd {
        Cmd::Doom(module) => Some(HalfPurge {
            who: entry.who,
            module: *module,
        }),
        Cmd::Purge { .. } => None,
        _ => half,
    }
}
