// The two halves of a purge in the journal, and what was expected where another entry stands.
use crate::expected::Expected;
use crate::finding::Finding;
use legality::Place;
use run_log::{Entry, HalfPurge, RunLog, Who};
use script_core::Script;
use server_core::Cmd;
use term_core::{AtomId, Names, NoMemory, print_atom};

/// What was expected in the place of an entry that may not stand where a purge waits, or where none does.
pub fn expected_half(
    script: &Script,
    log: &RunLog,
    place: usize,
    expected: &mut Expected,
) -> Result<Option<Finding>, NoMemory> {
    if let Some(half) = half_before(log, place) {
        say_rest(&script.names, half, expected)?;
        expected.say(
            b"; between the two another loader may `check_old` and `spawn`, and the runtime `release`",
        )?;
        return Ok(Some(Finding::new(Place::Entry(place))));
    }
    match log.journal.get(place) {
        Some(
            Entry {
                cmd: Cmd::Purge { module, .. },
                ..
            },
        ) => {
            say_doom(&script.names, *module, expected)?;
            Ok(Some(Finding::new(Place::Entry(place))))
        }
        _ => Ok(None),
    }
}

/// What was expected behind the last entry, where a purge still waits.
pub fn expected_last_half(
    script: &Script,
    log: &RunLog,
    expected: &mut Expected,
) -> Result<Option<Finding>, NoMemory> {
    let Some(half) = half_before(log, log.journal.len()) else {
        return Ok(None);
    };
    say_rest(&script.names, half, expected)?;
    Ok(Some(Finding::new(Place::End)))
}

/// The purge that waits before the entry at a place, if one does.
fn half_before(log: &RunLog, place: usize) -> Option<HalfPurge> {
    let mut half = None;
    for entry in log.journal.as_slice().iter().take(place) {
        half = half_after(half, entry);
    }
    half
}

/// The purge that waits after an entry, if one does.
fn half_after(half: Option<HalfPurge>, entry: &Entry) -> Option<HalfPurge> {
    match &entry.cmd {
        Cmd::Doom(module) => Some(HalfPurge {
            who: entry.who,
            module: *module,
        }),
        Cmd::Purge { .. } => None,
        _ => half,
    }
}

/// Says the second half of a purge.
fn say_rest(names: &Names, half: HalfPurge, expected: &mut Expected) -> Result<(), NoMemory> {
    quote_half(b"purge ", names, half.module, expected)?;
    expected.say(b" of ")?;
    say_who(half.who, expected)?;
    expected.say(b", whose ")?;
    quote_half(b"doom ", names, half.module, expected)?;
    expected.say(b" stands before")
}

fn say_who(who: Who, expected: &mut Expected) -> Result<(), NoMemory> {
    match who {
        Who::Loader(number) => expected.say_number(b"L", u64::from(number)),
        Who::Runtime => expected.say(b"rt"),
    }
}

/// Says the first half of a purge.
fn say_doom(names: &Names, module: AtomId, expected: &mut Expected) -> Result<(), NoMemory> {
    quote_half(b"doom ", names, module, expected)?;
    expected.say(b" before the purge, since the module has old code")
}

/// Quotes a command of a word and a module, as in an entry.
fn quote_half(
    word: &[u8],
    names: &Names,
    module: AtomId,
    expected: &mut Expected,
) -> Result<(), NoMemory> {
    expected.say(b"`")?;
    expected.say(word)?;
    print_atom(names, module, &mut expected.words)?;
    expected.say(b"`")
}
