//! Rows of commands, each with its answer.

ghost use Rattle.server_core.specs.CommandTable.{AreTexts};

use crate::steps::{Step, Value, command_of, main_of, texts};
use mod_core::ModuleList;
use server_core::*;
use std::process::Abort;
use term_core::{AreaRef, AtomId, CodeRef, Found};

// The first function of an instance.
fn first_of(serial: u64) -> CodeRef {
    CodeRef {
        area: AreaRef { serial, block: 0 },
        function: 0,
    }
}

// What a command answers, short enough for a row of a table.
#[derive(Clone, Copy, PartialEq, Eq)]
enum Told {
    Ok,
    True,
    False,
    /// a process, and its turns
    FalseBy(u32, u32),
    /// the first of the names
    NotPurged(Option<AtomId>),
    Duplicated(AtomId),
    SystemLimit,
    NotEnabled,
    NoMemory,
}

fn told_by(reply: &Reply) -> Told {
    match reply {
        Reply::Ok => Told::Ok,
        Reply::True => Told::True,
        Reply::False => Told::False,
        Reply::FalseBy(by) => Told::FalseBy(by.process, by.turn),
        Reply::NotPurged(names) => Told::NotPurged(names.as_slice().first().copied()),
        Reply::Duplicated(name) => Told::Duplicated(*name),
        Reply::SystemLimit(_) => Told::SystemLimit,
    }
}

// The answer, and the number of the published generation.
fn answer_of(answer: &Result<Applied, ApplyFault>) -> (Told, Option<u64>) {
    match answer {
        Ok(applied) => (told_by(&applied.reply), applied.published),
        Err(ApplyFault::NotEnabled) => (Told::NotEnabled, None),
        Err(ApplyFault::NoMemory) => (Told::NoMemory, None),
    }
}

// A command, what it answers, and the number of the generation that it publishes.
type Row = (Step, Told, Option<u64>);

// What a server shows once its commands are made.
#[derive(Clone, Copy)]
enum Look {
    /// the second instance is old, nothing is current, and nothing is left to release
    OldCode,
    /// the first instance is doomed
    Doomed,
    /// the first instance waits for its release
    Retired,
    /// the function of the second instance is traced, and that of the first one too or not
    Traced(bool),
    /// these areas, and no others, wait for their release, in this order
    Waits(&'static [u64]),
    /// what three keys hold: nothing, the integer 7, and the words of the sixth area
    Keys,
    /// the words of areas
    Words,
}

fn shows(server: &Server, look: Look) -> bool {
    match look {
        Look::OldCode => has_old_code_alone(server),
        Look::Doomed => { server.doomed_area() == Some(1) && server.doomed(1) && !server.doomed(2) }
        Look::Retired => {
            server.doomed_area().is_none() && server.retired(1) && !server.retired(2)
        }
        Look::Traced(first) => { server.traced(first_of(1)) == first && server.traced(first_of(2)) }
        Look::Waits(serials) => are_retired(server, serials),
        Look::Keys => keys_hold(server),
        Look::Words => words_are_kept(server),
    }
}

fn has_old_code_alone(server: &Server) -> bool {
    server.current(AtomId(3)).is_none()
        && server.old(AtomId(3)) == Some(2)
        && server.dispatch(main_of(3)).is_none()
        && server.generation() == 4
        && server.oldest_retired().is_none()
}

fn are_retired(server: &Server, serials: &[u64]) -> bool {
    let mut next = server.oldest_retired();
    for serial in serials {
        if next != Some(*serial) {
            return false;
        }
        next = server.retired_behind(*serial);
    }
    next.is_none()
}

fn keys_hold(server: &Server) -> bool {
    let area = AreaRef {
        serial: 6,
        block: 0,
    };
    server.term(AtomId(20)) == Found::Absent
        && server.term(AtomId(21)) == Found::Word(113)
        && server.term(AtomId(22)) == Found::Area(area)
}

// The words are worked out by hand: a tuple's counts its terms, tag 3, a list's tag 4, and an integer's tag is 1.
fn words_are_kept(server: &Server) -> bool {
    let words = [
        (1, 0, Some(1)),
        (1, 1, Some(3)),
        (1, 2, Some(2)),
        (1, 11, Some(34)),
        (1, 12, None),
        (2, 0, Some(19)),
        (2, 1, Some(113)),
        (2, 2, None),
        (3, 0, Some(3)),
        (4, 0, Some(4)),
        (0, 0, None),
        (5, 0, None),
    ];
    for (serial, at, word) in words {
        if server.word(AreaRef { serial, block: 0 }, at) != word {
            return false;
        }
    }
    server.dispatch(main_of(3)).map(|at| at.area.serial) == Some(1)
}

// Makes the commands of the rows in turn, and compares each answer.
fn make(rt: &(impl AllocGlobal + Abort), server: &mut Server, texts: &ModuleList, rows: &[Row])
    requires { AreTexts texts.now }
{
    for (step, told, published) in rows {
        let cmd = command_of(rt.alloc(), *step).expect(rt, "a command");
        let answer = answer_of(&server.apply(&cmd, texts));
        assert!(rt; answer == (*told, *published), "{step:?}");
    }
}

fn shows_then(
    rt: &(impl AllocGlobal + Abort),
    server: &mut Server,
    rows: &[Row],
    look: Look,
) -> bool {
    let texts = texts(rt.alloc(), 9).expect(rt, "texts");
    make(rt, server, &texts, rows);
    shows(server, look)
}

// Whether a new server shows this once the commands of the rows are made.
fn leads_to(rt: &(impl AllocGlobal + Abort), rows: &[Row], look: Look) -> bool {
    let mut server = Server::new(rt.alloc()).expect(rt, "a server");
    shows_then(rt, &mut server, rows, look)
}

const BROUGHT_IN: [Row; 13] = [
    (Step::LoadBoth(3), Told::Duplicated(AtomId(3)), None),
    (Step::Load(3, 1), Told::Ok, Some(1)),
    (Step::Load(3, 2), Told::Ok, Some(2)),
    (Step::Load(3, 3), Told::NotPurged(Some(AtomId(3))), None),
    (Step::Delete(3), Told::False, None),
    (Step::Linger(3), Told::FalseBy(7, 2), None),
    (Step::SoftPurge(3), Told::True, Some(3)),
    (Step::SoftPurge(3), Told::True, None),
    (Step::Release(1), Told::Ok, None),
    (Step::Release(1), Told::NotEnabled, None),
    (Step::Delete(3), Told::True, Some(4)),
    (Step::CheckOld(3), Told::True, None),
    (Step::Load(3, 4), Told::NotEnabled, None),
];

#[test]
fn code_comes_in_and_goes(rt: HostRuntime) {
    assert!(rt; leads_to(&rt, &BROUGHT_IN, Look::OldCode));
}

const DOOMED: [Row; 12] = [
    (Step::Load(3, 1), Told::Ok, Some(1)),
    (Step::Load(3, 2), Told::Ok, Some(2)),
    (Step::Purge(3), Told::NotEnabled, None),
    (Step::Doom(3), Told::Ok, Some(3)),
    (Step::Put(3, Value::Seven), Told::NotEnabled, None),
    (Step::Erase(3), Told::NotEnabled, None),
    (Step::Trace(3), Told::NotEnabled, None),
    (Step::CheckOld(3), Told::True, None),
    (Step::Spawn(3), Told::Ok, None),
    (Step::Kill(3), Told::True, Some(4)),
    (Step::Kill(3), Told::NotEnabled, None),
    (Step::Purge(3), Told::False, None),
];

#[test]
fn few_commands_go_on_while_code_is_doomed(rt: HostRuntime) {
    assert!(rt; leads_to(&rt, &DOOMED[..9], Look::Doomed));
    assert!(rt; leads_to(&rt, &DOOMED, Look::Retired));
}

const TRACED: [Row; 8] = [
    (Step::Trace(3), Told::False, None),
    (Step::Load(3, 1), Told::Ok, Some(1)),
    (Step::Trace(3), Told::True, Some(2)),
    (Step::Trace(3), Told::True, None),
    (Step::Load(3, 3), Told::Ok, Some(3)),
    (Step::Untrace(3), Told::True, None),
    (Step::Trace(3), Told::True, Some(4)),
    (Step::SoftPurge(3), Told::True, Some(5)),
];

#[test]
fn a_breakpoint_goes_with_its_instance(rt: HostRuntime) {
    assert!(rt; leads_to(&rt, &TRACED[..7], Look::Traced(true)));
    assert!(rt; leads_to(&rt, &TRACED, Look::Traced(false)));
}

const PUT: [Row; 15] = [
    (Step::Erase(20), Told::False, None),
    (Step::Put(20, Value::TupleOfSeven), Told::Ok, Some(1)),
    (Step::Put(20, Value::TupleOfSeven), Told::Ok, None),
    (Step::Load(3, 1), Told::Ok, Some(2)),
    (Step::Put(20, Value::EmptyTuple), Told::Ok, Some(3)),
    (Step::Put(20, Value::EmptyList), Told::Ok, Some(4)),
    (Step::Put(20, Value::EmptyList), Told::Ok, None),
    (Step::Put(21, Value::Seven), Told::Ok, Some(5)),
    (Step::Put(21, Value::Seven), Told::Ok, None),
    (Step::Put(20, Value::Seven), Told::Ok, Some(6)),
    (Step::Put(20, Value::TupleOfSeven), Told::Ok, Some(7)),
    (Step::Release(3), Told::Ok, None),
    (Step::Erase(20), Told::True, Some(8)),
    (Step::Erase(20), Told::False, None),
    (Step::Put(22, Value::TupleOfSeven), Told::Ok, Some(9)),
];

#[test]
fn a_key_holds_the_last_term_that_was_put(rt: HostRuntime) {
    assert!(rt; leads_to(&rt, &PUT[..9], Look::Waits(&[1, 3])));
    assert!(rt; leads_to(&rt, &PUT, Look::Waits(&[1, 4, 5])));
    assert!(rt; leads_to(&rt, &PUT, Look::Keys));
}

const KEPT: [Row; 4] = [
    (Step::Load(3, 2), Told::Ok, Some(1)),
    (Step::Put(20, Value::TupleOfSeven), Told::Ok, Some(2)),
    (Step::Put(20, Value::EmptyTuple), Told::Ok, Some(3)),
    (Step::Put(20, Value::EmptyList), Told::Ok, Some(4)),
];

#[test]
fn areas_keep_their_words(rt: HostRuntime) {
    assert!(rt; leads_to(&rt, &KEPT, Look::Words));
}
