//! The entries of a report's journal.

ghost use Rattle.std.specs.Prelude.{◌≡◌};
ghost use Rattle.report_text.specs.WordReading.{ReadsWord};
ghost use Rattle.report_text.specs.EntryReading.{who_reading, command_front, answer_reading, made_reading, entry_reading};

use crate::command::read_command;
use crate::line_fault::LineFault;
use crate::reply::{agreed, published_of, read_reply};
use crate::words::cut_last;
use run_log::{Entry, Who};
use server_core::{Cmd, Reply};
use std::alloc::Global;
use term_core::{Names, cut_at, narrow_of};

/// What a command answered.
#[derive(Drop)]
pub struct Answer {
    pub reply: Reply,
    pub published: Option<u64>,
}

/// A command that was made, and what it answered.
#[derive(Drop)]
pub struct Made {
    pub cmd: Cmd,
    pub answer: Answer,
}

fn who_of(text: &[u8]) -> Option<Who>
    ensures { result ≡ who_reading text.now }
{
    if text == b"rt".as_slice() {
        return Some(Who::Runtime);
    }
    match text.split_first() {
        Some((b'L', digits)) => Some(Who::Loader(narrow_of(digits)?)),
        _ => None,
    }
}

/// A command, with one space behind it.
fn read_command_front(alloc: Global, names: &Names, text: &[u8]) -> Result<Cmd, LineFault>
    ensures { ReadsWord (λ cmd. cmd) result (command_front names.now text.now) }
{
    let (cmd, behind) = cut_last(text, b' ').ok_or(LineFault::Form)?;
    if !behind.is_empty() {
        return Err(LineFault::Form);
    }
    read_command(alloc, names, cmd)
}

/// A reply with one space in front of it, and behind its last space what was published.
fn read_answer(alloc: Global, names: &Names, text: &[u8]) -> Result<Answer, LineFault>
    ensures { ReadsWord (λ answer. answer) result (answer_reading names.now text.now) }
{
    match text.split_first() {
        Some((b' ', answer)) => {
            let (reply, published) = cut_last(answer, b' ').ok_or(LineFault::Form)?;
            let reply = read_reply(alloc, names, reply)?;
            let published = published_of(published).ok_or(LineFault::Form)?;
            Ok(Answer { reply, published })
        }
        _ => Err(LineFault::Form),
    }
}

/// A command and its answer, with ` = ` between them.
fn read_made(alloc: Global, names: &Names, text: &[u8]) -> Result<Made, LineFault>
    ensures { ReadsWord (λ made. made) result (made_reading names.now text.now) }
{
    let (cmd, answer) = cut_at(text, b'=').ok_or(LineFault::Form)?;
    let cmd = read_command_front(alloc, names, cmd)?;
    let answer = read_answer(alloc, names, answer)?;
    Ok(Made { cmd, answer })
}

/// An entry, behind its word.
pub fn read_entry(alloc: Global, names: &Names, text: &[u8]) -> Result<Entry, LineFault>
    ensures { ReadsWord (λ entry. entry) result (entry_reading names.now text.now) }
{
    let (who, rest) = cut_at(text, b' ').ok_or(LineFault::Form)?;
    let who = who_of(who).ok_or(LineFault::Form)?;
    let made = read_made(alloc, names, rest)?;
    let Made { cmd, answer } = made;
    let Answer { reply, published } = answer;
    let cmd = agreed(cmd, &reply);
    Ok(Entry {
        who,
        cmd,
        reply,
        published,
    })
}
