//! The text of a list of events.

ghost use Rattle.std.specs.Prelude.{◌≡◌, IfOk, IfErr, Ok, option_map};
ghost use Rattle.prgr_core.specs.declared.event.Events.{Events as EventsValue};
ghost use Rattle.prgr_core.specs.EventText.{EventText};
ghost use Rattle.prgr_core.specs.Faults.{IsFaultOf};
ghost use Rattle.prgr_core.specs.Reading.{Gives, Fails, cut_at, with_digit, event_number, number_below, numbers_below, member_words, by_word, worded_event, event_of, count_by, line_at, expected, count_at, event_at, list_at, reading};

use crate::event::{Events, PrgrEvent};
use crate::fault::EventFault;
use crate::lists::EventList;
use crate::member::MOST_MEMBERS;
use crate::watcher::{DELAY_COUNTS, MOST_WATCHERS};
use std::alloc::Global;

/// What stands before and behind the first such byte, if there is one.
fn cut_at(text: &[u8], byte: u8) -> Option<(&[u8], &[u8])>
    ensures { option_map (λ p. (p.0.now, p.1.now)) result ≡ cut_at byte text.now }
{
    for (place, found) in text.iter().enumerate() {
        if *found == byte {
            return Some((&text[..place], &text[place + 1..]));
        }
    }
    None
}

/// The number with one digit more, if the text of a number can go on so.
fn with_digit(number: u64, byte: u8) -> Option<u64>
    ensures { result ≡ with_digit number byte }
{
    if number == 0 || !byte.is_ascii_digit() {
        return None;
    }
    let digit = (byte - b'0') as u64;
    number.checked_mul(10)?.checked_add(digit)
}

/// The number whose decimal text this is: no sign, no leading zeros, below 2^64.
fn number_of(text: &[u8]) -> Option<u64>
    ensures { result ≡ event_number text.now }
{
    let (first, rest) = text.split_first()?;
    if !first.is_ascii_digit() {
        return None;
    }
    let mut number = (*first - b'0') as u64;
    for byte in rest {
        number = with_digit(number, *byte)?;
    }
    Some(number)
}

/// The number, where it is one of so many from 0.
fn number_below(text: &[u8], count: u32) -> Option<u32>
    ensures { result ≡ number_below count text.now }
{
    let number = number_of(text)?;
    if number < count as u64 {
        Some(number as u32)
    } else {
        None
    }
}

/// Two numbers with a space between them, where there are so many of each.
fn numbers_below(text: &[u8], first: u32, second: u32) -> Option<(u32, u32)>
    ensures { result ≡ numbers_below first second text.now }
{
    let (front, behind) = cut_at(text, b' ')?;
    Some((number_below(front, first)?, number_below(behind, second)?))
}

/// The event of a word that names one member.
fn by_word(word: &[u8], member: u32) -> Option<PrgrEvent>
    ensures { result ≡ by_word member_words word.now member }
{
    if word == b"load_counter".as_slice() {
        Some(PrgrEvent::LoadCounter { member })
    } else if word == b"load_root".as_slice() {
        Some(PrgrEvent::LoadRoot { member })
    } else if word == b"report".as_slice() {
        Some(PrgrEvent::Report { member })
    } else if word == b"lead".as_slice() {
        Some(PrgrEvent::Lead { member })
    } else if word == b"scan_delay".as_slice() {
        Some(PrgrEvent::ScanDelay { member })
    } else if word == b"advance".as_slice() {
        Some(PrgrEvent::Advance { member })
    } else if word == b"give_up".as_slice() {
        Some(PrgrEvent::GiveUp { member })
    } else if word == b"wait".as_slice() {
        Some(PrgrEvent::Wait { member })
    } else if word == b"enter".as_slice() {
        Some(PrgrEvent::Enter { member })
    } else {
        None
    }
}

/// The event of a word and what follows it.
fn worded_event(word: &[u8], rest: &[u8], members: u32, watchers: u32) -> Option<PrgrEvent>
    ensures { result ≡ worded_event members watchers word.now rest.now }
{
    if word == b"release".as_slice() {
        let generation = number_of(rest)?;
        Some(PrgrEvent::Release { generation })
    } else if word == b"scan".as_slice() {
        let (member, other) = numbers_below(rest, members, members)?;
        Some(PrgrEvent::Scan { member, other })
    } else if word == b"watch_load".as_slice() {
        let watcher = number_below(rest, watchers)?;
        Some(PrgrEvent::WatchLoad { watcher })
    } else if word == b"watch_add".as_slice() {
        let (watcher, which) = numbers_below(rest, watchers, DELAY_COUNTS)?;
        Some(PrgrEvent::WatchAdd { watcher, which })
    } else if word == b"watch_root".as_slice() {
        let watcher = number_below(rest, watchers)?;
        Some(PrgrEvent::WatchRoot { watcher })
    } else if word == b"watch_sub".as_slice() {
        let (watcher, which) = numbers_below(rest, watchers, DELAY_COUNTS)?;
        Some(PrgrEvent::WatchSub { watcher, which })
    } else {
        by_word(word, number_below(rest, members)?)
    }
}

/// The event of a line.
fn event_of(line: &[u8], members: u32, watchers: u32) -> Option<PrgrEvent>
    ensures { result ≡ event_of members watchers line.now }
{
    match cut_at(line, b' ') {
        None => {
            if line == b"publish".as_slice() {
                Some(PrgrEvent::Publish)
            } else if line == b"retire".as_slice() {
                Some(PrgrEvent::Retire)
            } else {
                None
            }
        }
        Some((word, rest)) => worded_event(word, rest, members, watchers),
    }
}

/// How many a line gives behind this word, from least to most.
fn count_of(line: &[u8], word: &[u8], least: u32, most: u32) -> Option<u32>
    ensures { result ≡ count_by word.now least most (cut_at 32 line.now) }
{
    let (found, rest) = cut_at(line, b' ')?;
    if found != word {
        return None;
    }
    let count = number_of(rest)?;
    if least as u64 <= count && count <= most as u64 {
        Some(count as u32)
    } else {
        None
    }
}

/// The line of this number, and what follows it. Lines are counted from 1.
fn line_at(text: &[u8], number: u32) -> Result<(&[u8], &[u8]), EventFault>
    ensures { Gives (λ p. (p.0.now, p.1.now)) result (line_at number text.now) }
{
    match cut_at(text, b'\n') {
        Some(parts) => Ok(parts),
        None => {
            let ended = text.is_empty() && 1 < number;
            let line = if ended { number - 1 } else { number };
            Err(EventFault::Syntax { line })
        }
    }
}

/// What follows the line of this number, which must be this one.
fn expected<'a>(text: &'a [u8], number: u32, wanted: &[u8]) -> Result<&'a [u8], EventFault>
    ensures { Gives (λ rest. rest.now) result (expected number wanted.now text.now) }
{
    let (line, rest) = line_at(text, number)?;
    if line == wanted {
        Ok(rest)
    } else {
        Err(EventFault::Syntax { line: number })
    }
}

/// How many the line of this number gives behind this word, and what follows it.
fn count_at<'a>(
    text: &'a [u8],
    number: u32,
    word: &[u8],
    least: u32,
    most: u32,
) -> Result<(u32, &'a [u8]), EventFault>
    ensures { Gives (λ p. (p.0, p.1.now)) result (count_at number word.now least most text.now) }
{
    let (line, rest) = line_at(text, number)?;
    match count_of(line, word, least, most) {
        Some(count) => Ok((count, rest)),
        None => Err(EventFault::Syntax { line: number }),
    }
}

/// The event of the line of this number, or none where it is `go`, and what follows it.
fn event_at(
    text: &[u8],
    number: u32,
    members: u32,
    watchers: u32,
) -> Result<(Option<PrgrEvent>, &[u8]), EventFault>
    ensures { Gives (λ p. (p.0, p.1.now)) result (event_at members watchers number text.now) }
{
    let (line, rest) = line_at(text, number)?;
    if line == b"go".as_slice() {
        return Ok((None, rest));
    }
    match event_of(line, members, watchers) {
        Some(event) => Ok((Some(event), rest)),
        None => Err(EventFault::Syntax { line: number }),
    }
}

/// The events of the lines from the fourth on. A text of more lines than a `u32` counts is
/// refused as want of memory.
fn list_at(alloc: Global, members: u32, watchers: u32, text: &[u8]) -> Result<EventList, EventFault>
    ensures { Gives (λ events. events) result (list_at members watchers text.now) }
{
    let mut events = EventList::new(alloc);
    let mut rest = text;
    let mut number = 4u32;
    'lines: loop {
        let (found, behind) = event_at(rest, number, members, watchers)?;
        if number == u32::MAX {
            return Err(EventFault::NoMemory);
        }
        number += 1;
        rest = behind;
        match found {
            Some(event) => events.push(event)?,
            None => break,
        }
    }
    if rest.is_empty() {
        Ok(events)
    } else {
        Err(EventFault::Syntax { line: number })
    }
}

/// The events of a text, or the first line of another form.
fn text_events(alloc: Global, text: &[u8]) -> Result<Events, EventFault>
    ensures { Gives (λ read. read) result (reading text.now) }
{
    let behind_head = expected(text, 1, b"beam progress 1".as_slice())?;
    let (members, behind_members) = count_at(
        behind_head,
        2,
        b"members".as_slice(),
        1,
        MOST_MEMBERS as u32,
    )?;
    let (watchers, behind_watchers) = count_at(
        behind_members,
        3,
        b"watchers".as_slice(),
        0,
        MOST_WATCHERS as u32,
    )?;
    let list = list_at(alloc, members, watchers, behind_watchers)?;
    Ok(Events {
        members,
        watchers,
        list,
    })
}

/// Reads a list of events. It takes memory for the events alone.
///
/// The form of the text: docs/FORMATS.md, "Event lists".
pub fn read_events(alloc: Global, text: &[u8]) -> Result<Events, EventFault>
    // What is read is the text of these events.
    ensures found { IfOk result (λ events. EventText text.now events) }
    // What is the text of events is read, unless memory is refused.
    ensures only { (events : EventsValue) → EventText text.now events → Gives (λ read. read) result (Ok events) }
    // The line of the fault is the first of another form, and where it stands is determined.
    ensures first { IfErr result (IsFaultOf text.now) }
    ensures fault { IfErr result (λ fault. Fails fault (reading text.now)) }
{
    text_events(alloc, text)
}
