//! Replies, as the entries of a report have them, and what a command has of them.

ghost use Rattle.std.specs.Prelude.{◌≡◌};
ghost use Rattle.term_core.specs.Text.Parts.{parts_between, each_reading};
ghost use Rattle.report_text.specs.WordReading.{ReadsWord, atom_reading};
ghost use Rattle.run_log.specs.WellFormed.{lingering_in, is_true_reply};
ghost use Rattle.report_text.specs.ReplyReading.{linger_reading, limit_reading, atoms_reading, closed_atoms, not_purged_reading, worded_reply, longer_reply, reply_reading, published_reading, agreed};

use crate::line_fault::LineFault;
use crate::words::atom_of;
use server_core::{Cmd, Limit, Linger, Reply};
use std::alloc::Global;
use term_core::{AtomId, AtomList, Names, cut_at, cut_first, narrow_of, number_of};

/// A process and a turn, as `0 3`.
fn linger_of(text: &[u8]) -> Option<Linger>
    ensures { result ≡ linger_reading text.now }
{
    let (process, turn) = cut_at(text, b' ')?;
    let process = narrow_of(process)?;
    let turn = narrow_of(turn)?;
    Some(Linger { process, turn })
}

fn limit_of(text: &[u8]) -> Option<Limit>
    ensures { result ≡ limit_reading text.now }
{
    if text == b"instances".as_slice() {
        Some(Limit::Instances)
    } else if text == b"keys".as_slice() {
        Some(Limit::Keys)
    } else if text == b"areas".as_slice() {
        Some(Limit::Areas)
    } else {
        None
    }
}

fn read_atom(names: &Names, text: &[u8]) -> Result<AtomId, LineFault>
    ensures { ReadsWord (λ atom. atom) result (atom_reading names.now text.now) }
{
    atom_of(names, text).ok_or(LineFault::Form)
}

/// Atoms with commas between them, at least one.
fn read_some_atoms(alloc: Global, names: &Names, text: &[u8]) -> Result<AtomList, LineFault>
    ensures { ReadsWord (λ atoms. atoms) result (each_reading (atom_reading names.now) (parts_between 44 text.now)) }
{
    let mut atoms = AtomList::new(alloc);
    let mut rest = Some(text);
    'atoms: while let Some(left) = rest {
        let (part, behind) = cut_first(left, b',');
        atoms.push(read_atom(names, part)?)?;
        rest = behind;
    }
    Ok(atoms)
}

fn read_atoms(alloc: Global, names: &Names, text: &[u8]) -> Result<AtomList, LineFault>
    ensures { ReadsWord (λ atoms. atoms) result (atoms_reading names.now text.now) }
{
    if text.is_empty() {
        return Ok(AtomList::new(alloc));
    }
    read_some_atoms(alloc, names, text)
}

/// Atoms in front of a bracket that ends the text.
fn read_closed_atoms(alloc: Global, names: &Names, text: &[u8]) -> Result<AtomList, LineFault>
    ensures { ReadsWord (λ atoms. atoms) result (closed_atoms names.now text.now) }
{
    let (inside, behind) = cut_at(text, b']').ok_or(LineFault::Form)?;
    if !behind.is_empty() {
        return Err(LineFault::Form);
    }
    read_atoms(alloc, names, inside)
}

/// Modules in brackets, as `[m,n]`.
fn read_not_purged(alloc: Global, names: &Names, text: &[u8]) -> Result<Reply, LineFault>
    ensures { ReadsWord (λ reply. reply) result (not_purged_reading names.now text.now) }
{
    match text.split_first() {
        Some((b'[', inside)) => Ok(Reply::NotPurged(read_closed_atoms(alloc, names, inside)?)),
        _ => Err(LineFault::Form),
    }
}

fn read_worded(alloc: Global, names: &Names, word: &[u8], text: &[u8]) -> Result<Reply, LineFault>
    ensures { ReadsWord (λ reply. reply) result (worded_reply names.now word.now text.now) }
{
    if word == b"false".as_slice() {
        Ok(Reply::FalseBy(linger_of(text).ok_or(LineFault::Form)?))
    } else if word == b"not_purged".as_slice() {
        read_not_purged(alloc, names, text)
    } else if word == b"duplicated".as_slice() {
        Ok(Reply::Duplicated(read_atom(names, text)?))
    } else if word == b"system_limit".as_slice() {
        Ok(Reply::SystemLimit(limit_of(text).ok_or(LineFault::Form)?))
    } else {
        Err(LineFault::Form)
    }
}

fn read_longer(alloc: Global, names: &Names, text: &[u8]) -> Result<Reply, LineFault>
    ensures { ReadsWord (λ reply. reply) result (longer_reply names.now text.now) }
{
    let (word, rest) = cut_at(text, b' ').ok_or(LineFault::Form)?;
    read_worded(alloc, names, word, rest)
}

/// A reply.
pub fn read_reply(alloc: Global, names: &Names, text: &[u8]) -> Result<Reply, LineFault>
    ensures { ReadsWord (λ reply. reply) result (reply_reading names.now text.now) }
{
    if text == b"ok".as_slice() {
        Ok(Reply::Ok)
    } else if text == b"true".as_slice() {
        Ok(Reply::True)
    } else if text == b"false".as_slice() {
        Ok(Reply::False)
    } else {
        read_longer(alloc, names, text)
    }
}

/// The generation that was published, if one was: `@1`, or `-`.
pub fn published_of(text: &[u8]) -> Option<Option<u64>>
    ensures { result ≡ published_reading text.now }
{
    if text == b"-".as_slice() {
        return Some(None);
    }
    match text.split_first() {
        Some((b'@', digits)) => Some(Some(number_of(digits)?)),
        _ => None,
    }
}

/// The command with what its reply says of processes.
pub fn agreed(cmd: Cmd, reply: &Reply) -> Cmd
    ensures { result ≡ agreed cmd reply.now }
{
    match cmd {
        Cmd::SoftPurge { module, .. } => Cmd::SoftPurge {
            module,
            lingers: lingering_in(reply),
        },
        Cmd::Purge { module, .. } => Cmd::Purge {
            module,
            killed: is_true(reply),
        },
        other => other,
    }
}

fn lingering_in(reply: &Reply) -> Option<Linger>
    ensures { result ≡ lingering_in reply.now }
{
    match reply {
        Reply::FalseBy(linger) => Some(*linger),
        _ => None,
    }
}

fn is_true(reply: &Reply) -> bool
    ensures { result ≡ is_true_reply reply.now }
{
    matches!(reply, Reply::True)
}
