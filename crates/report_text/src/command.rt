//! Commands, as the entries of a report have them.

ghost use Rattle.std.specs.Prelude.{◌≡◌};
ghost use Rattle.term_core.specs.Text.Parts.{parts_between, each_reading};
ghost use Rattle.report_text.specs.WordReading.{ReadsWord};
ghost use Rattle.report_text.specs.CommandReading.{reference_reading, put_reading, trace_reading, spawn_reading, on_atom_reading, worded_command, command_reading};

use crate::line_fault::LineFault;
use crate::terms::{function_of, read_call, read_term};
use crate::words::atom_of;
use mod_text::version_of;
use server_core::{Cmd, ModRef, RefList};
use std::alloc::Global;
use term_core::{Names, cut_at, cut_first, number_of, switch_of};

/// A version of a module, as `m.1`.
fn reference_of(names: &Names, text: &[u8]) -> Option<ModRef>
    ensures { result ≡ reference_reading names.now text.now }
{
    let (name, version) = cut_at(text, b'.')?;
    let name = atom_of(names, name)?;
    let version = version_of(version)?;
    Some(ModRef { name, version })
}

fn read_reference(names: &Names, text: &[u8]) -> Result<ModRef, LineFault>
    ensures { ReadsWord (λ to. to) result (reference_reading names.now text.now) }
{
    reference_of(names, text).ok_or(LineFault::Form)
}

/// The modules of a load, with spaces between them.
fn read_references(alloc: Global, names: &Names, text: &[u8]) -> Result<RefList, LineFault>
    ensures { ReadsWord (λ refs. refs) result (each_reading (reference_reading names.now) (parts_between 32 text.now)) }
{
    let mut refs = RefList::new(alloc);
    let mut rest = Some(text);
    'references: while let Some(left) = rest {
        let (part, behind) = cut_first(left, b' ');
        refs.push(read_reference(names, part)?)?;
        rest = behind;
    }
    Ok(refs)
}

fn read_put(alloc: Global, names: &Names, text: &[u8]) -> Result<Cmd, LineFault>
    ensures { ReadsWord (λ cmd. cmd) result (put_reading names.now text.now) }
{
    let (key, rest) = cut_at(text, b' ').ok_or(LineFault::Form)?;
    let key = atom_of(names, key).ok_or(LineFault::Form)?;
    let term = read_term(alloc, names, rest)?;
    Ok(Cmd::Put { key, term })
}

fn read_trace(names: &Names, text: &[u8]) -> Result<Cmd, LineFault>
    ensures { ReadsWord (λ cmd. cmd) result (trace_reading names.now text.now) }
{
    let (target, on) = cut_at(text, b' ').ok_or(LineFault::Form)?;
    let target = function_of(names, target).ok_or(LineFault::Form)?;
    let on = switch_of(on).ok_or(LineFault::Form)?;
    Ok(Cmd::Trace { target, on })
}

fn read_spawn(alloc: Global, names: &Names, text: &[u8]) -> Result<Cmd, LineFault>
    ensures { ReadsWord (λ cmd. cmd) result (spawn_reading names.now text.now) }
{
    let call = read_call(alloc, names, text)?;
    Ok(Cmd::Spawn {
        target: call.target,
        args: call.args,
    })
}

/// A command of one atom. What processes did is in the reply: here none lingers and none was killed.
fn read_on_atom(names: &Names, word: &[u8], text: &[u8]) -> Result<Cmd, LineFault>
    ensures { ReadsWord (λ cmd. cmd) result (on_atom_reading names.now word.now text.now) }
{
    let name = atom_of(names, text).ok_or(LineFault::Form)?;
    if word == b"delete".as_slice() {
        Ok(Cmd::Delete(name))
    } else if word == b"soft_purge".as_slice() {
        Ok(Cmd::SoftPurge {
            module: name,
            lingers: None,
        })
    } else if word == b"doom".as_slice() {
        Ok(Cmd::Doom(name))
    } else if word == b"purge".as_slice() {
        Ok(Cmd::Purge {
            module: name,
            killed: false,
        })
    } else if word == b"check_old".as_slice() {
        Ok(Cmd::CheckOld(name))
    } else if word == b"erase".as_slice() {
        Ok(Cmd::Erase(name))
    } else {
        Err(LineFault::Form)
    }
}

fn read_worded(alloc: Global, names: &Names, word: &[u8], text: &[u8]) -> Result<Cmd, LineFault>
    ensures { ReadsWord (λ cmd. cmd) result (worded_command names.now word.now text.now) }
{
    if word == b"load".as_slice() {
        Ok(Cmd::Load(read_references(alloc, names, text)?))
    } else if word == b"put".as_slice() {
        read_put(alloc, names, text)
    } else if word == b"trace".as_slice() {
        read_trace(names, text)
    } else if word == b"spawn".as_slice() {
        read_spawn(alloc, names, text)
    } else if word == b"release".as_slice() {
        Ok(Cmd::Release(number_of(text).ok_or(LineFault::Form)?))
    } else {
        read_on_atom(names, word, text)
    }
}

/// A command, by the word in front.
pub fn read_command(alloc: Global, names: &Names, text: &[u8]) -> Result<Cmd, LineFault>
    ensures { ReadsWord (λ cmd. cmd) result (command_reading names.now text.now) }
{
    let (word, rest) = cut_at(text, b' ').ok_or(LineFault::Form)?;
    read_worded(alloc, names, word, rest)
}
