//! The text of a command.

ghost use Rattle.std.specs.Prelude.{◌≡◌, ◌++◌, OnOk, codes};
ghost use Rattle.std.specs.Fmt.{decimal};
ghost use Rattle.std.specs.Io.{StartsWith};
ghost use Rattle.term_core.specs.TermText.{atom_text};
ghost use Rattle.run_log.specs.Report.{reference_text, switch_text, cmd_text};

use crate::rendering::name::{write_call, write_mfa};
use server_core::{Cmd, ModRef, RefList};
use term_core::{
    AtomId, ByteList, Mfa, Names, NoMemory, Term, TermList, print_atom, print_number, print_term,
};

/// Appends the text of a command, as an `entry` line has it. After a refusal a part of it may stand.
pub fn write_cmd(names: &Names, cmd: &Cmd, out: &mut ByteList) -> Result<(), NoMemory>
    ensures ok { OnOk result (out.new ≡ out.old ++ cmd_text names.now cmd.now) }
    ensures kept { StartsWith out.new out.old }
{
    match cmd {
        Cmd::Load(refs) => write_load(names, refs, out),
        Cmd::Delete(module) => write_on_atom(b"delete ", names, *module, out),
        Cmd::SoftPurge { module, .. } => write_on_atom(b"soft_purge ", names, *module, out),
        Cmd::Doom(module) => write_on_atom(b"doom ", names, *module, out),
        Cmd::Purge { module, .. } => write_on_atom(b"purge ", names, *module, out),
        Cmd::CheckOld(module) => write_on_atom(b"check_old ", names, *module, out),
        Cmd::Put { key, term } => write_put(names, *key, term, out),
        Cmd::Erase(key) => write_on_atom(b"erase ", names, *key, out),
        Cmd::Trace { target, on } => write_trace(names, *target, *on, out),
        Cmd::Spawn { target, args } => write_spawn(names, *target, args, out),
        Cmd::Release(serial) => write_release(*serial, out),
    }
}

fn write_on_atom(
    word: &[u8],
    names: &Names,
    name: AtomId,
    out: &mut ByteList,
) -> Result<(), NoMemory>
    ensures ok { OnOk result (out.new ≡ out.old ++ (word.now ++ atom_text names.now name.0)) }
    ensures kept { StartsWith out.new out.old }
{
    out.extend_from_slice(word)?;
    print_atom(names, name, out)
}

fn write_put(names: &Names, key: AtomId, term: &Term, out: &mut ByteList) -> Result<(), NoMemory>
    ensures ok { OnOk result (out.new ≡ out.old ++ cmd_text names.now (Cmd.Put key term.now)) }
    ensures kept { StartsWith out.new out.old }
{
    out.extend_from_slice(b"put ")?;
    print_atom(names, key, out)?;
    out.push(b' ')?;
    print_term(names, term, out)
}

fn write_trace(names: &Names, target: Mfa, on: bool, out: &mut ByteList) -> Result<(), NoMemory>
    ensures ok { OnOk result (out.new ≡ out.old ++ cmd_text names.now (Cmd.Trace target on)) }
    ensures kept { StartsWith out.new out.old }
{
    out.extend_from_slice(b"trace ")?;
    write_mfa(names, target, out)?;
    out.push(b' ')?;
    write_switch(on, out)
}

fn write_switch(on: bool, out: &mut ByteList) -> Result<(), NoMemory>
    ensures ok { OnOk result (out.new ≡ out.old ++ switch_text on) }
    ensures kept { StartsWith out.new out.old }
{
    if on {
        out.extend_from_slice(b"on")
    } else {
        out.extend_from_slice(b"off")
    }
}

fn write_release(serial: u64, out: &mut ByteList) -> Result<(), NoMemory>
    ensures ok { OnOk result (out.new ≡ out.old ++ (codes "release " ++ decimal serial)) }
    ensures kept { StartsWith out.new out.old }
{
    out.extend_from_slice(b"release ")?;
    print_number(serial, out)
}

fn write_load(names: &Names, refs: &RefList, out: &mut ByteList) -> Result<(), NoMemory>
    ensures ok { OnOk result (out.new ≡ out.old ++ cmd_text names.now (Cmd.Load refs.now)) }
    ensures kept { StartsWith out.new out.old }
{
    out.extend_from_slice(b"load")?;
    for to in refs.as_slice() {
        out.push(b' ')?;
        write_reference(names, *to, out)?;
    }
    Ok(())
}

fn write_spawn(
    names: &Names,
    target: Mfa,
    args: &TermList,
    out: &mut ByteList,
) -> Result<(), NoMemory>
    ensures ok { OnOk result (out.new ≡ out.old ++ cmd_text names.now (Cmd.Spawn target args.now)) }
    ensures kept { StartsWith out.new out.old }
{
    out.extend_from_slice(b"spawn ")?;
    write_call(names, target, args, out)
}

fn write_reference(names: &Names, to: ModRef, out: &mut ByteList) -> Result<(), NoMemory>
    ensures ok { OnOk result (out.new ≡ out.old ++ reference_text names.now to) }
    ensures kept { StartsWith out.new out.old }
{
    print_atom(names, to.name, out)?;
    out.push(b'.')?;
    print_number(u64::from(to.version), out)
}
