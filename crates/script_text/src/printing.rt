//! Printing a script: the canonical text of what it says.

ghost use Rattle.std.specs.Prelude.{◌≡◌, ◌↔◌, ◌∷◌, ◌++◌, map, All, IsTrue, OnOk, OnErr, IsErrOf, codes, decimal};
ghost use Rattle.std.specs.Io.{StartsWith};
ghost use Rattle.std.specs.List.{flat_map, list_any};
ghost use Rattle.term_core.specs.Gives.{RefusesUnless};
ghost use Rattle.term_core.specs.Plain.{plain};
ghost use Rattle.term_core.specs.PlainTerm.{row_of};
ghost use Rattle.term_core.specs.TermText.{atom_text, term_text};
ghost use Rattle.term_core.specs.Written.{parted};
ghost use Rattle.mod_text.specs.Canonical.{canonical as module_lines, term_form};
ghost use Rattle.mod_core.specs.HeldNames.{IsModuleHeld};
ghost use Rattle.mod_core.specs.Module.{IsModule};
ghost use Rattle.mod_text.specs.ModuleLine.{spaced, function_written, lines_written};
ghost use Rattle.script_core.specs.declared.script.Script.{Script as ScriptValue};
ghost use Rattle.term_core.specs.Text.Words.{switch_word};
ghost use Rattle.script_text.specs.ScriptLine.{ref_written, trace_written, call_written, script_line_written, load};
ghost use Rattle.script_text.specs.ScriptText.{ScriptText};
ghost use Rattle.term_core.specs.Text.Parts.{lines_of_text};
ghost use Rattle.script_text.specs.Canonical.{IsOfSomeText, ref_form, command_line, observer_bytes, block_bytes, canonical_text, is_long_line, IsTooLong, IsTooLongToPrint};

use crate::fault::PrintFault;
use mod_core::Module;
use mod_text::print_module;
use script_core::{CommandList, LONGEST_LINE, LONGEST_SCRIPT, Script, ScriptCmd};
use server_core::ModRef;
use term_core::{
    AtomId, ByteList, Mfa, Names, NoMemory, Term, TermList, cut_at, print_atom, print_number,
    print_term,
};

/// Appends the canonical text of a script, which reads as an equal script. After a fault nothing is appended.
///
/// Labels are `l0`, `l1` and so on by the places that they name, and stand only where some instruction goes. So the text may
/// be longer than the one that was read, and too long. It takes memory.
pub fn print_script(script: &Script, out: &mut ByteList) -> Result<(), PrintFault>
    requires { IsOfSomeText script.now }
    ensures ok { OnOk result (out.new ≡ out.old ++ canonical_text script.now) }
    // What is appended is a text of this very script.
    ensures reads { OnOk result (ScriptText (canonical_text script.now) script.now) }
    // A text that is too long is refused as such, unless memory runs out, and no other is.
    ensures too_long { IsErrOf result PrintFault.TooLong → IsTooLongToPrint script.now }
    ensures long { IsTooLongToPrint script.now → RefusesUnless PrintFault.NoMemory result PrintFault.TooLong }
    ensures err { OnErr result (out.new ≡ out.old) }
{
    let start = out.len();
    let written = write_within(script, out);
    if written.is_err() {
        out.truncate(start);
    }
    written
}

/// A law: the canonical text of a script that is the value of some text is a text of that script, unless it is too long.
pub fn canonical_script_reads_back()
    ensures { (s : ScriptValue) → IsOfSomeText s → (IsTooLongToPrint s → ⊥) → ScriptText (canonical_text s) s }
{}

// ---- limits

/// Whether a line of the text is too long.
fn has_long_line(text: &[u8]) -> bool
    ensures { result ≡ list_any is_long_line (lines_of_text text.now).ended }
{
    let mut rest = text;
    'lines: while let Some((line, behind)) = cut_at(rest, b'\n') {
        if line.len() > LONGEST_LINE {
            return true;
        }
        rest = behind;
    }
    false
}

/// Whether a text is too long for a script's.
fn is_too_long(text: &[u8]) -> bool
    ensures { IsTrue result ↔ IsTooLong text.now }
{
    text.len() > LONGEST_SCRIPT || has_long_line(text)
}

// ---- writing

// Each function below appends a part of the text after a refusal.

/// The canonical text, unless it is too long.
fn write_within(script: &Script, out: &mut ByteList) -> Result<(), PrintFault>
    requires { IsOfSomeText script.now }
    ensures ok { OnOk result (out.new ≡ out.old ++ canonical_text script.now) }
    ensures within { OnOk result (IsTooLongToPrint script.now → ⊥) }
    ensures too_long { IsErrOf result PrintFault.TooLong → IsTooLongToPrint script.now }
    ensures kept { StartsWith out.new out.old }
{
    let start = out.len();
    write_script(script, out)?;
    if is_too_long(&out.as_slice()[start..]) {
        return Err(PrintFault::TooLong);
    }
    Ok(())
}

fn write_script(script: &Script, out: &mut ByteList) -> Result<(), NoMemory>
    requires { IsOfSomeText script.now }
    ensures ok { OnOk result (out.new ≡ out.old ++ canonical_text script.now) }
    ensures kept { StartsWith out.new out.old }
{
    out.extend_from_slice(b"beam script 1\n")?;
    write_modules(&script.names, script.modules.as_slice(), out)?;
    write_observers(script.observers.as_slice(), out)?;
    write_loaders(&script.names, script.loaders.as_slice(), out)?;
    out.extend_from_slice(b"go\n")
}

fn write_modules(names: &Names, modules: &[Module], out: &mut ByteList) -> Result<(), NoMemory>
    requires valid { All IsModule modules.now }
    requires held { All (IsModuleHeld names.now) modules.now }
    ensures ok { OnOk result (out.new ≡ out.old ++ flat_map (λ m. lines_written (module_lines names.now m)) modules.now) }
    ensures kept { StartsWith out.new out.old }
{
    for module in modules {
        print_module(names, module, out)?;
    }
    Ok(())
}

fn write_observers(counts: &[u64], out: &mut ByteList) -> Result<(), NoMemory>
    ensures ok { OnOk result (out.new ≡ out.old ++ flat_map observer_bytes counts.now) }
    ensures kept { StartsWith out.new out.old }
{
    for count in counts {
        write_observer(*count, out)?;
    }
    Ok(())
}

/// The line of an observer, as `observer 3`.
fn write_observer(count: u64, out: &mut ByteList) -> Result<(), NoMemory>
    ensures ok { OnOk result (out.new ≡ out.old ++ observer_bytes count) }
    ensures kept { StartsWith out.new out.old }
{
    out.extend_from_slice(b"observer ")?;
    print_number(count, out)?;
    out.push(b'\n')
}

fn write_loaders(names: &Names, loaders: &[CommandList], out: &mut ByteList) -> Result<(), NoMemory>
    ensures ok { OnOk result (out.new ≡ out.old ++ flat_map (block_bytes names.now) loaders.now) }
    ensures kept { StartsWith out.new out.old }
{
    for commands in loaders {
        write_block(names, commands.as_slice(), out)?;
    }
    Ok(())
}

fn write_block(names: &Names, commands: &[ScriptCmd], out: &mut ByteList) -> Result<(), NoMemory>
    ensures ok { OnOk result (out.new ≡ out.old ++ block_bytes names.now commands.now) }
    ensures kept { StartsWith out.new out.old }
{
    out.extend_from_slice(b"loader\n")?;
    for command in commands {
        write_command(names, command, out)?;
        out.push(b'\n')?;
    }
    Ok(())
}

fn write_command(names: &Names, command: &ScriptCmd, out: &mut ByteList) -> Result<(), NoMemory>
    ensures ok { OnOk result (out.new ≡ out.old ++ script_line_written (command_line names.now command.now)) }
    ensures kept { StartsWith out.new out.old }
{
    match command {
        ScriptCmd::Load(refs) => write_load(names, refs.as_slice(), out),
        ScriptCmd::Delete(module) => write_on_atom(names, b"delete", *module, out),
        ScriptCmd::SoftPurge(module) => write_on_atom(names, b"soft_purge", *module, out),
        ScriptCmd::Purge(module) => write_on_atom(names, b"purge", *module, out),
        ScriptCmd::CheckOld(module) => write_on_atom(names, b"check_old", *module, out),
        ScriptCmd::Put { key, term } => write_put(names, *key, term, out),
        ScriptCmd::Erase(key) => write_on_atom(names, b"erase", *key, out),
        ScriptCmd::Trace { target, on } => write_trace(names, *target, *on, out),
        ScriptCmd::Spawn { target, args } => write_spawn(names, *target, args, out),
    }
}

fn write_load(names: &Names, refs: &[ModRef], out: &mut ByteList) -> Result<(), NoMemory>
    ensures ok { OnOk result (out.new ≡ out.old ++ script_line_written (load (map (ref_form names.now) refs.now))) }
    ensures kept { StartsWith out.new out.old }
{
    out.extend_from_slice(b"load")?;
    for to in refs {
        out.push(b' ')?;
        write_ref(names, *to, out)?;
    }
    Ok(())
}

fn write_ref(names: &Names, to: ModRef, out: &mut ByteList) -> Result<(), NoMemory>
    ensures ok { OnOk result (out.new ≡ out.old ++ ref_written (ref_form names.now to)) }
    ensures kept { StartsWith out.new out.old }
{
    print_atom(names, to.name, out)?;
    out.push(b'.')?;
    print_number(u64::from(to.version), out)
}

/// A command of one atom, by its word.
fn write_on_atom(
    names: &Names,
    word: &[u8],
    atom: AtomId,
    out: &mut ByteList,
) -> Result<(), NoMemory>
    ensures ok { OnOk result (out.new ≡ out.old ++ spaced word.now (atom_text names.now atom.0)) }
    ensures kept { StartsWith out.new out.old }
{
    out.extend_from_slice(word)?;
    out.push(b' ')?;
    print_atom(names, atom, out)
}

/// A put, as `put k {1,[ok]}`.
fn write_put(names: &Names, key: AtomId, term: &Term, out: &mut ByteList) -> Result<(), NoMemory>
    ensures ok { OnOk result (out.new ≡ out.old ++ spaced (codes "put") (spaced (atom_text names.now key.0) (term_text names.now term.now))) }
    ensures kept { StartsWith out.new out.old }
{
    out.extend_from_slice(b"put ")?;
    print_atom(names, key, out)?;
    out.push(b' ')?;
    print_term(names, term, out)
}

fn write_trace(names: &Names, target: Mfa, on: bool, out: &mut ByteList) -> Result<(), NoMemory>
    ensures ok { OnOk result (out.new ≡ out.old ++ spaced (codes "trace") (trace_written (atom_text names.now target.«module».0) (atom_text names.now target.name.0) (decimal target.arity) on)) }
    ensures kept { StartsWith out.new out.old }
{
    out.extend_from_slice(b"trace ")?;
    print_atom(names, target.module, out)?;
    out.push(b':')?;
    write_function(names, target, out)?;
    out.extend_from_slice(switch_text(on))
}

/// A function's name and arity, without its module.
fn write_function(names: &Names, target: Mfa, out: &mut ByteList) -> Result<(), NoMemory>
    ensures ok { OnOk result (out.new ≡ out.old ++ function_written (atom_text names.now target.name.0) (decimal target.arity)) }
    ensures kept { StartsWith out.new out.old }
{
    print_atom(names, target.name, out)?;
    out.push(b'/')?;
    print_number(u64::from(target.arity), out)
}

/// The word for a breakpoint that is set or taken away, behind a space.
fn switch_text(on: bool) -> &'static [u8]
    ensures { result.now ≡ 32 ∷ switch_word on }
{
    if on { b" on" } else { b" off" }
}

fn write_spawn(
    names: &Names,
    target: Mfa,
    args: &TermList,
    out: &mut ByteList,
) -> Result<(), NoMemory>
    ensures ok { OnOk result (out.new ≡ out.old ++ (codes "spawn " ++ call_written (atom_text names.now target.«module».0) (atom_text names.now target.name.0) (map (term_form names.now) args.now))) }
    ensures kept { StartsWith out.new out.old }
{
    out.extend_from_slice(b"spawn ")?;
    print_atom(names, target.module, out)?;
    out.push(b':')?;
    print_atom(names, target.name, out)?;
    out.push(b'(')?;
    write_terms(names, args.as_slice(), out)?;
    out.push(b')')
}

/// Terms with a comma between them.
fn write_terms(names: &Names, terms: &[Term], out: &mut ByteList) -> Result<(), NoMemory>
    ensures ok { OnOk result (out.new ≡ out.old ++ parted (row_of (map (term_form names.now) (map plain terms.now)))) }
    ensures kept { StartsWith out.new out.old }
{
    let Some((first, others)) = terms.split_first() else {
        return Ok(());
    };
    print_term(names, first, out)?;
    write_other_terms(names, others, out)
}

/// Terms with a comma before each.
fn write_other_terms(names: &Names, terms: &[Term], out: &mut ByteList) -> Result<(), NoMemory>
    ensures ok { OnOk result (out.new ≡ out.old ++ flat_map (λ term. 44 ∷ term_text names.now term) terms.now) }
    ensures kept { StartsWith out.new out.old }
{
    for term in terms {
        out.push(b',')?;
        print_term(names, term, out)?;
    }
    Ok(())
}
