//! A counted function joins its set, and a command its loader block.

ghost use Rattle.std.specs.Prelude.{◌≡◌, OnOk};
ghost use Rattle.script_text.specs.Causes.{Gives};
ghost use Rattle.script_text.specs.Groups.{onto_last};
ghost use Rattle.script_text.specs.Adding.{counted_added};
ghost use Rattle.script_text.specs.ScriptValue.{command_of};
ghost use Rattle.script_text.specs.WrittenLine.{kept_word};

use crate::reading::cause::LineCause;
use crate::reading::sets::FunctionSet;
use crate::reading::written::AtomWord;
use script_core::{CommandList, LoaderList, ScriptCmd};
use std::alloc::Global;
use term_core::{AtomId, Mfa, NoMemory};

/// The function of a line is counted, if it has one.
pub fn add_counted(functions: &mut FunctionSet, counted: Option<Mfa>) -> Result<(), LineCause>
    ensures { Gives (λ _. functions.new) result (counted_added functions.old counted) }
{
    match counted {
        Some(function) => functions.add(function),
        None => Ok(()),
    }
}

/// The command of an atom.
pub fn command_of(word: AtomWord, atom: AtomId) -> ScriptCmd
    ensures { result ≡ command_of (kept_word word) atom }
{
    match word {
        AtomWord::Delete => ScriptCmd::Delete(atom),
        AtomWord::SoftPurge => ScriptCmd::SoftPurge(atom),
        AtomWord::Purge => ScriptCmd::Purge(atom),
        AtomWord::CheckOld => ScriptCmd::CheckOld(atom),
        AtomWord::Erase => ScriptCmd::Erase(atom),
    }
}

/// A command joins the last loader block.
pub fn push_command(
    alloc: Global,
    loaders: &mut LoaderList,
    command: ScriptCmd,
) -> Result<(), NoMemory>
    ensures { OnOk result (loaders.new ≡ onto_last loaders.old command) }
{
    let mut block = match loaders.pop() {
        Some(block) => block,
        None => CommandList::new(alloc),
    };
    block.push(command)?;
    loaders.push(block)
}
