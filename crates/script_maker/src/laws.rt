//! What is true of each made script.

ghost use Rattle.std.specs.Prelude.{ℕ, ◌≤◌};
ghost use Rattle.script_core.specs.Sound.{IsScript};
ghost use Rattle.script_maker.specs.MadeScript.{made_script};
ghost use Rattle.script_maker.specs.declared.making.TheConstants.{MOST_COMMANDS};

/// A law: a made script can be run, judged and copied like each script that some text says.
pub fn made_scripts_are_scripts()
    ensures { (seed size : ℕ) → size ≤ MOST_COMMANDS → IsScript (made_script seed size) }
{}
