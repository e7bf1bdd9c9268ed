ghost use Rattle.std.specs.Prelude.{◌≡◌, ◌≤◌, IfOk};
ghost use Rattle.script_maker.specs.MadeScript.{made_script};

use crate::commands::made_commands;
use crate::modules::made_modules;
use crate::subject::made_names;
use script_core::{LoaderList, Script};
use std::alloc::Global;
use term_core::{CountList, NoMemory};

/// How many commands a made script has at most; the least is 1.
pub const MOST_COMMANDS: u32 = 4_000;

/// The script of a seed and a size, which is how many commands its two loaders have together.
///
/// One seed and one size always make the same script. It takes memory.
pub fn make_script(alloc: Global, seed: u32, size: u32) -> Result<Script, NoMemory>
    requires least { 1 ≤ size }
    requires most { size ≤ MOST_COMMANDS }
    ensures made { IfOk result (λ script. script ≡ made_script seed size) }
{
    let mut loaders = LoaderList::new(alloc);
    loaders.push(made_commands(alloc, seed, 0, size.div_ceil(2))?)?;
    loaders.push(made_commands(alloc, seed, 1, size / 2)?)?;
    Ok(Script {
        names: made_names(alloc)?,
        modules: made_modules(alloc)?,
        observers: CountList::new(alloc),
        loaders,
    })
}
