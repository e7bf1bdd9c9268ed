//! How many processes the commands of a script make, and the number of each loader's first.

ghost use Rattle.std.specs.Prelude.{◌≡◌, ◌<◌, ◌≤◌, ℕ, length, slice_index, sum_by};
ghost use Rattle.script_core.specs.Processes.{first_number, spawn_count};

use crate::script::{CommandList, LoaderList, MOST_LOADERS, MOST_PROCESSES, ScriptCmd};

/// How many processes these commands make.
fn spawn_count(commands: &CommandList) -> usize
    ensures { result ≡ spawn_count commands.now }
{
    let mut count = 0;
    for command in commands.as_slice() {
        if let ScriptCmd::Spawn { .. } = command {
            count += 1;
        }
    }
    count
}

/// The number of each loader's first process.
pub fn first_numbers(loaders: &LoaderList) -> [usize; MOST_LOADERS]
    requires few_loaders { length loaders.now ≤ MOST_LOADERS }
    requires few_processes { sum_by spawn_count loaders.now ≤ MOST_PROCESSES }
    ensures first { (loader : ℕ) → loader < length loaders.now → slice_index result loader ≡ first_number loaders.now loader }
    ensures long { length result ≡ MOST_LOADERS }
{
    let mut numbers = [0; MOST_LOADERS];
    let mut next = 0;
    for (loader, commands) in loaders.as_slice().iter().enumerate() {
        numbers[loader] = next;
        next += spawn_count(commands);
    }
    numbers
}
