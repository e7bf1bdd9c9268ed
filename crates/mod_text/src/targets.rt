//! The places of a function that its code goes to.

ghost use Rattle.std.specs.Prelude.{◌≡◌, ◌==◌, ◌||◌, ◌<◌, ℕ, get_or, length, false};
ghost use Rattle.std.specs.List.{list_any};
ghost use Rattle.mod_text.specs.Canonical.{goes_to as is_target};

use mod_core::{Instr, LONGEST_IMAGE};

/// The most places a function has: one before each instruction, and one behind the last.
pub const MOST_PLACES: usize = LONGEST_IMAGE + 1;

/// Marks a place, if a function of a module may have it.
fn mark(places: &mut [bool; MOST_PLACES], target: u32)
    ensures length { length places.new ≡ length places.old }
    ensures marked { (number : ℕ) → number < length places.old → get_or places.new number false ≡ (get_or places.old number false || (target == number)) }
{
    let target = target as usize;
    if target < MOST_PLACES {
        places[target] = true;
    }
}

/// Marks the place that an instruction goes to.
fn mark_target(places: &mut [bool; MOST_PLACES], instr: &Instr)
    ensures length { length places.new ≡ length places.old }
    ensures marked { (number : ℕ) → number < length places.old → get_or places.new number false ≡ (get_or places.old number false || is_target number instr.now) }
{
    match instr {
        Instr::Eq { target, .. } => mark(places, *target),
        Instr::Less { target, .. } => mark(places, *target),
        Instr::Jump { target } => mark(places, *target),
        Instr::Move { .. }
        | Instr::Add { .. }
        | Instr::Sub { .. }
        | Instr::Call { .. }
        | Instr::CallExt { .. }
        | Instr::Ret { .. }
        | Instr::Pget { .. }
        | Instr::PgetOr { .. }
        | Instr::Elem { .. }
        | Instr::Print { .. }
        | Instr::Yield => {}
    }
}

/// Which places the code goes to.
pub fn targets_of(code: &[Instr]) -> [bool; MOST_PLACES]
    ensures length { length result ≡ MOST_PLACES }
    ensures marked { (number : ℕ) → number < MOST_PLACES → get_or result number false ≡ list_any (is_target number) code.now }
{
    let mut places = [false; MOST_PLACES];
    for instr in code {
        mark_target(&mut places, instr);
    }
    places
}
