ghost use Rattle.std.specs.Prelude.{◌≡◌, ◌||◌, ◌==◌, ℕ, IfOk, OnOk};
ghost use Rattle.machine_core.specs.Holds.{is_among};
ghost use Rattle.machine_core.specs.Process.{value_area, value_areas};
ghost use Rattle.span_check.specs.Standings.{AreNames};

use machine_core::{Frame, Value};
use std::alloc::Global;
use term_core::{CountList, NoMemory};

/// The serials of the areas that frames name, each once: the instances that they run, and the areas of their literals.
///
/// A process that goes on names at most 16 areas.
#[derive(Debug, Drop)]
pub struct Named {
    pub(crate) frames: CountList,
    pub(crate) literals: CountList,
}

/// What these frames name.
pub fn names_of(alloc: Global, frames: &[Frame]) -> Result<Named, NoMemory>
    ensures { IfOk result (AreNames frames.now) }
{
    let mut named = Named {
        frames: CountList::new(alloc),
        literals: CountList::new(alloc),
    };
    for frame in frames {
        note(&mut named.frames, frame.code.area.serial)?;
        note_literals(&mut named.literals, frame.registers.as_slice())?;
    }
    Ok(named)
}

/// Appends the serial, if it is not there.
fn note(serials: &mut CountList, serial: u64) -> Result<(), NoMemory>
    ensures { OnOk result ((n : ℕ) → is_among serials.new n ≡ (is_among serials.old n || (serial == n))) }
{
    if is_among(serials.as_slice(), serial) {
        return Ok(());
    }
    serials.push(serial)
}

/// Appends the areas of the literals that are not there.
fn note_literals(serials: &mut CountList, values: &[Value]) -> Result<(), NoMemory>
    ensures { OnOk result ((n : ℕ) → is_among serials.new n ≡ (is_among serials.old n || is_among (value_areas values.now) n)) }
{
    for value in values {
        note_literal(serials, value)?;
    }
    Ok(())
}

/// Appends the area of the value, if it is a literal and its area is not there.
fn note_literal(serials: &mut CountList, value: &Value) -> Result<(), NoMemory>
    ensures { OnOk result ((n : ℕ) → is_among serials.new n ≡ (is_among serials.old n || is_among (value_area value.now) n)) }
{
    match value {
        Value::Owned(_) => Ok(()),
        Value::Literal(literal) => note(serials, literal.area.serial),
    }
}

/// Whether the serial is one of these.
pub fn is_among(serials: &[u64], serial: u64) -> bool
    ensures { result ≡ is_among serials.now serial }
{
    serials.iter().any(|held| *held == serial)
}
