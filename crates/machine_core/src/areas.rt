ghost use Rattle.std.specs.Prelude.{◌≡◌, ◌==◌, ◌++◌, All, IfOk, OnOk};
ghost use Rattle.std.specs.List.{list_any};
ghost use Rattle.machine_core.specs.Holds.{is_among, serials_of, with_serial};
ghost use Rattle.machine_core.specs.Process.{area_holds, area_serials, code_names, value_area, value_areas};
ghost use Rattle.machine_core.specs.View.{AreValues, IsInBlock, IsValue, Shown};

use crate::process::{AreaList, Frame, Value};
use std::alloc::Global;
use term_core::{AreaRef, NoMemory};

/// The areas that a turn holds: instances for their frames, and areas for their literals.
#[derive(Debug, Drop)]
pub struct HeldAreas {
    pub frames: AreaList,
    pub literals: AreaList,
}

/// What the frames name, each area once for each kind.
pub fn areas_of(alloc: Global, frames: &[Frame]) -> Result<HeldAreas, NoMemory>
    ensures names { IfOk result (λ areas. area_holds areas ≡ code_names frames.now) }
    ensures stand { (shown : Shown) → AreValues shown frames.now → IfOk result (λ areas. All (IsInBlock shown) areas.literals) }
{
    let mut areas = HeldAreas {
        frames: AreaList::new(alloc),
        literals: AreaList::new(alloc),
    };
    for frame in frames {
        note(&mut areas.frames, frame.code.area)?;
        note_literals(&mut areas.literals, frame.registers.as_slice())?;
    }
    Ok(areas)
}

/// Appends the area, if it is not there.
pub fn note(areas: &mut AreaList, area: AreaRef) -> Result<(), NoMemory>
    ensures named { OnOk result (serials_of (area_serials areas.new) ≡ with_serial (serials_of (area_serials areas.old)) area.serial) }
    ensures stand { (shown : Shown) → All (IsInBlock shown) areas.old → IsInBlock shown area → OnOk result (All (IsInBlock shown) areas.new) }
{
    if has_area(areas.as_slice(), area) {
        return Ok(());
    }
    areas.push(area)
}

/// Appends the areas of the literals that are not there.
fn note_literals(areas: &mut AreaList, values: &[Value]) -> Result<(), NoMemory>
    ensures named { OnOk result (serials_of (area_serials areas.new) ≡ serials_of (area_serials areas.old ++ value_areas values.now)) }
    ensures stand { (shown : Shown) → All (IsInBlock shown) areas.old → All (IsValue shown) values.now → OnOk result (All (IsInBlock shown) areas.new) }
{
    for value in values {
        note_literal(areas, value)?;
    }
    Ok(())
}

/// Appends the area of the value, if it is a literal and its area is not there.
fn note_literal(areas: &mut AreaList, value: &Value) -> Result<(), NoMemory>
    ensures named { OnOk result (serials_of (area_serials areas.new) ≡ serials_of (area_serials areas.old ++ value_area value.now)) }
    ensures stand { (shown : Shown) → All (IsInBlock shown) areas.old → IsValue shown value.now → OnOk result (All (IsInBlock shown) areas.new) }
{
    match value {
        Value::Owned(_) => Ok(()),
        Value::Literal(literal) => note(areas, literal.area),
    }
}

/// Whether the area is one of these.
pub fn has_area(areas: &[AreaRef], area: AreaRef) -> bool
    ensures { result ≡ list_any (λ a. a.serial == area.serial) areas.now }
{
    areas.iter().any(|held| held.serial == area.serial)
}

/// Whether one of the frames runs code of the area.
pub fn is_entered(frames: &[Frame], area: AreaRef) -> bool
    ensures { result ≡ list_any (λ f. f.code.area.serial == area.serial) frames.now }
{
    frames
        .iter()
        .any(|frame| frame.code.area.serial == area.serial)
}

/// Whether a register of one of the frames has a literal of the area.
pub fn is_quoted(frames: &[Frame], area: AreaRef) -> bool
    ensures { result ≡ list_any (λ f. list_any (λ v. is_among (value_area v) area.serial) f.registers) frames.now }
{
    frames
        .iter()
        .any(|frame| has_literal(frame.registers.as_slice(), area))
}

/// Whether one of the values is a literal of the area.
fn has_literal(values: &[Value], area: AreaRef) -> bool
    ensures { result ≡ list_any (λ v. is_among (value_area v) area.serial) values.now }
{
    values.iter().any(|value| is_literal_of(value, area))
}

/// Whether the value is a literal of the area.
fn is_literal_of(value: &Value, area: AreaRef) -> bool
    ensures { result ≡ is_among (value_area value.now) area.serial }
{
    match value {
        Value::Owned(_) => false,
        Value::Literal(literal) => literal.area.serial == area.serial,
    }
}
