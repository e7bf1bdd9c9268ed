ghost use Rattle.std.specs.Prelude.{◌≡◌, All, IfOk, OnOk, map};
ghost use Rattle.std.specs.List.{list_any};
ghost use Rattle.machine_core.specs.Holds.{serials_of};
ghost use Rattle.machine_core.specs.Process.{area_holds, area_serials, frame_names, frames_of, value_shown, values_shown};
ghost use Rattle.machine_core.specs.Stand.{AreHeld, IsValueHeld};
ghost use Rattle.machine_core.specs.Turn.{copied, copied_value};
ghost use Rattle.machine_core.specs.View.{AreValues, IsInBlock, IsLawful, IsValue};

use crate::areas::{HeldAreas, areas_of};
use crate::dropping::drop_unnamed;
use crate::frames::FrameList;
use crate::literals::term_of;
use crate::process::Value;
use crate::registers::ValueList;
use crate::view::CodeView;
use std::alloc::Global;
use term_core::{AreaRef, Kind, NoMemory};

/// Makes each literal of a retired area a term of the process's own. Such an area is then held for literals no more.
///
/// Where no retired area is held for literals, the frames are not looked at.
pub fn copy_retired<V: CodeView>(
    alloc: Global,
    frames: &mut FrameList,
    view: &mut V,
    areas: &mut HeldAreas,
) -> Result<(), NoMemory>
    requires lawful { IsLawful (V.shown view.old) }
    requires names { V.held view.old ≡ frame_names (frames_of (V.shown view.old).words frames.old) }
    requires tracked { V.held view.old ≡ area_holds areas.old }
    requires stand { All (IsInBlock (V.shown view.old)) areas.old.literals }
    requires values { AreValues (V.shown view.old) frames.old }
    ensures copied { OnOk result (frames_of (V.shown view.old).words frames.new
        ≡ copied (V.shown view.old).reads (frames_of (V.shown view.old).words frames.old)) }
    ensures names { OnOk result (V.held view.new
        ≡ frame_names (copied (V.shown view.old).reads (frames_of (V.shown view.old).words frames.old))) }
    ensures tracked { OnOk result (V.held view.new ≡ area_holds areas.new) }
    ensures values { OnOk result (AreValues (V.shown view.old) frames.new) }
    ensures same { V.shown view.new ≡ V.shown view.old }
{
    if !is_one_retired(areas.literals.as_slice(), view) {
        return Ok(());
    }
    copy_frames(alloc, frames, view)?;
    drop_unnamed(frames.as_slice(), Kind::Literal, view, &mut areas.literals);
    *areas = areas_of(alloc, frames.as_slice())?;
    Ok(())
}

/// Whether one of the areas, which are those held for literals, is retired.
fn is_one_retired<V: CodeView>(areas: &[AreaRef], view: &mut V) -> bool
    requires lawful { IsLawful (V.shown view.old) }
    requires tracked { (V.held view.old).literals ≡ serials_of (area_serials areas.now) }
    requires stand { All (IsInBlock (V.shown view.old)) areas.now }
    ensures value { result ≡ list_any (λ a. (V.shown view.old).reads.retired a.serial) areas.now }
    ensures same { V.shown view.new ≡ V.shown view.old }
    ensures holds { V.held view.new ≡ V.held view.old }
{
    for area in areas {
        if view.retired(*area) {
            return true;
        }
    }
    false
}

/// Copies the literals of retired areas in each frame, the topmost first.
fn copy_frames<V: CodeView>(
    alloc: Global,
    frames: &mut FrameList,
    view: &mut V,
) -> Result<(), NoMemory>
    requires lawful { IsLawful (V.shown view.old) }
    requires named { AreHeld (V.held view.old) (frames_of (V.shown view.old).words frames.old) }
    requires values { AreValues (V.shown view.old) frames.old }
    ensures copied { OnOk result (frames_of (V.shown view.old).words frames.new
        ≡ copied (V.shown view.old).reads (frames_of (V.shown view.old).words frames.old)) }
    ensures values { OnOk result (AreValues (V.shown view.old) frames.new) }
    ensures same { V.shown view.new ≡ V.shown view.old }
    ensures holds { V.held view.new ≡ V.held view.old }
{
    if let Some(mut frame) = frames.pop() {
        frame.registers = copied_registers(alloc, &frame.registers, view)?;
        copy_frames(alloc, frames, view)?;
        frames.push(frame)?;
    }
    Ok(())
}

/// The registers, their literals of retired areas copied.
fn copied_registers<V: CodeView>(
    alloc: Global,
    registers: &ValueList,
    view: &mut V,
) -> Result<ValueList, NoMemory>
    requires lawful { IsLawful (V.shown view.old) }
    requires named { All (IsValueHeld (V.held view.old)) (values_shown (V.shown view.old).words registers.now) }
    requires values { All (IsValue (V.shown view.old)) registers.now }
    ensures copied { IfOk result (λ copies. values_shown (V.shown view.old).words copies
        ≡ map (copied_value (V.shown view.old).reads) (values_shown (V.shown view.old).words registers.now)) }
    ensures values { IfOk result (λ copies. All (IsValue (V.shown view.old)) copies) }
    ensures same { V.shown view.new ≡ V.shown view.old }
    ensures holds { V.held view.new ≡ V.held view.old }
{
    let mut copies = Vec::new(alloc);
    for value in registers.as_slice() {
        copies.push(copied_value(alloc, value, view)?)?;
    }
    Ok(ValueList::from_vec(copies))
}

/// The value, copied if it is a literal of a retired area.
fn copied_value<V: CodeView>(alloc: Global, value: &Value, view: &mut V) -> Result<Value, NoMemory>
    requires lawful { IsLawful (V.shown view.old) }
    requires named { IsValueHeld (V.held view.old) (value_shown (V.shown view.old).words value.now) }
    requires is { IsValue (V.shown view.old) value.now }
    ensures copied { IfOk result (λ copy. value_shown (V.shown view.old).words copy
        ≡ copied_value (V.shown view.old).reads (value_shown (V.shown view.old).words value.now)) }
    ensures is { IfOk result (λ copy. IsValue (V.shown view.old) copy) }
    ensures same { V.shown view.new ≡ V.shown view.old }
    ensures holds { V.held view.new ≡ V.held view.old }
{
    let copy = value.clone()?;
    if let Value::Literal(literal) = value
        && view.retired(literal.area)
    {
        return Ok(Value::Owned(term_of(alloc, copy, view)?));
    }
    Ok(copy)
}
