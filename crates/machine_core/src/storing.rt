ghost use Rattle.std.specs.Prelude.{◌≡◌, ◌+◌, ◌≤◌, ◌∷◌, List, IfOk, IfSome, OnOk, None, Some, false, if◌then◌else◌, option_map, slice_set, unwrap_or};
ghost use Rattle.machine_core.specs.Decode.{operand_shown};
ghost use Rattle.machine_core.specs.Process.{PlainFrame, area_holds, frame_of, value_shown, values_shown};
ghost use Rattle.machine_core.specs.Stand.{ComesTo, IsReadyFrame, IsSource, IsUsable, stand_after, stand_of, stored_found};
ghost use Rattle.machine_core.specs.Turn.{held_with, stored};
ghost use Rattle.machine_core.specs.Values.{element_of, operand_term, value_of};
ghost use Rattle.machine_core.specs.View.{HasValues, IsLawful};

use crate::areas::{HeldAreas, note};
use crate::elements::element;
use crate::op::{Op, Source};
use crate::outcome::Outcome;
use crate::process::{End, Frame, Line, Value};
use crate::sources::{key_value, term_in, value_of};
use crate::view::CodeView;
use std::alloc::Global;
use term_core::{AtomId, Kind, NoMemory};

/// How many words the instructions have that give a register a value.
const MOVE_LEN: u32 = 3;

const PGET_LEN: u32 = 3;

const PGET_OR_LEN: u32 = 4;

const ELEM_LEN: u32 = 4;

/// Holds the area of a value that comes into a register, if it is a literal. Answers whether it could be held.
pub fn keep<V: CodeView>(
    value: &Value,
    view: &mut V,
    areas: &mut HeldAreas,
) -> Result<bool, NoMemory>
    requires lawful { IsLawful (V.shown view.old) }
    requires usable { IsUsable (V.shown view.old) (V.held view.old) value.now }
    requires tracked { V.held view.old ≡ area_holds areas.old }
    ensures ok { IfOk result (λ kept. held_with (V.held view.old) (value_shown (V.shown view.old).words value.now)
        ≡ (if kept then Some (V.held view.new) else None)) }
    ensures refused { IfOk result (λ kept. kept ≡ false → V.held view.new ≡ V.held view.old) }
    ensures tracked { OnOk result (V.held view.new ≡ area_holds areas.new) }
    ensures same { V.shown view.new ≡ V.shown view.old }
{
    if let Value::Literal(literal) = value {
        if view.hold(literal.area, Kind::Literal).is_err() {
            return Ok(false);
        }
        note(&mut areas.literals, literal.area)?;
    }
    Ok(true)
}

/// Gives a register of the frame a value, whose area is held; the frame then stands past its instruction of so many words.
fn store<V: CodeView>(
    top: &mut Frame,
    len: u32,
    to: u32,
    value: Value,
    view: &mut V,
    areas: &mut HeldAreas,
) -> Result<Outcome, NoMemory>
    requires room { top.old.place + 1 ≤ 1024 }
    requires few { len ≤ 4 }
    requires lawful { IsLawful (V.shown view.old) }
    requires values { HasValues (V.shown view.old) top.old }
    requires usable { IsUsable (V.shown view.old) (V.held view.old) value }
    requires tracked { V.held view.old ≡ area_holds areas.old }
    ensures ok { (below : List PlainFrame) (made : List Line) → IfOk result (λ outcome.
        stand_after (V.held view.old) made (stored (record (frame_of (V.shown view.old).words top.old) { place = top.old.place + len; registers = slice_set (values_shown (V.shown view.old).words top.old.registers) to (value_shown (V.shown view.old).words value) })
        below (held_with (V.held view.old) (value_shown (V.shown view.old).words value)))
        ≡ stand_of outcome (frame_of (V.shown view.old).words top.new ∷ below) (V.held view.new) made) }
    ensures values { OnOk result (HasValues (V.shown view.old) top.new) }
    ensures tracked { OnOk result (V.held view.new ≡ area_holds areas.new) }
    ensures same { V.shown view.new ≡ V.shown view.old }
{
    if !keep(&value, view, areas)? {
        return Ok(Outcome::Ends(End::SystemLimit));
    }
    top.place += len;
    top.registers.set(to, value);
    Ok(Outcome::GoesOn)
}

/// The same of a value that was found; where there is none, the process ends.
fn store_found<V: CodeView>(
    top: &mut Frame,
    len: u32,
    to: u32,
    found: Option<Value>,
    view: &mut V,
    areas: &mut HeldAreas,
) -> Result<Outcome, NoMemory>
    requires room { top.old.place + 1 ≤ 1024 }
    requires few { len ≤ 4 }
    requires lawful { IsLawful (V.shown view.old) }
    requires values { HasValues (V.shown view.old) top.old }
    requires usable { IfSome found (IsUsable (V.shown view.old) (V.held view.old)) }
    requires tracked { V.held view.old ≡ area_holds areas.old }
    ensures ok { (below : List PlainFrame) (made : List Line) → IfOk result (λ outcome.
        stand_after (V.held view.old) made (stored_found (frame_of (V.shown view.old).words top.old) (top.old.place + len) to below (V.held view.old) (option_map (value_shown (V.shown view.old).words) found))
        ≡ stand_of outcome (frame_of (V.shown view.old).words top.new ∷ below) (V.held view.new) made) }
    ensures values { OnOk result (HasValues (V.shown view.old) top.new) }
    ensures tracked { OnOk result (V.held view.new ≡ area_holds areas.new) }
    ensures same { V.shown view.new ≡ V.shown view.old }
{
    match found {
        Some(value) => store(top, len, to, value, view, areas),
        None => Ok(Outcome::Ends(End::Badarg)),
    }
}

/// Runs `move`.
pub fn move_value<V: CodeView>(
    top: &mut Frame,
    from: &Source,
    to: u32,
    view: &mut V,
    areas: &mut HeldAreas,
) -> Result<Outcome, NoMemory>
    requires room { top.old.place + 1 ≤ 1024 }
    requires lawful { IsLawful (V.shown view.old) }
    requires ready { IsReadyFrame (V.shown view.old) (V.held view.old) top.old }
    requires values { HasValues (V.shown view.old) top.old }
    requires source { IsSource (V.shown view.old) top.old.code.area from.now }
    requires tracked { V.held view.old ≡ area_holds areas.old }
    ensures ok { IfOk result (λ outcome. ComesTo (V.shown view.old) (V.held view.old) top.old (Op.Move from.now to) outcome top.new (V.held view.new)) }
    ensures values { OnOk result (HasValues (V.shown view.old) top.new) }
    ensures tracked { OnOk result (V.held view.new ≡ area_holds areas.new) }
    ensures same { V.shown view.new ≡ V.shown view.old }
{
    let value = value_of(top, from)?;
    store(top, MOVE_LEN, to, value, view, areas)
}

/// Runs `pget`.
pub fn get_key<V: CodeView>(
    top: &mut Frame,
    key: AtomId,
    to: u32,
    view: &mut V,
    areas: &mut HeldAreas,
) -> Result<Outcome, NoMemory>
    requires room { top.old.place + 1 ≤ 1024 }
    requires lawful { IsLawful (V.shown view.old) }
    requires values { HasValues (V.shown view.old) top.old }
    requires tracked { V.held view.old ≡ area_holds areas.old }
    ensures ok { IfOk result (λ outcome. ComesTo (V.shown view.old) (V.held view.old) top.old (Op.Pget key to) outcome top.new (V.held view.new)) }
    ensures values { OnOk result (HasValues (V.shown view.old) top.new) }
    ensures tracked { OnOk result (V.held view.new ≡ area_holds areas.new) }
    ensures same { V.shown view.new ≡ V.shown view.old }
{
    let found = key_value(key, view);
    store_found(top, PGET_LEN, to, found, view, areas)
}

/// Runs `pget_or`.
pub fn get_key_or<V: CodeView>(
    top: &mut Frame,
    key: AtomId,
    other: &Source,
    to: u32,
    view: &mut V,
    areas: &mut HeldAreas,
) -> Result<Outcome, NoMemory>
    requires room { top.old.place + 1 ≤ 1024 }
    requires lawful { IsLawful (V.shown view.old) }
    requires ready { IsReadyFrame (V.shown view.old) (V.held view.old) top.old }
    requires values { HasValues (V.shown view.old) top.old }
    requires source { IsSource (V.shown view.old) top.old.code.area other.now }
    requires tracked { V.held view.old ≡ area_holds areas.old }
    ensures ok { IfOk result (λ outcome. ComesTo (V.shown view.old) (V.held view.old) top.old (Op.PgetOr key other.now to) outcome top.new (V.held view.new)) }
    ensures values { OnOk result (HasValues (V.shown view.old) top.new) }
    ensures tracked { OnOk result (V.held view.new ≡ area_holds areas.new) }
    ensures same { V.shown view.new ≡ V.shown view.old }
{
    let value = key_value_or(top, key, other, view)?;
    store(top, PGET_OR_LEN, to, value, view, areas)
}

/// What a key holds, or the other value where it holds none.
fn key_value_or<V: CodeView>(
    top: &Frame,
    key: AtomId,
    other: &Source,
    view: &mut V,
) -> Result<Value, NoMemory>
    requires lawful { IsLawful (V.shown view.old) }
    requires ready { IsReadyFrame (V.shown view.old) (V.held view.old) top.now }
    requires source { IsSource (V.shown view.old) top.now.code.area other.now }
    ensures value { IfOk result (λ value. value_shown (V.shown view.old).words value ≡ unwrap_or ((V.shown view.old).reads.key key.0)
        (value_of (frame_of (V.shown view.old).words top.now) (operand_shown ((V.shown view.old).words top.now.code.area.serial) other.now))) }
    ensures usable { IfOk result (IsUsable (V.shown view.old) (V.held view.old)) }
    ensures same { V.shown view.new ≡ V.shown view.old }
    ensures holds { V.held view.new ≡ V.held view.old }
{
    match key_value(key, view) {
        Some(value) => Ok(value),
        None => value_of(top, other),
    }
}

/// Runs `elem`.
pub fn get_element<V: CodeView>(
    alloc: Global,
    top: &mut Frame,
    index: &Source,
    from: &Source,
    to: u32,
    view: &mut V,
    areas: &mut HeldAreas,
) -> Result<Outcome, NoMemory>
    requires room { top.old.place + 1 ≤ 1024 }
    requires lawful { IsLawful (V.shown view.old) }
    requires ready { IsReadyFrame (V.shown view.old) (V.held view.old) top.old }
    requires values { HasValues (V.shown view.old) top.old }
    requires index { IsSource (V.shown view.old) top.old.code.area index.now }
    requires from { IsSource (V.shown view.old) top.old.code.area from.now }
    requires tracked { V.held view.old ≡ area_holds areas.old }
    ensures ok { IfOk result (λ outcome. ComesTo (V.shown view.old) (V.held view.old) top.old (Op.Elem index.now from.now to) outcome top.new (V.held view.new)) }
    ensures values { OnOk result (HasValues (V.shown view.old) top.new) }
    ensures tracked { OnOk result (V.held view.new ≡ area_holds areas.new) }
    ensures same { V.shown view.new ≡ V.shown view.old }
{
    let found = element_in(alloc, top, index, from, view)?;
    store_found(top, ELEM_LEN, to, found, view, areas)
}

/// The element of a source with the number that another one is, if there is one.
fn element_in<V: CodeView>(
    alloc: Global,
    top: &Frame,
    index: &Source,
    from: &Source,
    view: &mut V,
) -> Result<Option<Value>, NoMemory>
    requires lawful { IsLawful (V.shown view.old) }
    requires ready { IsReadyFrame (V.shown view.old) (V.held view.old) top.now }
    requires index { IsSource (V.shown view.old) top.now.code.area index.now }
    requires from { IsSource (V.shown view.old) top.now.code.area from.now }
    ensures value { IfOk result (λ found. option_map (value_shown (V.shown view.old).words) found ≡ element_of
        (operand_term (frame_of (V.shown view.old).words top.now) (operand_shown ((V.shown view.old).words top.now.code.area.serial) index.now))
        (value_of (frame_of (V.shown view.old).words top.now) (operand_shown ((V.shown view.old).words top.now.code.area.serial) from.now))) }
    ensures usable { IfOk result (λ found. IfSome found (IsUsable (V.shown view.old) (V.held view.old))) }
    ensures same { V.shown view.new ≡ V.shown view.old }
    ensures holds { V.held view.new ≡ V.held view.old }
{
    let number = term_in(alloc, top, index, view)?;
    let value = value_of(top, from)?;
    element(&number, value, view)
}
