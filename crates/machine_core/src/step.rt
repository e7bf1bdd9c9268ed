ghost use Rattle.std.specs.Prelude.{◌≡◌, ◌+◌, ◌≤◌, ◌∷◌, List, IfOk, OnOk, slice_set};
ghost use Rattle.machine_core.specs.Decode.{instr_shown};
ghost use Rattle.machine_core.specs.View.{AreValues, HasValues, IsLawful};
ghost use Rattle.machine_core.specs.Process.{PlainFrame, area_holds, frame_of, frames_of, value_shown, values_shown};
ghost use Rattle.machine_core.specs.Turn.{executed, held_with, step_of, stored};
ghost use Rattle.machine_core.specs.Stand.{AreReady, HasCallee, HasSources, IsReadyFrame, IsSource, IsUsable, stand_after, stand_of};

use crate::areas::HeldAreas;
use crate::called_name::mfa_of;
use crate::calls::{Callee, call};
use crate::computing::{add, print, subtract, test_equal, test_less};
use crate::fetch::fetch;
use crate::frames::FrameList;
use crate::op::{Op, Source};
use crate::outcome::Outcome;
use crate::process::{End, Frame, Line, LineList, Value};
use crate::sources::value_of;
use crate::storing::{get_element, get_key, get_key_or, keep, move_value};
use crate::view::CodeView;
use std::alloc::Global;
use std::mem;
use term_core::{CodeRef, Mfa, NoMemory};

/// How many words `yield` has.
const YIELD_LEN: u32 = 1;

/// Runs the next instruction of the topmost frame.
pub fn step<V: CodeView>(
    alloc: Global,
    top: &mut Frame,
    below: &mut FrameList,
    view: &mut V,
    areas: &mut HeldAreas,
    lines: &mut LineList,
) -> Result<Outcome, NoMemory>
    requires lawful { IsLawful (V.shown view.old) }
    requires ready { AreReady (V.shown view.old) (V.held view.old) top.old below.old }
    requires tracked { V.held view.old ≡ area_holds areas.old }
    ensures ok { IfOk result (λ outcome.
        stand_after (V.held view.old) lines.old (step_of (V.shown view.old).reads (frame_of (V.shown view.old).words top.old ∷ frames_of (V.shown view.old).words below.old) (V.held view.old))
        ≡ stand_of outcome (frame_of (V.shown view.old).words top.new ∷ frames_of (V.shown view.old).words below.new) (V.held view.new) lines.new) }
    ensures values { OnOk result (HasValues (V.shown view.old) top.new) }
    ensures below { OnOk result (AreValues (V.shown view.old) below.new) }
    ensures tracked { OnOk result (V.held view.new ≡ area_holds areas.new) }
    ensures same { V.shown view.new ≡ V.shown view.old }
{
    let op = fetch(top, view);
    execute(alloc, top, below, &op, view, areas, lines)
}

/// Runs an instruction.
fn execute<V: CodeView>(
    alloc: Global,
    top: &mut Frame,
    below: &mut FrameList,
    op: &Op,
    view: &mut V,
    areas: &mut HeldAreas,
    lines: &mut LineList,
) -> Result<Outcome, NoMemory>
    // the topmost frame stands at a word of an image
    requires room { top.old.place + 1 ≤ 1024 }
    // the view is lawful, what the topmost frame names is held, and all that the frames refer to stands in its block
    requires lawful { IsLawful (V.shown view.old) }
    requires ready { IsReadyFrame (V.shown view.old) (V.held view.old) top.old }
    requires values { HasValues (V.shown view.old) top.old }
    requires below { AreValues (V.shown view.old) below.old }
    // what the instruction reads and what it calls is there; the areas kept beside the frames are those that are held
    requires sources { HasSources (V.shown view.old) top.old.code.area op.now }
    requires tracked { V.held view.old ≡ area_holds areas.old }
    requires callee { HasCallee (V.shown view.old).reads (frame_of (V.shown view.old).words top.old) (instr_shown ((V.shown view.old).words top.old.code.area.serial) op.now) }
    // process, holds and lines are what the definition of the instruction says
    ensures ok { IfOk result (λ outcome.
        stand_after (V.held view.old) lines.old (executed (V.shown view.old).reads (frame_of (V.shown view.old).words top.old) (frames_of (V.shown view.old).words below.old) (V.held view.old)
        (instr_shown ((V.shown view.old).words top.old.code.area.serial) op.now))
        ≡ stand_of outcome (frame_of (V.shown view.old).words top.new ∷ frames_of (V.shown view.old).words below.new) (V.held view.new) lines.new) }
    // all that the frames refer to stands in its block still, and the areas kept beside them are those that are held
    ensures values { OnOk result (HasValues (V.shown view.old) top.new) }
    ensures below { OnOk result (AreValues (V.shown view.old) below.new) }
    ensures tracked { OnOk result (V.held view.new ≡ area_holds areas.new) }
    // the view shows what it showed
    ensures same { V.shown view.new ≡ V.shown view.old }
{
    match op {
        Op::Move { from, to } => move_value(top, from, *to, view, areas),
        Op::Add { a, b, to } => add(alloc, top, a, b, *to, view),
        Op::Sub { a, b, to } => subtract(alloc, top, a, b, *to, view),
        Op::Eq { a, b, target } => test_equal(alloc, top, a, b, *target, view),
        Op::Less { a, b, target } => test_less(alloc, top, a, b, *target, view),
        Op::Jump { target } => {
            top.place = *target;
            Ok(Outcome::GoesOn)
        }
        Op::Call { function, at } => {
            call_within(alloc, top, below, *function, *at, view, areas, lines)
        }
        Op::CallExt { to, at } => call_out(alloc, top, below, *to, *at, view, areas, lines),
        Op::Ret { value } => leave(top, below, value, view, areas),
        Op::Pget { key, to } => get_key(top, *key, *to, view, areas),
        Op::PgetOr { key, other, to } => get_key_or(top, *key, other, *to, view, areas),
        Op::Elem { index, from, to } => get_element(alloc, top, index, from, *to, view, areas),
        Op::Print { value } => print(alloc, top, value, view, lines),
        Op::Yield => {
            top.place += YIELD_LEN;
            Ok(Outcome::Yields)
        }
    }
}

/// Runs `call`: it stays in the frame's own instance.
fn call_within<V: CodeView>(
    alloc: Global,
    top: &mut Frame,
    below: &mut FrameList,
    function: u32,
    at: u32,
    view: &mut V,
    areas: &mut HeldAreas,
    lines: &mut LineList,
) -> Result<Outcome, NoMemory>
    requires room { top.old.place + 1 ≤ 1024 }
    // the view is lawful, what the topmost frame names is held, and all that the frames refer to stands in its block
    requires lawful { IsLawful (V.shown view.old) }
    requires ready { IsReadyFrame (V.shown view.old) (V.held view.old) top.old }
    requires values { HasValues (V.shown view.old) top.old }
    requires below { AreValues (V.shown view.old) below.old }
    // what is called is there; the areas kept beside the frames are those that are held
    requires tracked { V.held view.old ≡ area_holds areas.old }
    requires callee { HasCallee (V.shown view.old).reads (frame_of (V.shown view.old).words top.old) (instr_shown ((V.shown view.old).words top.old.code.area.serial) (Op.Call function at)) }
    // process, holds and lines are what the definition of the instruction says
    ensures ok { IfOk result (λ outcome.
        stand_after (V.held view.old) lines.old (executed (V.shown view.old).reads (frame_of (V.shown view.old).words top.old) (frames_of (V.shown view.old).words below.old) (V.held view.old)
        (instr_shown ((V.shown view.old).words top.old.code.area.serial) (Op.Call function at)))
        ≡ stand_of outcome (frame_of (V.shown view.old).words top.new ∷ frames_of (V.shown view.old).words below.new) (V.held view.new) lines.new) }
    // all that the frames refer to stands in its block still, and the areas kept beside them are those that are held
    ensures values { OnOk result (HasValues (V.shown view.old) top.new) }
    ensures below { OnOk result (AreValues (V.shown view.old) below.new) }
    ensures tracked { OnOk result (V.held view.new ≡ area_holds areas.new) }
    ensures same { V.shown view.new ≡ V.shown view.old }
{
    let area = top.code.area;
    let code = CodeRef { area, function };
    let to = mfa_of(code, view);
    call(
        alloc,
        top,
        below,
        Callee { code, to, at },
        view,
        areas,
        lines,
    )
}

/// Runs `call_ext`: it reaches what the current instance exports.
fn call_out<V: CodeView>(
    alloc: Global,
    top: &mut Frame,
    below: &mut FrameList,
    to: Mfa,
    at: u32,
    view: &mut V,
    areas: &mut HeldAreas,
    lines: &mut LineList,
) -> Result<Outcome, NoMemory>
    requires room { top.old.place + 1 ≤ 1024 }
    // the view is lawful, what the topmost frame names is held, and all that the frames refer to stands in its block
    requires lawful { IsLawful (V.shown view.old) }
    requires ready { IsReadyFrame (V.shown view.old) (V.held view.old) top.old }
    requires values { HasValues (V.shown view.old) top.old }
    requires below { AreValues (V.shown view.old) below.old }
    // the areas kept beside the frames are those that are held
    requires tracked { V.held view.old ≡ area_holds areas.old }
    // process, holds and lines are what the definition of the instruction says
    ensures ok { IfOk result (λ outcome.
        stand_after (V.held view.old) lines.old (executed (V.shown view.old).reads (frame_of (V.shown view.old).words top.old) (frames_of (V.shown view.old).words below.old) (V.held view.old)
        (instr_shown ((V.shown view.old).words top.old.code.area.serial) (Op.CallExt to at)))
        ≡ stand_of outcome (frame_of (V.shown view.old).words top.new ∷ frames_of (V.shown view.old).words below.new) (V.held view.new) lines.new) }
    // all that the frames refer to stands in its block still, and the areas kept beside them are those that are held
    ensures values { OnOk result (HasValues (V.shown view.old) top.new) }
    ensures below { OnOk result (AreValues (V.shown view.old) below.new) }
    ensures tracked { OnOk result (V.held view.new ≡ area_holds areas.new) }
    ensures same { V.shown view.new ≡ V.shown view.old }
{
    let Some(code) = view.export(to) else {
        return Ok(Outcome::Ends(End::Undef(to)));
    };
    call(
        alloc,
        top,
        below,
        Callee { code, to, at },
        view,
        areas,
        lines,
    )
}

/// Leaves the topmost frame with a value. Where it was the last one, the process ends.
fn leave<V: CodeView>(
    top: &mut Frame,
    below: &mut FrameList,
    value: &Source,
    view: &mut V,
    areas: &mut HeldAreas,
) -> Result<Outcome, NoMemory>
    // the view is lawful, what the topmost frame names is held, and all that the frames refer to stands in its block
    requires lawful { IsLawful (V.shown view.old) }
    requires ready { IsReadyFrame (V.shown view.old) (V.held view.old) top.old }
    requires values { HasValues (V.shown view.old) top.old }
    requires below { AreValues (V.shown view.old) below.old }
    // the value is there; the areas kept beside the frames are those that are held
    requires source { IsSource (V.shown view.old) top.old.code.area value.now }
    requires tracked { V.held view.old ≡ area_holds areas.old }
    // process, holds and lines are what the definition of the instruction says
    ensures ok { (made : List Line) → IfOk result (λ outcome.
        stand_after (V.held view.old) made (executed (V.shown view.old).reads (frame_of (V.shown view.old).words top.old) (frames_of (V.shown view.old).words below.old) (V.held view.old)
        (instr_shown ((V.shown view.old).words top.old.code.area.serial) (Op.Ret value.now)))
        ≡ stand_of outcome (frame_of (V.shown view.old).words top.new ∷ frames_of (V.shown view.old).words below.new) (V.held view.new) made) }
    // all that the frames refer to stands in its block still, and the areas kept beside them are those that are held
    ensures values { OnOk result (HasValues (V.shown view.old) top.new) }
    ensures below { OnOk result (AreValues (V.shown view.old) below.new) }
    ensures tracked { OnOk result (V.held view.new ≡ area_holds areas.new) }
    ensures same { V.shown view.new ≡ V.shown view.old }
{
    let value = value_of(top, value)?;
    match below.pop() {
        None => Ok(Outcome::Ends(End::Normal)),
        Some(caller) => return_to(caller, top, below, value, view, areas),
    }
}

/// Gives the caller the value, and makes its frame the topmost. The registers of the frame that is left stay beside the frames.
fn return_to<V: CodeView>(
    mut caller: Frame,
    top: &mut Frame,
    frames: &mut FrameList,
    value: Value,
    view: &mut V,
    areas: &mut HeldAreas,
) -> Result<Outcome, NoMemory>
    requires lawful { IsLawful (V.shown view.old) }
    requires usable { IsUsable (V.shown view.old) (V.held view.old) value }
    requires values { HasValues (V.shown view.old) top.old }
    requires caller { HasValues (V.shown view.old) caller }
    requires tracked { V.held view.old ≡ area_holds areas.old }
    ensures frames { frames.new ≡ frames.old }
    ensures ok { (below : List PlainFrame) (made : List Line) → IfOk result (λ outcome.
        stand_after (V.held view.old) made (stored (record (frame_of (V.shown view.old).words caller) { registers = slice_set (values_shown (V.shown view.old).words caller.registers) top.old.back (value_shown (V.shown view.old).words value) })
        below (held_with (V.held view.old) (value_shown (V.shown view.old).words value)))
        ≡ stand_of outcome (frame_of (V.shown view.old).words top.new ∷ below) (V.held view.new) made) }
    ensures values { OnOk result (HasValues (V.shown view.old) top.new) }
    ensures tracked { OnOk result (V.held view.new ≡ area_holds areas.new) }
    ensures same { V.shown view.new ≡ V.shown view.old }
{
    if !keep(&value, view, areas)? {
        return Ok(Outcome::Ends(End::SystemLimit));
    }
    caller.registers.set(top.back, value);
    let Frame { registers, .. } = mem::replace(top, caller);
    frames.keep_registers(registers);
    Ok(Outcome::GoesOn)
}
