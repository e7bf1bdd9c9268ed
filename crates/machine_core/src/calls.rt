ghost use Rattle.std.specs.Prelude.{◌≡◌, ◌+◌, ◌++◌, ◌∷◌, ◌≤◌, [], All, IfOk, IfSome, OnOk, is_some, if◌then◌else◌, option_map};
ghost use Rattle.server_core.specs.ServerState.{entry_of};
ghost use Rattle.machine_core.specs.Holds.{with_hold};
ghost use Rattle.machine_core.specs.View.{AreValues, HasValues, IsInBlock, IsLawful};
ghost use Rattle.machine_core.specs.Process.{Words, area_holds, arguments_at, frame_of, frames_of, owned_values, values_shown};
ghost use Rattle.machine_core.specs.Turn.{called, called_out, entered, trace_of};
ghost use Rattle.machine_core.specs.Stand.{IsUsable, stand_after, stand_entered, stand_of};
ghost use Rattle.machine_core.specs.Reads.{HasFunction};
ghost use Rattle.machine_core.specs.Reach.{MayHold};

use crate::areas::{HeldAreas, note};
use crate::frames::FrameList;
use crate::literals::terms_of;
use crate::outcome::Outcome;
use crate::process::{End, Frame, Line, LineList, MOST_FRAMES};
use crate::registers::ValueList;
use crate::view::CodeView;
use std::alloc::Global;
use std::mem;
use term_core::{CodeRef, Kind, Mfa, NoMemory, TermList};

/// How many words a call has.
const CALL_LEN: u32 = 3;

/// A call of a function by its name: its arguments stand in the registers from `at` on, and its value comes into `at`.
#[derive(Clone, Copy)]
pub struct Callee {
    pub code: CodeRef,
    pub to: Mfa,
    pub at: u32,
}

/// The frame of a function that is entered where so many frames stand, its area held for it.
///
/// Nothing comes where no more frames may stand or no more areas be held, and then nothing changes.
pub fn enter<V: CodeView>(
    code: CodeRef,
    back: u32,
    registers: ValueList,
    standing: usize,
    view: &mut V,
    areas: &mut HeldAreas,
) -> Result<Option<Frame>, NoMemory>
    // the code is that of a function of an instance that may be held for a frame
    requires lawful { IsLawful (V.shown view.old) }
    requires stands { IsInBlock (V.shown view.old) code.area }
    requires known { HasFunction (V.shown view.old).reads (entry_of code) }
    requires reached { MayHold (V.shown view.old).reads (V.held view.old) code.area.serial Kind.Frame }
    // the areas are those that the view holds
    requires tracked { V.held view.old ≡ area_holds areas.old }
    // the frame, or none where a limit is met
    ensures ok { (words : Words) → IfOk result (λ f. option_map (frame_of words) f
        ≡ entered (V.shown view.old).reads standing (V.held view.old) (entry_of code) back (values_shown words registers)) }
    ensures registers { IfOk result (λ f. IfSome f (λ f. f.registers ≡ registers)) }
    ensures code { IfOk result (λ f. IfSome f (λ f. f.code ≡ code)) }
    // its area is then held for it too
    ensures holds { IfOk result (λ f. V.held view.new
        ≡ (if is_some f then with_hold (V.held view.old) code.area.serial Kind.Frame else V.held view.old)) }
    ensures tracked { OnOk result (V.held view.new ≡ area_holds areas.new) }
    // the view shows what it showed
    ensures same { V.shown view.new ≡ V.shown view.old }
{
    if standing >= MOST_FRAMES || view.hold(code.area, Kind::Frame).is_err() {
        return Ok(None);
    }
    note(&mut areas.frames, code.area)?;
    Ok(Some(Frame {
        code,
        place: view.entry(code),
        back,
        registers,
    }))
}

/// Calls a function: its frame stands on the caller's, which stands past the call.
pub fn call<V: CodeView>(
    alloc: Global,
    top: &mut Frame,
    below: &mut FrameList,
    callee: Callee,
    view: &mut V,
    areas: &mut HeldAreas,
    lines: &mut LineList,
) -> Result<Outcome, NoMemory>
    // the caller stands at its instruction
    requires room { top.old.place + 1 ≤ 1024 }
    // the callee is a function of an instance that may be held for a frame
    requires lawful { IsLawful (V.shown view.old) }
    requires stands { IsInBlock (V.shown view.old) callee.code.area }
    requires known { HasFunction (V.shown view.old).reads (entry_of callee.code) }
    requires reached { MayHold (V.shown view.old).reads (V.held view.old) callee.code.area.serial Kind.Frame }
    // the areas are those that the view holds
    requires tracked { V.held view.old ≡ area_holds areas.old }
    // each frame's code and literals stand in their blocks, and the caller's literals may be read
    requires usable { All (IsUsable (V.shown view.old) (V.held view.old)) top.old.registers }
    requires values { HasValues (V.shown view.old) top.old }
    requires below { AreValues (V.shown view.old) below.old }
    // the frames and lines that a call makes, or the end that it comes to
    ensures ok { IfOk result (λ outcome.
        stand_after (V.held view.old) lines.old
        (called (V.shown view.old).reads (record (frame_of (V.shown view.old).words top.old) { place = top.old.place + 3 } ∷ frames_of (V.shown view.old).words below.old) (V.held view.old)
        (entry_of callee.code) callee.to callee.at (arguments_at (values_shown (V.shown view.old).words top.old.registers) callee.at callee.to.arity))
        ≡ stand_of outcome (frame_of (V.shown view.old).words top.new ∷ frames_of (V.shown view.old).words below.new) (V.held view.new) lines.new) }
    // each frame's code and literals still do
    ensures values { OnOk result (HasValues (V.shown view.old) top.new) }
    ensures below { OnOk result (AreValues (V.shown view.old) below.new) }
    // the areas are those that the view then holds, and it shows what it showed
    ensures tracked { OnOk result (V.held view.new ≡ area_holds areas.new) }
    ensures same { V.shown view.new ≡ V.shown view.old }
{
    let others = below.spare_registers(alloc)?;
    let registers = top.registers.passed(others, callee.at, callee.to.arity)?;
    let standing = below.as_slice().len() + 1;
    top.place += CALL_LEN;
    match enter(callee.code, callee.at, registers, standing, view, areas)? {
        None => Ok(Outcome::Ends(End::SystemLimit)),
        Some(frame) => {
            trace_call(alloc, &callee, &top.registers, view, lines)?;
            let caller = mem::replace(top, frame);
            below.push(caller)?;
            Ok(Outcome::GoesOn)
        }
    }
}

/// The line of a call of a traced function, whose arguments stand in the caller's registers.
fn trace_call<V: CodeView>(
    alloc: Global,
    callee: &Callee,
    registers: &ValueList,
    view: &mut V,
    lines: &mut LineList,
) -> Result<(), NoMemory>
    requires lawful { IsLawful (V.shown view.old) }
    requires stands { IsInBlock (V.shown view.old) callee.now.code.area }
    requires known { HasFunction (V.shown view.old).reads (entry_of callee.now.code) }
    requires reached { MayHold (V.shown view.old).reads (V.held view.old) callee.now.code.area.serial Kind.Frame }
    requires usable { All (IsUsable (V.shown view.old) (V.held view.old)) registers.now }
    ensures ok { OnOk result (lines.new ≡ lines.old
        ++ trace_of (V.shown view.old).reads (entry_of callee.now.code) callee.now.to (arguments_at (values_shown (V.shown view.old).words registers.now) callee.now.at callee.now.to.arity)) }
    ensures same { V.shown view.new ≡ V.shown view.old }
    ensures holds { V.held view.new ≡ V.held view.old }
{
    if view.decision(callee.code) {
        let args = terms_of(alloc, registers.arguments(callee.at, callee.to.arity), view)?;
        let to = callee.to;
        lines.push(Line::Trace { to, args })?;
    }
    Ok(())
}

/// The first frame of a process, which enters its target as an external call does; or how the process ends.
pub fn enter_target<V: CodeView>(
    alloc: Global,
    target: Mfa,
    args: &TermList,
    view: &mut V,
    areas: &mut HeldAreas,
    lines: &mut LineList,
) -> Result<Result<Frame, End>, NoMemory>
    requires lawful { IsLawful (V.shown view.old) }
    requires tracked { V.held view.old ≡ area_holds areas.old }
    ensures ok { IfOk result (λ first.
        stand_after (V.held view.old) lines.old (called_out (V.shown view.old).reads [] (V.held view.old) target 0 (owned_values args.now))
        ≡ stand_entered (V.shown view.old).words first [] (V.held view.new) lines.new) }
    ensures values { IfOk result (λ first. IfOk first (HasValues (V.shown view.old))) }
    ensures tracked { OnOk result (V.held view.new ≡ area_holds areas.new) }
    ensures same { V.shown view.new ≡ V.shown view.old }
{
    let Some(code) = view.export(target) else {
        return Ok(Err(End::Undef(target)));
    };
    let registers = ValueList::entered(alloc, args)?;
    match enter(code, 0, registers, 0, view, areas)? {
        None => Ok(Err(End::SystemLimit)),
        Some(frame) => {
            trace_target(alloc, code, target, args, view, lines)?;
            Ok(Ok(frame))
        }
    }
}

/// The line of a traced function that a process enters as its target.
fn trace_target<V: CodeView>(
    alloc: Global,
    code: CodeRef,
    target: Mfa,
    args: &TermList,
    view: &mut V,
    lines: &mut LineList,
) -> Result<(), NoMemory>
    requires lawful { IsLawful (V.shown view.old) }
    requires stands { IsInBlock (V.shown view.old) code.area }
    requires known { HasFunction (V.shown view.old).reads (entry_of code) }
    requires reached { MayHold (V.shown view.old).reads (V.held view.old) code.area.serial Kind.Frame }
    ensures ok { OnOk result (lines.new ≡ lines.old
        ++ trace_of (V.shown view.old).reads (entry_of code) target (owned_values args.now)) }
    ensures same { V.shown view.new ≡ V.shown view.old }
    ensures holds { V.held view.new ≡ V.held view.old }
{
    if view.decision(code) {
        let args = args.copy(alloc)?;
        lines.push(Line::Trace { to: target, args })?;
    }
    Ok(())
}
