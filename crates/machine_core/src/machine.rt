ghost use Rattle.std.specs.Prelude.{◌≡◌, ◌∷◌, IfOk, OnOk};
ghost use Rattle.machine_core.specs.View.{AreValues, HasValues, IsLawful};
ghost use Rattle.machine_core.specs.Process.{area_holds, frame_of, frames_of, process_of};
ghost use Rattle.machine_core.specs.Turn.{MayTurn, TurnGives, begun, held_after, run_of};
ghost use Rattle.machine_core.specs.Stand.{AreReady, stand_after, stand_entered};

use crate::areas::{HeldAreas, areas_of};
use crate::calls::enter_target;
use crate::copying::copy_retired;
use crate::doom::doomed_serial;
use crate::frames::FrameList;
use crate::outcome::Outcome;
use crate::pause::pause;
use crate::process::{End, Frame, LineList, MOST_TURNS, Process, TURN_INSTRUCTIONS, TurnEnd};
use crate::step::step;
use crate::view::CodeView;
use std::alloc::Global;
use term_core::{Mfa, NoMemory, TermList};

/// One turn of the process under the generation that the view shows: at most 200 instructions.
///
/// Where a frame stands in doomed code the process is killed, and no instruction runs. Else its literals of retired
/// areas become terms of its own before the first instruction. The call of a traced function makes a line.
/// The lines that it makes are appended. Where the process goes on, the view holds what it then names; where it
/// ended, the view holds what it held then, which the caller drops. After `NoMemory` process and lines stand for
/// nothing and are only dropped.
/// Rule: Erlang/OTP erts internal documentation, CodeLoading, for calls; a turn sees one generation.
pub fn turn<V: CodeView>(
    alloc: Global,
    process: &mut Process,
    view: &mut V,
    lines: &mut LineList,
) -> Result<TurnEnd, NoMemory>
    requires lawful { IsLawful (V.shown view.old) }
    requires ready { MayTurn (V.shown view.old) (V.held view.old) process.old }
    ensures ok { IfOk result (λ end.
        TurnGives (V.shown view.old).reads (process_of (V.shown view.old).words process.old) (process_of (V.shown view.old).words process.new) lines.old lines.new end) }
    ensures held { IfOk result (λ _. V.held view.new ≡ held_after (V.shown view.old).reads (process_of (V.shown view.old).words process.old)) }
    ensures again { IfOk result (λ end. end ≡ TurnEnd.Again →
        MayTurn (V.shown view.old) (V.held view.new) process.new) }
    ensures same { V.shown view.new ≡ V.shown view.old }
{
    if process.turns == MOST_TURNS {
        process.frames.clear();
        return Ok(TurnEnd::Ended(End::SystemLimit));
    }
    process.turns += 1;
    if let Some(serial) = doomed_serial(process.frames.as_slice(), view) {
        process.frames.clear();
        return Ok(TurnEnd::Ended(End::Killed(serial)));
    }
    let mut areas = areas_of(alloc, process.frames.as_slice())?;
    copy_retired(alloc, &mut process.frames, view, &mut areas)?;
    let top = begin(
        alloc,
        process.target,
        &process.args,
        &mut process.frames,
        view,
        &mut areas,
        lines,
    )?;
    match top {
        Ok(top) => run(alloc, top, &mut process.frames, view, &mut areas, lines),
        Err(end) => {
            process.frames.clear();
            Ok(TurnEnd::Ended(end))
        }
    }
}

/// Takes out the topmost frame. Where there is none, the target is entered.
fn begin<V: CodeView>(
    alloc: Global,
    target: Mfa,
    args: &TermList,
    frames: &mut FrameList,
    view: &mut V,
    areas: &mut HeldAreas,
    lines: &mut LineList,
) -> Result<Result<Frame, End>, NoMemory>
    requires lawful { IsLawful (V.shown view.old) }
    requires tracked { V.held view.old ≡ area_holds areas.old }
    requires values { AreValues (V.shown view.old) frames.old }
    ensures ok { IfOk result (λ top.
        stand_after (V.held view.old) lines.old (begun (V.shown view.old).reads target args.now (V.held view.old) (frames_of (V.shown view.old).words frames.old))
        ≡ stand_entered (V.shown view.old).words top (frames_of (V.shown view.old).words frames.new) (V.held view.new) lines.new) }
    ensures top { IfOk result (λ top. IfOk top (HasValues (V.shown view.old))) }
    ensures values { OnOk result (AreValues (V.shown view.old) frames.new) }
    ensures tracked { OnOk result (V.held view.new ≡ area_holds areas.new) }
    ensures same { V.shown view.new ≡ V.shown view.old }
{
    match frames.pop() {
        Some(top) => Ok(Ok(top)),
        None => enter_target(alloc, target, args, view, areas, lines),
    }
}

/// Runs the instructions of a turn, the topmost frame taken out of the others.
fn run<V: CodeView>(
    alloc: Global,
    mut top: Frame,
    frames: &mut FrameList,
    view: &mut V,
    areas: &mut HeldAreas,
    lines: &mut LineList,
) -> Result<TurnEnd, NoMemory>
    requires lawful { IsLawful (V.shown view.old) }
    requires ready { AreReady (V.shown view.old) (V.held view.old) top frames.old }
    requires tracked { V.held view.old ≡ area_holds areas.old }
    ensures ok { IfOk result (λ end.
        run_of (V.shown view.old).reads TURN_INSTRUCTIONS (frame_of (V.shown view.old).words top ∷ frames_of (V.shown view.old).words frames.old) (V.held view.old) lines.old
        ≡ record { frames = frames_of (V.shown view.old).words frames.new; held = V.held view.new; made = lines.new; end = end }) }
    ensures values { IfOk result (λ _. AreValues (V.shown view.old) frames.new) }
    ensures same { V.shown view.new ≡ V.shown view.old }
{
    for _ in 0..TURN_INSTRUCTIONS {
        match step(alloc, &mut top, frames, view, areas, lines)? {
            Outcome::GoesOn => {}
            Outcome::Yields => return pause(top, frames, view, areas),
            Outcome::Ends(end) => {
                frames.clear();
                return Ok(TurnEnd::Ended(end));
            }
        }
    }
    pause(top, frames, view, areas)
}
