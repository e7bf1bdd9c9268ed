ghost use Rattle.std.specs.Prelude.{◌≡◌, ◌∷◌, List, IfOk, OnOk};
ghost use Rattle.machine_core.specs.View.{AreValues, HasValues, IsLawful};
ghost use Rattle.machine_core.specs.Process.{area_holds, frame_of, frames_of};
ghost use Rattle.machine_core.specs.Turn.{paused};
ghost use Rattle.machine_core.specs.Stand.{AreHeld};

use crate::areas::HeldAreas;
use crate::dropping::drop_unnamed;
use crate::frames::FrameList;
use crate::process::{Frame, Line, TurnEnd};
use crate::view::CodeView;
use term_core::{Kind, NoMemory};

/// Ends a turn whose process goes on: the topmost frame comes back to the others, and just what they name stays held.
pub fn pause<V: CodeView>(
    top: Frame,
    frames: &mut FrameList,
    view: &mut V,
    areas: &mut HeldAreas,
) -> Result<TurnEnd, NoMemory>
    requires lawful { IsLawful (V.shown view.old) }
    requires named { AreHeld (V.held view.old) (frame_of (V.shown view.old).words top ∷ frames_of (V.shown view.old).words frames.old) }
    requires tracked { V.held view.old ≡ area_holds areas.old }
    requires top { HasValues (V.shown view.old) top }
    requires values { AreValues (V.shown view.old) frames.old }
    ensures ok { IfOk result (λ end. (made : List Line) →
        paused (frame_of (V.shown view.old).words top ∷ frames_of (V.shown view.old).words frames.old) made
        ≡ record { frames = frames_of (V.shown view.old).words frames.new; held = V.held view.new; made = made; end = end }) }
    ensures values { OnOk result (AreValues (V.shown view.old) frames.new) }
    ensures same { V.shown view.new ≡ V.shown view.old }
{
    frames.push(top)?;
    drop_unnamed(frames.as_slice(), Kind::Frame, view, &mut areas.frames);
    drop_unnamed(frames.as_slice(), Kind::Literal, view, &mut areas.literals);
    Ok(TurnEnd::Again)
}
