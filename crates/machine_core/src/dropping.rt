ghost use Rattle.std.specs.Prelude.{◌≡◌, ◌||◌, ℕ, IsTrue};
ghost use Rattle.machine_core.specs.HoldKinds.{held_for, holding};
ghost use Rattle.machine_core.specs.Holds.{is_among, serials_of};
ghost use Rattle.machine_core.specs.Process.{area_serials, code_names};
ghost use Rattle.machine_core.specs.View.{IsLawful};

use crate::areas::{has_area, is_entered, is_quoted};
use crate::process::{AreaList, Frame};
use crate::view::CodeView;
use term_core::{AreaRef, Kind};

/// Drops the holds of this kind whose areas none of the frames names, and empties the list of these areas.
pub fn drop_unnamed<V: CodeView>(frames: &[Frame], kind: Kind, view: &mut V, areas: &mut AreaList)
    requires lawful { IsLawful (V.shown view.old) }
    requires named { (serial : ℕ) → IsTrue (is_among (held_for (code_names frames.now) kind) serial) → IsTrue (is_among (held_for (V.held view.old) kind) serial) }
    requires tracked { held_for (V.held view.old) kind ≡ serials_of (area_serials areas.old) }
    ensures holds { V.held view.new ≡ holding (V.held view.old) kind (held_for (code_names frames.now) kind) }
    ensures same { V.shown view.new ≡ V.shown view.old }
{
    'areas: while let Some(area) = areas.pop() {
        if !is_still_named(frames, kind, areas.as_slice(), area) {
            view.drop_hold(area, kind);
        }
    }
}

/// Whether one of the frames names the area for this, or it is one of these areas.
fn is_still_named(frames: &[Frame], kind: Kind, areas: &[AreaRef], area: AreaRef) -> bool
    ensures { result ≡ (is_among (held_for (code_names frames.now) kind) area.serial || is_among (area_serials areas.now) area.serial) }
{
    is_named(frames, kind, area) || has_area(areas, area)
}

/// Whether one of the frames names the area for this.
fn is_named(frames: &[Frame], kind: Kind, area: AreaRef) -> bool
    ensures { result ≡ is_among (held_for (code_names frames.now) kind) area.serial }
{
    match kind {
        Kind::Frame => is_entered(frames, area),
        Kind::Literal => is_quoted(frames, area),
    }
}
