ghost use Rattle.std.specs.Prelude.{◌≡◌};
ghost use Rattle.machine_core.specs.View.{AreValues, IsLawful};
ghost use Rattle.machine_core.specs.Process.{frames_of};
ghost use Rattle.machine_core.specs.Turn.{doomed_serial};
ghost use Rattle.machine_core.specs.Stand.{AreHeld};

use crate::process::Frame;
use crate::view::CodeView;

/// The serial of the topmost frame whose instance is doomed, if there is one.
pub fn doomed_serial<V: CodeView>(frames: &[Frame], view: &mut V) -> Option<u64>
    requires lawful { IsLawful (V.shown view.old) }
    requires named { AreHeld (V.held view.old) (frames_of (V.shown view.old).words frames.now) }
    requires values { AreValues (V.shown view.old) frames.now }
    ensures value { result ≡ doomed_serial (V.shown view.old).reads (frames_of (V.shown view.old).words frames.now) }
    ensures same { V.shown view.new ≡ V.shown view.old }
    ensures holds { V.held view.new ≡ V.held view.old }
{
    let mut found = None;
    for frame in frames {
        if view.doomed(frame.code.area) {
            found = Some(frame.code.area.serial);
        }
    }
    found
}
