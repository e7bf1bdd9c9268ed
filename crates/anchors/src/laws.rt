//! What holds of what a writer knows, over all of its steps.

ghost use Rattle.anchors.specs.Scans.{WriterGoesOn};

/// The writer forgets no wait, no generation and no look by any of its steps, so a look that was clear
/// stays so.
pub fn writers_go_on()
    ensures { WriterGoesOn }
{}
