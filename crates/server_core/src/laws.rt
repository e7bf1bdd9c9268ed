//! What holds of every decided change.

ghost use Rattle.server_core.specs.Decided.{StayFit};

/// While a change waits, areas may be released: every change but a release still fits then.
pub fn changes_wait_for_releases()
    ensures { StayFit }
{}
