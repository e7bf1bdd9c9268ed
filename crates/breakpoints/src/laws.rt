//! What keeps the breakpoint indices those of their writer besides the steps of a patch.

ghost use Rattle.breakpoints.specs.Laws.{ClearedLeaves, OthersKeepPatches, RestAtFirst, RootsKeepBreakpoints};

/// Stores that leave the decisions on functions that are called, loads of the counter, and the end of
/// areas.
pub fn others_keep_patches()
    ensures { OthersKeepPatches }
{}

/// The store of the root of a generation that is traced by the same index.
pub fn roots_keep_breakpoints()
    ensures { RootsKeepBreakpoints }
{}

/// The first step of the writer finds the indices at rest.
pub fn breakpoints_rest_at_first()
    ensures { RestAtFirst }
{}

/// Where the decisions on a block's functions are cleared, those on functions that are called are left.
pub fn cleared_blocks_leave_patches()
    ensures { ClearedLeaves }
{}
