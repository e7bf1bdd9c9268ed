//! What holds of every change that is made.

ghost use Rattle.change_laws.specs.Breakpoints.{BreakpointsFollow, BreakpointsStay, CodeBeginsKnown, CodeStaysKnown, DecidedSetsInCode};
ghost use Rattle.change_laws.specs.Calls.{DeletedIsNotReached, DeletesLeaveOthers, LoadsAreReached, LoadsLeaveOthers, OthersLeaveCalls};
ghost use Rattle.change_laws.specs.Changes.{ChangesKeepSound, LoadsLeaveTheRest, SerialsAreGiven};
ghost use Rattle.change_laws.specs.Counts.{InstancesAreCounted, KeysBeginOnce, KeysStayOnce, TermsAreCounted};
ghost use Rattle.change_laws.specs.Images.{CodeComesIn, CodeStays, ImagesComeIn, ImagesStay};
ghost use Rattle.change_laws.specs.Names.{ChangesKeepNumbers, CommandsKeepNumbers};
ghost use Rattle.change_laws.specs.Releases.{DecidedStays};
ghost use Rattle.change_laws.specs.Uses.{CurrentStoodOrCame, DroppedIsRetired, IncomingIsUsed, OldIsNotCurrent, OldStood, ReleasedStays, RetiredIsNotForgotten, RetiredStood, UsedIsKnown, UsedIsNotDropped, UsedIsNotForgotten, UsedStoodOrCame};

/// A change that fits leaves a sound state sound, and gives the next serials to what comes in.
pub fn changes_keep_sound()
    ensures sound { ChangesKeepSound }
    ensures serials { SerialsAreGiven }
{}

/// Modules that come in leave all but code as it was.
pub fn loads_leave_the_rest()
    ensures { LoadsLeaveTheRest }
{}

/// Once modules came in, calls to them reach their exports; other calls reach what they reached.
///
/// Rule: the manual page `code`, on loading.
pub fn loads_are_reached()
    ensures loaded { LoadsAreReached }
    ensures others { LoadsLeaveOthers }
{}

/// Once a module was deleted, calls to it reach nothing; other calls reach what they reached.
///
/// Rule: the manual page `code`, on `delete`.
pub fn deletes_reach_nothing()
    ensures deleted { DeletedIsNotReached }
    ensures others { DeletesLeaveOthers }
{}

/// No other change alters what a call reaches.
pub fn calls_stay_but_for_loads_and_deletes()
    ensures { OthersLeaveCalls }
{}

/// No change but one of breakpoints, or one that drops code, alters which functions have a breakpoint.
///
/// Rule: Erlang/OTP erts internal documentation, Tracing.
pub fn breakpoints_stay()
    ensures { BreakpointsStay }
{}

/// A function has a breakpoint as was asked where one is set or cleared, none once its code was dropped, and else
/// as before.
///
/// Rule: Erlang/OTP erts internal documentation, Tracing.
pub fn breakpoints_follow()
    ensures { BreakpointsFollow }
{}

/// Each breakpoint is in current or old code, and each instance that is neither was dropped: so it is in the
/// beginning, and after each change, where breakpoints are set in current code, as those are of commands.
pub fn no_code_is_forgotten()
    ensures begin { CodeBeginsKnown }
    ensures stays { CodeStaysKnown }
    ensures decided { DecidedSetsInCode }
{}

/// What is current, old, used or retired after a change was in use before, or came in with it.
pub fn used_areas_stood_or_came()
    ensures current { CurrentStoodOrCame }
    ensures old { OldStood }
    ensures used { UsedStoodOrCame }
    ensures retired { RetiredStood }
{}

/// What was in use stays so or is retired, what was retired stays so or is released, and what comes in is in use.
pub fn no_area_is_forgotten()
    ensures used { UsedIsNotForgotten }
    ensures retired { RetiredIsNotForgotten }
    ensures incoming { IncomingIsUsed }
{}

/// A change that releases none retires just what it drops: the old code that a purge ends, and the area of what a
/// key held.
///
/// Rule: erts internal documentation, CodeLoading, and the manual page `persistent_term`.
pub fn dropped_areas_are_retired()
    ensures retired { DroppedIsRetired }
    ensures released { ReleasedStays }
{}

/// In a sound state what is used came in, and was not dropped; and nothing is both current and old.
pub fn used_areas_are_known()
    ensures known { UsedIsKnown }
    ensures dropped { UsedIsNotDropped }
    ensures apart { OldIsNotCurrent }
{}

/// How many instances are live and how many terms have areas follows from what comes in and what is dropped.
pub fn areas_are_counted()
    ensures instances { InstancesAreCounted }
    ensures begin { KeysBeginOnce }
    ensures once { KeysStayOnce }
    ensures terms { TermsAreCounted }
{}

/// Areas keep their modules and their words, and what comes in has its own.
pub fn images_stay()
    ensures stay { ImagesStay }
    ensures incoming { ImagesComeIn }
    ensures code { CodeStays }
    ensures modules { CodeComesIn }
{}

/// A decided command keeps its case of the command table while areas are released.
pub fn decided_commands_stay()
    ensures { DecidedStays }
{}

/// Where names have numbers for what the texts export, they have them for whatever is reached.
pub fn changes_keep_numbers()
    ensures changes { ChangesKeepNumbers }
    ensures commands { CommandsKeepNumbers }
{}
