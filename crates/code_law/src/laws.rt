//! What holds of generations of the code server.

ghost use Rattle.code_law.specs.Laws.{ServedAreLawful, ServedCodeIsKnown, ServedTurnsAgree};

/// A view of a generation that is served is lawful, whatever the blocks of its areas are.
pub fn served_generations_are_lawful()
    ensures { ServedAreLawful }
{}

/// A turn by a generation that is served is the turn under a sound state of the server, for every process that
/// stands at places of the generation.
///
/// Rule: Erlang/OTP erts internal documentation, CodeLoading; a turn sees one generation.
pub fn turns_by_served_generations_agree()
    ensures { ServedTurnsAgree }
{}

/// A generation that is served traces no function of an area that was dropped, and each of its areas with functions
/// that was not dropped is current or old code.
///
/// Rule: Erlang/OTP erts internal documentation, Tracing.
pub fn served_code_is_known()
    ensures { ServedCodeIsKnown }
{}
