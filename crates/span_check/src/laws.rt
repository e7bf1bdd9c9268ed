ghost use Rattle.std.specs.Prelude.{◌≡◌, ◌↔◌, ◌+◌, ℕ, false, length, IfSome};
ghost use Rattle.server_core.specs.ServerState.{ServerState};
ghost use Rattle.machine_core.specs.Process.{Words, process_of};
ghost use Rattle.machine_core.specs.View.{server_words};
ghost use Rattle.machine_core.specs.LaterStates.{HasAreas};
ghost use Rattle.run_log.specs.declared.logs.ProcessLog.{ProcessLog as Log};
ghost use Rattle.run_log.specs.Legal.{NamesNot, SpansFollow, StandsNotIn, last_up_to};
ghost use Rattle.span_check.specs.declared.standing.Standing.{Standing};
ghost use Rattle.span_check.specs.Standings.{IsReached, IsReady, StandsAt, first_of, marks_in_log};

/// The process of a standing that was judged up to a generation is the one that the last turn up to it left.
///
/// So what the clauses on all turns of a process ask of that turn can be asked of the standing. The law has no code; its
/// clauses are the lemmas `stands_not` and `names_not` of proofs/StandingLaws.
pub fn standings_are_last()
    ensures stands { (states : ℕ → ServerState) (words : Words) (number : ℕ) (log : Log) (standing : Standing) (g : ℕ) → IsReached (g + 1) log standing → StandsAt states words number log standing → (serial : ℕ)
        → IfSome (last_up_to g (marks_in_log states number log)) (λ m. StandsNotIn serial m.process) ↔ StandsNotIn serial (process_of words standing.process) }
    ensures names { (states : ℕ → ServerState) (words : Words) (number : ℕ) (log : Log) (standing : Standing) (g : ℕ) → IsReached (g + 1) log standing → StandsAt states words number log standing → (serial : ℕ)
        → IfSome (last_up_to g (marks_in_log states number log)) (λ m. NamesNot serial m.process) ↔ NamesNot serial (process_of words standing.process) }
{}

/// A standing holds under a later state of the server that keeps the areas, and a process that goes on may go on there.
///
/// The lemmas are `stands_later` and `ready_later` of proofs/StandingLaws.
pub fn standings_stay()
    ensures stands { (older newer : ServerState) (states : ℕ → ServerState) (number : ℕ) (log : Log) (standing : Standing) → HasAreas older newer → IsReady older standing → StandsAt states (server_words older) number log standing → StandsAt states (server_words newer) number log standing }
    ensures ready { (older newer : ServerState) (standing : Standing) → HasAreas older newer → IsReady older standing → IsReady newer standing }
{}

/// A process that goes on when all its spans are gone did not end as its log tells.
///
/// The lemma is `goes_not_over` of proofs/StandingLaws.
pub fn standings_end()
    ensures { (states : ℕ → ServerState) (words : Words) (number : ℕ) (log : Log) (standing : Standing) → standing.ended ≡ false → standing.gone ≡ length log.spans → StandsAt states words number log standing → SpansFollow states (first_of number log) log.spans log.fin → ⊥ }
{}
