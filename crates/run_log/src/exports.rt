//! What a state of the code server exports, and what an observer sees of it.

mod functions;
mod order;
mod snapshot;

ghost use Rattle.std.specs.Prelude.{◌≡◌, ℕ, List};
ghost use Rattle.term_core.specs.declared.atom.Mfa.{Mfa};
ghost use Rattle.server_core.specs.ServerState.{ServerState};
ghost use Rattle.run_log.specs.Snapshots.{AreExports};

pub use functions::{MfaList, exported_functions};
pub use snapshot::{exports_of, snapshot_of};

/// A state has one list of exports: what an observer saw of a generation is known from the journal.
pub fn exports_are_one()
    ensures { (names : List (List ℕ)) (s : ServerState) (exports others : List (Mfa × ℕ)) → AreExports names s exports → AreExports names s others → exports ≡ others }
{}
