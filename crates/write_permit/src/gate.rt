/// A place in a run at which a gate is passed.
#[derive(Clone, Copy, Debug, PartialEq, Eq)]
pub enum Place {
    /// Just before a turn runs.
    TurnTaken,
    /// Just after a scheduler has reported.
    Reported,
    /// Just after an entry that publishes has joined the journal.
    Committed,
    /// Just after a release has joined the journal.
    Released,
}

/// What a run passes at certain places, so that a test can hold it there. It changes no value that the run sees.
pub trait Gate: Sync {
    /// Passes a place: `who` is the loader's number at `Committed`, and the scheduler's at every other place.
    fn at(&self, place: Place, who: u32);
}

/// A gate that returns at once.
#[derive(Clone, Copy, Debug, PartialEq, Eq)]
pub struct NoGate;

impl Gate for NoGate {
    fn at(&self, _place: Place, _who: u32) {}
}

/// Passes the gate once for each generation that a loader's command published: those behind the first number, up to the second.
pub fn pass<G: Gate>(gate: &G, who: u32, before: u64, after: u64) {
    for _ in before..after {
        gate.at(Place::Committed, who);
    }
}
