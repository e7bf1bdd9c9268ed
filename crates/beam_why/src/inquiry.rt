use crate::expected::Expected;
use crate::replay::Replay;
use crate::sightings::Sightings;
use std::alloc::Global;
use term_core::NoMemory;

/// What finds out where a log breaks a clause, and what was expected there. Who asks for it owns it, and lends it to each part.
#[derive(Drop)]
pub struct Inquiry {
    pub replay: Replay,
    pub seen: Sightings,
    pub expected: Expected,
}

impl Inquiry {
    /// Nothing was found out yet.
    pub fn new(alloc: Global) -> Result<Inquiry, NoMemory> {
        let replay = Replay::new(alloc)?;
        Ok(Inquiry {
            replay,
            seen: Sightings::new(alloc),
            expected: Expected::new(alloc),
        })
    }
}
