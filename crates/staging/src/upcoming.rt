//! What is published next, as the calls that publish are told it.

use export_table::ExportTable;
use literal_areas::Pools;
use server_core::{Change, Server};
use term_core::Next;

/// The generation of the state that a change leaves, over the blocks of these pools. Nothing is made of it: contracts see the generation.
#[derive(Drop)]
pub struct Upcoming<'a> {
    pub exports: &'a ExportTable,
    pub server: &'a Server,
    pub change: &'a Change,
    pub pools: &'a Pools,
}

impl<'a> Next for Upcoming<'a> {
    ghost use Rattle.server_core.specs.Decided.{change_made};
    ghost use Rattle.server_core.specs.Generations.{generation_of};
    ghost use Rattle.staging.specs.Upcoming.{areas_in};

    ghost next = { λ u. generation_of u.exports.now (change_made u.server.now u.change.now).state };

    ghost blocks = { λ u. areas_in u.pools.now };
}
