//! The area of what a key holds, before a change gives it up.

ghost use Rattle.std.specs.Prelude.{◌≡◌, ℕ, MatchOption, None, Some};
ghost use Rattle.progress_words.specs.Tokens.{written_by};
ghost use Rattle.server_core.specs.ServerState.{key_area};
ghost use Rattle.literal_areas.specs.declared.blocks.BlockUse.TheVariants.{Live};
ghost use Rattle.literal_areas.specs.Blocks.{IsSound, use_of};
ghost use Rattle.staging.specs.Replaced.{FormerRetired, IsFormerArea, IsLiveThere};
ghost use Rattle.staging.specs.Whose.{AreTablesOf};

use crate::tables::Tables;
use code_index::stores_keep_index;
use code_law::{CodeLaw, Naming};
use literal_areas::Pools;
use server_core::{Found, Server};
use shared_words::Shared;
use term_core::{AreaRef, AtomId};
use term_table::stores_keep_tables;

/// The area of what the key holds now, if that has one.
fn former_area(pools: &Pools, server: &Server, key: AtomId) -> Option<AreaRef>
    requires sound { IsSound pools.now }
    requires stand { (serial : ℕ) → key_area server.now key.0 ≡ Some serial → (block : ℕ) × (use_of pools.now block ≡ Some (Live serial)) }
    ensures { MatchOption result (key_area server.now key.0 ≡ None) (IsFormerArea server.now key.0 pools.now) }
{
    match server.term(key) {
        Found::Area(held) => pools.find(held.serial),
        _ => None,
    }
}

/// Retires the area of what the key holds now, if that has one.
pub fn retire_former<K: Naming>(
    tables: &mut Tables,
    shared: &Shared<CodeLaw<K>>,
    server: &Server,
    key: AtomId,
)
    requires tables { AreTablesOf shared.now.table.shared.table_id shared.now.table.shared.key tables.old }
    requires live { (serial : ℕ) → key_area server.now key.0 ≡ Some serial → IsLiveThere serial tables.old.pools (written_by tables.old.writer) }
    ensures tables { AreTablesOf shared.now.table.shared.table_id shared.now.table.shared.key tables.new }
    ensures exports { tables.new.exports ≡ tables.old.exports }
    ensures index { tables.new.index ≡ tables.old.index }
    ensures terms { tables.new.terms ≡ tables.old.terms }
    ensures patch { tables.new.patch ≡ tables.old.patch }
    ensures retired { FormerRetired (key_area server.now key.0) tables.old.pools (written_by tables.old.writer) tables.new.pools (written_by tables.new.writer) }
{
    stores_keep_index();
    stores_keep_tables();
    if let Some(former) = former_area(&tables.pools, server, key) {
        tables.pools.retire(shared, &mut tables.writer, former);
    }
}
