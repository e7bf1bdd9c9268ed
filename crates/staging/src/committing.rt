//! What is staged is published by one store of the root.

ghost use Rattle.std.specs.Prelude.{◌≡◌, ◌<◌, ◌^◌, length, IfErr, IfOk};
ghost use Rattle.progress_words.specs.Tokens.{written_by};
ghost use Rattle.server_core.specs.Decided.{Fits, change_made};
ghost use Rattle.server_core.specs.Generations.{AreNumbered};
ghost use Rattle.staging.specs.Stages.{HasPublished, HaveExported, IsLateFor, Waits};
ghost use Rattle.staging.specs.Whose.{AreTablesOf, KeepsKnown};
ghost use Rattle.staging.specs.declared.stage.Stage.TheVariants as stages;

use crate::tables::Tables;
use crate::upcoming::Upcoming;
use code_law::{CodeLaw, Naming};
use progress_words::NotYet;
use server_core::{Change, Server};
use shared_words::Shared;
use term_core::AreaRef;
use term_table::roots_keep_tables;

/// Publishes the exports that are staged once no thread reads the index in which they stand.
///
/// Source: Erlang/OTP erts internal documentation, CodeLoading and ThreadProgress.
pub fn commit_exports<K: Naming>(
    tables: &mut Tables,
    shared: &Shared<CodeLaw<K>>,
    server: &Server,
    change: &Change,
    areas: &Vec<AreaRef>,
) -> Result<u64, NotYet>
    // the exports of what the change brings in are staged, by the run's names
    requires tables { AreTablesOf shared.now.table.shared.table_id shared.now.table.shared.key tables.old }
    requires names { tables.old.exports ≡ K.names }
    requires fits { Fits server.now change.now }
    requires exported { HaveExported K.names server.now change.now tables.old areas.now.items }
    // each name has a number, and there is one for a generation more
    requires numbered { AreNumbered K.names (change_made server.now change.now).state }
    requires room { length (written_by tables.old.writer).published < 2 ^ 40 }
    // whose tables they are stays
    ensures tables { AreTablesOf shared.now.table.shared.table_id shared.now.table.shared.key tables.new }
    ensures names { tables.new.exports ≡ K.names }
    // the state that the change leaves is published, or a thread is waited for; the writer keeps what it knew
    ensures published { IfOk result (λ generation. HasPublished K.names (change_made server.now change.now).state tables.old tables.new generation) }
    ensures waits { IfErr result (λ answer. Waits K.names server.now change.now tables.old tables.new (stages.Exported areas.now) (IsLateFor change.now tables.old tables.new answer)) }
    ensures known { KeepsKnown (written_by tables.old.writer) (written_by tables.new.writer) }
{
    roots_keep_tables();
    let _generation = server.generation();
    let next = Upcoming {
        exports: &tables.exports,
        server,
        change,
        pools: &tables.pools,
    };
    tables.index.commit(shared, &mut tables.writer, &next)
}
