//! Exports are staged: what each name reaches once a change is made.

ghost use Rattle.std.specs.Prelude.{◌≡◌, ◌<◌, length, slice_get, None, Option, Some};
ghost use Rattle.term_core.specs.declared.area.CodeRef.{CodeRef};
ghost use Rattle.term_core.specs.declared.atom.Mfa.{Mfa};
ghost use Rattle.area_core.specs.declared.map.TheConstants.{EXPORT_ENTRIES};
ghost use Rattle.area_core.specs.declared.table.Published.{Published};
ghost use Rattle.progress_words.specs.Roots.{newest_of};
ghost use Rattle.progress_words.specs.Tokens.{written_by};
ghost use Rattle.mod_core.specs.Module.{IsModule};
ghost use Rattle.server_core.specs.Decided.{Fits};
ghost use Rattle.server_core.specs.ServerState.{IsSound};
ghost use Rattle.area_core.specs.Map.{block_place};
ghost use Rattle.shared_words.specs.Publishing.{with_word};
ghost use Rattle.code_index.specs.Exports.{ExportsWith, code_word};
ghost use Rattle.code_index.specs.Staging.{IsStaged, Stages, block_of};
ghost use Rattle.code_index.specs.declared.index.Staging.TheVariants as indices;
ghost use Rattle.staging.specs.Exported.{AreExported, FitsSome, export_in, reached_after};
ghost use Rattle.change_laws.specs.Changes.{incoming};
ghost use Rattle.staging.specs.Stages.{HavePlaced};
ghost use Rattle.staging.specs.Whose.{AreTablesOf, KeepsKnown, StoresExports};

use crate::tables::Tables;
use change_laws::{calls_stay_but_for_loads_and_deletes, deletes_reach_nothing, loads_are_reached};
use code_index::exports_that_stay_are_staged;
use code_law::{CodeLaw, Naming};
use literal_areas::stores_keep_pools;
use mod_core::Module;
use server_core::{Change, Server, export_of};
use shared_words::{Served, Shared};
use term_core::{AreaRef, CodeRef, Mfa};
use term_table::{stores_keep_tables, writes_keep_tables};

/// How many words a code index has.
const EXPORT_WORDS: u32 = 1024;

/// The function that a module exports under a name, in the area of its instance.
fn export_in(code: &Module, area: AreaRef, to: Mfa) -> Option<CodeRef>
    requires { IsModule code.now }
    ensures { result ≡ export_in to code.now area }
{
    let function = export_of(code, to)? as u32;
    Some(CodeRef { area, function })
}

/// What a name reaches once the change is made, if the change is about its module.
fn reached_after(change: &Change, taken: &[AreaRef], to: Mfa) -> Option<Option<CodeRef>>
    requires fits { FitsSome change.now }
    requires whole { length taken.now ≡ length (incoming change.now) }
    ensures { result ≡ reached_after change.now taken.now to }
{
    match change {
        Change::BringIn { modules, .. } => {
            for back in 0..modules.len() {
                let place = modules.len() - 1 - back;
                let code = modules[place].code();
                if code.name.0 == to.module.0 {
                    return Some(export_in(code, taken[place], to));
                }
            }
            None
        }
        Change::MakeOld { module, .. } => {
            if module.0 == to.module.0 {
                Some(None)
            } else {
                None
            }
        }
        _ => None,
    }
}

/// Stages what all names reach once the change is made. What comes in has its areas.
///
/// Source: Erlang/OTP erts internal documentation, CodeLoading.
pub fn stage_exports<K: Naming>(
    tables: &mut Tables,
    shared: &Shared<CodeLaw<K>>,
    server: &Server,
    change: &Change,
    taken: &[AreaRef],
)
    // the tables are those of this table of words, by the run's names
    requires tables { AreTablesOf shared.now.table.shared.table_id shared.now.table.shared.key tables.old }
    requires names { tables.old.exports ≡ K.names }
    // the change fits the server, all that it brings in has areas, and no exports are staged
    requires fits { Fits server.now change.now }
    requires placed { HavePlaced K.names server.now change.now tables.old taken.now }
    requires whole { length taken.now ≡ length (incoming change.now) }
    requires nothing { tables.old.index ≡ indices.Nothing }
    // whose tables they are stays, and so do the areas
    ensures tables { AreTablesOf shared.now.table.shared.table_id shared.now.table.shared.key tables.new }
    ensures names { tables.new.exports ≡ K.names }
    ensures placed { HavePlaced K.names server.now change.now tables.new taken.now }
    // the exports are staged, and nothing is published
    ensures exported { AreExported K.names server.now change.now tables.new }
    ensures published { (written_by tables.new.writer).published ≡ (written_by tables.old.writer).published }
    ensures known { KeepsKnown (written_by tables.old.writer) (written_by tables.new.writer) }
{
    is_sound(server);
    loads_are_reached();
    deletes_reach_nothing();
    calls_stay_but_for_loads_and_deletes();
    exports_that_stay_are_staged();
    start_exports(tables, shared);
    for number in 0..EXPORT_WORDS {
        stage_name(tables, shared, change, taken, number);
    }
}

/// The state of a server is sound.
fn is_sound(server: &Server)
    ensures { IsSound server.now }
{
    let _ = server.generation();
}

/// Begins to stage exports: each name is led to what the newest generation leads it to.
fn start_exports<N: Served>(tables: &mut Tables, shared: &Shared<N>)
    requires tables { AreTablesOf shared.now.table.shared.table_id shared.now.table.shared.key tables.old }
    requires nothing { tables.old.index ≡ indices.Nothing }
    // whose tables they are stays, and all but the index
    ensures tables { AreTablesOf shared.now.table.shared.table_id shared.now.table.shared.key tables.new }
    ensures exports { tables.new.exports ≡ tables.old.exports }
    ensures terms { tables.new.terms ≡ tables.old.terms }
    ensures pools { tables.new.pools ≡ tables.old.pools }
    ensures patch { tables.new.patch ≡ tables.old.patch }
    // the exports of the newest generation are staged
    ensures begun { IsStaged tables.new.index }
    ensures stored { StoresExports (written_by tables.old.writer) (written_by tables.new.writer) }
    ensures staged { Stages tables.new.index (newest_of (written_by tables.old.writer)) (written_by tables.new.writer) }
{
    writes_keep_tables();
    tables.index.start(shared, &mut tables.writer);
}

/// Stages what the name of this number reaches.
fn set_name<N: Served>(tables: &mut Tables, shared: &Shared<N>, number: u32, to: Option<CodeRef>)
    // exports are staged, and the name has an entry
    requires tables { AreTablesOf shared.now.table.shared.table_id shared.now.table.shared.key tables.old }
    requires staged { IsStaged tables.old.index }
    requires number { number < EXPORT_ENTRIES }
    // whose tables they are stays, and all but the words
    ensures tables { AreTablesOf shared.now.table.shared.table_id shared.now.table.shared.key tables.new }
    ensures exports { tables.new.exports ≡ tables.old.exports }
    ensures index { tables.new.index ≡ tables.old.index }
    ensures terms { tables.new.terms ≡ tables.old.terms }
    ensures pools { tables.new.pools ≡ tables.old.pools }
    ensures patch { tables.new.patch ≡ tables.old.patch }
    // the entry is stored: what is staged has it
    ensures stored { written_by tables.new.writer ≡ with_word (block_place (block_of tables.old.index) number) (code_word to) (written_by tables.old.writer) }
    ensures leads { (p q : Published) → Stages tables.old.index p (written_by tables.old.writer) → ExportsWith number to p q → Stages tables.new.index q (written_by tables.new.writer) }
{
    stores_keep_tables();
    stores_keep_pools();
    tables.index.set(shared, &mut tables.writer, number, to);
}

/// Stages what the name of this number reaches once the change is made, if the change is about its module.
fn stage_name<K: Naming>(
    tables: &mut Tables,
    shared: &Shared<CodeLaw<K>>,
    change: &Change,
    taken: &[AreaRef],
    number: u32,
)
    // the tables are those of this table of words, and exports are being staged
    requires tables { AreTablesOf shared.now.table.shared.table_id shared.now.table.shared.key tables.old }
    requires fits { FitsSome change.now }
    requires whole { length taken.now ≡ length (incoming change.now) }
    requires staged { IsStaged tables.old.index }
    requires number { number < EXPORT_ENTRIES }
    // the tables are as they were, but for words of code indices
    ensures tables { AreTablesOf shared.now.table.shared.table_id shared.now.table.shared.key tables.new }
    ensures exports { tables.new.exports ≡ tables.old.exports }
    ensures index { tables.new.index ≡ tables.old.index }
    ensures terms { tables.new.terms ≡ tables.old.terms }
    ensures pools { tables.new.pools ≡ tables.old.pools }
    ensures patch { tables.new.patch ≡ tables.old.patch }
    ensures stored { StoresExports (written_by tables.old.writer) (written_by tables.new.writer) }
    // the name is led to what it reaches then, or is left as it is
    ensures changed { (to : Mfa) (reached : Option CodeRef) → slice_get tables.old.exports number ≡ Some to → reached_after change.now taken.now to ≡ Some reached → (p q : Published) → Stages tables.old.index p (written_by tables.old.writer) → ExportsWith number reached p q → Stages tables.new.index q (written_by tables.new.writer) }
    ensures other { ((to : Mfa) → slice_get tables.old.exports number ≡ Some to → reached_after change.now taken.now to ≡ None) → written_by tables.new.writer ≡ written_by tables.old.writer }
{
    if let Some(to) = tables.exports.name(number) {
        if let Some(reached) = reached_after(change, taken, to) {
            set_name(tables, shared, number, reached);
        }
    }
}
