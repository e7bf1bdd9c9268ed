//! Changes that leave calls and keys: the next generation is published over the blocks of the newest one.

ghost use Rattle.std.specs.Prelude.{◌≡◌, ℕ, ◌<◌, ◌^◌, length, IfSome, IsSomeAnd, Some};
ghost use Rattle.term_core.specs.declared.area.AreaRef.{AreaRef};
ghost use Rattle.area_core.specs.declared.map.TheConstants.{BIG_BLOCKS};
ghost use Rattle.area_core.specs.Step.{to_publish};
ghost use Rattle.marks.specs.declared.kept.LookKind.TheVariants.{Frame};
ghost use Rattle.shared_words.specs.Drops.{AgreesWithLooks, drop_of, with_drop};
ghost use Rattle.shared_words.specs.Publishing.{MayPublish, with_next};
ghost use Rattle.shared_words.specs.Slots.{IsClear};
ghost use Rattle.progress_words.specs.Tokens.{IsWriterOf, written_by};
ghost use Rattle.server_core.specs.Decided.{Fits, change_made};
ghost use Rattle.literal_areas.specs.declared.blocks.BlockUse.TheVariants.{Live};
ghost use Rattle.literal_areas.specs.Blocks.{IsLive, IsSound, use_of};
ghost use Rattle.literal_areas.specs.Written.{IsUndoomed};
ghost use Rattle.staging.specs.Renewed.{AreAnnounced, HasDoomed, IsClearOf, IsDropOf, IsRenewal, IsSameButWords, KeepsDrop, renewed, with_drop_of};
ghost use Rattle.staging.specs.Replaced.{HasRetired, IsLiveThere};
ghost use Rattle.staging.specs.Stages.{AreAtRest, HasPublished};
ghost use Rattle.staging.specs.Whose.{AreTablesOf, KeepsWaits};

use crate::tables::Tables;
use crate::upcoming::Upcoming;
use code_index::{exports_that_stay_are_staged, roots_keep_index, stores_keep_index};
use code_law::{CodeLaw, Naming};
use literal_areas::Pools;
use progress_words::{RootParts, newest_root};
use server_core::{Change, Server};
use shared_words::{Next as Picked, Served, Shared, Writer};
use std::marker::Brand;
use term_core::{AreaRef, Next};
use term_table::{roots_keep_tables, stores_keep_tables};

/// Publishes what was picked, over these blocks.
fn publish_over<N: Served, M: Next, K: Picked>(
    shared: &Shared<N>,
    writer: &mut Writer,
    _next: &M,
    root: RootParts,
)
    requires token { IsWriterOf shared.now.table.shared.table_id shared.now.table.shared.key writer.old }
    requires picked { K.next ≡ to_publish root.code root.bp root.term (M.next _next.now) (M.blocks _next.now) }
    requires may { MayPublish N.served (written_by writer.old) K.next }
    requires room { length (written_by writer.old).published < 2 ^ 40 }
    ensures token { IsWriterOf shared.now.table.shared.table_id shared.now.table.shared.key writer.new }
    ensures published { written_by writer.new ≡ with_next K.next (written_by writer.old) }
{
    shared.store_root::<K>(writer, root.code, root.bp, root.term);
}

/// Publishes the next generation over the blocks of the newest one, and answers its number.
fn publish_again<N: Served, M: Next>(shared: &Shared<N>, writer: &mut Writer, next: &M) -> u64
    requires token { IsWriterOf shared.now.table.shared.table_id shared.now.table.shared.key writer.old }
    requires next { MayPublish N.served (written_by writer.old) (renewed (written_by writer.old) (M.next next.now) (M.blocks next.now)) }
    requires room { length (written_by writer.old).published < 2 ^ 40 }
    ensures token { IsWriterOf shared.now.table.shared.table_id shared.now.table.shared.key writer.new }
    ensures published { written_by writer.new ≡ with_next (renewed (written_by writer.old) (M.next next.now) (M.blocks next.now)) (written_by writer.old) }
    ensures number { result ≡ length (written_by writer.old).published }
{
    let root = newest_root(shared, writer);
    publish_over::<N, M, Brand>(shared, writer, next, root);
    root.generation + 1
}

/// Publishes what was picked, over these blocks, and keeps that an instance was dropped by it.
fn publish_over_dropping<N: Served, M: Next, K: Picked>(
    shared: &Shared<N>,
    writer: &mut Writer,
    _next: &M,
    root: RootParts,
    area: AreaRef,
)
    requires token { IsWriterOf shared.now.table.shared.table_id shared.now.table.shared.key writer.old }
    requires picked { K.next ≡ to_publish root.code root.bp root.term (M.next _next.now) (M.blocks _next.now) }
    requires may { MayPublish N.served (written_by writer.old) K.next }
    requires clear { IsClear (written_by writer.old) Frame area.serial }
    requires room { length (written_by writer.old).published < 2 ^ 40 }
    ensures token { IsWriterOf shared.now.table.shared.table_id shared.now.table.shared.key writer.new }
    ensures published { written_by writer.new ≡ with_drop (drop_of (written_by writer.old) Frame area.serial) (with_next K.next (written_by writer.old)) }
    ensures agree { AgreesWithLooks (written_by writer.old).looks (drop_of (written_by writer.old) Frame area.serial) }
{
    shared.store_root_dropping::<K>(writer, root.code, root.bp, root.term, area);
}

/// Publishes the next generation as `publish_again` does, and keeps that an instance was dropped by it.
fn publish_dropping<N: Served, M: Next>(
    shared: &Shared<N>,
    writer: &mut Writer,
    next: &M,
    area: AreaRef,
) -> u64
    requires token { IsWriterOf shared.now.table.shared.table_id shared.now.table.shared.key writer.old }
    requires next { MayPublish N.served (written_by writer.old) (renewed (written_by writer.old) (M.next next.now) (M.blocks next.now)) }
    requires clear { IsClear (written_by writer.old) Frame area.serial }
    requires room { length (written_by writer.old).published < 2 ^ 40 }
    ensures token { IsWriterOf shared.now.table.shared.table_id shared.now.table.shared.key writer.new }
    ensures published { written_by writer.new ≡ with_drop (drop_of (written_by writer.old) Frame area.serial) (with_next (renewed (written_by writer.old) (M.next next.now) (M.blocks next.now)) (written_by writer.old)) }
    ensures agree { AgreesWithLooks (written_by writer.old).looks (drop_of (written_by writer.old) Frame area.serial) }
    ensures number { result ≡ length (written_by writer.old).published }
{
    let root = newest_root(shared, writer);
    publish_over_dropping::<N, M, Brand>(shared, writer, next, root, area);
    root.generation + 1
}

/// Publishes the next generation over the blocks of the newest one, and keeps the drop if an instance is dropped by it.
fn publish_next<N: Served, M: Next>(
    shared: &Shared<N>,
    writer: &mut Writer,
    next: &M,
    dropped: Option<AreaRef>,
) -> u64
    requires token { IsWriterOf shared.now.table.shared.table_id shared.now.table.shared.key writer.old }
    requires next { MayPublish N.served (written_by writer.old) (renewed (written_by writer.old) (M.next next.now) (M.blocks next.now)) }
    requires clear { IfSome dropped (λ area. IsClear (written_by writer.old) Frame area.serial) }
    requires room { length (written_by writer.old).published < 2 ^ 40 }
    ensures token { IsWriterOf shared.now.table.shared.table_id shared.now.table.shared.key writer.new }
    ensures published { written_by writer.new ≡ with_drop_of dropped (written_by writer.old) (with_next (renewed (written_by writer.old) (M.next next.now) (M.blocks next.now)) (written_by writer.old)) }
    ensures agree { IfSome dropped (λ area. AgreesWithLooks (written_by writer.old).looks (drop_of (written_by writer.old) Frame area.serial)) }
    ensures number { result ≡ length (written_by writer.old).published }
{
    match dropped {
        Some(area) => publish_dropping(shared, writer, next, area),
        None => publish_again(shared, writer, next),
    }
}

/// The area of this serial, if it is live.
pub(crate) fn live_area(pools: &Pools, serial: u64) -> Option<AreaRef>
    requires sound { IsSound pools.now }
    requires live { (block : ℕ) × (use_of pools.now block ≡ Some (Live serial)) }
    ensures { IsSomeAnd result (λ area. IsLive pools.now area × (area.serial ≡ serial)) }
{
    pools.find(serial)
}

/// Stores the doom word of the instance: it is doomed from the generation on that is published next.
fn doom_instance<K: Naming>(tables: &mut Tables, shared: &Shared<CodeLaw<K>>, serial: u64)
    requires tables { AreTablesOf shared.now.table.shared.table_id shared.now.table.shared.key tables.old }
    // it is live in a big block, and was never doomed
    requires live { IsLiveThere serial tables.old.pools (written_by tables.old.writer) }
    requires big { (area : AreaRef) → IsLive tables.old.pools area → area.serial ≡ serial → area.block < BIG_BLOCKS }
    requires undoomed { (area : AreaRef) → area.serial ≡ serial → IsUndoomed (written_by tables.old.writer) area }
    // the tables are as they were but for that word
    ensures tables { AreTablesOf shared.now.table.shared.table_id shared.now.table.shared.key tables.new }
    ensures exports { tables.new.exports ≡ tables.old.exports }
    ensures index { tables.new.index ≡ tables.old.index }
    ensures terms { tables.new.terms ≡ tables.old.terms }
    ensures patch { tables.new.patch ≡ tables.old.patch }
    ensures pools { tables.new.pools ≡ tables.old.pools }
    ensures doomed { HasDoomed serial tables.old.pools (written_by tables.old.writer) (written_by tables.new.writer) }
{
    stores_keep_index();
    stores_keep_tables();
    let Some(area) = live_area(&tables.pools, serial) else {
        unreachable!()
    };
    tables.pools.doom(shared, &mut tables.writer, area);
}

/// Stores the retire word of the instance: it is retired from the generation on that is published next.
fn retire_instance<K: Naming>(
    tables: &mut Tables,
    shared: &Shared<CodeLaw<K>>,
    serial: u64,
) -> AreaRef
    requires tables { AreTablesOf shared.now.table.shared.table_id shared.now.table.shared.key tables.old }
    requires live { IsLiveThere serial tables.old.pools (written_by tables.old.writer) }
    // the tables are as they were but for that word
    ensures tables { AreTablesOf shared.now.table.shared.table_id shared.now.table.shared.key tables.new }
    ensures exports { tables.new.exports ≡ tables.old.exports }
    ensures index { tables.new.index ≡ tables.old.index }
    ensures terms { tables.new.terms ≡ tables.old.terms }
    ensures patch { tables.new.patch ≡ tables.old.patch }
    ensures serial { result.serial ≡ serial }
    ensures retired { HasRetired serial tables.old.pools (written_by tables.old.writer) tables.new.pools (written_by tables.new.writer) }
{
    stores_keep_index();
    stores_keep_tables();
    let Some(area) = live_area(&tables.pools, serial) else {
        unreachable!()
    };
    tables.pools.retire(shared, &mut tables.writer, area);
    area
}

/// Stores the word that tells of the change before the root does, and answers the area of the instance that it drops.
fn announce<K: Naming>(
    tables: &mut Tables,
    shared: &Shared<CodeLaw<K>>,
    server: &Server,
    change: &Change,
) -> Option<AreaRef>
    requires tables { AreTablesOf shared.now.table.shared.table_id shared.now.table.shared.key tables.old }
    requires fits { Fits server.now change.now }
    requires renewal { IsRenewal change.now }
    requires rest { AreAtRest K.names server.now tables.old }
    ensures tables { AreTablesOf shared.now.table.shared.table_id shared.now.table.shared.key tables.new }
    ensures exports { tables.new.exports ≡ tables.old.exports }
    ensures announced { AreAnnounced K.names server.now change.now tables.new }
    ensures dropped { IsDropOf change.now result }
    // the writer knows else what it knew
    ensures same { IsSameButWords (written_by tables.old.writer) (written_by tables.new.writer) }
{
    let _generation = server.generation();
    match change {
        Change::Condemn { serial, .. } => {
            doom_instance(tables, shared, *serial);
            None
        }
        Change::DropOld { serial, .. } => Some(retire_instance(tables, shared, *serial)),
        _ => unreachable!(),
    }
}

/// Publishes what was announced.
fn publish_announced<K: Naming>(
    tables: &mut Tables,
    shared: &Shared<CodeLaw<K>>,
    server: &Server,
    change: &Change,
    dropped: Option<AreaRef>,
) -> u64
    // the tables are those of this table of words, by the run's names
    requires tables { AreTablesOf shared.now.table.shared.table_id shared.now.table.shared.key tables.old }
    requires names { tables.old.exports ≡ K.names }
    // the change fits the server, and its word is stored
    requires fits { Fits server.now change.now }
    requires renewal { IsRenewal change.now }
    requires announced { AreAnnounced K.names server.now change.now tables.old }
    requires dropped { IsDropOf change.now dropped }
    // a look was clear of what it drops, and there is a number for one generation more
    requires clear { IsClearOf change.now (written_by tables.old.writer) }
    requires room { length (written_by tables.old.writer).published < 2 ^ 40 }
    // whose tables they are stays
    ensures tables { AreTablesOf shared.now.table.shared.table_id shared.now.table.shared.key tables.new }
    ensures exports { tables.new.exports ≡ tables.old.exports }
    // the state that it leaves is published, the writer's notes and waits stay, and the drop is kept
    ensures published { HasPublished K.names (change_made server.now change.now).state tables.old tables.new result }
    ensures notes { (written_by tables.new.writer).notes ≡ (written_by tables.old.writer).notes }
    ensures waits { KeepsWaits (written_by tables.old.writer) (written_by tables.new.writer) }
    ensures drop { KeepsDrop change.now (written_by tables.old.writer) (written_by tables.new.writer) }
{
    exports_that_stay_are_staged();
    roots_keep_index();
    roots_keep_tables();
    let _generation = server.generation();
    let next = Upcoming {
        exports: &tables.exports,
        server,
        change,
        pools: &tables.pools,
    };
    publish_next(shared, &mut tables.writer, &next, dropped)
}

/// Publishes a change of what is doomed, or the drop of old code, and answers the generation that shows it. No thread needs to be waited for.
///
/// Source: Erlang/OTP erts internal documentation, CodeLoading, and the manual page code (purge, soft_purge).
pub fn publish_same<K: Naming>(
    tables: &mut Tables,
    shared: &Shared<CodeLaw<K>>,
    server: &Server,
    change: &Change,
) -> u64
    // the tables are those of this table of words, by the run's names, and nothing is under way
    requires tables { AreTablesOf shared.now.table.shared.table_id shared.now.table.shared.key tables.old }
    requires names { tables.old.exports ≡ K.names }
    requires rest { AreAtRest K.names server.now tables.old }
    // the change leaves calls and keys, and fits the server
    requires fits { Fits server.now change.now }
    requires renewal { IsRenewal change.now }
    // a look was clear of what it drops
    requires clear { IsClearOf change.now (written_by tables.old.writer) }
    // there is a number for one generation more
    requires room { length (written_by tables.old.writer).published < 2 ^ 40 }
    // whose tables they are stays
    ensures tables { AreTablesOf shared.now.table.shared.table_id shared.now.table.shared.key tables.new }
    ensures exports { tables.new.exports ≡ tables.old.exports }
    // the state that it leaves is published, and the writer's notes and waits stay
    ensures published { HasPublished K.names (change_made server.now change.now).state tables.old tables.new result }
    ensures notes { (written_by tables.new.writer).notes ≡ (written_by tables.old.writer).notes }
    ensures waits { KeepsWaits (written_by tables.old.writer) (written_by tables.new.writer) }
    // the drop is kept
    ensures drop { KeepsDrop change.now (written_by tables.old.writer) (written_by tables.new.writer) }
{
    let dropped = announce(tables, shared, server, change);
    publish_announced(tables, shared, server, change, dropped)
}
