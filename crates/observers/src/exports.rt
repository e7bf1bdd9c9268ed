//! What the functions reach in the generation that the watcher of an observer holds.

ghost use Rattle.std.specs.Prelude.{◌≡◌, ◌+◌, ◌++◌, ◌<◌, ◌≤◌, [], length};
ghost use Rattle.std.specs.Option.{option_to_list};
ghost use Rattle.std.specs.Vec.{vec_capacity, vec_len};
ghost use Rattle.area_core.specs.declared.map.TheConstants.{EXPORT_ENTRIES};
ghost use Rattle.machine_core.specs.GenerationReads.{reads_in};
ghost use Rattle.progress_words.specs.Tokens.{IsWatcherOf, watched_by};
ghost use Rattle.run_law.specs.Observing.{export_read, exports_read};
ghost use Rattle.observers.specs.Watching.{HasRead, HoldsServed, IsReading, LeadsFrom, as_member, held_by_watching, serial_at, serial_reached};

use crate::reads::{code_word, first_word};
use export_table::ExportTable;
use run_log::MfaList;
use shared_words::{Served, Shared, Watcher};
use term_core::Mfa;
use word_view::FUNCTIONS;

/// The serial of the instance that the name of this number reaches: the word of the active code index tells its block, and
/// the first word of the block the serial.
fn serial_of<N: Served>(shared: &Shared<N>, watcher: &mut Watcher, entry: u32) -> Option<u64>
    requires token { IsWatcherOf shared.now.table.shared.table_id watcher.old }
    requires reading { IsReading watcher.old.root (watched_by watcher.old) }
    requires entry { entry < EXPORT_ENTRIES }
    requires leads { LeadsFrom (as_member (watched_by watcher.old)) entry }
    ensures token { IsWatcherOf shared.now.table.shared.table_id watcher.new }
    ensures read { HasRead watcher.old watcher.new }
    ensures serial { result ≡ serial_at (held_by_watching (watched_by watcher.old)) entry }
{
    let word = code_word(shared, watcher, entry);
    if word == 0 {
        return None;
    }
    let block = ((word - 1) / FUNCTIONS) as u32;
    let serial = first_word(shared, watcher, block);
    Some(serial)
}

/// The serial of the instance that a call of the function reaches, if it reaches one.
fn serial_read<N: Served>(
    shared: &Shared<N>,
    watcher: &mut Watcher,
    exports: &ExportTable,
    to: Mfa,
) -> Option<u64>
    requires token { IsWatcherOf shared.now.table.shared.table_id watcher.old }
    requires reading { IsReading watcher.old.root (watched_by watcher.old) }
    requires served { HoldsServed exports.now (watched_by watcher.old) }
    ensures token { IsWatcherOf shared.now.table.shared.table_id watcher.new }
    ensures read { HasRead watcher.old watcher.new }
    ensures serial { result ≡ serial_reached (reads_in exports.now (held_by_watching (watched_by watcher.old)).state) to }
{
    match exports.entry(to) {
        Some(entry) => serial_of(shared, watcher, entry),
        None => None,
    }
}

/// Appends the function with that serial, if a call of it reaches an instance. There is room for it.
fn read_one<N: Served>(
    shared: &Shared<N>,
    watcher: &mut Watcher,
    exports: &ExportTable,
    to: Mfa,
    found: &mut Vec<(Mfa, u64)>,
)
    requires token { IsWatcherOf shared.now.table.shared.table_id watcher.old }
    requires reading { IsReading watcher.old.root (watched_by watcher.old) }
    requires served { HoldsServed exports.now (watched_by watcher.old) }
    requires room { vec_len found.old < vec_capacity found.old }
    ensures token { IsWatcherOf shared.now.table.shared.table_id watcher.new }
    ensures read { HasRead watcher.old watcher.new }
    ensures found { found.new.items ≡ found.old.items ++ option_to_list (export_read (reads_in exports.now (held_by_watching (watched_by watcher.old)).state) to) }
    ensures len { vec_len found.new ≤ vec_len found.old + 1 }
    ensures capacity { vec_capacity found.new ≡ vec_capacity found.old }
{
    match serial_read(shared, watcher, exports, to) {
        Some(serial) => found.push_reserved((to, serial)),
        None => {}
    }
}

/// Reads the functions in order, into a list that is empty and has room for all. It takes no memory.
pub fn read_exports<N: Served>(
    shared: &Shared<N>,
    watcher: &mut Watcher,
    exports: &ExportTable,
    functions: &MfaList,
    found: &mut Vec<(Mfa, u64)>,
)
    requires token { IsWatcherOf shared.now.table.shared.table_id watcher.old }
    requires reading { IsReading watcher.old.root (watched_by watcher.old) }
    requires served { HoldsServed exports.now (watched_by watcher.old) }
    requires empty { found.old.items ≡ [] }
    requires none { vec_len found.old ≡ 0 }
    requires room { length functions.now ≤ vec_capacity found.old }
    ensures token { IsWatcherOf shared.now.table.shared.table_id watcher.new }
    ensures read { HasRead watcher.old watcher.new }
    ensures found { found.new.items ≡ exports_read (reads_in exports.now (held_by_watching (watched_by watcher.old)).state) functions.now }
{
    for to in functions.as_slice() {
        read_one(shared, watcher, exports, *to, found);
    }
}
