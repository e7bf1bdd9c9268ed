//! One snapshot of the newest generation.

ghost use Rattle.std.specs.Prelude.{◌≡◌, ◌≤◌, [], length};
ghost use Rattle.std.specs.Vec.{vec_capacity, vec_len};
ghost use Rattle.progress_words.specs.Delays.{IsIdle};
ghost use Rattle.progress_words.specs.Tokens.{IsWatcherOf, watched_by};
ghost use Rattle.observers.specs.Observing.{HasSeen};

use crate::exports::read_exports;
use code_law::{CodeLaw, Naming};
use export_table::ExportTable;
use progress_words::{delay, resume};
use run_log::{ExportList, MfaList, Snapshot};
use shared_words::{Shared, Watcher};
use term_core::Mfa;

/// A snapshot of the newest generation, of these functions, into a list that is empty and has room for all. Progress is delayed meanwhile; it takes
/// no memory.
pub fn snapshot<K: Naming>(
    shared: &Shared<CodeLaw<K>>,
    watcher: &mut Watcher,
    functions: &MfaList,
    exports: &ExportTable,
    room: Vec<(Mfa, u64)>,
) -> Snapshot
    requires exports { exports.now ≡ K.names }
    requires token { IsWatcherOf shared.now.table.shared.table_id watcher.old }
    requires idle { IsIdle (watched_by watcher.old) }
    requires empty { room.items ≡ [] }
    requires none { vec_len room ≡ 0 }
    requires room { length functions.now ≤ vec_capacity room }
    ensures token { IsWatcherOf shared.now.table.shared.table_id watcher.new }
    ensures idle { IsIdle (watched_by watcher.new) }
    ensures seen { HasSeen K.names functions.now (watched_by watcher.old) (watched_by watcher.new) result }
{
    let mut found = room;
    let generation = delay(shared, watcher);
    read_exports(shared, watcher, exports, functions, &mut found);
    resume(shared, watcher);
    Snapshot {
        generation,
        exports: ExportList::from_vec(found),
    }
}
