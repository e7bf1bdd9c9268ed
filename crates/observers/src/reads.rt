//! The loads of words by which an observer reads the exports of a generation.

ghost use Rattle.std.specs.Prelude.{◌<◌, IsTrue, slice_get};
ghost use Rattle.area_core.specs.declared.map.TheConstants.{EXPORT_ENTRIES};
ghost use Rattle.area_core.specs.Generations.{is_code_word};
ghost use Rattle.area_core.specs.Map.{block_place};
ghost use Rattle.shared_words.specs.declared.view.View.TheVariants as views;
ghost use Rattle.shared_words.specs.Publishing.{MayLoadWord};
ghost use Rattle.progress_words.specs.Tokens.{IsWatcherOf, watched_by};
ghost use Rattle.word_view.specs.Loaded.{IsFound, IsReadAt, IsWordThere};
ghost use Rattle.observers.specs.Watching.{HasRead, IsReading, as_member, held_by_watching};

use shared_words::{Served, Shared, Watcher};
use word_view::{CODE_UNIT, block_word, index_word};

/// Loads a word of the generation that the watcher holds.
fn load<N: Served>(shared: &Shared<N>, watcher: &mut Watcher, word: u32) -> u64
    requires token { IsWatcherOf shared.now.table.shared.table_id watcher.old }
    requires reading { IsReading watcher.old.root (watched_by watcher.old) }
    requires may { MayLoadWord word (views.Member (as_member (watched_by watcher.old))) }
    ensures token { IsWatcherOf shared.now.table.shared.table_id watcher.new }
    ensures read { HasRead watcher.old watcher.new }
    ensures found { IsFound (as_member (watched_by watcher.old)) word result }
{
    shared.load_word(watcher, word)
}

/// The word that the active code index has for the name of this number: 0 where the name reaches nothing.
pub fn code_word<N: Served>(shared: &Shared<N>, watcher: &mut Watcher, entry: u32) -> u64
    requires token { IsWatcherOf shared.now.table.shared.table_id watcher.old }
    requires reading { IsReading watcher.old.root (watched_by watcher.old) }
    requires entry { entry < EXPORT_ENTRIES }
    ensures token { IsWatcherOf shared.now.table.shared.table_id watcher.new }
    ensures read { HasRead watcher.old watcher.new }
    ensures found { IsFound (as_member (watched_by watcher.old)) (block_place (held_by_watching (watched_by watcher.old)).root.code entry) result }
    ensures word { IsTrue (is_code_word (held_by_watching (watched_by watcher.old)) (slice_get (held_by_watching (watched_by watcher.old)).state.exports entry) result) }
{
    let code = (watcher.root() % CODE_UNIT) as u32;
    load(shared, watcher, index_word(code, entry))
}

/// The first word of the block in which an instance stands: its serial.
pub fn first_word<N: Served>(shared: &Shared<N>, watcher: &mut Watcher, block: u32) -> u64
    requires token { IsWatcherOf shared.now.table.shared.table_id watcher.old }
    requires reading { IsReading watcher.old.root (watched_by watcher.old) }
    requires may { IsReadAt (as_member (watched_by watcher.old)) block 0 }
    ensures token { IsWatcherOf shared.now.table.shared.table_id watcher.new }
    ensures read { HasRead watcher.old watcher.new }
    ensures word { IsWordThere (as_member (watched_by watcher.old)) block 0 result }
{
    load(shared, watcher, block_word(block, 0))
}
