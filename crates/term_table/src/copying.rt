//! The words of a whole term table, as the writer loads and stores them.

ghost use Rattle.std.specs.Prelude.{◌≡◌, ◌<◌, length};
ghost use Rattle.area_core.specs.declared.map.TheConstants.{TERM_TABLES as TABLES, BIG_WORDS};
ghost use Rattle.area_core.specs.Map.{word_at, term_place};
ghost use Rattle.shared_words.specs.Publishing.{with_word};
ghost use Rattle.progress_words.specs.Tokens.{written_by, IsWriterOf, IsSameWriter};
ghost use Rattle.term_table.specs.Tables.{active_table};
ghost use Rattle.term_table.specs.Staged.{HasLoaded, IsFreeTable, HasStored};

use crate::buckets::{Buckets, no_buckets};
use crate::places::{TABLE_WORDS, term_word};
use shared_words::{Served, Shared, Writer};

/// A word of the active table.
fn load_at<N: Served>(shared: &Shared<N>, writer: &mut Writer, table: u32, at: u32) -> u64
    requires token { IsWriterOf shared.now.table.shared.table_id shared.now.table.shared.key writer.old }
    requires table { table < TABLES }
    requires active { table ≡ active_table (written_by writer.old) }
    requires at { at < BIG_WORDS }
    ensures token { IsWriterOf shared.now.table.shared.table_id shared.now.table.shared.key writer.new }
    ensures same { IsSameWriter writer.old writer.new }
    ensures view { written_by writer.new ≡ written_by writer.old }
    ensures word { result ≡ word_at (written_by writer.old).words (term_place table at) }
{
    shared.load_word(writer, term_word(table, at))
}

/// The words of the active table.
pub fn load_table<N: Served>(shared: &Shared<N>, writer: &mut Writer, table: u32) -> Buckets
    requires token { IsWriterOf shared.now.table.shared.table_id shared.now.table.shared.key writer.old }
    requires table { table < TABLES }
    requires active { table ≡ active_table (written_by writer.old) }
    ensures token { IsWriterOf shared.now.table.shared.table_id shared.now.table.shared.key writer.new }
    ensures same { IsSameWriter writer.old writer.new }
    ensures view { written_by writer.new ≡ written_by writer.old }
    ensures loaded { HasLoaded table BIG_WORDS (written_by writer.old) result }
{
    let mut loaded = no_buckets();
    for at in 0..TABLE_WORDS {
        loaded.words[at as usize] = load_at(shared, writer, table, at);
    }
    loaded
}

/// Stores a word of a table that no thread reads.
fn store_at<N: Served>(shared: &Shared<N>, writer: &mut Writer, table: u32, at: u32, value: u64)
    requires token { IsWriterOf shared.now.table.shared.table_id shared.now.table.shared.key writer.old }
    requires free { IsFreeTable table (written_by writer.old) }
    requires at { at < BIG_WORDS }
    ensures token { IsWriterOf shared.now.table.shared.table_id shared.now.table.shared.key writer.new }
    ensures same { IsSameWriter writer.old writer.new }
    ensures stored { written_by writer.new ≡ with_word (term_place table at) value (written_by writer.old) }
{
    shared.store_word(writer, term_word(table, at), value);
}

/// Stores the words of a table that no thread reads.
pub fn store_table<N: Served>(shared: &Shared<N>, writer: &mut Writer, table: u32, built: &Buckets)
    requires token { IsWriterOf shared.now.table.shared.table_id shared.now.table.shared.key writer.old }
    requires free { IsFreeTable table (written_by writer.old) }
    requires whole { length built.now.words ≡ BIG_WORDS }
    ensures token { IsWriterOf shared.now.table.shared.table_id shared.now.table.shared.key writer.new }
    ensures same { IsSameWriter writer.old writer.new }
    ensures stored { HasStored table BIG_WORDS built.now (written_by writer.old) (written_by writer.new) }
{
    for at in 0..TABLE_WORDS {
        store_at(shared, writer, table, at, built.word(at));
    }
}
