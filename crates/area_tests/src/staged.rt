//! Exports in the staging index of a shared table, all from one thread. The expected values are those
//! of the map of the table: the code indices have their words from 1,493, 2,517 and 3,541 on, and a word
//! of one is 1 + 16 times the block + the function.

ghost use Rattle.std.specs.Prelude.{◌≡◌};
ghost use Rattle.progress_words.specs.Tokens.{written_by, IsWriterOf};
ghost use Rattle.code_index.specs.declared.index.Staging.TheVariants as staging;
ghost use Rattle.code_index.specs.Staging.{IsIndexOf};

use crate::tables::{Any, last_words};
use code_index::CodeIndex;
use shared_words::{Shared, Writer};
use std::alloc::Global;
use std::test::Fail;
use term_core::{AreaRef, CodeRef, NoMemory, WordList};

fn function(serial: u64, block: u32, function: u32) -> CodeRef {
    CodeRef {
        area: AreaRef { serial, block },
        function,
    }
}

/// Stages two exports, drops one of them again, and gives the staging up.
fn stage_and_abort(shared: &Shared<Any>, writer: &mut Writer, index: &mut CodeIndex)
    requires token { IsWriterOf shared.now.table.shared.table_id shared.now.table.shared.key writer.old }
    requires owned { IsIndexOf index.old (written_by writer.old) }
    requires nothing { index.old ≡ staging.Nothing }
    ensures token { IsWriterOf shared.now.table.shared.table_id shared.now.table.shared.key writer.new }
{
    index.start(shared, writer);
    index.set(shared, writer, 5, Some(function(1, 9, 2)));
    index.set(shared, writer, 6, Some(function(1, 9, 3)));
    index.set(shared, writer, 6, None);
    index.set(shared, writer, 1023, Some(function(2, 63, 15)));
    index.abort();
}

/// The words of a table in whose second index they were staged.
fn staged_words(alloc: Global) -> Result<WordList, NoMemory> {
    let (shared, mut parts) = Shared::<Any>::new(alloc, 1, 0)?;
    let mut index = CodeIndex::new();
    stage_and_abort(&shared, &mut parts.writer, &mut index);
    last_words(alloc, shared, parts)
}

/// What was staged stands in the second index, and the first, which is active, is as it was.
#[test]
fn staged_words_stand_in_the_staging_index(rt: HostRuntime) -> Result<(), Fail> {
    let words = staged_words(rt.alloc())?;
    let cases = [
        (1_498, 0),
        (2_521, 0),
        (2_522, 147),
        (2_523, 0),
        (2_516, 0),
        (3_540, 1_024),
        (3_541, 0),
    ];
    for (place, word) in cases {
        assert_eq!(rt; words.get(place).copied(), Some(word), "at {place}");
    }
    Ok(())
}
