//! Whether the blocks of a root stand for a generation.

ghost use Rattle.std.specs.Prelude.{◌≡◌, slice_get};
ghost use Rattle.area_core.specs.Map.{block_place, word_at};
ghost use Rattle.area_core.specs.Generations.{is_code_word};
ghost use Rattle.area_core.specs.Roots.{blocks_stand, breakpoints_stand, code_stands, traces_stand};

use crate::generations::{is_code_word, traced_word};
use crate::map::{BREAKPOINTS_START, EXPORT_ENTRIES, FUNCTIONS, block_place, breakpoint_at};
use crate::table::{Published, WordTable};
use crate::terms::terms_stand;
use term_core::AreaRef;

/// Whether the first so many words of the code index lead function names to what they reach.
#[tactic(auto, using(crate::proofs::Counted::code_none, crate::proofs::Counted::code_next))]
fn code_stands(words: &WordTable, published: &Published, count: u32) -> bool
    ensures { result ≡ code_stands words.now published.now count }
{
    let mut stands = true;
    for entry in 0..count {
        stands = stands && is_entry_led(words, published, entry);
    }
    stands
}

/// Whether a word of the code index leads the function name to what it reaches.
fn is_entry_led(words: &WordTable, published: &Published, entry: u32) -> bool
    ensures { result ≡ is_code_word published.now (slice_get published.now.state.exports entry) (word_at words.now (block_place published.now.root.code entry)) }
{
    let reached = published
        .state
        .exports
        .as_slice()
        .get(entry as usize)
        .copied();
    let code = u64::from(published.root.code);
    is_code_word(
        published,
        reached,
        words.get(block_place(code, u64::from(entry))),
    )
}

/// Whether the breakpoint words of the first so many functions of an area say whether they are traced.
#[tactic(auto, using(crate::proofs::Counted::traces_none, crate::proofs::Counted::traces_next))]
fn traces_stand(words: &WordTable, published: &Published, area: AreaRef, count: u32) -> bool
    ensures { result ≡ traces_stand words.now published.now area count }
{
    let block = u64::from(BREAKPOINTS_START) + u64::from(published.root.bp);
    let mut stands = true;
    for function in 0..count {
        let word = words.get(block_place(block, breakpoint_at(area.block, function)));
        stands = stands && word == traced_word(published, area.serial, function);
    }
    stands
}

/// Whether so it is of each current or old instance.
fn breakpoints_stand(words: &WordTable, published: &Published) -> bool
    ensures { result ≡ breakpoints_stand words.now published.now }
{
    published.areas.as_slice().iter().all(|area| {
        !published.is_instance(area.serial) || traces_stand(words, published, *area, FUNCTIONS)
    })
}

/// Whether the blocks of the root stand for the generation.
pub fn blocks_stand(words: &WordTable, published: &Published) -> bool
    ensures { result ≡ blocks_stand words.now published.now }
{
    code_stands(words, published, EXPORT_ENTRIES)
        && breakpoints_stand(words, published)
        && terms_stand(words, published)
}
