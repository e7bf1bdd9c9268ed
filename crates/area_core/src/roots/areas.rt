//! Whether the words of areas, and those that tell of them, stand for them under a generation.

ghost use Rattle.std.specs.Prelude.{◌≡◌, ◌++◌, slice_get};
ghost use Rattle.std.specs.List.{list_all};
ghost use Rattle.area_core.specs.Readers.{holds_at, holds_of_each};
ghost use Rattle.area_core.specs.Map.{block_place, word_at};
ghost use Rattle.area_core.specs.Stores.{is_image_word};
ghost use Rattle.area_core.specs.Roots.{area_stands, doom_tells, entries_stand, fits_block, image_stands, is_fresh_sound, retire_tells};

use crate::generations::{agrees, functions_of, tells};
use crate::map::{
    AREAS_START, BIG_BLOCKS, BIG_WORDS, BLOCKS, FUNCTIONS, block_place, doom_place, entry_at,
    retire_place, room_of,
};
use crate::stores::is_image_word;
use crate::table::{KeptArea, Published, WordTable};

/// Whether the area has a block with room for it.
fn fits_block(area: &KeptArea) -> bool
    ensures { result ≡ fits_block area.now }
{
    let block = area.area.block;
    let words = area.words.as_slice();
    AREAS_START <= block
        && block < BLOCKS
        && words.len() <= room_of(block)
        && (BIG_BLOCKS <= block || functions_of(words) <= u64::from(FUNCTIONS))
}

/// Whether the block holds the first so many words of the image, apart from entry words.
#[tactic(auto, using(crate::proofs::Counted::image_none, crate::proofs::Counted::image_next))]
fn image_stands(words: &WordTable, area: &KeptArea, count: u32) -> bool
    ensures { result ≡ image_stands words.now area.now count }
{
    let mut stands = true;
    for at in 0..count {
        stands = stands && (area.is_entry_word(at) || has_image_word(words, area, at));
    }
    stands
}

/// Whether a word of the block is that of the image, if it has one there.
fn has_image_word(words: &WordTable, area: &KeptArea, at: u32) -> bool
    ensures { result ≡ is_image_word (slice_get area.now.words at) (word_at words.now (block_place area.now.area.block at)) }
{
    let word = area.words.as_slice().get(at as usize).copied();
    let block = u64::from(area.area.block);
    is_image_word(word, words.get(block_place(block, u64::from(at))))
}

/// Whether the entry words of the first so many functions are 0 only where the generation does not
/// trace them.
#[tactic(auto, using(crate::proofs::Counted::entries_none, crate::proofs::Counted::entries_next))]
fn entries_stand(words: &WordTable, area: &KeptArea, published: &Published, count: u32) -> bool
    ensures { result ≡ entries_stand words.now area.now published.now count }
{
    let block = u64::from(area.area.block);
    let mut stands = true;
    for function in 0..count {
        let word = words.get(block_place(block, entry_at(function)));
        stands = stands
            && (!area.has_function(function)
                || word != 0
                || !published.is_traced(area.area.serial, function));
    }
    stands
}

/// Whether the retire word tells whether the area is retired.
fn retire_tells(words: &WordTable, area: &KeptArea, generation: u64, published: &Published) -> bool
    ensures { result ≡ retire_tells words.now area.now generation published.now }
{
    let word = words.get(retire_place(area.area.block));
    agrees(
        tells(word, generation),
        published.is_retired(area.area.serial),
    )
}

/// Whether the doom word of an instance that is not retired tells whether it is doomed.
fn doom_tells(words: &WordTable, area: &KeptArea, generation: u64, published: &Published) -> bool
    ensures { result ≡ doom_tells words.now area.now generation published.now }
{
    let word = words.get(doom_place(area.area.block));
    area.area.block >= BIG_BLOCKS
        || published.is_retired(area.area.serial)
        || agrees(
            tells(word, generation),
            published.is_doomed(area.area.serial),
        )
}

/// Whether entry, retire and doom words tell of the generation.
fn area_stands(words: &WordTable, area: &KeptArea, generation: u64, published: &Published) -> bool
    ensures { result ≡ area_stands words.now area.now generation published.now }
{
    entries_stand(words, area, published, FUNCTIONS)
        && retire_tells(words, area, generation, published)
        && doom_tells(words, area, generation, published)
}

/// Whether entry, retire and doom words of all these areas tell of the generation.
fn areas_stand(
    words: &WordTable,
    areas: &[KeptArea],
    generation: u64,
    published: &Published,
) -> bool
    ensures { result ≡ list_all (λ k. area_stands words.now k generation published.now) areas.now }
{
    areas
        .iter()
        .all(|area| area_stands(words, area, generation, published))
}

/// Whether entry, retire and doom words of all areas tell of the generation.
#[tactic(auto, using(crate::proofs::Joined::all_joined))]
pub fn all_areas_stand(
    words: &WordTable,
    kept: &[KeptArea],
    fresh: &[KeptArea],
    generation: u64,
    published: &Published,
) -> bool
    ensures { result ≡ list_all (λ k. area_stands words.now k generation published.now) (kept.now ++ fresh.now) }
{
    areas_stand(words, kept, generation, published)
        && areas_stand(words, fresh, generation, published)
}

/// Whether the area has room, its image, and words that tell of it under each of these generations.
fn is_fresh_sound(
    words: &WordTable,
    published: &[Published],
    generations: &[u64],
    area: &KeptArea,
) -> bool
    ensures { result ≡ is_fresh_sound words.now published.now generations.now area.now }
{
    fits_block(area)
        && image_stands(words, area, BIG_WORDS)
        && stands_under_each(words, published, generations, area)
}

/// Whether the words that tell of the area do so under each of these generations.
fn stands_under_each(
    words: &WordTable,
    published: &[Published],
    generations: &[u64],
    area: &KeptArea,
) -> bool
    ensures { result ≡ holds_of_each published.now generations.now (λ g p. area_stands words.now area.now g p) }
{
    generations.iter().all(|generation| stands_under(words, published, *generation, area))
}

/// Whether the words that tell of the area do so under the generation.
fn stands_under(
    words: &WordTable,
    published: &[Published],
    generation: u64,
    area: &KeptArea,
) -> bool
    ensures { result ≡ holds_at published.now (λ g p. area_stands words.now area.now g p) generation }
{
    match published.get(generation as usize) {
        None => true,
        Some(published) => area_stands(words, area, generation, published),
    }
}

/// Whether each of the areas that are kept from now on is sound.
pub fn are_fresh_sound(
    words: &WordTable,
    published: &[Published],
    generations: &[u64],
    fresh: &[KeptArea],
) -> bool
    ensures { result ≡ list_all (is_fresh_sound words.now published.now generations.now) fresh.now }
{
    fresh
        .iter()
        .all(|area| is_fresh_sound(words, published, generations, area))
}
