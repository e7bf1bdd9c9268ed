//! The areas that are kept from a store of the root on.

ghost use Rattle.std.specs.Prelude.{◌≡◌, ◌++◌, IfOk, OnOk};
ghost use Rattle.std.specs.List.{list_all};
ghost use Rattle.area_core.specs.Roots.{are_apart, fresh_areas, fresh_in, serial_image, is_apart};

use crate::generations::is_kept;
use crate::table::{KeptArea, KeptList, Published};
use std::alloc::Global;
use term_core::{AreaRef, AreaWords, NoMemory, WordList};

/// The areas that are kept from now on.
pub fn fresh_areas(
    alloc: Global,
    kept: &[KeptArea],
    published: &Published,
) -> Result<KeptList, NoMemory>
    ensures { IfOk result (λ fresh. fresh ≡ fresh_areas kept.now published.now) }
{
    let mut fresh = KeptList::new(alloc);
    for area in published.areas.as_slice() {
        push_fresh(
            alloc,
            &mut fresh,
            kept,
            published.state.areas.as_slice(),
            *area,
        )?;
    }
    Ok(fresh)
}

/// Appends the area with its image, if it is not kept yet and has one.
fn push_fresh(
    alloc: Global,
    fresh: &mut KeptList,
    kept: &[KeptArea],
    areas: &[AreaWords],
    area: AreaRef,
) -> Result<(), NoMemory>
    ensures { OnOk result (fresh.new ≡ fresh.old ++ fresh_in kept.now areas.now area) }
{
    if is_kept(kept, area.serial) {
        return Ok(());
    }
    match image_of(alloc, areas, area.serial)? {
        None => Ok(()),
        Some(words) => fresh.push(KeptArea { area, words }),
    }
}

/// The image of this serial, if there is one.
fn image_of(alloc: Global, areas: &[AreaWords], serial: u64) -> Result<Option<WordList>, NoMemory>
    ensures { IfOk result (λ image. image ≡ serial_image areas.now serial) }
{
    for area in areas {
        if area.serial == serial {
            let words = WordList::from_slice(alloc, area.words.as_slice())?;
            return Ok(Some(words));
        }
    }
    Ok(None)
}

/// Whether the areas differ in serial and block.
fn is_apart(area: &KeptArea, other: &KeptArea) -> bool
    ensures { result ≡ is_apart area.now other.now }
{
    area.area.serial != other.area.serial && area.area.block != other.area.block
}

/// Whether each of these areas is apart from those behind it, and from the others.
pub fn are_apart(kept: &[KeptArea], fresh: &[KeptArea]) -> bool
    ensures { result ≡ are_apart kept.now fresh.now }
{
    match fresh.split_first() {
        None => true,
        Some((area, rest)) => {
            is_apart_from(area, kept) && is_apart_from(area, rest) && are_apart(kept, rest)
        }
    }
}

/// Whether the area is apart from each of these.
fn is_apart_from(area: &KeptArea, others: &[KeptArea]) -> bool
    ensures { result ≡ list_all (is_apart area.now) others.now }
{
    others.iter().all(|other| is_apart(area, other))
}
