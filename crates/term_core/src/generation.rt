//! A generation of the code server in plain numbers: what a turn and the shared words read of its state.

ghost use Rattle.std.specs.Prelude.{◌≡◌, IfOk};

use crate::area::AreaRef;
use crate::atom::AtomId;
use crate::items::{CountList, Items, WordList};
use crate::no_memory::NoMemory;
use std::alloc::Global;

/// A function of an instance, by the instance's serial and its place in the function table, from 0.
#[derive(Clone, Copy, Debug, PartialEq, Eq)]
pub struct FunctionRef {
    pub serial: u64,
    pub function: u32,
}

/// What a key of a persistent term holds.
#[derive(Clone, Copy, Debug, PartialEq, Eq)]
pub enum Holding {
    /// The word of an integer or an atom.
    Word(u64),
    /// A tuple or a list, by the serial of its area.
    Area(u64),
}

/// A key of a persistent term, and what it holds.
#[derive(Clone, Copy, Debug, PartialEq, Eq)]
pub struct KeyTerm {
    pub key: AtomId,
    pub holding: Holding,
}

/// The image of an area: of an instance as it was loaded, or of a complex term.
#[derive(Debug, Drop)]
pub struct AreaWords {
    pub serial: u64,
    pub words: WordList,
}

/// At the number of a function name, the function that a call of it reaches, if it is exported.
pub type ExportList = Items<Option<FunctionRef>>;

/// Functions in a row.
pub type FunctionRefList = Items<FunctionRef>;

/// Keys with what they hold.
pub type KeyTermList = Items<KeyTerm>;

/// Areas with their images.
pub type AreaWordsList = Items<AreaWords>;

/// Areas with their blocks.
pub type AreaRefList = Items<AreaRef>;

/// The state of the code server after a published command, in plain numbers.
#[derive(Debug, Drop)]
pub struct Generation {
    pub exports: ExportList,
    /// The functions whose calls are traced.
    pub traced: FunctionRefList,
    pub keys: KeyTermList,
    /// The serials of the instances that are current.
    pub current: CountList,
    /// The serials of the instances that are old.
    pub old: CountList,
    /// The serials of the old instances that are purged, so that processes that stand in them end.
    pub doomed: CountList,
    /// The serials of the areas that are dropped and not yet released.
    pub retired: CountList,
    /// The image of each area that is not released.
    pub areas: AreaWordsList,
}

impl AreaWords {
    /// An equal image of the same area.
    pub fn copy(&self, alloc: Global) -> Result<AreaWords, NoMemory>
        ensures { IfOk result (λ copy. copy ≡ self.now) }
    {
        let words = WordList::from_slice(alloc, self.words.as_slice())?;
        Ok(AreaWords {
            serial: self.serial,
            words,
        })
    }
}

impl Generation {
    /// An equal generation.
    pub fn copy(&self, alloc: Global) -> Result<Generation, NoMemory>
        ensures { IfOk result (λ copy. copy ≡ self.now) }
    {
        let areas = copied_areas(alloc, self.areas.as_slice())?;
        Ok(Generation {
            exports: ExportList::from_slice(alloc, self.exports.as_slice())?,
            traced: FunctionRefList::from_slice(alloc, self.traced.as_slice())?,
            keys: KeyTermList::from_slice(alloc, self.keys.as_slice())?,
            current: CountList::from_slice(alloc, self.current.as_slice())?,
            old: CountList::from_slice(alloc, self.old.as_slice())?,
            doomed: CountList::from_slice(alloc, self.doomed.as_slice())?,
            retired: CountList::from_slice(alloc, self.retired.as_slice())?,
            areas,
        })
    }
}

/// The same areas with equal images.
fn copied_areas(alloc: Global, areas: &[AreaWords]) -> Result<AreaWordsList, NoMemory>
    ensures { IfOk result (λ copies. copies ≡ areas.now) }
{
    let mut copies = AreaWordsList::new(alloc);
    for area in areas {
        copies.push(area.copy(alloc)?)?;
    }
    Ok(copies)
}

/// What a store of the root publishes, as contracts see it.
pub trait Next {
    ghost use Rattle.std.specs.Prelude.{List};
    ghost use Rattle.term_core.specs.declared.area.AreaRef.{AreaRef};
    ghost use Rattle.term_core.specs.declared.generation.Generation.{Generation};

    /// The generation that is published next.
    ghost next: { Self → Generation };

    /// The block of each of its areas.
    ghost blocks: { Self → List AreaRef };
}
