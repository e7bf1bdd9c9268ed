//! When a store of the root keeps the block invariant.

mod areas;
mod blocks;
mod fresh;
mod uses;

ghost use Rattle.std.specs.Prelude.{◌≡◌};
ghost use Rattle.area_core.specs.Roots.{fresh_areas, instances_placed, is_for_instances, may_publish, root_fits};

use crate::map::{AREAS_START, BIG_BLOCKS, BREAKPOINT_INDICES, CODE_INDICES, TERM_TABLES};
use crate::table::{KeptArea, Published, Root, Table};
use areas::{all_areas_stand, are_fresh_sound};
use blocks::blocks_stand;
use fresh::are_apart;
pub use fresh::fresh_areas;
use uses::used_are_kept;

/// Whether the root names blocks that there are.
fn root_fits(root: Root) -> bool
    ensures { result ≡ root_fits root }
{
    root.code < CODE_INDICES && root.bp < BREAKPOINT_INDICES && root.term < TERM_TABLES
}

/// Whether the block is one for instances.
fn is_for_instances(block: u32) -> bool
    ensures { result ≡ is_for_instances block }
{
    AREAS_START <= block && block < BIG_BLOCKS
}

/// Whether each current or old instance stands in a block for instances.
fn instances_placed(published: &Published) -> bool
    ensures { result ≡ instances_placed published.now }
{
    published.areas.as_slice().iter().all(|area| !published.is_instance(area.serial)
        || is_for_instances(area.block))
}

impl Table {
    /// Whether this may be published under this number, while these generations are held, with
    /// these areas as those that are kept from now on.
    pub fn may_publish(
        &self,
        held: &[u64],
        fresh: &[KeptArea],
        generation: u64,
        published: &Published,
    ) -> bool
        requires { fresh.now ≡ fresh_areas self.now.kept published.now }
        ensures { result ≡ may_publish self.now.words self.now.published held.now self.now.kept generation published.now }
    {
        let words = &self.words;
        let kept = self.kept.as_slice();
        let before = self.published.as_slice();
        root_fits(published.root)
            && instances_placed(published)
            && blocks_stand(words, published)
            && are_fresh_sound(words, before, held, fresh)
            && are_apart(kept, fresh)
            && used_are_kept(kept, fresh, published)
            && all_areas_stand(words, kept, fresh, generation, published)
    }
}
