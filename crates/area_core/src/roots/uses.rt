//! Whether the areas that a generation uses are kept.

ghost use Rattle.std.specs.Prelude.{◌≡◌, ◌++◌};
ghost use Rattle.std.specs.List.{list_all, list_any};
ghost use Rattle.area_core.specs.Generations.{is_kept_as};
ghost use Rattle.area_core.specs.Roots.{is_holding_kept, used_are_kept};

use crate::table::{KeptArea, Published};
use term_core::{Holding, KeyTerm};

/// Whether one of these is the area of this serial as the generation has it.
#[tactic(auto, using(crate::proofs::Joined::any_joined))]
fn is_kept_in(kept: &[KeptArea], fresh: &[KeptArea], published: &Published, serial: u64) -> bool
    ensures { result ≡ list_any (is_kept_as published.now serial) (kept.now ++ fresh.now) }
{
    is_one_kept(kept, published, serial) || is_one_kept(fresh, published, serial)
}

/// Whether one of these is the area of this serial as the generation has it.
fn is_one_kept(kept: &[KeptArea], published: &Published, serial: u64) -> bool
    ensures { result ≡ list_any (is_kept_as published.now serial) kept.now }
{
    kept.iter().any(|area| area.is_kept_as(published, serial))
}

/// Whether the area of a key is kept.
fn is_holding_kept(
    kept: &[KeptArea],
    fresh: &[KeptArea],
    published: &Published,
    holding: Holding,
) -> bool
    ensures { result ≡ is_holding_kept (kept.now ++ fresh.now) published.now holding }
{
    match holding {
        Holding::Word(_) => true,
        Holding::Area(serial) => is_kept_in(kept, fresh, published, serial),
    }
}

/// Whether each area that the generation uses is kept, in its block and with its image.
pub fn used_are_kept(kept: &[KeptArea], fresh: &[KeptArea], published: &Published) -> bool
    ensures { result ≡ used_are_kept (kept.now ++ fresh.now) published.now }
{
    are_kept_in(kept, fresh, published, published.state.current.as_slice())
        && are_kept_in(kept, fresh, published, published.state.old.as_slice())
        && are_holdings_kept(kept, fresh, published, published.state.keys.as_slice())
}

/// Whether the areas of these serials are kept as the generation has them.
fn are_kept_in(
    kept: &[KeptArea],
    fresh: &[KeptArea],
    published: &Published,
    serials: &[u64],
) -> bool
    ensures { result ≡ list_all (λ serial. list_any (is_kept_as published.now serial) (kept.now ++ fresh.now)) serials.now }
{
    serials
        .iter()
        .all(|serial| is_kept_in(kept, fresh, published, *serial))
}

/// Whether the areas of these keys are kept.
fn are_holdings_kept(
    kept: &[KeptArea],
    fresh: &[KeptArea],
    published: &Published,
    keys: &[KeyTerm],
) -> bool
    ensures { result ≡ list_all (λ k. is_holding_kept (kept.now ++ fresh.now) published.now k.holding) keys.now }
{
    keys.iter()
        .all(|key| is_holding_kept(kept, fresh, published, key.holding))
}
