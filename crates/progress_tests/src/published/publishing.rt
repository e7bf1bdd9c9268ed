//! A writer that publishes the empty generation again and again.

ghost use Rattle.std.specs.Prelude.{◌≡◌, ◌+◌, ◌<◌, ◌^◌};
ghost use Rattle.area_core.specs.Step.{opening_published};
ghost use Rattle.shared_words.specs.Publishing.{with_next};
ghost use Rattle.progress_words.specs.Tokens.{written_by, IsWriterOf};
ghost use Rattle.new_tables.specs.Running.{IsEmpty};

use shared_words::{Served, Shared, Writer};
use std::marker::Brand;

/// Generations of which nothing is said.
pub struct Any;

impl Served for Any {
    ghost served = { λ _. Unit {0} };
}

/// Publishes the empty generation once more, over the blocks that it had before.
#[tactic(auto, using(new_tables::proofs::Emptied::may_publish_empty, new_tables::proofs::Emptied::opening_root, new_tables::proofs::Emptied::written_next, new_tables::proofs::Emptied::still_empty))]
pub fn publish(shared: &Shared<Any>, writer: &mut Writer)
    requires token { IsWriterOf shared.now.table.shared.table_id shared.now.table.shared.key writer.old }
    requires empty { IsEmpty (written_by writer.old) }
    requires room { writer.old.generation + 1 < 2 ^ 59 }
    ensures token { IsWriterOf shared.now.table.shared.table_id shared.now.table.shared.key writer.new }
    ensures generation { writer.new.generation ≡ writer.old.generation + 1 }
    ensures published { written_by writer.new ≡ with_next opening_published (written_by writer.old) }
    ensures empty { IsEmpty (written_by writer.new) }
{
    shared.store_root::<Brand>(writer, 0, 0, 0);
}
