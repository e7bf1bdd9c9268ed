//! What the writer publishes.

ghost use Rattle.std.specs.Prelude.{◌≡◌, ◌+◌, ◌<◌, ◌^◌};
ghost use Rattle.progress_words.specs.Tokens.{written_by, IsWriterOf};
ghost use Rattle.shared_words.specs.Publishing.{with_next};
ghost use Rattle.new_tables.specs.Running.{IsEmpty};
ghost use Rattle.grace_bench.specs.Used.{used_published};

use shared_words::{Next, Served, Shared, Writer};
use std::marker::Brand;

/// Generations of which nothing is said.
pub struct Any;

impl Served for Any {
    ghost served = { λ _. Unit {0} };
}

/// Publishes the empty generation once more.
#[tactic(auto, using(new_tables::proofs::Emptied::may_publish_empty, new_tables::proofs::Emptied::opening_root, new_tables::proofs::Emptied::written_next, new_tables::proofs::Emptied::still_empty))]
pub fn publish(shared: &Shared<Any>, writer: &mut Writer)
    requires token { IsWriterOf shared.now.table.shared.table_id shared.now.table.shared.key writer.old }
    requires empty { IsEmpty (written_by writer.old) }
    requires room { writer.old.generation + 1 < 2 ^ 59 }
    ensures token { IsWriterOf shared.now.table.shared.table_id shared.now.table.shared.key writer.new }
    ensures empty { IsEmpty (written_by writer.new) }
    ensures generation { writer.new.generation ≡ writer.old.generation + 1 }
{
    shared.store_root::<Brand>(writer, 0, 0, 0);
}

/// The generation of one instance.
struct Used;

impl Next for Used {
    ghost use Rattle.grace_bench.specs.Used.{used_published};

    ghost next = { used_published };
}

/// Publishes the generation of one instance, of which an area was dropped.
#[tactic(auto, using(crate::proofs::Used::used_root))]
pub fn publish_used(shared: &Shared<Any>, writer: &mut Writer)
    requires token { IsWriterOf shared.now.table.shared.table_id shared.now.table.shared.key writer.old }
    requires empty { IsEmpty (written_by writer.old) }
    requires room { writer.old.generation + 1 < 2 ^ 59 }
    ensures token { IsWriterOf shared.now.table.shared.table_id shared.now.table.shared.key writer.new }
    ensures published { written_by writer.new ≡ with_next used_published (written_by writer.old) }
{
    shared.store_root::<Used>(writer, 0, 0, 0);
}
