//! What a key holds.

ghost use Rattle.std.specs.Prelude.{◌≡◌};
ghost use Rattle.server_core.specs.ServerState.{found_as};
ghost use Rattle.machine_core.specs.GenerationReads.{found_held, holding_among};
ghost use Rattle.shared_words.specs.Processes.{held_by_view};
ghost use Rattle.shared_words.specs.Seats.{IsMemberSeat};
ghost use Rattle.anchors.specs.Holds.{view_of};
ghost use Rattle.term_table.specs.Keys.{HasPlainWords};
ghost use Rattle.word_view.specs.Loaded.{HasRead, IsFoundIn};
ghost use Rattle.word_view.specs.Views.{IsReading};

use shared_words::{Member, Served, Shared};
use term_core::{AtomId, Found};
use term_table::lookup;

/// What a key holds in the generation that the member holds, of whose entries for the key the first one counts.
pub fn held_under<N: Served>(shared: &Shared<N>, member: &mut Member, key: AtomId) -> Found
    requires token { IsMemberSeat shared.now.table.shared.table_id member.old.number member.old.seat }
    requires reading { IsReading member.old.root (view_of member.old) }
    requires plain { HasPlainWords (held_by_view (view_of member.old)) }
    ensures token { IsMemberSeat shared.now.table.shared.table_id member.new.number member.new.seat }
    ensures read { HasRead member.old member.new }
    ensures value { found_as result ≡ found_held (holding_among (held_by_view (view_of member.old)).state.keys key.0) }
    ensures listed { IsFoundIn (held_by_view (view_of member.old)) result }
{
    lookup(shared, member, key)
}
