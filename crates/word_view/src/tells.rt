//! What is told of areas: which are retired and doomed.

ghost use Rattle.std.specs.Prelude.{◌≡◌, ◌<◌, false, true};
ghost use Rattle.area_core.specs.declared.map.TheConstants.{BIG_BLOCKS as BIG};
ghost use Rattle.area_core.specs.Generations.{is_doomed_area, is_retired_area, tells};
ghost use Rattle.shared_words.specs.Processes.{held_by_view};
ghost use Rattle.shared_words.specs.Seats.{IsMemberSeat};
ghost use Rattle.anchors.specs.Holds.{view_of};
ghost use Rattle.word_view.specs.Loaded.{HasRead, IsNamedAt};
ghost use Rattle.word_view.specs.Views.{IsReading};

use crate::places::GENERATION_UNIT;
use crate::reads::load;
use literal_areas::{doom_word, retire_word};
use shared_words::{Member, Served, Shared};
use term_core::AreaRef;

/// Whether a retire or doom word tells that something is so under a generation.
fn tells_at(word: u64, generation: u64) -> bool
    ensures { result ≡ tells word generation }
{
    word != 0 && word <= generation
}

/// Whether an area that a slot names is retired in the generation that the member holds.
pub fn retired_in<N: Served>(shared: &Shared<N>, member: &mut Member, area: AreaRef) -> bool
    requires token { IsMemberSeat shared.now.table.shared.table_id member.old.number member.old.seat }
    requires reading { IsReading member.old.root (view_of member.old) }
    requires named { IsNamedAt (view_of member.old) area }
    ensures token { IsMemberSeat shared.now.table.shared.table_id member.new.number member.new.seat }
    ensures read { HasRead member.old member.new }
    ensures value { result ≡ is_retired_area (held_by_view (view_of member.old)) area.serial }
{
    let generation = member.root() / GENERATION_UNIT;
    let word = load(shared, member, retire_word(area.block));
    tells_at(word, generation)
}

/// Whether an area of a big block that a slot names, and that is not retired, is doomed in the generation
/// that the member holds.
fn doom_in<N: Served>(shared: &Shared<N>, member: &mut Member, area: AreaRef) -> bool
    requires token { IsMemberSeat shared.now.table.shared.table_id member.old.number member.old.seat }
    requires reading { IsReading member.old.root (view_of member.old) }
    requires named { IsNamedAt (view_of member.old) area }
    requires big { area.block < BIG }
    requires there { is_retired_area (held_by_view (view_of member.old)) area.serial ≡ false }
    ensures token { IsMemberSeat shared.now.table.shared.table_id member.new.number member.new.seat }
    ensures read { HasRead member.old member.new }
    ensures value { result ≡ is_doomed_area (held_by_view (view_of member.old)) area.serial }
{
    let generation = member.root() / GENERATION_UNIT;
    let word = load(shared, member, doom_word(area.block));
    tells_at(word, generation)
}

/// Whether an area of a big block that a slot names is doomed in the generation that the member holds. What is
/// retired is not doomed, and its doom word tells nothing.
pub fn doomed_in<N: Served>(shared: &Shared<N>, member: &mut Member, area: AreaRef) -> bool
    requires token { IsMemberSeat shared.now.table.shared.table_id member.old.number member.old.seat }
    requires reading { IsReading member.old.root (view_of member.old) }
    requires named { IsNamedAt (view_of member.old) area }
    requires big { area.block < BIG }
    requires apart { is_retired_area (held_by_view (view_of member.old)) area.serial ≡ true → is_doomed_area (held_by_view (view_of member.old)) area.serial ≡ false }
    ensures token { IsMemberSeat shared.now.table.shared.table_id member.new.number member.new.seat }
    ensures read { HasRead member.old member.new }
    ensures value { result ≡ is_doomed_area (held_by_view (view_of member.old)) area.serial }
{
    if retired_in(shared, member, area) {
        return false;
    }
    doom_in(shared, member, area)
}
