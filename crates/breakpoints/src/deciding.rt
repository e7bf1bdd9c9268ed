//! What a member finds of a function: whether calls of it are traced.

ghost use Rattle.std.specs.Prelude.{◌≡◌, ◌<◌, IsTrue, false, length};
ghost use Rattle.prgr_core.specs.Members.{is_value};
ghost use Rattle.area_core.specs.Generations.{is_retired_area, is_traced_function, tells};
ghost use Rattle.shared_words.specs.declared.view.View.TheVariants as views;
ghost use Rattle.shared_words.specs.Processes.{held_by_view};
ghost use Rattle.shared_words.specs.Publishing.{MayLoadWord};
ghost use Rattle.shared_words.specs.Seats.{IsMemberSeat};
ghost use Rattle.progress_words.specs.Tokens.{view_of};
ghost use Rattle.breakpoints.specs.Decisions.{HasLookedUp, IsWordFound, MayDecide};

use crate::places::{
    BREAKPOINT_UNIT, CODE_UNIT, GENERATION_UNIT, decision_word, entry_word_at, retire_word,
};
use shared_words::{Member, Served, Shared};
use term_core::CodeRef;

/// Loads a word that the member may read.
fn load<N: Served>(shared: &Shared<N>, member: &mut Member, word: u32) -> u64
    requires token { IsMemberSeat shared.now.table.shared.table_id member.old.number member.old.seat }
    requires awake { IsTrue (is_value (view_of member.old).member.word) }
    requires learnt { (view_of member.old).member.generation < length (view_of member.old).seen }
    requires may { MayLoadWord word (views.Member (view_of member.old)) }
    ensures token { IsMemberSeat shared.now.table.shared.table_id member.new.number member.new.seat }
    ensures read { HasLookedUp member.old member.new }
    ensures found { IsWordFound (view_of member.old) word result }
{
    shared.load_word(member, word)
}

/// The entry word of a function.
fn entry_of<N: Served>(shared: &Shared<N>, member: &mut Member, at: CodeRef) -> u64
    requires token { IsMemberSeat shared.now.table.shared.table_id member.old.number member.old.seat }
    requires may { MayDecide member.old.root (view_of member.old) at }
    ensures token { IsMemberSeat shared.now.table.shared.table_id member.new.number member.new.seat }
    ensures read { HasLookedUp member.old member.new }
    ensures untraced { result ≡ 0 → is_traced_function (held_by_view (view_of member.old)) at.area.serial at.function ≡ false }
{
    load(shared, member, entry_word_at(at.area.block, at.function))
}

/// Whether a retire word tells that an area is retired under a generation.
fn tells_at(word: u64, generation: u64) -> bool
    ensures { result ≡ tells word generation }
{
    word != 0 && word <= generation
}

/// Whether the instance of a function is retired in the generation that the member holds.
fn retired_in<N: Served>(shared: &Shared<N>, member: &mut Member, at: CodeRef) -> bool
    requires token { IsMemberSeat shared.now.table.shared.table_id member.old.number member.old.seat }
    requires may { MayDecide member.old.root (view_of member.old) at }
    ensures token { IsMemberSeat shared.now.table.shared.table_id member.new.number member.new.seat }
    ensures read { HasLookedUp member.old member.new }
    ensures value { result ≡ is_retired_area (held_by_view (view_of member.old)) at.area.serial }
{
    let generation = member.root() / GENERATION_UNIT;
    let word = load(shared, member, retire_word(at.area.block));
    tells_at(word, generation)
}

/// Whether the breakpoint index of that generation says that calls of the function are traced, where its
/// instance is not retired.
fn decided_in<N: Served>(shared: &Shared<N>, member: &mut Member, at: CodeRef) -> bool
    requires token { IsMemberSeat shared.now.table.shared.table_id member.old.number member.old.seat }
    requires may { MayDecide member.old.root (view_of member.old) at }
    requires live { is_retired_area (held_by_view (view_of member.old)) at.area.serial ≡ false }
    ensures token { IsMemberSeat shared.now.table.shared.table_id member.new.number member.new.seat }
    ensures read { HasLookedUp member.old member.new }
    ensures value { result ≡ is_traced_function (held_by_view (view_of member.old)) at.area.serial at.function }
{
    let index = (member.root() / CODE_UNIT % BREAKPOINT_UNIT) as u32;
    let word = load(
        shared,
        member,
        decision_word(index, at.area.block, at.function),
    );
    word == 1
}

/// Whether calls of the function are traced in the generation that the member holds, whatever phase a patch is in.
///
/// A function whose entry word is 0 has no breakpoint: one look at it is all that such a call costs. A retired
/// instance has none either, and its block may still have decisions from before.
/// Source: Erlang/OTP erts internal documentation, Tracing.
pub fn decision<N: Served>(shared: &Shared<N>, member: &mut Member, at: CodeRef) -> bool
    requires token { IsMemberSeat shared.now.table.shared.table_id member.old.number member.old.seat }
    requires may { MayDecide member.old.root (view_of member.old) at }
    ensures token { IsMemberSeat shared.now.table.shared.table_id member.new.number member.new.seat }
    ensures read { HasLookedUp member.old member.new }
    ensures value { result ≡ is_traced_function (held_by_view (view_of member.old)) at.area.serial at.function }
{
    let entry = entry_of(shared, member, at);
    if entry == 0 {
        return false;
    }
    if retired_in(shared, member, at) {
        return false;
    }
    decided_in(shared, member, at)
}
