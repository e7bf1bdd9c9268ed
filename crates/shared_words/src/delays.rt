//! The steps on the delay counts.

ghost use Rattle.std.specs.Prelude.{◌≡◌, ◌<◌, ◌≤◌, true, false};
ghost use Rattle.area_core.specs.declared.map.TheConstants.{TABLE_WORDS};
ghost use Rattle.prgr_core.specs.declared.watcher.Watcher as watching;
ghost use Rattle.prgr_core.specs.declared.watcher.TheConstants.{DELAY_COUNTS};
ghost use Rattle.prgr_core.specs.Watchers.{delay_of, with_held_count};
ghost use Rattle.shared_words.specs.declared.view.View.TheVariants as views;
ghost use Rattle.shared_words.specs.Seats.{IsSeatOf, IsMemberSeat, IsWatcherSeat, IsSameSeat, member_of, watcher_of, counts_of};
ghost use Rattle.shared_words.specs.Kinds.{MayAddDelay, MayDropDelay, MayScanDelay, with_delay, without_delay, delay_looked};

use crate::law::Served;
use crate::pass::Words;
use crate::plays::{AddDelay, LoadDelay, SubDelay};
use crate::seats::{Member, Watcher};
use crate::table::{DELAYS, Shared};
use crate::view::View;
use atomic_table::Seat;
use std::marker::Brand;

/// How many watchers a table was made for. The proof of a call picks it.
pub trait Watched {
    ghost use Rattle.std.specs.Prelude.{ℕ};

    ghost made: { ℕ };
}

impl Watched for Brand {
    ghost made = { 0 };
}

/// The delay counts that are held once this one is.
fn counts_with(holds: u32, which: u32) -> u32
    requires which { which < DELAY_COUNTS }
    ensures { (w : watching.Watcher) → holds ≡ counts_of w.holds_even w.holds_odd → result ≡ counts_of (with_held_count (delay_of which) true w).holds_even (with_held_count (delay_of which) true w).holds_odd }
{
    if which == 0 {
        holds - holds % 2 + 1
    } else {
        holds % 2 + 2
    }
}

/// The delay counts that are held once this one is not.
fn counts_without(holds: u32, which: u32) -> u32
    requires which { which < DELAY_COUNTS }
    ensures { (w : watching.Watcher) → holds ≡ counts_of w.holds_even w.holds_odd → result ≡ counts_of (with_held_count (delay_of which) false w).holds_even (with_held_count (delay_of which) false w).holds_odd }
{
    if which == 0 {
        holds - holds % 2
    } else {
        holds % 2
    }
}

/// Loads a delay count of a table for so many watchers as were picked.
fn look_at_delay<N: Served, K: Watched>(
    table: &Words<N>,
    member: &mut Seat<(), View>,
    which: u32,
) -> u64
    requires picked { K.made ≡ table.now.key.watchers }
    requires token { IsSeatOf table.now.table_id member.old }
    requires member { member.old.me.0 ≡ views.Member (member_of member.old.me.0) }
    requires sized { table.now.table_id.words ≡ TABLE_WORDS }
    requires may { MayScanDelay which (member_of member.old.me.0) }
    ensures token { IsSameSeat member.old member.new }
    ensures few { result ≤ K.made }
    ensures view { member.new.me.0 ≡ views.Member (delay_looked which result (member_of member.old.me.0)) }
{
    table.load::<LoadDelay<K>>(member, DELAYS as usize + which as usize)
}

impl<N: Served> Shared<N> {
    /// Raises a delay count by one: that of the counter that the watcher has loaded, or, where it found
    /// that the counter went on since, the other one.
    pub fn add_delay(&self, watcher: &mut Watcher, which: u32)
        requires token { IsWatcherSeat self.now.table.shared.table_id watcher.old.holds watcher.old.seat }
        requires may { MayAddDelay which (watcher_of watcher.old.seat.me.0) }
        ensures token { IsWatcherSeat self.now.table.shared.table_id watcher.new.holds watcher.new.seat }
        ensures same { IsSameSeat watcher.old.seat watcher.new.seat }
        ensures root { watcher.new.root ≡ watcher.old.root }
        ensures view { watcher.new.seat.me.0 ≡ views.Watcher (with_delay which (watcher_of watcher.old.seat.me.0)) }
    {
        let word = DELAYS as usize + which as usize;
        self.table
            .shared
            .fetch_add::<AddDelay>(&mut watcher.seat, word, 1);
        watcher.holds = counts_with(watcher.holds, which);
    }

    /// Lowers a delay count that the watcher holds by one: it reads no more.
    pub fn sub_delay(&self, watcher: &mut Watcher, which: u32)
        requires token { IsWatcherSeat self.now.table.shared.table_id watcher.old.holds watcher.old.seat }
        requires may { MayDropDelay which (watcher_of watcher.old.seat.me.0) }
        ensures token { IsWatcherSeat self.now.table.shared.table_id watcher.new.holds watcher.new.seat }
        ensures same { IsSameSeat watcher.old.seat watcher.new.seat }
        ensures root { watcher.new.root ≡ watcher.old.root }
        ensures view { watcher.new.seat.me.0 ≡ views.Watcher (without_delay which (watcher_of watcher.old.seat.me.0)) }
    {
        let word = DELAYS as usize + which as usize;
        self.table
            .shared
            .fetch_sub::<SubDelay>(&mut watcher.seat, word, 1);
        watcher.holds = counts_without(watcher.holds, which);
    }

    /// Loads the delay count of the value after the counter, which the leader has loaded or raised to, and
    /// scans the delay where it is 0. It is at most the number of watchers.
    pub fn load_delay(&self, member: &mut Member, which: u32) -> u64
        requires token { IsMemberSeat self.now.table.shared.table_id member.old.number member.old.seat }
        requires may { MayScanDelay which (member_of member.old.seat.me.0) }
        ensures token { IsSameSeat member.old.seat member.new.seat }
        ensures number { member.new.number ≡ member.old.number }
        ensures root { member.new.root ≡ member.old.root }
        ensures anchors { member.new.anchors.items ≡ member.old.anchors.items }
        ensures few { result ≤ self.now.table.shared.key.watchers }
        ensures view { member.new.seat.me.0 ≡ views.Member (delay_looked which result (member_of member.old.seat.me.0)) }
    {
        look_at_delay::<N, Brand>(&self.table.shared, &mut member.seat, which)
    }
}
