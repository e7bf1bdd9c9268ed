//! The calls by which a thread reads that is no scheduler: it delays progress meanwhile.

ghost use Rattle.std.specs.Prelude.{◌≡◌, ◌%◌, ◌<◌};
ghost use Rattle.prgr_core.specs.declared.watcher.TheConstants.{DELAY_COUNTS};
ghost use Rattle.shared_words.specs.Seats.{IsSameSeat, HoldsRoot};
ghost use Rattle.progress_words.specs.Tokens.{watched_by, IsWatcherOf};
ghost use Rattle.progress_words.specs.Delays.{IsIdle, IsDelaying, IsSameWatcher, HasRaised, HasMoved, HasClaimed, HasDelayed, MayLower, HasLowered};

use crate::reports::GENERATION_UNIT;
use shared_words::{Served, Shared, Watcher};

/// The delay count of a value of the counter: that of its parity.
pub(crate) fn count_of(value: u64) -> u32
    ensures { result ≡ value % 2 }
{
    (value % 2) as u32
}

/// Loads the counter, and raises its delay count.
fn raise<N: Served>(shared: &Shared<N>, watcher: &mut Watcher) -> u64
    requires token { IsWatcherOf shared.now.table.shared.table_id watcher.old }
    requires idle { IsIdle (watched_by watcher.old) }
    ensures token { IsWatcherOf shared.now.table.shared.table_id watcher.new }
    ensures same { IsSameSeat watcher.old.seat watcher.new.seat }
    ensures raised { HasRaised result (watched_by watcher.old) (watched_by watcher.new) }
{
    let counter = shared.load_counter(watcher);
    shared.add_delay(watcher, count_of(counter));
    counter
}

/// Raises the other delay count too, since the counter went on, and claims to read.
fn raise_other<N: Served>(shared: &Shared<N>, watcher: &mut Watcher, counter: u64)
    requires token { IsWatcherOf shared.now.table.shared.table_id watcher.old }
    requires moved { HasMoved counter (watched_by watcher.old) }
    ensures token { IsWatcherOf shared.now.table.shared.table_id watcher.new }
    ensures same { IsSameSeat watcher.old.seat watcher.new.seat }
    ensures claimed { HasClaimed (watched_by watcher.old) (watched_by watcher.new) }
{
    shared.add_delay(watcher, 1 - count_of(counter));
    shared.load_counter(watcher);
}

/// Claims to read: raises the delay count of the counter, and, where the counter went on meanwhile, the
/// other one too.
fn claim<N: Served>(shared: &Shared<N>, watcher: &mut Watcher)
    requires token { IsWatcherOf shared.now.table.shared.table_id watcher.old }
    requires idle { IsIdle (watched_by watcher.old) }
    ensures token { IsWatcherOf shared.now.table.shared.table_id watcher.new }
    ensures same { IsSameSeat watcher.old.seat watcher.new.seat }
    ensures claimed { HasClaimed (watched_by watcher.old) (watched_by watcher.new) }
{
    let counter = raise(shared, watcher);
    if shared.load_counter(watcher) != counter {
        raise_other(shared, watcher, counter);
    }
}

/// Delays progress, loads the root, and answers the number of the generation that the watcher holds from
/// now on: until it resumes, that may be read. The watcher does not delay yet.
///
/// Source: Erlang/OTP erts internal documentation, ThreadProgress; the two delay counts are this
/// project's own.
pub fn delay<N: Served>(shared: &Shared<N>, watcher: &mut Watcher) -> u64
    requires token { IsWatcherOf shared.now.table.shared.table_id watcher.old }
    requires idle { IsIdle (watched_by watcher.old) }
    ensures token { IsWatcherOf shared.now.table.shared.table_id watcher.new }
    ensures same { IsSameSeat watcher.old.seat watcher.new.seat }
    ensures delayed { HasDelayed N.served (watched_by watcher.old) (watched_by watcher.new) result }
    ensures rooted { HoldsRoot watcher.new.root (watched_by watcher.new) }
{
    claim(shared, watcher);
    shared.load_root(watcher) / GENERATION_UNIT
}

/// Lowers a delay count where the watcher holds it.
fn lower<N: Served>(shared: &Shared<N>, watcher: &mut Watcher, which: u32)
    requires token { IsWatcherOf shared.now.table.shared.table_id watcher.old }
    requires which { which < DELAY_COUNTS }
    requires may { MayLower (watched_by watcher.old) }
    ensures token { IsWatcherOf shared.now.table.shared.table_id watcher.new }
    ensures same { IsSameSeat watcher.old.seat watcher.new.seat }
    ensures may { MayLower (watched_by watcher.new) }
    ensures lowered { HasLowered which (watched_by watcher.old) (watched_by watcher.new) }
{
    if watcher.holds(which) {
        shared.sub_delay(watcher, which);
    }
}

/// Ends the delay: the watcher holds no generation any more.
pub fn resume<N: Served>(shared: &Shared<N>, watcher: &mut Watcher)
    requires token { IsWatcherOf shared.now.table.shared.table_id watcher.old }
    requires delaying { IsDelaying (watched_by watcher.old) }
    ensures token { IsWatcherOf shared.now.table.shared.table_id watcher.new }
    ensures same { IsSameSeat watcher.old.seat watcher.new.seat }
    ensures idle { IsIdle (watched_by watcher.new) }
    ensures known { IsSameWatcher (watched_by watcher.old) (watched_by watcher.new) }
{
    lower(shared, watcher, 0);
    lower(shared, watcher, 1);
}
