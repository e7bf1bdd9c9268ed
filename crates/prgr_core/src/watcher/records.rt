//! What events make of a watcher's record, and where they may.

ghost use Rattle.std.specs.Prelude.{◌≡◌};
ghost use Rattle.prgr_core.specs.Watchers.{delay_of, delay_numbered, other_delay, is_same_delay, holds_delay, may_look, may_add, is_claimed, may_leave, phase_seeing, counter_watched, with_held_count, phase_holding, delay_added, root_watched, delay_dropped};
ghost use Rattle.prgr_core.specs.Step.{opening_watcher};

use crate::watcher::{Delay, Phase, Watcher};

impl Delay {
    /// The delay counter of a value of the progress counter.
    pub fn of(value: u64) -> Delay
        ensures { result ≡ delay_of value }
    {
        if value % 2 == 0 {
            Delay::Even
        } else {
            Delay::Odd
        }
    }

    /// The delay counter of this number, if there is one.
    pub fn numbered(which: u32) -> Option<Delay>
        ensures { result ≡ delay_numbered which }
    {
        if which == 0 {
            Some(Delay::Even)
        } else if which == 1 {
            Some(Delay::Odd)
        } else {
            None
        }
    }

    pub fn other(self) -> Delay
        ensures { result ≡ other_delay self }
    {
        match self {
            Delay::Even => Delay::Odd,
            Delay::Odd => Delay::Even,
        }
    }

    /// Whether they are one delay counter.
    pub fn is(self, other: Delay) -> bool
        ensures { result ≡ is_same_delay self other }
    {
        match self {
            Delay::Even => match other {
                Delay::Even => true,
                Delay::Odd => false,
            },
            Delay::Odd => match other {
                Delay::Even => false,
                Delay::Odd => true,
            },
        }
    }
}

impl Phase {
    /// Whether a watcher may load the counter here.
    pub fn may_look(self) -> bool
        ensures { result ≡ may_look self }
    {
        match self {
            Phase::Idle | Phase::Loaded(_) | Phase::Added(_) | Phase::Both => true,
            Phase::Moved(_) | Phase::Claimed(_) | Phase::Leaving => false,
        }
    }

    /// Whether a watcher may raise this count here: that of the counter that it loaded, or the one
    /// that it does not hold.
    pub fn may_add(self, delay: Delay) -> bool
        ensures { result ≡ may_add self delay }
    {
        match self {
            Phase::Loaded(counter) => delay.is(Delay::of(counter)),
            Phase::Moved(held) => !delay.is(held),
            Phase::Idle | Phase::Added(_) | Phase::Both | Phase::Claimed(_) | Phase::Leaving => {
                false
            }
        }
    }

    pub fn is_claimed(self) -> bool
        ensures { result ≡ is_claimed self }
    {
        match self {
            Phase::Claimed(_) => true,
            Phase::Idle | Phase::Loaded(_) | Phase::Added(_) => false,
            Phase::Moved(_) | Phase::Both | Phase::Leaving => false,
        }
    }

    /// Whether a watcher may lower a count that it holds here.
    pub fn may_leave(self) -> bool
        ensures { result ≡ may_leave self }
    {
        match self {
            Phase::Claimed(_) | Phase::Leaving => true,
            Phase::Idle | Phase::Loaded(_) | Phase::Added(_) | Phase::Moved(_) | Phase::Both => {
                false
            }
        }
    }

    /// The phase after a load of the counter.
    pub fn seeing(self, counter: u64) -> Phase
        ensures { result ≡ phase_seeing counter self }
    {
        match self {
            Phase::Idle | Phase::Loaded(_) => Phase::Loaded(counter),
            Phase::Added(loaded) => {
                if counter == loaded {
                    Phase::Claimed(counter)
                } else {
                    Phase::Moved(Delay::of(loaded))
                }
            }
            Phase::Both => Phase::Claimed(counter),
            Phase::Moved(delay) => Phase::Moved(delay),
            Phase::Claimed(claimed) => Phase::Claimed(claimed),
            Phase::Leaving => Phase::Leaving,
        }
    }

    /// The phase after a count was raised.
    pub fn holding(self) -> Phase
        ensures { result ≡ phase_holding self }
    {
        match self {
            Phase::Idle => Phase::Idle,
            Phase::Loaded(counter) => Phase::Added(counter),
            Phase::Added(counter) => Phase::Added(counter),
            Phase::Moved(_) | Phase::Both => Phase::Both,
            Phase::Claimed(claimed) => Phase::Claimed(claimed),
            Phase::Leaving => Phase::Leaving,
        }
    }
}

impl Watcher {
    /// The watcher of this number as it begins: idle, and holding nothing.
    pub fn new(number: u32) -> Watcher
        ensures { result ≡ opening_watcher number }
    {
        Watcher {
            number,
            phase: Phase::Idle,
            holds_even: false,
            holds_odd: false,
            generation: None,
        }
    }

    /// Whether it holds the count of this delay counter.
    pub fn holds(self, delay: Delay) -> bool
        ensures { result ≡ holds_delay delay self }
    {
        match delay {
            Delay::Even => self.holds_even,
            Delay::Odd => self.holds_odd,
        }
    }

    /// The watcher with this count held, or not held.
    pub fn with_hold(self, delay: Delay, held: bool) -> Watcher
        ensures { result ≡ with_held_count delay held self }
    {
        let mut watcher = self;
        match delay {
            Delay::Even => watcher.holds_even = held,
            Delay::Odd => watcher.holds_odd = held,
        }
        watcher
    }

    /// The watcher once it has loaded the counter.
    pub fn with_counter(self, counter: u64) -> Watcher
        ensures { result ≡ counter_watched counter self }
    {
        let mut watcher = self;
        watcher.phase = self.phase.seeing(counter);
        watcher
    }

    /// The watcher once it has raised this count.
    pub fn with_added(self, delay: Delay) -> Watcher
        ensures { result ≡ delay_added delay self }
    {
        let mut watcher = self.with_hold(delay, true);
        watcher.phase = self.phase.holding();
        watcher
    }

    /// The watcher once it has loaded the root in its claim.
    pub fn with_root(self, generation: u64) -> Watcher
        ensures { result ≡ root_watched generation self }
    {
        let mut watcher = self;
        watcher.generation = Some(generation);
        watcher
    }

    /// The watcher once it has lowered this count: its claim, if it had one, is over.
    pub fn with_dropped(self, delay: Delay) -> Watcher
        ensures { result ≡ delay_dropped delay self }
    {
        let still_holds = self.holds(delay.other());
        let mut watcher = self.with_hold(delay, false);
        watcher.phase = if still_holds {
            Phase::Leaving
        } else {
            Phase::Idle
        };
        watcher.generation = None;
        watcher
    }
}
