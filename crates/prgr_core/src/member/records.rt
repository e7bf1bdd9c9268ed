//! What events make of a member's record and of a leader's scans.

ghost use Rattle.std.specs.Prelude.{◌≡◌, ◌<◌, ◌^◌, Some, not};
ghost use Rattle.prgr_core.specs.declared.member.Loaded.TheVariants.{Nothing};
ghost use Rattle.prgr_core.specs.Members.{has_scanned, have_scanned_all, no_scans, counter_loaded, root_loaded, is_value};
ghost use Rattle.prgr_core.specs.Step.{scan_of, delay_scan_of, opening_member, has_loaded, follows};

use crate::member::{ENTERING, Loaded, MOST_MEMBERS, Member, OPENING_WORD, Role, Scans, WAITING};

impl Scans {
    pub fn new(counter: Option<u64>) -> Scans
        ensures { result ≡ no_scans counter }
    {
        Scans {
            counter,
            members: [false; MOST_MEMBERS],
            delay: false,
        }
    }

    /// The scans of a leader that knows this counter.
    pub fn knowing(self, counter: u64) -> Scans
        ensures { result ≡ record self { counter = Some counter } }
    {
        let mut scans = self;
        scans.counter = Some(counter);
        scans
    }

    /// Whether this member is among those scanned.
    pub fn has(&self, number: u32) -> bool
        ensures { result ≡ has_scanned self.now number }
    {
        self.members.get(number as usize).copied().unwrap_or(false)
    }

    /// Whether each of these members is among those scanned.
    pub fn has_all(&self, members: &[Member]) -> bool
        ensures { result ≡ have_scanned_all self.now members.now }
    {
        members.iter().all(|member| self.has(member.number))
    }

    /// The scans with this one, if the member's word shows that it is done.
    pub fn with(self, counter: u64, number: u32, word: u64) -> Scans
        requires room { number < 16 }
        requires below { counter < 2 ^ 63 }
        ensures { result ≡ scan_of counter self number word }
    {
        let mut scans = self;
        if word == WAITING || word == counter + 1 {
            scans.members[number as usize] = true;
        }
        scans
    }

    /// The scans with that of the delay, if its count is 0.
    pub fn with_delay(self, count: u64) -> Scans
        ensures { result ≡ delay_scan_of self count }
    {
        let mut scans = self;
        if count == 0 {
            scans.delay = true;
        }
        scans
    }
}

impl Member {
    /// The member of this number as it begins: awake, holding generation 0.
    pub fn new(number: u32) -> Member
        ensures { result ≡ opening_member number }
    {
        Member {
            number,
            word: OPENING_WORD,
            loaded: Loaded::Nothing,
            generation: 0,
            role: Role::Follows,
        }
    }

    /// The member once it has loaded the counter.
    pub fn with_counter(self, counter: u64) -> Member
        ensures { result ≡ counter_loaded counter self }
    {
        let role = match self.role {
            Role::Follows => Role::Follows,
            Role::Leads(scans) => Role::Leads(scans.knowing(counter)),
        };
        Member {
            number: self.number,
            word: self.word,
            loaded: Loaded::Counter(counter),
            generation: self.generation,
            role,
        }
    }

    /// The member once it has loaded the root.
    pub fn with_root(self, generation: u64) -> Member
        ensures { result ≡ root_loaded generation self }
    {
        let loaded = match self.loaded {
            Loaded::Nothing => Loaded::Nothing,
            Loaded::Counter(counter) => Loaded::CounterAndRoot(counter),
            Loaded::CounterAndRoot(counter) => Loaded::CounterAndRoot(counter),
        };
        Member {
            number: self.number,
            word: self.word,
            loaded,
            generation,
            role: self.role,
        }
    }

    /// The member with this word, and nothing loaded.
    pub fn with_word(self, word: u64) -> Member
        ensures { result ≡ record self { word = word; loaded = Nothing } }
    {
        Member {
            number: self.number,
            word,
            loaded: Loaded::Nothing,
            generation: self.generation,
            role: self.role,
        }
    }

    /// The member in this role.
    pub fn with_role(self, role: Role) -> Member
        ensures { result ≡ record self { role = role } }
    {
        Member {
            number: self.number,
            word: self.word,
            loaded: self.loaded,
            generation: self.generation,
            role,
        }
    }
}

impl Member {
    /// Whether it has loaded the counter and confirmed nothing since.
    pub fn has_loaded(&self) -> bool
        ensures { result ≡ has_loaded self.now.loaded }
    {
        match self.loaded {
            Loaded::Nothing => false,
            Loaded::Counter(_) => true,
            Loaded::CounterAndRoot(_) => true,
        }
    }

    /// Whether its word is a value.
    pub fn is_awake(&self) -> bool
        ensures { result ≡ is_value self.now.word }
    {
        ENTERING < self.word && self.word < WAITING
    }

    pub fn leads(&self) -> bool
        ensures { result ≡ not (follows self.now.role) }
    {
        match self.role {
            Role::Follows => false,
            Role::Leads(_) => true,
        }
    }
}
