//! The table itself.

ghost use Rattle.std.specs.Prelude.{◌≡◌, ◌≤◌};
ghost use Rattle.prgr_core.specs.declared.member.TheConstants.{MOST_MEMBERS};
ghost use Rattle.area_core.specs.declared.map.TheConstants.{TABLE_WORDS};

use crate::law::{Law, Served};
use crate::opening::Opening;
use crate::view::View;
use atomic_table::Table;
use std::alloc::Global;

/// The word of the root. The split and the join of a seat load it.
pub const ROOT: u32 = 0;

/// The root word at first: generation 0, over the first block of each sort.
pub const OPENING_ROOT: u64 = 0;

/// The word of the progress counter.
pub const COUNTER: u32 = 1;

/// The word of the leader: 0, or the number of the leading member plus 1.
pub const LEAD: u32 = 2;

/// The first word of the delay counters.
pub const DELAYS: u32 = 3;

/// The first of the confirmed words of the members.
pub const CONFIRMED: u32 = 5;

/// The first word of the slots of processes.
pub const SLOTS: u32 = 21;

/// How many processes have slots.
pub const PROCESSES: u32 = 64;

/// How many words a slot has: the turns done, then the anchors.
pub const SLOT_WORDS: u32 = 17;

/// How many anchors a slot has.
pub const ANCHORS: u32 = 16;

/// The words that all threads share.
#[derive(Drop)]
pub struct Shared<N: Served> {
    pub(crate) table: Table<(), View, Opening, Law<N>, Global>,
    pub(crate) members: u32,
    pub ghost sized: { table.shared.table_id.words ≡ TABLE_WORDS },
    pub ghost few: { table.shared.key.members ≤ MOST_MEMBERS },
    pub ghost counted: { members ≡ table.shared.key.members },
}

impl<N: Served> Shared<N> {
    /// How many members the table was made for.
    pub fn members(&self) -> u32
        ensures members { result ≡ self.now.table.shared.key.members }
        ensures few { result ≤ MOST_MEMBERS }
    {
        self.members
    }
}
