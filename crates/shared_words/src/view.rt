//! What each seat at the table knows. No value of these types is made: they are for clauses alone.

use area_core::{KeptList, PublishedList};
use marks::{EndedWait, MarkList, ReadTurn, Slot, WriterKept};
use prgr_core::{Member, RetirementList, Watcher};
use term_core::{CountList, Items, WordList};

/// A process for which a note was split, and the newest generation then.
pub struct NoteNumber {
    pub process: u32,
    pub published: u64,
}

/// The notes of processes in a row.
pub type NoteNumberList = Items<NoteNumber>;

/// An anchor that a look found to name its area in its kind, as it was found then, or as it was found once
/// it was loaded again for an answer.
pub struct NamedAnchor {
    pub wait: EndedWait,
    pub process: u32,
    /// The place of the anchor, from 0.
    pub place: u32,
    pub word: u64,
    /// Of the turn words that the writer had loaded before the anchor, the one that it kept last.
    pub behind: Option<ReadTurn>,
}

/// Anchors that looks found in a row.
pub type NamedAnchorList = Items<NamedAnchor>;

/// A word that a member found.
pub enum FoundWord {
    /// The word of the member of this number.
    MemberWord { number: u32, word: u64 },
    /// The word of the leader: 0, or the number of the member that leads plus 1.
    LeaderWord { word: u64 },
    /// The delay count of this number.
    DelayCount { which: u32, count: u64 },
}

/// Words that a member found in a row.
pub type FoundWordList = Items<FoundWord>;

/// A word of blocks that a member or a watcher found, and the generation that it held then.
pub struct BlockWord {
    pub generation: u64,
    pub word: u32,
    pub value: u64,
}

/// Words of blocks that were found in a row.
pub type BlockWordList = Items<BlockWord>;

/// What a member keeps of one of its processes: the words of its slot, and the marks of its turns.
pub struct ProcessSlot {
    pub process: u32,
    pub slot: Slot,
    pub marks: MarkList,
}

/// Slots of processes in a row.
pub type ProcessSlotList = Items<ProcessSlot>;

/// What a member knows.
pub struct MemberView {
    /// Its record in the progress machine, with its own word.
    pub member: Member,
    /// The generations that it has learnt of, from 0 on.
    pub seen: PublishedList,
    /// The notes that it has joined.
    pub notes: NoteNumberList,
    /// The slots of its processes, the newest store first. A process without one names nothing, and has
    /// done no turn.
    pub slots: ProcessSlotList,
    /// The words of members and of the leader, and the delay counts, that it has loaded, the newest first.
    pub found: FoundWordList,
    /// The words of blocks that it has loaded, the newest first.
    pub blocks: BlockWordList,
}

/// What a watcher knows.
pub struct WatcherView {
    /// Its record in the progress machine: the counter that it has loaded, the delay counts that it
    /// holds, and the generation that it holds since it loaded the root in its claim.
    pub watcher: Watcher,
    /// The generations that it has learnt of, from 0 on.
    pub seen: PublishedList,
    /// The words of blocks that it has loaded, the newest first.
    pub blocks: BlockWordList,
}

/// What a note knows.
pub struct NoteView {
    pub note: NoteNumber,
    pub seen: PublishedList,
}

/// Members in the order of their numbers.
pub type MemberViewList = Items<MemberView>;

/// Watchers in the order of their numbers.
pub type WatcherViewList = Items<WatcherView>;

/// What the writer knows.
pub struct WriterView {
    /// What was published, from generation 0 on.
    pub published: PublishedList,
    /// At each load of the counter, the newest generation with the counter plus 2.
    pub pairs: RetirementList,
    /// The counter as the writer last loaded it, or 0.
    pub counter: u64,
    /// The areas that were published and not released.
    pub kept: KeptList,
    /// The words behind the slots, which it alone stores, at their places in the table; what stands at
    /// the places in front of them is of no account.
    pub words: WordList,
    /// Each member, as it is while its seat is not handed out.
    pub members: MemberViewList,
    /// How many seats were handed out, first those of members, then those of watchers.
    pub handed: u32,
    /// Each watcher, as it is while its seat is not handed out, and once it came in.
    pub watchers: WatcherViewList,
    /// For each process that a note was split for, the newest generation then.
    pub notes: NoteNumberList,
    /// What it keeps of waits that are over, of anchors and turn words that it has looked at, and of its
    /// answers.
    pub looks: WriterKept,
    /// The anchors that looks found to name their area, then and when they were loaded again for an answer,
    /// the newest first.
    pub named: NamedAnchorList,
    /// The numbers of the members whose seats came in to its own.
    pub taken: CountList,
}

/// What a seat knows, whatever seat it is.
pub enum View {
    Writer(WriterView),
    Member(MemberView),
    Watcher(WatcherView),
    Note(NoteView),
    /// The seat was joined to another, which knows what it knew.
    Spent,
}
