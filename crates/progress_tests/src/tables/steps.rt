//! Events and states for the tables of steps.

use area_core::*;
use prgr_core::StepFault;
use std::alloc::Global;
use term_core::{
    AreaRef, AreaRefList, AreaWords, AreaWordsList, CodeRef, CountList, ExportList, FunctionRef,
    FunctionRefList, Generation, KeyTermList, NoMemory, WordList,
};

/// The image of an instance with one function that prints 3.
pub const IMAGE: [u64; 16] = [1, 3, 1, 1, 4, 1, 0, 8, 2, 17, 33, 6, 13, 6, 9, 34];

/// The first word of block 9, the first that is for instances.
pub const INSTANCE: u32 = 1493 + 9 * 1024;

/// The first word of block 64, the first that is for terms.
pub const TERM: u32 = 67029;

/// The word of code index 1 for function name 0.
pub const EXPORT: u32 = 1493 + 1024;

/// The retire word and the doom word of block 9.
pub const RETIRE: u32 = 1109 + 9;

pub const DOOM: u32 = 1429 + 9;

/// How many words the table has: the number of the first that it lacks.
pub const PAST: u32 = 83413;

/// A member that reads, and the other one.
pub const READER: SeatName = SeatName::Member(0);

/// The function of the instance.
const MAIN: FunctionRef = FunctionRef {
    serial: 1,
    function: 0,
};

/// The instance in a block.
fn area(block: u32) -> AreaRef {
    AreaRef { serial: 1, block }
}

// ---- events

/// An event in plain values.
#[derive(Clone, Copy)]
pub enum Step {
    LoadCounter(SeatName),
    LoadRoot(SeatName),
    Confirm {
        member: u32,
        value: u64,
    },
    LoadConfirmed {
        member: u32,
        other: u32,
    },
    StoreCounter(u32),
    TakeLead(u32),
    DropLead(u32),
    LoadDelay {
        member: u32,
        which: u32,
    },
    AddDelay {
        watcher: u32,
        which: u32,
    },
    SubDelay {
        watcher: u32,
        which: u32,
    },
    LoadWord {
        seat: SeatName,
        word: u32,
    },
    StoreWord {
        word: u32,
        value: u64,
    },
    StoreSlot {
        process: u32,
        place: u32,
        value: u64,
    },
    LoadSlot {
        process: u32,
        place: u32,
    },
    SplitNote(u32),
    JoinNote(u32),
    StoreWaiting(u32),
    StoreEntering(u32),
    StoreEntry {
        function: u32,
        on: bool,
    },
    StoreRoot(NextRoot),
}

/// What a store of the root publishes: the instance in a block, over these indices, with its function traced or not.
#[derive(Clone, Copy)]
pub struct NextRoot {
    block: u32,
    code: u32,
    bp: u32,
    traced: bool,
}

pub fn store(word: u32, value: u64) -> Step {
    Step::StoreWord { word, value }
}

pub fn load(seat: SeatName, word: u32) -> Step {
    Step::LoadWord { seat, word }
}

/// A load of the counter.
pub fn counter(seat: SeatName) -> Step {
    Step::LoadCounter(seat)
}

/// A load of the root.
pub fn newest(seat: SeatName) -> Step {
    Step::LoadRoot(seat)
}

pub fn confirm(member: u32, value: u64) -> Step {
    Step::Confirm { member, value }
}

/// A load of what another member has confirmed.
pub fn confirmed(member: u32, other: u32) -> Step {
    Step::LoadConfirmed { member, other }
}

/// A load of a delay count by the leader.
pub fn delay(member: u32, which: u32) -> Step {
    Step::LoadDelay { member, which }
}

pub fn add(watcher: u32, which: u32) -> Step {
    Step::AddDelay { watcher, which }
}

pub fn subtract(watcher: u32, which: u32) -> Step {
    Step::SubDelay { watcher, which }
}

/// A store into a slot by member 0.
pub fn slot(process: u32, place: u32, value: u64) -> Step {
    Step::StoreSlot {
        process,
        place,
        value,
    }
}

/// A load of a word of a slot.
pub fn look(process: u32, place: u32) -> Step {
    Step::LoadSlot { process, place }
}

/// A store of the entry word of a function of the instance.
pub fn entry(function: u32, on: bool) -> Step {
    Step::StoreEntry { function, on }
}

/// The store of the root that publishes this over these indices, with the instance in a block.
pub fn root_in(block: u32, code: u32, bp: u32, traced: bool) -> Step {
    Step::StoreRoot(NextRoot {
        block,
        code,
        bp,
        traced,
    })
}

/// The same over code index 1, with the instance in block 9.
pub fn root(bp: u32, traced: bool) -> Step {
    root_in(9, 1, bp, traced)
}

/// A generation with the instance as current code, whose function is traced or not.
fn loaded(alloc: Global, traced: bool) -> Result<Generation, NoMemory> {
    let mut traces = FunctionRefList::new(alloc);
    if traced {
        traces.push(MAIN)?;
    }
    let mut areas = AreaWordsList::new(alloc);
    let words = WordList::from_slice(alloc, &IMAGE)?;
    areas.push(AreaWords { serial: 1, words })?;
    Ok(Generation {
        exports: ExportList::from_slice(alloc, &[Some(MAIN)])?,
        traced: traces,
        keys: KeyTermList::new(alloc),
        current: CountList::from_slice(alloc, &[1])?,
        old: CountList::new(alloc),
        doomed: CountList::new(alloc),
        retired: CountList::new(alloc),
        areas,
    })
}

fn publication(alloc: Global, root: NextRoot) -> Result<AreaEvent, NoMemory> {
    Ok(AreaEvent::StoreRoot {
        code: root.code,
        bp: root.bp,
        term: 0,
        next: loaded(alloc, root.traced)?,
        areas: AreaRefList::from_slice(alloc, &[area(root.block)])?,
    })
}

/// The event of a step.
fn event_of(alloc: Global, step: Step) -> Result<AreaEvent, NoMemory> {
    let event = match step {
        Step::LoadCounter(seat) => AreaEvent::LoadCounter { seat },
        Step::LoadRoot(seat) => AreaEvent::LoadRoot { seat },
        Step::Confirm { member, value } => AreaEvent::Confirm { member, value },
        Step::LoadConfirmed { member, other } => AreaEvent::LoadConfirmed { member, other },
        Step::StoreCounter(member) => AreaEvent::StoreCounter { member },
        Step::TakeLead(member) => AreaEvent::TakeLead { member },
        Step::DropLead(member) => AreaEvent::DropLead { member },
        Step::LoadDelay { member, which } => AreaEvent::LoadDelay { member, which },
        Step::AddDelay { watcher, which } => AreaEvent::AddDelay { watcher, which },
        Step::SubDelay { watcher, which } => AreaEvent::SubDelay { watcher, which },
        Step::LoadWord { seat, word } => AreaEvent::LoadWord { seat, word },
        Step::StoreWord { word, value } => AreaEvent::StoreWord { word, value },
        Step::StoreSlot {
            process,
            place,
            value,
        } => AreaEvent::StoreSlot {
            member: 0,
            process,
            place,
            value,
        },
        Step::LoadSlot { process, place } => AreaEvent::LoadSlot { process, place },
        Step::SplitNote(process) => AreaEvent::SplitNote { process },
        Step::JoinNote(member) => AreaEvent::JoinNote { member },
        Step::StoreWaiting(member) => AreaEvent::StoreWaiting { member },
        Step::StoreEntering(member) => AreaEvent::StoreEntering { member },
        Step::StoreEntry { function, on } => {
            let at = CodeRef {
                area: area(9),
                function,
            };
            AreaEvent::StoreEntry { at, on }
        }
        Step::StoreRoot(root) => return publication(alloc, root),
    };
    Ok(event)
}

// ---- states

/// Makes one event.
fn make(state: &mut AreaState, alloc: Global, step: Step) -> Result<(), StepFault> {
    match event_of(alloc, step) {
        Ok(event) => area_step(state, &event),
        Err(_) => Err(StepFault::NoMemory),
    }
}

/// Makes the words stand for the instance in the block of this first word, to which code index 1 leads by this
/// word.
fn stage(state: &mut AreaState, alloc: Global, first: u32, leads: u64) -> Result<(), StepFault> {
    for at in 0..16 {
        make(
            state,
            alloc,
            store(first.saturating_add(at), IMAGE[at as usize]),
        )?;
    }
    make(state, alloc, store(EXPORT, leads))
}

/// Makes generation 1, which has the instance as current code in block 9.
fn publish_code(state: &mut AreaState, alloc: Global) -> Result<(), StepFault> {
    stage(state, alloc, INSTANCE, 1 + 9 * 16)?;
    make(state, alloc, root(0, false))
}

/// Makes the steps in turn; answers the place of the first that is enabled and should not be, or is not and
/// should.
fn first_untold(state: &mut AreaState, alloc: Global, steps: &[(Step, bool)]) -> Option<usize> {
    for (place, (step, enabled)) in steps.iter().enumerate() {
        let wanted = if *enabled {
            Ok(())
        } else {
            Err(StepFault::NotEnabled)
        };
        if make(state, alloc, *step) != wanted {
            return Some(place);
        }
    }
    None
}

fn follow_code(
    state: &mut AreaState,
    alloc: Global,
    steps: &[(Step, bool)],
) -> Result<Option<usize>, StepFault> {
    publish_code(state, alloc)?;
    Ok(first_untold(state, alloc, steps))
}

fn follow_staged(
    state: &mut AreaState,
    alloc: Global,
    steps: &[(Step, bool)],
) -> Result<Option<usize>, StepFault> {
    stage(state, alloc, TERM, 1 + 64 * 16)?;
    Ok(first_untold(state, alloc, steps))
}

/// Whether each step of two members and a watcher is as told, behind the generation in which the instance is
/// current.
pub fn follows(alloc: Global, steps: &[(Step, bool)]) -> bool {
    match AreaState::new(alloc, 2, 1) {
        Ok(mut state) => follow_code(&mut state, alloc, steps) == Ok(None),
        Err(_) => false,
    }
}

/// The same where the words stand for the instance in block 64, to which the code index leads.
pub fn follows_staged(alloc: Global, steps: &[(Step, bool)]) -> bool {
    match AreaState::new(alloc, 2, 1) {
        Ok(mut state) => follow_staged(&mut state, alloc, steps) == Ok(None),
        Err(_) => false,
    }
}
