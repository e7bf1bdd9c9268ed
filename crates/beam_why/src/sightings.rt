// What is looked at while a process goes along its log: its lines, and whether it stands where soft purges tell it.
use crate::standing::{names, stands_in};
use machine_core::{LineList, Process};
use std::alloc::Global;
use term_core::NoMemory;

/// That a process lingers, as the soft purge at this place of the journal tells it: after this turn it stands in the old code
/// with this serial.
#[derive(Clone, Copy)]
pub struct Telling {
    pub turn: u32,
    pub place: usize,
    pub serial: u64,
}

/// What is asked of a process at the end of its way.
#[derive(Clone, Copy)]
pub enum Asked {
    Nothing,
    /// Whether a frame of it runs the instance with this serial.
    Stands(u64),
    /// Whether it names the area with this serial in any way.
    Names(u64),
}

/// What is looked for on the way of a process, and what was seen of it so far.
#[derive(Drop)]
pub struct Sightings {
    /// The lines of the newest turn.
    pub made: LineList,
    /// How many turns of the newest span it has had.
    pub turns: u64,
    /// How many lines these made.
    pub lines: usize,
    /// What is told of it, in the order of its turns.
    tellings: Vec<Telling>,
    /// How many of them are past.
    past: usize,
    /// The first place of the journal where it is told of the process what was seen not to be so.
    pub absent: Option<usize>,
    pub asked: Asked,
    /// Whether it is so at the end of the way, where that is known.
    pub is_so: bool,
}

impl Sightings {
    /// Of one of whom nothing is told or asked.
    pub fn new(alloc: Global) -> Sightings {
        Sightings {
            made: LineList::new(alloc),
            turns: 0,
            lines: 0,
            tellings: Vec::new(alloc),
            past: 0,
            absent: None,
            asked: Asked::Nothing,
            is_so: false,
        }
    }

    /// This is told of the process too.
    pub fn tell(&mut self, telling: Telling) -> Result<(), NoMemory> {
        self.tellings.push(telling)?;
        Ok(())
    }

    /// All is told that is told of the process: it comes into the order of its turns.
    pub fn sort(&mut self) {
        self.tellings.sort_unstable_by_key(|telling| telling.turn);
    }

    /// Begins a span.
    pub fn begin_span(&mut self) {
        self.turns = 0;
        self.lines = 0;
    }

    /// Takes in that one more turn of the span made its lines. Answers how many lines the turns before it made.
    pub fn take_turn(&mut self) -> usize {
        let before = self.lines;
        self.turns = self.turns.saturating_add(1);
        self.lines = before.saturating_add(self.made.len());
        before
    }

    /// Looks at the process behind a turn of it.
    pub fn look(&mut self, process: &Process) {
        let Some(ahead) = self.tellings.get(self.past..) else {
            return;
        };
        for telling in ahead {
            if telling.turn > process.turns {
                return;
            }
            self.past = self.past.saturating_add(1);
            if telling.turn == process.turns && !stands_in(process, telling.serial) {
                self.absent = Some(first_of(self.absent, telling.place));
            }
        }
    }

    /// Looks at the process at the end of its way.
    pub fn look_last(&mut self, process: &Process) {
        self.look(process);
        self.is_so = match self.asked {
            Asked::Nothing => false,
            Asked::Stands(serial) => stands_in(process, serial),
            Asked::Names(serial) => names(process, serial),
        };
    }
}

/// The first of a place, if there is one, and another.
fn first_of(place: Option<usize>, other: usize) -> usize {
    place.map_or(other, |place| place.min(other))
}
