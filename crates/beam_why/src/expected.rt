// What was expected where a log breaks a clause, as it is put into words.
use run_log::{EntryList, ObserverList, ProcessLogList, RunLog};
use std::alloc::Global;
use term_core::{ByteList, NoMemory, print_number};

/// What was expected where a log breaks a clause, in words. It is a hint: no contract says that it is right.
#[derive(Drop)]
pub struct Expected {
    pub words: ByteList,
    /// A small log, whose report shows what the words quote.
    pub page: RunLog,
}

impl Expected {
    /// Nothing was said yet.
    pub fn new(alloc: Global) -> Expected {
        Expected {
            words: ByteList::new(alloc),
            page: RunLog {
                journal: EntryList::new(alloc),
                processes: ProcessLogList::new(alloc),
                observers: ObserverList::new(alloc),
            },
        }
    }

    /// Says these words too.
    pub fn say(&mut self, words: &[u8]) -> Result<(), NoMemory> {
        self.words.extend_from_slice(words)
    }

    /// Says these words too, and a number behind them.
    pub fn say_number(&mut self, words: &[u8], number: u64) -> Result<(), NoMemory> {
        self.say(words)?;
        print_number(number, &mut self.words)
    }
}
