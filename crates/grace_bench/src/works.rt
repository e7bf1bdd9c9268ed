//! What the words after the program's name ask for.

use term_core::narrow_of;

/// A kind of work, and how often it is done.
#[derive(Clone, Copy, Debug, PartialEq, Eq)]
pub enum Work {
    /// `report N`: one member reports, and nobody waits.
    Report { times: u32 },
    /// `wait R N`: the writer waits for grace periods beneath so many threads, from 1 to 16, that report
    /// all the time.
    Wait { readers: u32, times: u32 },
    /// `hold N`: a process names an area and drops it.
    Hold { times: u32 },
    /// `scan N`: the writer looks through the slots of all processes for an area that none names.
    Scan { times: u32 },
    /// `delay N`: a watcher delays progress and resumes.
    Delay { times: u32 },
    /// `load N`: the writer loads all anchors of all processes.
    Load { times: u32 },
}

/// A little of each work.
pub const LITTLE: [Work; 8] = [
    Work::Report { times: 1000 },
    Work::Wait {
        readers: 1,
        times: 100,
    },
    Work::Wait {
        readers: 2,
        times: 100,
    },
    Work::Wait {
        readers: 4,
        times: 10,
    },
    Work::Hold { times: 1000 },
    Work::Scan { times: 10 },
    Work::Delay { times: 1000 },
    Work::Load { times: 10 },
];

/// The work that these words ask for.
pub fn work_of(words: &[String]) -> Option<Work> {
    match words {
        [name, times] => work_named(name.as_str(), narrow_of(times.as_bytes())?),
        [name, readers, times] if name.as_str() == "wait" => Some(Work::Wait {
            readers: narrow_of(readers.as_bytes())?,
            times: narrow_of(times.as_bytes())?,
        }),
        _ => None,
    }
}

/// The work of this name that needs a count alone.
fn work_named(name: &str, times: u32) -> Option<Work> {
    match name {
        "report" => Some(Work::Report { times }),
        "hold" => Some(Work::Hold { times }),
        "scan" => Some(Work::Scan { times }),
        "delay" => Some(Work::Delay { times }),
        "load" => Some(Work::Load { times }),
        _ => None,
    }
}
