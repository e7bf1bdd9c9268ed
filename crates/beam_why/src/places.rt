// Where a clause was found broken, in words. It is a hint.
use crate::lines::{entry_line, process_line, snapshot_line, span_line};
use legality::Place;
use run_log::RunLog;
use term_core::{ByteList, NoMemory, print_number};

/// Appends the place, as ` (entry 7, line 9)`, with the line of the report, where it is not told by `line`. Entries, spans and
/// snapshots count from 1, processes and observers from 0 as in the report.
pub fn write_place(
    log: &RunLog,
    at: Place,
    line: Option<usize>,
    out: &mut ByteList,
) -> Result<(), NoMemory> {
    match at {
        Place::Whole => Ok(()),
        Place::End => out.extend_from_slice(b" (behind the last entry)"),
        Place::Entry(place) => {
            let line = line.unwrap_or(entry_line(place));
            write_one(b" (entry ", place.saturating_add(1), line, out)
        }
        Place::Process(number) => {
            let line = line.unwrap_or(process_line(log, number));
            write_one(b" (process ", number, line, out)
        }
        Place::Span { process, span } => {
            let line = line.unwrap_or(span_line(log, process, span));
            write_two(b" (process ", process, b", span ", span, line, out)
        }
        Place::Snapshot { observer, snapshot } => {
            let line = line.unwrap_or(snapshot_line(log, observer, snapshot));
            write_two(
                b" (observer ",
                observer,
                b", snapshot ",
                snapshot,
                line,
                out,
            )
        }
    }
}

fn write_one(word: &[u8], number: usize, line: usize, out: &mut ByteList) -> Result<(), NoMemory> {
    out.extend_from_slice(word)?;
    print_number(number as u64, out)?;
    write_line(line, out)
}

fn write_two(
    word: &[u8],
    number: usize,
    other: &[u8],
    place: usize,
    line: usize,
    out: &mut ByteList,
) -> Result<(), NoMemory> {
    out.extend_from_slice(word)?;
    print_number(number as u64, out)?;
    write_one(other, place.saturating_add(1), line, out)
}

fn write_line(line: usize, out: &mut ByteList) -> Result<(), NoMemory> {
    out.extend_from_slice(b", line ")?;
    print_number(line as u64, out)?;
    out.extend_from_slice(b")")
}
