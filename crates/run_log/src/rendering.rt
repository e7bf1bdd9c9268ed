ghost use Rattle.std.specs.Prelude.{◌≡◌, ◌++◌, OnOk, OnErr};
ghost use Rattle.std.specs.List.{flat_map};
ghost use Rattle.std.specs.Io.{StartsWith};
ghost use Rattle.run_log.specs.Report.{who_text, entry_text, rendering_of};

mod command;
mod name;
mod observer;
mod process;
mod reply;

use crate::journal::published_count;
use crate::logs::{Entry, EntryList, RunLog, Who};
use crate::rendering::command::write_cmd;
use crate::rendering::observer::write_observers;
use crate::rendering::process::write_processes;
use crate::rendering::reply::{write_published, write_reply};
use term_core::{ByteList, Names, NoMemory, print_number};

/// Appends the report of a log, from its first line to `end report`. Names are those of the script.
///
/// Where memory is refused, nothing is appended. Layout: docs/FORMATS.md.
pub fn render(names: &Names, log: &RunLog, out: &mut ByteList) -> Result<(), NoMemory>
    ensures ok { OnOk result (out.new ≡ out.old ++ rendering_of names.now log.now) }
    ensures err { OnErr result (out.new ≡ out.old) }
{
    let start = out.len();
    let written = write_report(names, log, out);
    if written.is_err() {
        out.truncate(start);
    }
    written
}

// Each function below appends a part of the text after a refusal.

fn write_report(names: &Names, log: &RunLog, out: &mut ByteList) -> Result<(), NoMemory>
    ensures ok { OnOk result (out.new ≡ out.old ++ rendering_of names.now log.now) }
    ensures kept { StartsWith out.new out.old }
{
    out.extend_from_slice(b"beam report 1\ngenerations ")?;
    print_number(published_count(&log.journal), out)?;
    out.push(b'\n')?;
    write_entries(names, &log.journal, out)?;
    write_processes(names, &log.processes, out)?;
    write_observers(names, &log.observers, out)?;
    out.extend_from_slice(b"end report\n")
}

fn write_entries(names: &Names, journal: &EntryList, out: &mut ByteList) -> Result<(), NoMemory>
    ensures ok { OnOk result (out.new ≡ out.old ++ flat_map (entry_text names.now) journal.now) }
    ensures kept { StartsWith out.new out.old }
{
    for entry in journal.as_slice() {
        write_entry(names, entry, out)?;
    }
    Ok(())
}

fn write_entry(names: &Names, entry: &Entry, out: &mut ByteList) -> Result<(), NoMemory>
    ensures ok { OnOk result (out.new ≡ out.old ++ entry_text names.now entry.now) }
    ensures kept { StartsWith out.new out.old }
{
    out.extend_from_slice(b"entry ")?;
    write_who(entry.who, out)?;
    out.push(b' ')?;
    write_cmd(names, &entry.cmd, out)?;
    out.extend_from_slice(b" = ")?;
    write_reply(names, &entry.reply, out)?;
    out.push(b' ')?;
    write_published(entry.published, out)?;
    out.push(b'\n')
}

fn write_who(who: Who, out: &mut ByteList) -> Result<(), NoMemory>
    ensures ok { OnOk result (out.new ≡ out.old ++ who_text who) }
    ensures kept { StartsWith out.new out.old }
{
    match who {
        Who::Loader(number) => {
            out.push(b'L')?;
            print_number(u64::from(number), out)
        }
        Who::Runtime => out.extend_from_slice(b"rt"),
    }
}
