//! The text of what observers saw.

ghost use Rattle.std.specs.Prelude.{◌≡◌, ◌++◌, OnOk};
ghost use Rattle.std.specs.Io.{StartsWith};
ghost use Rattle.run_log.specs.Report.{export_text, snapshot_text, observer_text, observers_text};

use crate::logs::{ObserverList, Snapshot, SnapshotList};
use crate::rendering::name::write_mfa;
use term_core::{ByteList, Mfa, Names, NoMemory, print_number};

/// Appends the lines of all observers. After a refusal a part of them may stand.
pub fn write_observers(
    names: &Names,
    observers: &ObserverList,
    out: &mut ByteList,
) -> Result<(), NoMemory>
    ensures ok { OnOk result (out.new ≡ out.old ++ observers_text names.now 0 observers.now) }
    ensures kept { StartsWith out.new out.old }
{
    for (number, shots) in observers.as_slice().iter().enumerate() {
        write_observer(names, number as u64, shots, out)?;
    }
    Ok(())
}

fn write_observer(
    names: &Names,
    number: u64,
    shots: &SnapshotList,
    out: &mut ByteList,
) -> Result<(), NoMemory>
    ensures ok { OnOk result (out.new ≡ out.old ++ observer_text names.now number shots.now) }
    ensures kept { StartsWith out.new out.old }
{
    out.extend_from_slice(b"observer ")?;
    print_number(number, out)?;
    out.push(b'\n')?;
    for shot in shots.as_slice() {
        write_snapshot(names, shot, out)?;
    }
    Ok(())
}

fn write_snapshot(names: &Names, shot: &Snapshot, out: &mut ByteList) -> Result<(), NoMemory>
    ensures ok { OnOk result (out.new ≡ out.old ++ snapshot_text names.now shot.now) }
    ensures kept { StartsWith out.new out.old }
{
    out.extend_from_slice(b"snapshot ")?;
    print_number(shot.generation, out)?;
    out.push(b'\n')?;
    for export in shot.exports.as_slice() {
        write_export(names, export.0, export.1, out)?;
    }
    Ok(())
}

fn write_export(names: &Names, to: Mfa, serial: u64, out: &mut ByteList) -> Result<(), NoMemory>
    ensures ok { OnOk result (out.new ≡ out.old ++ export_text names.now (to, serial)) }
    ensures kept { StartsWith out.new out.old }
{
    out.extend_from_slice(b"export ")?;
    write_mfa(names, to, out)?;
    out.push(b' ')?;
    print_number(serial, out)?;
    out.push(b'\n')
}
