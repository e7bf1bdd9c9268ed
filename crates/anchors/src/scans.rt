//! The look through the slots of all processes.

ghost use Rattle.std.specs.Prelude.{◌≡◌, ◌<◌};
ghost use Rattle.marks.specs.Names.{names_in, tells_kill};
ghost use Rattle.shared_words.specs.declared.table.TheConstants.{PROCESSES};
ghost use Rattle.shared_words.specs.Seats.{IsWriterSeat, IsSameSeat, writer_of};
ghost use Rattle.shared_words.specs.Slots.{IsLookKind, look_kind, LookMayBegin};
ghost use Rattle.anchors.specs.Scans.{scan_wait, LooksMore, SlotCause, ScanCause, ScanMeans};

use crate::answers::Scan;
use shared_words::{ANCHORS, PROCESSES, Served, Shared, Writer};
use term_core::{AreaRef, Kind};

/// What a look through one slot found.
#[derive(Drop)]
enum SlotScan {
    Named { turn: u32, place: u32, word: u64 },
    Clear { killed: bool },
}

/// Whether the word of an anchor names an area in the kind that a look asks for.
fn names(word: u64, serial: u64, kind: Option<Kind>) -> bool
    requires kind { IsLookKind kind }
    ensures { result ≡ names_in (look_kind kind) word serial }
{
    let named = match kind {
        Some(_) => word % 2 == 1,
        None => word % 4 != 0,
    };
    named && word / 4 == serial
}

/// Whether the word of an anchor tells that the instance killed its process.
fn tells_of_kill(word: u64, serial: u64) -> bool
    ensures { result ≡ tells_kill word serial }
{
    word % 4 == 0 && word / 4 == serial && serial != 0
}

/// Looks at the anchors of one slot, after its turn word, up to the first that names the area.
fn scan_slot<N: Served>(
    shared: &Shared<N>,
    writer: &mut Writer,
    process: u32,
    area: AreaRef,
    kind: Option<Kind>,
) -> SlotScan
    requires token { IsWriterSeat shared.now.table.shared.table_id shared.now.table.shared.key writer.old.generation writer.old.seat }
    requires process { process < PROCESSES }
    requires kind { IsLookKind kind }
    requires may { LookMayBegin (writer_of writer.old.seat.me.0) (look_kind kind) area.serial }
    ensures token { IsWriterSeat shared.now.table.shared.table_id shared.now.table.shared.key writer.new.generation writer.new.seat }
    ensures same { IsSameSeat writer.old.seat writer.new.seat }
    ensures generation { writer.new.generation ≡ writer.old.generation }
    ensures more { LooksMore (writer_of writer.old.seat.me.0) (writer_of writer.new.seat.me.0) }
    ensures cause { SlotCause (scan_wait (writer_of writer.old.seat.me.0) kind area.serial) process (writer_of writer.old.seat.me.0) (writer_of writer.new.seat.me.0) result }
{
    let turn = shared.load_slot(writer, process, 0, Some((area, kind))) as u32;
    let mut killed = false;
    for place in 1..ANCHORS + 1 {
        let word = shared.load_slot(writer, process, place, Some((area, kind)));
        if names(word, area.serial, kind) {
            return SlotScan::Named { turn, place, word };
        }
        killed |= tells_of_kill(word, area.serial);
    }
    SlotScan::Clear { killed }
}

/// Looks through the slots of all processes, each after its turn word, for an anchor that names the area:
/// for a frame, or, where no kind is asked for, for either kind. The wait for it is over. Once no anchor
/// names it, none ever does.
///
/// Source: Erlang/OTP, the manual page of the module code (check_process_code, purge); anchors are this
/// project's own.
pub fn scan<N: Served>(
    shared: &Shared<N>,
    writer: &mut Writer,
    area: AreaRef,
    kind: Option<Kind>,
) -> Scan
    requires token { IsWriterSeat shared.now.table.shared.table_id shared.now.table.shared.key writer.old.generation writer.old.seat }
    requires kind { IsLookKind kind }
    requires may { LookMayBegin (writer_of writer.old.seat.me.0) (look_kind kind) area.serial }
    ensures token { IsWriterSeat shared.now.table.shared.table_id shared.now.table.shared.key writer.new.generation writer.new.seat }
    ensures same { IsSameSeat writer.old.seat writer.new.seat }
    ensures generation { writer.new.generation ≡ writer.old.generation }
    ensures more { LooksMore (writer_of writer.old.seat.me.0) (writer_of writer.new.seat.me.0) }
    ensures cause { ScanCause (scan_wait (writer_of writer.old.seat.me.0) kind area.serial) (writer_of writer.old.seat.me.0) (writer_of writer.new.seat.me.0) result }
    ensures means { ScanMeans N.served shared.now.table.shared.key (writer_of writer.new.seat.me.0) (look_kind kind) area.serial result }
{
    let mut killed = false;
    for process in 0..PROCESSES {
        match scan_slot(shared, writer, process, area, kind) {
            SlotScan::Named { turn, place, word } => {
                return Scan::Named {
                    process,
                    turn,
                    place,
                    word,
                };
            }
            SlotScan::Clear { killed: told } => killed |= told,
        }
    }
    Scan::Clear { killed }
}
