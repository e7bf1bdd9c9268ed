//! The answer that a process lingers in an old instance.

ghost use Rattle.std.specs.Prelude.{◌≡◌, ◌<◌, ◌≤◌};
ghost use Rattle.area_core.specs.declared.map.TheConstants.{TABLE_WORDS};
ghost use Rattle.shared_words.specs.declared.table.TheConstants.{PROCESSES, ANCHORS};
ghost use Rattle.shared_words.specs.declared.view.View.TheVariants as views;
ghost use Rattle.shared_words.specs.Seats.{IsSeatOf, IsSameSeat, IsWriterSeat, writer_of};
ghost use Rattle.shared_words.specs.Lingering.{lingering_of, IsLooked, lingering_found};

use crate::law::Served;
use crate::pass::Words;
use crate::plays::LoadLingering;
use crate::seats::Writer;
use crate::slots::slot_word;
use crate::table::Shared;
use crate::view::View;
use atomic_table::Seat;
use std::marker::Brand;
use term_core::AreaRef;

/// The instance of which a load asks, and how many turns its process had done when a look read its turn
/// word. The proof of a call picks both.
pub trait Lingered {
    ghost use Rattle.std.specs.Prelude.{ℕ};

    ghost serial: { ℕ };

    ghost turns: { ℕ };
}

impl Lingered for Brand {
    ghost serial = { 0 };

    ghost turns = { 0 };
}

/// Loads an anchor for the answer that was picked.
fn linger_at<N: Served, K: Lingered>(
    table: &Words<N>,
    writer: &mut Seat<(), View>,
    process: u32,
    place: u32,
    _area: AreaRef,
    _turns: u32,
) -> u64
    requires area { _area.serial ≡ K.serial }
    requires turns { _turns ≡ K.turns }
    requires token { IsSeatOf table.now.table_id writer.old }
    requires writer { writer.old.me.0 ≡ views.Writer (writer_of writer.old.me.0) }
    requires sized { table.now.table_id.words ≡ TABLE_WORDS }
    requires process { process < PROCESSES }
    requires place { (1 ≤ place) × (place ≤ ANCHORS) }
    requires looked { IsLooked (writer_of writer.old.me.0) process K.serial K.turns }
    ensures token { IsSameSeat writer.old writer.new }
    ensures view { writer.new.me.0 ≡ views.Writer (lingering_found place result (lingering_of (writer_of writer.old.me.0) process K.serial K.turns) (writer_of writer.old.me.0)) }
{
    table.load::<LoadLingering<K>>(writer, slot_word(process, place))
}

impl<N: Served> Shared<N> {
    /// Loads an anchor of a process again, after a look for frames of an old instance that found it; the
    /// anchors are counted from 1. The look read that the process had done `turns` turns, and the
    /// generation of its wait is still the newest. Where the anchor names the instance for a frame, the
    /// writer keeps the answer that the process lingers in it after that turn; in each case it keeps the
    /// anchor as it was found.
    ///
    /// Source: Erlang/OTP, the manual page of the module code (check_process_code, soft_purge); the words
    /// are this project's own.
    pub fn load_lingering(
        &self,
        writer: &mut Writer,
        process: u32,
        place: u32,
        area: AreaRef,
        turns: u32,
    ) -> u64
        requires token { IsWriterSeat self.now.table.shared.table_id self.now.table.shared.key writer.old.generation writer.old.seat }
        requires process { process < PROCESSES }
        requires place { (1 ≤ place) × (place ≤ ANCHORS) }
        requires looked { IsLooked (writer_of writer.old.seat.me.0) process area.serial turns }
        ensures token { IsWriterSeat self.now.table.shared.table_id self.now.table.shared.key writer.new.generation writer.new.seat }
        ensures same { IsSameSeat writer.old.seat writer.new.seat }
        ensures generation { writer.new.generation ≡ writer.old.generation }
        ensures view { writer.new.seat.me.0 ≡ views.Writer (lingering_found place result (lingering_of (writer_of writer.old.seat.me.0) process area.serial turns) (writer_of writer.old.seat.me.0)) }
    {
        linger_at::<N, Brand>(
            &self.table.shared,
            &mut writer.seat,
            process,
            place,
            area,
            turns,
        )
    }
}
