//! The stores of the writer that drop an area: by which it is released, or an instance is purged.

ghost use Rattle.std.specs.Prelude.{◌≡◌, ◌+◌, ◌^◌, ◌<◌, length};
ghost use Rattle.area_core.specs.declared.map.TheConstants.{TABLE_WORDS};
ghost use Rattle.area_core.specs.Map.{retire_place};
ghost use Rattle.marks.specs.declared.kept.LookKind.TheVariants as kinds;
ghost use Rattle.shared_words.specs.declared.view.View.TheVariants as views;
ghost use Rattle.shared_words.specs.Seats.{IsSeatOf, IsWriterSeat, IsSameSeat, writer_of};
ghost use Rattle.shared_words.specs.Slots.{IsClear};
ghost use Rattle.shared_words.specs.Publishing.{MayStoreWord, with_word, IsRootOf, MayPublish, with_next};
ghost use Rattle.shared_words.specs.Drops.{AgreesWithLooks, drop_of, with_drop};

use crate::law::Served;
use crate::pass::Words;
use crate::plays::{StoreRelease, StoreRootDropping};
use crate::seats::Writer;
use crate::table::{ROOT, Shared};
use crate::view::View;
use crate::writer::{Next, root_word};
use atomic_table::Seat;
use std::marker::Brand;
use term_core::AreaRef;

/// The first retire word; there is one for each block.
const RETIRED: u32 = 1109;

/// The serial of the area that is dropped. The proof of a call picks it.
pub trait Dropped {
    ghost use Rattle.std.specs.Prelude.{ℕ};

    ghost serial: { ℕ };
}

impl Dropped for Brand {
    ghost serial = { 0 };
}

/// Stores 0 into the retire word of the block; the area that was picked is dropped in both kinds.
fn release_at<N: Served, K: Dropped>(
    table: &Words<N>,
    writer: &mut Seat<(), View>,
    block: u32,
    _serial: u64,
)
    requires picked { _serial ≡ K.serial }
    requires token { IsSeatOf table.now.table_id writer.old }
    requires writer { writer.old.me.0 ≡ views.Writer (writer_of writer.old.me.0) }
    requires sized { table.now.table_id.words ≡ TABLE_WORDS }
    requires may { MayStoreWord (writer_of writer.old.me.0) (retire_place block) 0 }
    requires clear { IsClear (writer_of writer.old.me.0) kinds.Both K.serial }
    ensures token { IsSameSeat writer.old writer.new }
    ensures view { writer.new.me.0 ≡ views.Writer (with_drop (drop_of (writer_of writer.old.me.0) kinds.Both K.serial) (with_word (retire_place block) 0 (writer_of writer.old.me.0))) }
{
    table.store::<StoreRelease<K>>(writer, RETIRED as usize + block as usize, 0);
}

/// Stores the root word of the generation after this one, by which the instance that was picked is
/// dropped for frames.
fn root_at<N: Served, M: Next, K: Dropped>(
    table: &Words<N>,
    writer: &mut Seat<(), View>,
    code: u32,
    bp: u32,
    term: u32,
    generation: u64,
    _serial: u64,
)
    // the seat is the writer's, and the area that of the call
    requires picked { _serial ≡ K.serial }
    requires token { IsSeatOf table.now.table_id writer.old }
    requires writer { writer.old.me.0 ≡ views.Writer (writer_of writer.old.me.0) }
    requires sized { table.now.table_id.words ≡ TABLE_WORDS }
    // its words stand for what is next, and a look was clear of the instance
    requires root { IsRootOf M.next.root code bp term }
    requires may { MayPublish N.served (writer_of writer.old.me.0) M.next }
    requires clear { IsClear (writer_of writer.old.me.0) kinds.Frame K.serial }
    // this is the newest generation
    requires published { length (writer_of writer.old.me.0).published ≡ generation + 1 }
    requires room { generation + 1 < 2 ^ 59 }
    // what the writer knows then
    ensures token { IsSameSeat writer.old writer.new }
    ensures view { writer.new.me.0 ≡ views.Writer (with_drop (drop_of (writer_of writer.old.me.0) kinds.Frame K.serial) (with_next M.next (writer_of writer.old.me.0))) }
    ensures agree { AgreesWithLooks (writer_of writer.old.me.0).looks (drop_of (writer_of writer.old.me.0) kinds.Frame K.serial) }
{
    let root = root_word(code, bp, term, generation + 1);
    table.store::<StoreRootDropping<M, K>>(writer, ROOT as usize, root);
}

impl<N: Served> Shared<N> {
    /// Stores 0 into the retire word of an area's block, and keeps that the area was dropped: no slot
    /// names it, and the last turn of each process up to the newest generation did not. A look in both
    /// kinds was clear of it.
    ///
    /// Source: Erlang/OTP, the manual page of persistent_term; the words are this project's own.
    pub fn store_release(&self, writer: &mut Writer, area: AreaRef)
        requires token { IsWriterSeat self.now.table.shared.table_id self.now.table.shared.key writer.old.generation writer.old.seat }
        requires may { MayStoreWord (writer_of writer.old.seat.me.0) (retire_place area.block) 0 }
        requires clear { IsClear (writer_of writer.old.seat.me.0) kinds.Both area.serial }
        ensures token { IsWriterSeat self.now.table.shared.table_id self.now.table.shared.key writer.new.generation writer.new.seat }
        ensures same { IsSameSeat writer.old.seat writer.new.seat }
        ensures generation { writer.new.generation ≡ writer.old.generation }
        ensures view { writer.new.seat.me.0 ≡ views.Writer (with_drop (drop_of (writer_of writer.old.seat.me.0) kinds.Both area.serial) (with_word (retire_place area.block) 0 (writer_of writer.old.seat.me.0))) }
    {
        release_at::<N, Brand>(
            &self.table.shared,
            &mut writer.seat,
            area.block,
            area.serial,
        );
    }

    /// Stores the root of the next generation, as `store_root` does, and keeps that an instance was
    /// dropped by it: no slot names it for a frame, the last turn of each process up to the generation
    /// before did not, and which processes it has killed. A look for frames was clear of it. All looks
    /// that are kept of the instance agree on whom it killed.
    ///
    /// Source: Erlang/OTP, the manual page of the module code (purge, soft_purge); the words are this
    /// project's own.
    pub fn store_root_dropping<M: Next>(
        &self,
        writer: &mut Writer,
        code: u32,
        bp: u32,
        term: u32,
        area: AreaRef,
    )
        requires token { IsWriterSeat self.now.table.shared.table_id self.now.table.shared.key writer.old.generation writer.old.seat }
        requires root { IsRootOf M.next.root code bp term }
        requires may { MayPublish N.served (writer_of writer.old.seat.me.0) M.next }
        requires clear { IsClear (writer_of writer.old.seat.me.0) kinds.Frame area.serial }
        requires room { writer.old.generation + 1 < 2 ^ 59 }
        ensures token { IsWriterSeat self.now.table.shared.table_id self.now.table.shared.key writer.new.generation writer.new.seat }
        ensures same { IsSameSeat writer.old.seat writer.new.seat }
        ensures generation { writer.new.generation ≡ writer.old.generation + 1 }
        ensures view { writer.new.seat.me.0 ≡ views.Writer (with_drop (drop_of (writer_of writer.old.seat.me.0) kinds.Frame area.serial) (with_next M.next (writer_of writer.old.seat.me.0))) }
        ensures agree { AgreesWithLooks (writer_of writer.old.seat.me.0).looks (drop_of (writer_of writer.old.seat.me.0) kinds.Frame area.serial) }
    {
        let generation = writer.generation;
        root_at::<N, M, Brand>(
            &self.table.shared,
            &mut writer.seat,
            code,
            bp,
            term,
            generation,
            area.serial,
        );
        writer.generation = generation + 1;
    }
}
