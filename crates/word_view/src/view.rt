//! A process's view of one generation over the words that all threads share.

ghost use Rattle.std.specs.Prelude.{◌≡◌};
ghost use Rattle.shared_words.specs.Processes.{AreCopied, held_by_view};
ghost use Rattle.shared_words.specs.Seats.{IsMemberSeat};
ghost use Rattle.anchors.specs.Holds.{anchors_of, view_of};
ghost use Rattle.machine_core.specs.View.{IsLawful};
ghost use Rattle.word_view.specs.Anchored.{holds_by};
ghost use Rattle.word_view.specs.Views.{IsFrom, IsReading, IsView, MayBegin, held_of_view, shown_by, shown_of_view};

use crate::began::Began;
use crate::exports::export_of;
use crate::places::{BIG_BLOCKS, FIRST_PLACE, FIRST_ROW, ROW_WORDS};
use crate::reads::{area_word, code_word};
use crate::tells::{doomed_in, retired_in};
use crate::terms::held_under;
use anchors::{drop_hold, hold};
use breakpoints::decision;
use export_table::ExportTable;
use machine_core::CodeView;
use shared_words::{Member, Served, Shared};
use std::marker::{Model, PhantomData};
use term_core::{AreaRef, AtomId, CodeRef, Found, Full, Kind, Mfa};

/// The view of the generation that a member holds, for a turn of one of its processes. It has the member's
/// token until it is taken apart.
///
/// Contracts see the token, of which table it is, the names of functions by their numbers, and the process.
#[derive(Drop)]
pub struct WordView<'a, N: Served, K: Began> {
    shared: &'a Shared<N>,
    member: Member,
    exports: &'a ExportTable,
    process: u32,
    of: PhantomData<K>,
}

impl<'a, N: Served, K: Began> Model for WordView<'a, N, K> {
    ghost use Rattle.std.specs.Coded.{codes};
    ghost use Rattle.atomic_table.specs.Seated.{table_id_coded};
    ghost use Rattle.shared_words.specs.contracts.seats.Member as member_contracts;
    ghost use Rattle.word_view.specs.Views.{IsViewFrom, Viewed};

    ghost Value = { Viewed };

    ghost coded = { Prim.hlevel (codes, table_id_coded, member_contracts.the_row.coded) };

    ghost view = { λ v. record {
      table = v.shared.now.table.shared.table_id;
      opening = v.shared.now.table.shared.key;
      token = v.member;
      names = v.exports.now;
      process = v.process;
    } };

    ghost invariant = { λ v. IsViewFrom K.began (record {
      table = v.shared.now.table.shared.table_id;
      opening = v.shared.now.table.shared.key;
      token = v.member;
      names = v.exports.now;
      process = v.process;
    }) };
}

impl<'a, N: Served, K: Began> WordView<'a, N, K> {
    /// The view of the generation that the member holds. It loads one word, which tells where the areas of the
    /// generation stand. It takes no memory.
    pub fn new(
        shared: &'a Shared<N>,
        member: Member,
        exports: &'a ExportTable,
        process: u32,
    ) -> WordView<'a, N, K>
        // the member is one of the table, and holds the generation of its root word
        requires token { IsMemberSeat shared.now.table.shared.table_id member.number member.seat }
        requires copied { AreCopied member.anchors.items (view_of member) }
        requires reading { IsReading member.root (view_of member) }
        // it may make a turn of the process
        requires begun { MayBegin exports.now shared.now.table.shared.key process (view_of member) }
        // this is what the view was, if that is picked
        requires from { IsFrom K.began (record { table = shared.now.table.shared.table_id; opening = shared.now.table.shared.key; token = member; names = exports.now; process = process }) }
        ensures shown { shown_of_view result ≡ shown_by exports.now (held_by_view (view_of member)) }
        ensures held { held_of_view result ≡ holds_by (anchors_of (view_of member) process) }
        ensures lawful { IsLawful (shown_of_view result) }
        ensures table { result.table ≡ shared.now.table.shared.table_id }
        ensures opening { result.opening ≡ shared.now.table.shared.key }
        ensures names { result.names ≡ exports.now }
        ensures process { result.process ≡ process }
    {
        let mut member = member;
        code_word(shared, &mut member, 0);
        WordView {
            shared,
            member,
            exports,
            process,
            of: PhantomData,
        }
    }

    /// The member's token, as it is after what the turn read and held: it is the one with which the view began, and
    /// knows of all other processes what it knew.
    pub fn into_member(self) -> Member
        ensures token { result ≡ self.entry.token }
        ensures is_view { IsView self.entry }
        ensures from { IsFrom K.began self.entry }
    {
        let WordView { member, .. } = self;
        member
    }
}

impl<'a, N: Served, K: Began> CodeView for WordView<'a, N, K> {
    ghost shown = { λ view. shown_of_view view };

    ghost held = { λ view. held_of_view view };

    fn export(&mut self, to: Mfa) -> Option<CodeRef> {
        match self.exports.entry(to) {
            Some(entry) => export_of(self.shared, &mut self.member, entry),
            None => None,
        }
    }

    fn entry(&mut self, at: CodeRef) -> u32 {
        let place = FIRST_ROW + ROW_WORDS * at.function + FIRST_PLACE;
        area_word(self.shared, &mut self.member, at.area.block, place) as u32
    }

    fn decision(&mut self, at: CodeRef) -> bool {
        let shared = self.shared;
        // what has a small block was dropped, and has no breakpoints
        if at.area.block >= BIG_BLOCKS {
            return false;
        }
        decision(shared, &mut self.member, at)
    }

    fn doomed(&mut self, area: AreaRef) -> bool {
        let shared = self.shared;
        if area.block >= BIG_BLOCKS {
            return false;
        }
        doomed_in(shared, &mut self.member, area)
    }

    fn retired(&mut self, area: AreaRef) -> bool {
        retired_in(self.shared, &mut self.member, area)
    }

    fn term(&mut self, key: AtomId) -> Found {
        held_under(self.shared, &mut self.member, key)
    }

    fn word(&mut self, area: AreaRef, at: u32) -> u64 {
        area_word(self.shared, &mut self.member, area.block, at)
    }

    fn hold(&mut self, area: AreaRef, kind: Kind) -> Result<(), Full> {
        hold(self.shared, &mut self.member, self.process, area, kind)
    }

    fn drop_hold(&mut self, area: AreaRef, kind: Kind) {
        drop_hold(self.shared, &mut self.member, self.process, area, kind);
    }
}
