//! Which term table a change is staged in, and from when on each table is free.

ghost use Rattle.std.specs.Prelude.{◌≡◌, ◌≢◌, None};
ghost use Rattle.shared_words.specs.declared.view.WriterView.{WriterView};
ghost use Rattle.term_table.specs.Tables.{IsTableOf, IsAtFirst};

use std::marker::Model;

/// The four term tables of one shared table, as its one writer stages changes in them. It is made
/// before the writer's first step and used with no other writer.
///
/// Contracts see in which table a change is staged, and for each table the value of the progress
/// counter from which on no thread reads it.
#[derive(Drop)]
pub struct TermTable {
    pub(crate) staged: Option<u32>,
    pub(crate) needs: [u64; 4],
}

impl Model for TermTable {
    ghost use Rattle.term_table.specs.Tables.{Terms};

    ghost Value = { Terms };

    ghost view = { λ t. record { staged = t.staged; needs = t.needs } };
}

impl TermTable {
    /// Nothing is staged, and no table was active before the first.
    pub fn new() -> TermTable
        ensures nothing { result.staged ≡ None }
        ensures owned { (w : WriterView) → IsAtFirst w → IsTableOf result w }
    {
        TermTable {
            staged: None,
            needs: [0; 4],
        }
    }

    /// Drops what is staged. The active table stays, and another change may be staged.
    pub fn unstage(&mut self)
        requires staged { self.old.staged ≢ None }
        ensures nothing { self.new.staged ≡ None }
        ensures needs { self.new.needs ≡ self.old.needs }
        ensures owned { (w : WriterView) → IsTableOf self.old w → IsTableOf self.new w }
    {
        self.staged = None;
    }
}
