//! Which code index exports are staged in.

ghost use Rattle.std.specs.Prelude.{◌≡◌, ◌≢◌};
ghost use Rattle.shared_words.specs.declared.view.WriterView.{WriterView};
ghost use Rattle.code_index.specs.declared.index.Staging.TheVariants as staging;
ghost use Rattle.code_index.specs.Staging.{IsIndexOf, IsAtFirst, block_of};

use std::marker::Model;

/// How far the staging of exports is.
#[derive(Clone, Copy, Debug, PartialEq, Eq, Drop)]
pub enum Staging {
    /// Nothing is staged.
    Nothing,
    /// Exports are staged in the code index of this number, from 0.
    Staged { block: u32 },
    /// They are to be published once the progress counter has reached this value.
    Committing { block: u32, need: u64 },
}

/// The three code indices of one shared table, as its one writer stages exports in them. It is made
/// before the writer's first step and used with no other writer.
///
/// Contracts see how far the staging is.
#[derive(Drop)]
pub struct CodeIndex {
    pub(crate) staging: Staging,
}

impl Model for CodeIndex {
    ghost use Rattle.code_index.specs.declared.index.Staging.{Staging};

    ghost Value = { Staging };

    ghost view = { λ index. index.staging };
}

impl Staging {
    /// The code index that is staged; the first one where nothing is.
    pub(crate) fn block(self) -> u32
        ensures { result ≡ block_of self }
    {
        match self {
            Staging::Nothing => 0,
            Staging::Staged { block } => block,
            Staging::Committing { block, .. } => block,
        }
    }
}

impl CodeIndex {
    /// Nothing is staged.
    pub fn new() -> CodeIndex
        ensures nothing { result ≡ staging.Nothing }
        ensures owned { (w : WriterView) → IsAtFirst w → IsIndexOf result w }
    {
        CodeIndex {
            staging: Staging::Nothing,
        }
    }

    /// Drops what is staged. The active index stays, and another start may follow.
    pub fn abort(&mut self)
        requires staged { self.old ≢ staging.Nothing }
        ensures nothing { self.new ≡ staging.Nothing }
        ensures owned { (w : WriterView) → IsIndexOf self.old w → IsIndexOf self.new w }
    {
        self.staging = Staging::Nothing;
    }
}
