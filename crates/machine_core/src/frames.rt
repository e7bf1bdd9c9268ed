//! The frames of a process.
ghost use Rattle.std.specs.Prelude.{◌≡◌, ◌++◌, ◌∷◌, [], MatchOption, OnErr, OnOk};

use crate::process::Frame;
use crate::registers::ValueList;
use std::alloc::Global;
use std::marker::Model;
use term_core::NoMemory;

/// The frames of a process, the topmost last. Contracts see the list of them.
///
/// Beside them stand the registers of frames that were left, so that a call takes memory only where none stand here.
#[derive(Debug, Drop)]
pub struct FrameList {
    frames: Vec<Frame>,
    left: Vec<ValueList>,
}

impl Model for FrameList {
    ghost use Rattle.std.specs.Prelude.{List};
    ghost use Rattle.std.specs.Coded.{coded_list};
    ghost use Rattle.machine_core.specs.declared.process.Frame.{Frame as Standing};
    ghost use Rattle.machine_core.specs.contracts.process.Frame as frame_contracts;

    ghost Value = { List Standing };

    ghost coded = { coded_list frame_contracts.the_row.coded };

    ghost view = { λ it. it.frames.items };
}

impl FrameList {
    /// No frames. It takes no memory.
    pub fn new(alloc: Global) -> FrameList
        ensures { result ≡ [] }
    {
        FrameList {
            frames: Vec::new(alloc),
            left: Vec::new(alloc),
        }
    }

    /// The frames, the topmost last.
    pub fn as_slice(&self) -> &[Frame]
        ensures { result.now ≡ self.now }
    {
        self.frames.as_slice()
    }

    /// Puts a frame on the others. Where memory is refused, nothing changes.
    pub fn push(&mut self, frame: Frame) -> Result<(), NoMemory>
        ensures ok { OnOk result (self.new ≡ self.old ++ frame ∷ []) }
        ensures err { OnErr result (self.new ≡ self.old) }
    {
        self.frames.push(frame)?;
        Ok(())
    }

    /// Takes out the topmost frame.
    pub fn pop(&mut self) -> Option<Frame>
        ensures { MatchOption result ((self.old ≡ []) × (self.new ≡ [])) (λ last. self.old ≡ self.new ++ last ∷ []) }
    {
        self.frames.pop()
    }

    /// Drops all frames, and the registers beside them.
    pub fn clear(&mut self)
        ensures { self.new ≡ [] }
    {
        self.frames.clear();
        self.left.clear();
    }

    /// The registers of a frame that was left, or room for new ones.
    pub fn spare_registers(&mut self, alloc: Global) -> Result<ValueList, NoMemory>
        ensures { self.new ≡ self.old }
    {
        match self.left.pop() {
            Some(registers) => Ok(registers),
            None => ValueList::room(alloc),
        }
    }

    /// Keeps the registers of a frame that was left. Where memory is refused, they are dropped.
    pub fn keep_registers(&mut self, registers: ValueList)
        ensures { self.new ≡ self.old }
    {
        let _ = self.left.push(registers);
    }
}
