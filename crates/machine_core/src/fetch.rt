ghost use Rattle.std.specs.Prelude.{◌≡◌, ◌+◌, ◌≤◌, slice_index, IsTrue};
ghost use Rattle.machine_core.specs.Decode.{instr_shown, instr_word};
ghost use Rattle.machine_core.specs.Holds.{is_held};
ghost use Rattle.machine_core.specs.View.{IsInBlock, IsLawful};
ghost use Rattle.machine_core.specs.Process.{frame_of};
ghost use Rattle.machine_core.specs.Stand.{HasSources};
ghost use Rattle.machine_core.specs.Turn.{IsPlaced};
ghost use Rattle.machine_core.specs.Reads.{instr_at};

use crate::decode::{decode, len_of_number};
use crate::op::Op;
use crate::process::Frame;
use crate::view::CodeView;
use term_core::Kind;

/// The instruction at which the frame stands. Its words are within an image, so that a place past them is a place too.
pub fn fetch<V: CodeView>(frame: &Frame, view: &mut V) -> Op
    requires lawful { IsLawful (V.shown view.old) }
    requires stands { IsInBlock (V.shown view.old) frame.now.code.area }
    requires placed { IsPlaced (V.shown view.old).reads (frame_of (V.shown view.old).words frame.now) }
    requires standing { IsTrue (is_held (V.held view.old) frame.now.code.area.serial Kind.Frame) }
    ensures value { instr_shown ((V.shown view.old).words frame.now.code.area.serial) result
        ≡ instr_at (V.shown view.old).reads (frame_of (V.shown view.old).words frame.now) }
    ensures sources { HasSources (V.shown view.old) frame.now.code.area result }
    ensures within { frame.now.place + 1 ≤ 1024 }
    ensures same { V.shown view.new ≡ V.shown view.old }
    ensures holds { V.held view.new ≡ V.held view.old }
{
    let number = view.word(frame.code.area, frame.place);
    let first = operand_word(frame, number, 1, view);
    let second = operand_word(frame, number, 2, view);
    let third = operand_word(frame, number, 3, view);
    decode(number, first, second, third)
}

/// A word of the instruction at which the frame stands, counted from its number; 0 past its last word.
fn operand_word<V: CodeView>(frame: &Frame, number: u64, at: u32, view: &mut V) -> u64
    requires lawful { IsLawful (V.shown view.old) }
    requires stands { IsInBlock (V.shown view.old) frame.now.code.area }
    requires placed { IsPlaced (V.shown view.old).reads (frame_of (V.shown view.old).words frame.now) }
    requires standing { IsTrue (is_held (V.held view.old) frame.now.code.area.serial Kind.Frame) }
    requires number { number ≡ slice_index ((V.shown view.old).words frame.now.code.area.serial) frame.now.place }
    ensures value { result ≡ instr_word ((V.shown view.old).words frame.now.code.area.serial) frame.now.place at }
    ensures same { V.shown view.new ≡ V.shown view.old }
    ensures holds { V.held view.new ≡ V.held view.old }
{
    if at < len_of_number(number) {
        view.word(frame.code.area, frame.place + at)
    } else {
        0
    }
}
