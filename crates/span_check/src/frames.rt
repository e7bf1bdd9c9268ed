ghost use Rattle.std.specs.Prelude.{◌≡◌, IfOk, IsTrue};
ghost use Rattle.span_check.specs.Watches.{one_runs};

use machine_core::{Frame, FrameList, Value, ValueList};
use std::alloc::Global;
use term_core::NoMemory;

/// Whether one of these frames is of this instance.
pub fn stand_in(frames: &[Frame], serial: u64) -> bool
    ensures { result ≡ one_runs frames.now serial }
{
    frames.iter().any(|frame| frame.code.area.serial == serial)
}

/// The same frames in memory of their own.
pub fn copy(alloc: Global, frames: &[Frame]) -> Result<FrameList, NoMemory>
    ensures { IfOk result (λ copies. copies ≡ frames.now) }
{
    let mut copies = FrameList::new(alloc);
    for frame in frames {
        copies.push(copy_frame(alloc, frame)?)?;
    }
    Ok(copies)
}

/// The same frame in memory of its own.
fn copy_frame(alloc: Global, frame: &Frame) -> Result<Frame, NoMemory>
    ensures { IfOk result (λ copy. copy ≡ frame.now) }
{
    let registers = copy_values(alloc, frame.registers.as_slice())?;
    Ok(Frame {
        code: frame.code,
        place: frame.place,
        back: frame.back,
        registers,
    })
}

/// The same values in memory of their own.
fn copy_values(alloc: Global, values: &[Value]) -> Result<ValueList, NoMemory>
    ensures { IfOk result (λ copies. copies ≡ values.now) }
{
    let mut copies = Vec::new(alloc);
    for value in values {
        copies.push(value.clone()?)?;
    }
    Ok(ValueList::from_vec(copies))
}

/// Whether the frames are known to be the same.
pub fn are_same(frames: &[Frame], others: &[Frame]) -> bool
    ensures { IsTrue result → frames.now ≡ others.now }
{
    if frames.len() != others.len() {
        return false;
    }
    for (at, frame) in frames.iter().enumerate() {
        if !is_same(frame, &others[at]) {
            return false;
        }
    }
    true
}

/// Whether the frame is known to be the same.
fn is_same(frame: &Frame, other: &Frame) -> bool
    ensures { IsTrue result → frame.now ≡ other.now }
{
    stands_same(frame, other) && frame.registers.as_slice() == other.registers.as_slice()
}

/// Whether the frame stands at the same instruction, and its value goes to the same register.
fn stands_same(frame: &Frame, other: &Frame) -> bool
    ensures code { IsTrue result → frame.now.code ≡ other.now.code }
    ensures place { IsTrue result → frame.now.place ≡ other.now.place }
    ensures back { IsTrue result → frame.now.back ≡ other.now.back }
{
    frame.code == other.code && frame.place == other.place && frame.back == other.back
}
