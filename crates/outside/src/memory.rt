// A source and a sink in memory that work in pieces and fail at calls that are told before.
ghost use Rattle.std.specs.Prelude.{◌≡◌, ◌-◌, ◌<◌, ◌≤◌, ◌↔◌, ◌++◌, [], length, take, drop, min, Some, IfOk, OnOk, OnErr, IsErr, Contains};
ghost use Rattle.outside.specs.Outside.{HasCause, one_more};
ghost use Rattle.outside.specs.Memory.{piece_of, source_after, sink_after};

use crate::fault::Failed;
use crate::piece::copy_piece;
use crate::sink::Sink;
use crate::source::Source;
use term_core::{ByteList, CountList};

/// Bytes to be read, in pieces of `piece` bytes at most.
#[derive(Debug, Drop)]
pub struct MemSource {
    pub bytes: ByteList,
    /// The place of the next byte. It begins at 0.
    pub at: usize,
    /// The most bytes that a call gives. Zero counts as one.
    pub piece: usize,
    /// The numbers of the calls that fail, counted from 1.
    pub fails: CountList,
    /// How many calls were made. It begins at 0 and stands still at the end of a `u64`.
    pub calls: u64,
    /// How many calls failed. It begins at 0 and stands still at the end of a `u64`.
    pub faults: u64,
}

/// A sink that keeps what it gets, in pieces of `piece` bytes at most.
#[derive(Debug, Drop)]
pub struct MemSink {
    pub got: ByteList,
    /// The most bytes that a call takes. Zero counts as one.
    pub piece: usize,
    /// The numbers of the calls that fail, counted from 1.
    pub fails: CountList,
    /// How many calls were made. It begins at 0 and stands still at the end of a `u64`.
    pub calls: u64,
    /// How many calls failed. It begins at 0 and stands still at the end of a `u64`.
    pub faults: u64,
}

/// Counts a call, and a fault where the number of the call is listed.
fn count_call(fails: &CountList, calls: &mut u64, faults: &mut u64) -> Result<(), Failed>
    ensures calls { calls.new ≡ one_more calls.old }
    ensures listed { IsErr result ↔ Contains fails.now calls.new }
    ensures same { OnOk result (faults.new ≡ faults.old) }
    ensures fault { OnErr result (faults.new ≡ one_more faults.old) }
    ensures cause { HasCause faults.old faults.new result }
{
    *calls = calls.saturating_add(1);
    if fails.as_slice().contains(calls) {
        *faults = faults.saturating_add(1);
        return Err(Failed);
    }
    Ok(())
}

impl Source for MemSource {
    ghost left = { λ source. Some (drop source.at source.bytes) };

    ghost faults = { λ source. source.faults };

    fn read(&mut self, into: &mut [u8]) -> Result<usize, Failed>
        requires { 0 < length into.old }

        // What every source promises.
        ensures within { IfOk result (λ count. count ≤ length into.new) }
        ensures taken { IfOk result (λ count. drop self.old.at self.old.bytes
            ≡ take count into.new ++ drop self.new.at self.new.bytes) }
        ensures end { IfOk result
            (λ count. (count ≡ 0) ↔ (drop self.old.at self.old.bytes ≡ [])) }
        ensures kept { OnErr result
            (drop self.new.at self.new.bytes ≡ drop self.old.at self.old.bytes) }
        ensures cause { HasCause self.old.faults self.new.faults result }

        // It fails at the listed calls alone, and else gives a piece.
        ensures listed { IsErr result ↔ Contains self.old.fails (one_more self.old.calls) }
        ensures piece { IfOk result (λ count. count ≡ piece_of self.old.piece
            (min (length into.new) (length self.old.bytes - self.old.at))) }
        ensures state { self.new ≡ source_after self.old result }
    {
        count_call(&self.fails, &mut self.calls, &mut self.faults)?;
        let count = copy_piece(self.bytes.as_slice(), self.at, self.piece.max(1), into);
        self.at += count;
        Ok(count)
    }
}

impl Sink for MemSink {
    ghost got = { λ sink. Some sink.got };

    ghost faults = { λ sink. sink.faults };

    fn write(&mut self, piece: &[u8]) -> Result<usize, Failed>
        requires { 0 < length piece.now }

        // What every sink promises.
        ensures some { IfOk result (λ count. 0 < count) }
        ensures within { IfOk result (λ count. count ≤ length piece.now) }
        ensures appended { IfOk result
            (λ count. self.new.got ≡ self.old.got ++ take count piece.now) }
        ensures kept { OnErr result (self.new.got ≡ self.old.got) }
        ensures cause { HasCause self.old.faults self.new.faults result }

        // It fails at the listed calls, and where memory is refused, and else takes a piece.
        ensures listed { Contains self.old.fails (one_more self.old.calls) → IsErr result }
        ensures piece { IfOk result
            (λ count. count ≡ piece_of self.old.piece (length piece.now)) }
        ensures state { self.new ≡ sink_after self.old piece.now result }
    {
        count_call(&self.fails, &mut self.calls, &mut self.faults)?;
        let count = self.piece.max(1).min(piece.len());
        if self.got.extend_from_slice(&piece[..count]).is_err() {
            self.faults = self.faults.saturating_add(1);
            return Err(Failed);
        }
        Ok(count)
    }
}
