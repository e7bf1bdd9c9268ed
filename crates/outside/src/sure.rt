// A source and a sink that never fail.
ghost use Rattle.std.specs.Prelude.{◌≡◌, ◌<◌, length, drop, Some, None};

use crate::fault::Failed;
use crate::piece::copy_piece;
use crate::sink::Sink;
use crate::source::Source;
use term_core::ByteList;

/// Bytes to be read.
#[derive(Debug, Drop)]
pub struct SureSource {
    pub bytes: ByteList,
    /// The place of the next byte. It begins at 0.
    pub at: usize,
}

/// A sink that takes every piece whole and keeps nothing.
#[derive(Clone, Copy, Debug, Drop)]
pub struct SureSink;

impl Source for SureSource {
    ghost left = { λ source. Some (drop source.at source.bytes) };

    ghost faults = { λ _. 0 };

    fn read(&mut self, into: &mut [u8]) -> Result<usize, Failed> {
        let count = copy_piece(self.bytes.as_slice(), self.at, usize::MAX, into);
        self.at += count;
        Ok(count)
    }
}

impl Sink for SureSink {
    ghost got = { λ _. None };

    ghost faults = { λ _. 0 };

    fn write(&mut self, piece: &[u8]) -> Result<usize, Failed>
        requires { 0 < length piece.now }
        ensures whole { result ≡ Ok (length piece.now) }
    {
        Ok(piece.len())
    }
}
