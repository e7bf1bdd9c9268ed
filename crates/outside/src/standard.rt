// The trusted edge: standard input and output. They tell nothing of the bytes.
ghost use Rattle.std.specs.Prelude.{◌≡◌, ◌<◌, ◌≤◌, length, None, IfOk, OnOk, OnErr};
ghost use Rattle.outside.specs.Outside.{HasCause, one_more};

use crate::fault::Failed;
use crate::sink::Sink;
use crate::source::Source;
use std::io::{Read, Stdin, Stdout, Write};

/// Standard input, and how often it failed.
#[derive(Drop)]
pub struct StdSource {
    input: Stdin,
    /// It begins at 0 and stands still at the end of a `u64`.
    pub faults: u64,
}

/// Standard output, and how often it failed. A write that takes no byte counts as a fault.
#[derive(Drop)]
pub struct StdSink {
    output: Stdout,
    /// It begins at 0 and stands still at the end of a `u64`.
    pub faults: u64,
}

impl StdSource {
    pub fn new(input: Stdin) -> StdSource
        ensures { result.faults ≡ 0 }
    {
        StdSource { input, faults: 0 }
    }
}

impl StdSink {
    pub fn new(output: Stdout) -> StdSink
        ensures { result.faults ≡ 0 }
    {
        StdSink { output, faults: 0 }
    }
}

impl Source for StdSource {
    ghost left = { λ _. None };

    ghost faults = { λ source. source.faults };

    fn read(&mut self, into: &mut [u8]) -> Result<usize, Failed>
        requires { 0 < length into.old }
        ensures within { IfOk result (λ count. count ≤ length into.new) }
        ensures cause { HasCause self.old.faults self.new.faults result }
        ensures ok { OnOk result (self.new.faults ≡ self.old.faults) }
        ensures err { OnErr result (self.new.faults ≡ one_more self.old.faults) }
    {
        match self.input.read(into) {
            Ok(count) => Ok(count),
            Err(_) => {
                self.faults = self.faults.saturating_add(1);
                Err(Failed)
            }
        }
    }
}

impl Sink for StdSink {
    ghost got = { λ _. None };

    ghost faults = { λ sink. sink.faults };

    fn write(&mut self, piece: &[u8]) -> Result<usize, Failed>
        requires { 0 < length piece.now }
        ensures some { IfOk result (λ count. 0 < count) }
        ensures within { IfOk result (λ count. count ≤ length piece.now) }
        ensures cause { HasCause self.old.faults self.new.faults result }
        ensures ok { OnOk result (self.new.faults ≡ self.old.faults) }
        ensures err { OnErr result (self.new.faults ≡ one_more self.old.faults) }
    {
        match self.output.write(piece) {
            Ok(count) if count > 0 => Ok(count),
            _ => {
                self.faults = self.faults.saturating_add(1);
                Err(Failed)
            }
        }
    }
}
