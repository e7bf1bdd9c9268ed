// A whole input from a source, and a whole text into a sink.
ghost use Rattle.std.specs.Prelude.{◌≡◌, ◌+◌, ◌<◌, ◌≤◌, ◌↔◌, ◌++◌, [], length, take, vec_len, Some, IfOk, IfSome, OnSome, OnOk, OnErr, IsOk, IsErrOf};
ghost use Rattle.std.specs.Io.KnownBytes.{Appends, Consumes};
ghost use Rattle.outside.specs.Outside.{HasCause, Rose, TakesUpTo, GetsPrefix};
ghost use Rattle.outside.specs.Transfer.{IfWhole, OnTooLong};

use crate::fault::{Failed, ReadFault};
use crate::sink::Sink;
use crate::source::Source;
use std::alloc::Global;
use term_core::{ByteList, NoMemory};

/// The most bytes that are read at once.
const PIECE: usize = 65_536;

/// What was read.
#[derive(Debug, Drop)]
pub enum Input {
    /// All bytes up to the end.
    Whole(ByteList),
    /// There was at least one byte more than the limit. What was read is let go.
    TooLong,
}

/// Reads to the end, in pieces, or up to one byte past the limit.
///
/// It takes memory, a few times what it reads. Each turn takes a byte at least.
pub fn read_whole<S: Source>(
    alloc: Global,
    source: &mut S,
    limit: usize,
) -> Result<Input, ReadFault>
    // What was read is all that was left, where that is told.
    ensures whole { IfOk result (λ input. IfWhole input
        (λ bytes. IfSome (S.left source.old) (λ left. left ≡ bytes))) }
    ensures end { IfOk result (λ input. IfWhole input
        (λ _. OnSome (S.left source.old) (S.left source.new ≡ Some []))) }
    ensures limit { IfOk result (λ input. IfWhole input (λ bytes. length bytes ≤ limit)) }
    ensures too_long { IfOk result (λ input. OnTooLong input
        (IfSome (S.left source.old) (λ left. limit < length left))) }

    // Whatever the answer, no more than one byte past the limit is taken.
    ensures stops { TakesUpTo (limit + 1) (S.left source.old) (S.left source.new) }
    ensures later { S.faults source.old ≤ S.faults source.new }
    ensures failed { IsErrOf result ReadFault.Failed
        → Rose (S.faults source.old) (S.faults source.new) }
{
    let mut buffer = zeros(alloc, PIECE)?;
    let mut text = ByteList::new(alloc);
    'pieces: loop {
        let room = (buffer.len() - 1).min(limit - text.len()) + 1;
        if read_piece(source, &mut buffer[..room], &mut text)? == 0 {
            return Ok(Input::Whole(text));
        }
        if text.len() > limit {
            return Ok(Input::TooLong);
        }
    }
}

/// So many zeros.
fn zeros(alloc: Global, count: usize) -> Result<Vec<u8>, NoMemory>
    ensures { IfOk result (λ buffer. vec_len buffer ≡ count) }
{
    Ok(vec![in alloc; 0; count]?)
}

/// Reads one piece through the buffer to the end of the text. It answers the length of the piece,
/// and zero at the end of the source.
fn read_piece<S: Source>(
    source: &mut S,
    buffer: &mut [u8],
    text: &mut ByteList,
) -> Result<usize, ReadFault>
    requires { 0 < length buffer.old }
    ensures within { IfOk result (λ count. count ≤ length buffer.new) }
    ensures grown { IfOk result (λ count. text.new ≡ text.old ++ take count buffer.new) }
    ensures taken { IfOk result
        (λ count. Consumes (S.left source.old) (S.left source.new) (take count buffer.new)) }
    ensures end { IfOk result
        (λ count. IfSome (S.left source.old) (λ left. (count ≡ 0) ↔ (left ≡ []))) }
    ensures err { OnErr result (text.new ≡ text.old) }
    ensures lost { OnErr result
        (TakesUpTo (length buffer.new) (S.left source.old) (S.left source.new)) }
    ensures later { S.faults source.old ≤ S.faults source.new }
    ensures failed { IsErrOf result ReadFault.Failed
        → Rose (S.faults source.old) (S.faults source.new) }
{
    let count = source.read(buffer)?;
    text.extend_from_slice(&buffer[..count])?;
    Ok(count)
}

/// Writes all of the text. It takes no memory. An empty text makes no call.
pub fn write_whole<K: Sink>(sink: &mut K, text: &[u8]) -> Result<(), Failed>
    ensures ok { OnOk result (Appends (K.got sink.old) (K.got sink.new) text.now) }
    ensures err { OnErr result (GetsPrefix (K.got sink.old) (K.got sink.new) text.now) }
    ensures cause { HasCause (K.faults sink.old) (K.faults sink.new) result }
    ensures empty { text.now ≡ [] → IsOk result }
    ensures no_call { text.now ≡ [] → sink.new ≡ sink.old }
{
    let mut rest = text;
    'pieces: while !rest.is_empty() {
        let count = sink.write(rest)?;
        rest = &rest[count..];
    }
    Ok(())
}
