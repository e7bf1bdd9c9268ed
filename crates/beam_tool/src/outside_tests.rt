use outside::{
    Failed, Input, MemSink, MemSource, ReadFault, StdSink, StdSource, SureSink, SureSource,
    read_whole, write_whole,
};
use std::alloc::Global;
use std::test::Fail;
use term_core::{ByteList, CountList, NoMemory};

/// A text of 20 bytes.
const TEXT: &[u8] = b"beam report 1\nspan 1";

fn bytes_of(alloc: Global, bytes: &[u8]) -> Result<ByteList, NoMemory> {
    let mut list = ByteList::new(alloc);
    list.extend_from_slice(bytes)?;
    Ok(list)
}

/// The number of one failing call, which may be never made.
fn fails_at(alloc: Global, call: u64) -> Result<CountList, NoMemory> {
    let mut fails = CountList::new(alloc);
    fails.push(call)?;
    Ok(fails)
}

fn source_of(alloc: Global, bytes: &[u8], piece: usize, call: u64) -> Result<MemSource, NoMemory> {
    Ok(MemSource {
        bytes: bytes_of(alloc, bytes)?,
        at: 0,
        piece,
        fails: fails_at(alloc, call)?,
        calls: 0,
        faults: 0,
    })
}

fn sink_of(alloc: Global, piece: usize, call: u64) -> Result<MemSink, NoMemory> {
    Ok(MemSink {
        got: ByteList::new(alloc),
        piece,
        fails: fails_at(alloc, call)?,
        calls: 0,
        faults: 0,
    })
}

/// The length of what was read whole.
fn outcome(read: &Result<Input, ReadFault>) -> Result<usize, &'static str> {
    match read {
        Ok(Input::Whole(text)) => Ok(text.len()),
        Ok(Input::TooLong) => Err("too long"),
        Err(ReadFault::Failed) => Err("failed"),
        Err(ReadFault::NoMemory) => Err("no memory"),
    }
}

#[test]
fn reads_in_pieces_and_stops_at_a_fault(rt: HostRuntime) -> Result<(), Fail> {
    let alloc = rt.alloc();
    // The piece, the call that fails, what is answered, and how many bytes are gone.
    let cases = [
        (1, 0, Ok(20), 20),
        (7, 0, Ok(20), 20),
        (0, 0, Ok(20), 20),
        (1, 1, Err("failed"), 0),
        (1, 21, Err("failed"), 20),
        (1, 22, Ok(20), 20),
        (7, 1, Err("failed"), 0),
        (7, 3, Err("failed"), 14),
        (7, 4, Err("failed"), 20),
        (7, 5, Ok(20), 20),
    ];
    for (piece, call, wanted, gone) in cases {
        let mut source = source_of(alloc, TEXT, piece, call)?;
        let read = read_whole(alloc, &mut source, 100);
        assert_eq!(rt;
            outcome(&read),
            wanted,
            "pieces of {piece}, fails at {call}"
        );
        assert_eq!(rt; source.at, gone, "pieces of {piece}, fails at {call}");
        assert_eq!(rt;
            source.faults,
            u64::from(wanted.is_err()),
            "fails at {call}"
        );
        if let Ok(Input::Whole(text)) = read {
            assert_eq!(rt; text.as_slice(), TEXT);
        }
    }
    Ok(())
}

#[test]
fn reads_up_to_the_limit(rt: HostRuntime) -> Result<(), Fail> {
    let alloc = rt.alloc();
    // How many bytes there are, the limit, what is answered, and how many bytes are gone.
    let cases = [
        (0, 0, Ok(0), 0),
        (1, 0, Err("too long"), 1),
        (20, 20, Ok(20), 20),
        (20, 19, Err("too long"), 20),
        (20, 10, Err("too long"), 11),
        (20, usize::MAX, Ok(20), 20),
    ];
    for (count, limit, wanted, gone) in cases {
        let bytes = TEXT.get(..count).unwrap_or(TEXT);
        let mut source = source_of(alloc, bytes, 100, 0)?;
        let read = read_whole(alloc, &mut source, limit);
        assert_eq!(rt;
            outcome(&read),
            wanted,
            "{count} bytes under the limit {limit}"
        );
        assert_eq!(rt; source.at, gone, "{count} bytes under the limit {limit}");
    }
    Ok(())
}

#[test]
fn writes_in_pieces_and_stops_at_a_fault(rt: HostRuntime) -> Result<(), Fail> {
    let alloc = rt.alloc();
    // The piece, the call that fails, what is answered, and how many bytes were got.
    let cases = [
        (8, 1, Err(Failed), 0),
        (8, 2, Err(Failed), 8),
        (8, 3, Err(Failed), 16),
        (8, 4, Ok(()), 20),
        (1, 0, Ok(()), 20),
        (0, 20, Err(Failed), 19),
    ];
    for (piece, call, wanted, count) in cases {
        let mut sink = sink_of(alloc, piece, call)?;
        let written = write_whole(&mut sink, TEXT);
        assert_eq!(rt; written, wanted, "pieces of {piece}, fails at {call}");
        assert_eq!(rt; sink.faults, u64::from(wanted.is_err()), "fails at {call}");
        assert_eq!(rt;
            Some(sink.got.as_slice()),
            TEXT.get(..count),
            "fails at {call}"
        );
    }
    Ok(())
}

#[test]
fn an_empty_text_makes_no_call(rt: HostRuntime) -> Result<(), Fail> {
    let mut sink = sink_of(rt.alloc(), 8, 1)?;
    assert_eq!(rt; write_whole(&mut sink, b""), Ok(()));
    assert_eq!(rt; sink.calls, 0);
    Ok(())
}

#[test]
fn a_sure_source_and_sink_never_fail(rt: HostRuntime) -> Result<(), Fail> {
    let alloc = rt.alloc();
    let mut source = SureSource {
        bytes: bytes_of(alloc, TEXT)?,
        at: 0,
    };
    assert_eq!(rt; outcome(&read_whole(alloc, &mut source, 20)), Ok(20));
    assert_eq!(rt; write_whole(&mut SureSink, TEXT), Ok(()));
    Ok(())
}

// A test's standard input is at its end or fails, and its standard output may fail.
#[test]
fn the_standard_streams_count_their_faults(rt: HostRuntime) -> Result<(), Fail> {
    let mut source = StdSource::new(rt.stdin());
    let read = outcome(&read_whole(rt.alloc(), &mut source, 1000));
    assert_eq!(rt; source.faults, u64::from(read == Err("failed")));
    let mut sink = StdSink::new(rt.stdout());
    let written = write_whole(&mut sink, b"a line\n");
    assert_eq!(rt; sink.faults, u64::from(written.is_err()));
    Ok(())
}
