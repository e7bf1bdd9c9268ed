use crate::tests::{CALM, FIRST, FIRST_REPORT, Outside, RUN, outcome_of};
use std::process::Abort;
use std::sync::Wait;
use std::test::Fail;
use std::thread::Threads;
use term_core::NoMemory;

/// The first script by a source and a sink of these pieces, of which a call fails: its status, and how many bytes of its report the sink got.
fn falls_short<R: Threads + Wait + Sync + AllocGlobal + Abort>(
    rt: &R,
    outside: Outside,
    status: u8,
    got: usize,
) -> Result<bool, NoMemory> {
    let run = outcome_of(rt, RUN, FIRST.as_bytes(), outside)?;
    let written = FIRST_REPORT.as_bytes().get(..got);
    Ok(run.status == status && Some(run.got.as_slice()) == written && run.logged == (status != 4))
}

/// The script has 97 bytes, and its report 143.
#[test]
fn outside_faults(rt: HostRuntime) -> Result<(), Fail> {
    // The piece, and the first call of the source that is not made: the one before finds the end.
    for (read_piece, unmade) in [(1, 99), (7, 16), (65_536, 3)] {
        for read_fails in 1..=unmade {
            let outside = Outside {
                read_piece,
                read_fails,
                ..CALM
            };
            let (status, got) = if read_fails == unmade {
                (0, 143)
            } else {
                (4, 0)
            };
            assert!(rt;
                falls_short(&rt, outside, status, got)?,
                "pieces of {read_piece}, fails at {read_fails}"
            );
        }
    }
    for write_fails in 1..=18 {
        let outside = Outside {
            write_piece: 8,
            write_fails,
            ..CALM
        };
        let got = 8 * (write_fails as usize - 1);
        assert!(rt;
            falls_short(&rt, outside, 5, got)?,
            "fails at {write_fails}"
        );
    }
    // No call fails that is made.
    for (piece, write_fails) in [(8, 19), (1, 0)] {
        let outside = Outside {
            read_piece: piece,
            write_piece: piece,
            write_fails,
            ..CALM
        };
        assert!(rt; falls_short(&rt, outside, 0, 143)?, "pieces of {piece}");
    }
    Ok(())
}
