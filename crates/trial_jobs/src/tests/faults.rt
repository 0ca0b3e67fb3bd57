//! Whole calls of which a read or a write fails.
use crate::tests::lines::{Outside, run_line};
use knot_ports::Status;
use std::alloc::Global;
use std::test::Fail;

/// The unknot, and the unknot with its rows shifted.
const SHIFTED: &[u8] = b"x 0 1\no 1 0\nx 1 0\no 0 1\nequal 1\nshift rows 1\n";

/// Whether the call of the source that is listed fails the call of a job, and nothing is written.
fn fails_to_read(alloc: Global, line: &str, input: &[u8], failing: u64) -> Result<bool, Fail> {
    let outside = Outside {
        reading: &[failing],
        writing: &[],
        room: 100,
    };
    let (status, written) = run_line(alloc, line, input, &outside)?;
    Ok(status == Status::ReadFault && written.is_empty())
}

#[test]
fn a_read_that_fails_ends_the_call(rt: HostRuntime) -> Result<(), Fail> {
    // The input of `check` comes by twelve calls, that of `decide` by nine, and one more meets the end of each.
    for failing in 0..13 {
        assert!(rt;
            fails_to_read(rt.alloc(), "knot check", SHIFTED, failing)?,
            "call {failing}"
        );
    }
    let apart: &[u8] = b"x 4 3 2 1 0\no 2 1 0 4 3\nx 0 1\no 1 0\n";
    for failing in 0..10 {
        assert!(rt;
            fails_to_read(rt.alloc(), "knot decide", apart, failing)?,
            "call {failing}"
        );
    }
    Ok(())
}

/// A line, its input, the calls of the source and of the sink that fail, the room, and the status and the text that are due.
type Ending = (
    &'static str,
    &'static [u8],
    u64,
    u64,
    usize,
    Status,
    &'static [u8],
);

/// The unknot, twice.
const UNKNOTS: &[u8] = b"x 0 1\no 1 0\nx 0 1\no 1 0\n";

const ENDINGS: [Ending; 10] = [
    ("knot check", SHIFTED, 13, 0, 100, Status::WriteFault, b""),
    (
        "knot check",
        SHIFTED,
        13,
        1,
        100,
        Status::WriteFault,
        b"acc",
    ),
    (
        "knot check",
        SHIFTED,
        13,
        2,
        100,
        Status::WriteFault,
        b"accept",
    ),
    (
        "knot check",
        SHIFTED,
        13,
        3,
        100,
        Status::Done,
        b"accepted\n",
    ),
    ("knot check", SHIFTED, 13, 3, 4, Status::WriteFault, b"acce"),
    ("knot decide", UNKNOTS, 99, 0, 100, Status::WriteFault, b""),
    (
        "knot decide",
        UNKNOTS,
        99,
        1,
        100,
        Status::WriteFault,
        b"cer",
    ),
    (
        "knot decide",
        UNKNOTS,
        99,
        2,
        100,
        Status::WriteFault,
        b"certif",
    ),
    (
        "knot decode",
        SHIFTED,
        0,
        1,
        100,
        Status::WriteFault,
        b"usa",
    ),
    (
        "knot check --workers 0",
        SHIFTED,
        0,
        99,
        100,
        Status::Usage,
        b"usage: knot JOB [--workers W] [--budget B] [--spare S] [--seed N]\n",
    ),
];

/// Each call of the sink failing in turn, or a sink that is full. On refused words the source, the first call of which would fail, isn't called;
/// nor is it after its end.
#[test]
fn a_write_that_fails_ends_the_call(rt: HostRuntime) -> Result<(), Fail> {
    for (line, input, reading, writing, room, ended, front) in ENDINGS {
        let outside = Outside {
            reading: &[reading],
            writing: &[writing],
            room,
        };
        let (status, written) = run_line(rt.alloc(), line, input, &outside)?;
        assert_eq!(rt; status, ended, "call {writing} of {line}");
        assert_eq!(rt; written.as_slice(), front, "call {writing} of {line}");
    }
    Ok(())
}
