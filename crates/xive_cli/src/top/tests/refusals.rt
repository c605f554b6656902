//! Scripts that are refused: what is written before the line, and what is said of it.

use super::{ACCOUNT, compare};
use std::alloc::Global;
use std::process::Abort;
use std::test::Fail;
use xv_base::Status;

#[test]
fn refusals(rt: HostRuntime) -> Result<(), Fail> {
    let header = ACCOUNT[0];
    let rows = [
        (
            b"".as_slice(),
            b"".as_slice(),
            b"refused line 1 byte 1 no-go\n".as_slice(),
        ),
        (&[b'#'; 257], b"", b"refused line 1 byte 257 long-line\n"),
        (&[b'#'; 256], b"", b"refused line 2 byte 1 no-go\n"),
        (
            b"board 1\nsources 1\nprocessors 1\nthreads 1\nram 0\nactors 1\nesb 2 0\n",
            b"",
            b"refused line 8 byte 1 no-go\n",
        ),
        (
            b"board 1\n\tsources 1\n",
            b"",
            b"refused line 2 byte 1 bad-byte\n",
        ),
        (
            b"board 1\nsource 1\n",
            b"",
            b"refused line 2 byte 1 unknown-word\n",
        ),
        (b"\n  start\n", b"", b"refused line 2 byte 3 wrong-place\n"),
        (
            b"board 1\nsources\n",
            b"",
            b"refused line 2 byte 8 missing-word\n",
        ),
        (
            b"board 1\nsources 1 1\n",
            b"",
            b"refused line 2 byte 11 extra-word\n",
        ),
        (
            b"board 1\nsources x\n",
            b"",
            b"refused line 2 byte 9 bad-number\n",
        ),
        (b"board 2\n", b"", b"refused line 1 byte 7 out-of-range\n"),
        (
            b"board 1\nsources 1\nprocessors 1\nthreads 1\nram 0\nactors 1\nesb 2 0\ngo\n0 trigger 1\n0 get 0\n",
            header,
            b"refused line 9 byte 11 out-of-range\n",
        ),
        (
            b"board 1\nsources 1\nprocessors 1\nthreads 1\nram 0\nactors 1\nesb 2 0\ngo\n0 get 0\n# that was one\n0 raise 0\nend\n",
            header,
            b"0 0 get 0 -> 01 01\nrefused line 11 byte 3 not-level\n",
        ),
    ];
    for (script, first, last) in rows {
        compare(&rt, rt.alloc(), script, Status::Refused, &[first, last])?;
    }
    Ok(())
}

/// The header of a board of one message source and no memory, without the line of its version.
const HEADER: &str = "sources 1\nprocessors 1\nthreads 1\nram 0\nactors 2\nesb 2 0\ngo\n";

/// Compares what is written of a script that is refused before its first entry. The line after the header is line 9.
fn compare_refusal(rt: &impl Abort, alloc: Global, lines: &str, refusal: &str) -> Result<(), Fail> {
    let script = format!(in alloc; "board 1\n{HEADER}{lines}\nend\n")?;
    let written = format!(in alloc; "xive-account 1\n{HEADER}refused {refusal}\n")?;
    compare(
        rt,
        alloc,
        script.as_bytes(),
        Status::Refused,
        &[written.as_bytes()],
    )
}

#[test]
fn causes(rt: HostRuntime) -> Result<(), Fail> {
    let rows = [
        ("0  trigger x", "line 9 byte 12 bad-number"),
        ("0 raise 0", "line 9 byte 3 not-level"),
        ("0 get", "line 9 byte 6 missing-word"),
        ("0 get 0 0", "line 9 byte 9 extra-word"),
        ("0 sources 1", "line 9 byte 3 unknown-word"),
        ("board 1", "line 9 byte 1 wrong-place"),
        ("start\n start", "line 10 byte 2 wrong-place"),
        ("0 get\t0", "line 9 byte 6 bad-byte"),
        ("2 get 0", "line 9 byte 1 out-of-range"),
        ("0 endset 0 vq 0 0 0x0 12 0 0x0", "line 9 byte 3 bad-end"),
        ("0  migrate 0", "line 9 byte 12 extra-word"),
        ("0 kvmset 4294967296 9 9", "line 9 byte 10 out-of-range"),
    ];
    for (lines, refusal) in rows {
        compare_refusal(&rt, rt.alloc(), lines, refusal)?;
    }
    Ok(())
}

/// A line with several faults is refused for the one that is found first: in all its bytes, then in its words from
/// the left, then in their number, and last in what they say together.
#[test]
fn first_of_several_faults(rt: HostRuntime) -> Result<(), Fail> {
    let rows = [
        ("2 got\t0", "line 9 byte 6 bad-byte"),
        ("2 got 0", "line 9 byte 1 out-of-range"),
        ("0 set 1 2", "line 9 byte 7 out-of-range"),
        ("0 set 1", "line 9 byte 7 out-of-range"),
        ("0 set 0 2 0", "line 9 byte 9 bad-number"),
        ("0 raise 0 0", "line 9 byte 11 extra-word"),
        ("0 endset 0 vq 0 0 0x0 12 0", "line 9 byte 27 missing-word"),
        ("0 reset 0", "line 9 byte 9 extra-word"),
    ];
    for (lines, refusal) in rows {
        compare_refusal(&rt, rt.alloc(), lines, refusal)?;
    }
    Ok(())
}

/// A script may have one `start`, which makes no step.
#[test]
fn one_start(rt: HostRuntime) -> Result<(), Fail> {
    let alloc = rt.alloc();
    let script = format!(in alloc; "board 1\n{HEADER}0 get 0\nstart\n1 get 0\nend\n")?;
    let written = format!(in alloc; "xive-account 1\n{HEADER}")?;
    compare(
        &rt,
        alloc,
        script.as_bytes(),
        Status::Done,
        &[
            written.as_bytes(),
            b"0 0 get 0 -> 01 01\n1 1 get 0 -> 01 01\n",
            b"end 2\nprocessor 0 saved 0x0 0x0 0x0\nring 0 0x0 0x0 0x0 0xff 0x0\nflight 0\nnotices 0\ndone\n",
        ],
    )
}
