//! Reads and writes that fail, and a sink that is full: how a run ends, and what is written before.

ghost use Rattle.std.specs.Prelude.{◌≤◌};

use super::{ACCOUNT, NONE, SMALLEST, run_script};
use std::alloc::Global;
use std::process::Abort;
use std::test::Fail;
use xv_base::Status;

/// Runs `SMALLEST` where some reads and writes fail, and compares how it ends, and how many pieces of its account are written.
fn compare_fault(
    rt: &impl Abort,
    alloc: Global,
    piece: u32,
    reads: &[u64],
    writes: &[u64],
    want: Status,
    pieces: usize,
) -> Result<(), Fail>
    requires { 1 ≤ piece }
{
    let mut wanted = Vec::new(alloc);
    for text in ACCOUNT.iter().take(pieces) {
        wanted.extend_from_slice(text)?;
    }
    let (status, sink) = run_script(alloc, SMALLEST, piece, 1 << 16, reads, writes)?;
    assert_eq!(rt;
        sink.held(),
        wanted.as_slice(),
        "in pieces of {piece}, {reads:?}, {writes:?}"
    );
    assert_eq!(rt; status, want, "in pieces of {piece}, {reads:?}, {writes:?}");
    Ok(())
}

#[test]
fn faults(rt: HostRuntime) -> Result<(), Fail> {
    let alloc = rt.alloc();
    for k in 0..8 {
        // The first eight reads of few bytes end before the header does. A read of many takes all of the script.
        for piece in [1, 7] {
            compare_fault(&rt, alloc, piece, &[k], NONE, Status::ReadFault, 0)?;
        }
        if k == 0 {
            compare_fault(&rt, alloc, 4096, &[k], NONE, Status::ReadFault, 0)?;
            compare_fault(&rt, alloc, 4096, NONE, &[k], Status::WriteFault, 0)?;
        } else {
            compare_fault(&rt, alloc, 4096, &[k], NONE, Status::Done, 5)?;
            compare_fault(&rt, alloc, 4096, NONE, &[k], Status::Done, 5)?;
        }

        // What is gathered is written before the source is asked for more: no two of the pieces at once.
        for piece in [1, 7] {
            if k < 5 {
                compare_fault(
                    &rt,
                    alloc,
                    piece,
                    NONE,
                    &[k],
                    Status::WriteFault,
                    k as usize,
                )?;
            } else {
                compare_fault(&rt, alloc, piece, NONE, &[k], Status::Done, 5)?;
            }
        }
    }
    let (status, sink) = run_script(alloc, SMALLEST, 4096, 10, NONE, NONE)?;
    assert_eq!(rt; status, Status::WriteFault);
    assert_eq!(rt; sink.held(), b"xive-accou".as_slice());
    Ok(())
}
