//! The largest input, and the largest board.

use super::{NONE, run_script};
use std::test::Fail;
use xv_base::Status;

#[test]
fn too_long(rt: HostRuntime) -> Result<(), Fail> {
    let alloc = rt.alloc();
    let newlines = vec![in alloc; b'\n'; 16_777_216]?;
    let (status, sink) = run_script(alloc, newlines.as_slice(), 4096, 1 << 16, NONE, NONE)?;
    assert_eq!(rt; status, Status::TooLong);
    assert_eq!(rt; sink.held(), b"too-long\n".as_slice());
    Ok(())
}

/// The header of a board with the most of everything, without the line of its version.
const LARGEST: &str = "sources 8192\nprocessors 64\nthreads 32\nram 64\nactors 16\nesb 2 1\ngo\n";

#[test]
fn largest_board(rt: HostRuntime) -> Result<(), Fail> {
    let alloc = rt.alloc();
    let script = format!(in alloc; "board 1\n{LARGEST}end\n")?;
    let mut report = format!(in alloc; "xive-account 1\n{LARGEST}end 0\n")?;
    for processor in 0..64 {
        report.push_str(format!(in alloc; "processor {processor} saved 0x0 0x0 0x0\n")?.as_str())?;
    }
    for thread in 0..32 {
        report.push_str(format!(in alloc; "ring {thread} 0x0 0x0 0x0 0xff 0x0\n")?.as_str())?;
    }
    report.push_str("flight 0\nnotices 0\ndone\n")?;
    let (status, sink) = run_script(alloc, script.as_bytes(), 4096, 1 << 16, NONE, NONE)?;
    assert_eq!(rt; sink.held(), report.as_bytes());
    assert_eq!(rt; status, Status::Done);
    Ok(())
}
