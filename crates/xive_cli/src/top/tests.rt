//! Whole runs over sources and sinks in memory, by subject, and what these tests share.

ghost use Rattle.std.specs.Prelude.{◌≤◌};

use super::run_top;
use std::alloc::Global;
use std::process::Abort;
use std::test::Fail;
use xv_base::{Status, Word};
use xv_io::{MemSink, MemSource};

mod accounts;
mod device;
mod escalations;
mod events;
mod faults;
mod hypercalls;
mod levels;
mod limits;
mod pages;
mod processors;
mod queues;
mod refusals;
mod refused_calls;
mod routes;
mod words;

/// No call that fails.
const NONE: &[u64] = &[];

const SMALLEST: &[u8] =
    b"board 1\nsources 1\nprocessors 1\nthreads 1\nram 0\nactors 1\nesb 2 0\ngo\n0 set 0 00\n0 trigger 0\n0 eoi 0\nend\n";

/// What `SMALLEST` gives, in the pieces that are written where the source gives few bytes at a time.
const ACCOUNT: [&[u8]; 5] = [
    b"xive-account 1\nsources 1\nprocessors 1\nthreads 1\nram 0\nactors 1\nesb 2 0\ngo\n",
    b"0 0 set 0 00 -> 01 00\n",
    b"1 0 trigger 0 -> 00 10 forward 1\n",
    b"2 0 eoi 0 -> 10 00\n",
    b"end 3\nsource 0 00 1 0\nprocessor 0 saved 0x0 0x0 0x0\nring 0 0x0 0x0 0x0 0xff 0x0\nflight 0\nnotices 1\ndone\n",
];

/// Runs a script that comes in pieces. The sink has some room, and some reads and writes fail.
fn run_script(
    alloc: Global,
    script: &[u8],
    piece: u32,
    room: u32,
    reads: &[u64],
    writes: &[u64],
) -> Result<(Status, MemSink), Fail>
    requires { 1 ≤ piece }
{
    let words = [Word::from_bytes(alloc, b"run")?];
    let mut source = MemSource::new(script.to_vec(alloc)?, piece, reads.to_vec(alloc)?);
    let mut sink = MemSink::new(alloc, room, writes.to_vec(alloc)?)?;
    let status = run_top(alloc, &words, &mut source, &mut sink);
    Ok((status, sink))
}

/// Runs a script in pieces of several sizes, and compares how it ends and what is written.
fn compare(
    rt: &impl Abort,
    alloc: Global,
    script: &[u8],
    want: Status,
    texts: &[&[u8]],
) -> Result<(), Fail> {
    let mut wanted = Vec::new(alloc);
    for text in texts {
        wanted.extend_from_slice(text)?;
    }
    for piece in [1, 7, 4096] {
        let (status, sink) = run_script(alloc, script, piece, 1 << 16, NONE, NONE)?;
        assert_eq!(rt; sink.held(), wanted.as_slice(), "in pieces of {piece}");
        assert_eq!(rt; status, want, "in pieces of {piece}");
    }
    Ok(())
}

/// A script by actor 0, and the account of it.
#[derive(Drop)]
struct Story {
    script: String,
    account: String,
    entries: u64,
}

impl Story {
    /// A script that has so far the lines of its header, here without that of its version.
    fn new(alloc: Global, header: &str) -> Result<Story, Fail> {
        Ok(Story {
            script: format!(in alloc; "board 1\n{header}")?,
            account: format!(in alloc; "xive-account 1\n{header}")?,
            entries: 0,
        })
    }

    /// The text of one more entry.
    fn entry(&mut self, alloc: Global, op: &str, outcome: &str) -> Result<(), Fail> {
        let text = format!(in alloc; "{} 0 {op} -> {outcome}\n", self.entries)?;
        self.account.push_str(text.as_str())?;
        self.entries = self.entries.saturating_add(1);
        Ok(())
    }

    /// A line of one step.
    fn step(&mut self, alloc: Global, line: &str, op: &str, outcome: &str) -> Result<(), Fail> {
        self.script
            .push_str(format!(in alloc; "0 {line}\n")?.as_str())?;
        self.entry(alloc, op, outcome)
    }

    /// Lines that read as their steps do, each with its outcome.
    fn steps(&mut self, alloc: Global, lines: &[(&str, &str)]) -> Result<(), Fail> {
        for (line, outcome) in lines {
            self.step(alloc, line, line, outcome)?;
        }
        Ok(())
    }

    /// Runs the script, and compares the account, whose report goes on so after its first line.
    fn compare(&mut self, rt: &impl Abort, alloc: Global, report: &str) -> Result<(), Fail> {
        let end = format!(in alloc; "end {}\n{report}", self.entries)?;
        self.account.push_str(end.as_str())?;
        let (status, sink) = run_script(alloc, self.script.as_bytes(), 4096, 1 << 16, NONE, NONE)?;
        let script = self.script.as_str();
        assert_eq!(rt; sink.held(), self.account.as_bytes(), "of {script}");
        assert_eq!(rt; status, Status::Done, "of {script}");
        Ok(())
    }
}
