//! What no clause says of the standard library's streams: each call is one call of theirs, and an error is passed on.

use super::{StdSink, StdSource};
use crate::{Sink, Source, write_whole};
use std::io::{self, Read, Write};
use std::test::Fail;

const NEVER: u32 = u32::MAX;

/// A stream of the bytes from `at` up to `end`, one a call. It is interrupted at one call.
#[derive(Drop)]
struct Drip {
    at: u8,
    end: u8,
    failing: u32,
    calls: u32,
}

impl Read for Drip {
    fn read(&mut self, buf: &mut [u8]) -> io::Result<usize> {
        let call = self.calls;
        self.calls = self.calls.saturating_add(1);
        if call == self.failing {
            return Err(io::ErrorKind::Interrupted.into());
        }
        if self.at >= self.end || buf.is_empty() {
            return Ok(0);
        }
        buf[0] = self.at;
        self.at += 1;
        Ok(1)
    }
}

/// A stream that takes at most so many bytes a call, and is interrupted at one call.
#[derive(Drop)]
struct Tap {
    most: usize,
    failing: u32,
    calls: u32,
    taken: u64,
}

impl Write for Tap {
    fn write(&mut self, buf: &[u8]) -> io::Result<usize> {
        let call = self.calls;
        self.calls = self.calls.saturating_add(1);
        if call == self.failing {
            return Err(io::ErrorKind::Interrupted.into());
        }
        let n = buf.len().min(self.most);
        self.taken = self.taken.saturating_add(n as u64);
        Ok(n)
    }

    fn flush(&mut self) -> io::Result<()> {
        Ok(())
    }
}

fn source_of(end: u8, failing: u32) -> StdSource<Drip> {
    StdSource::new(Drip {
        at: 0,
        end,
        failing,
        calls: 0,
    })
}

fn sink_of(most: usize, failing: u32) -> StdSink<Tap> {
    StdSink::new(Tap {
        most,
        failing,
        calls: 0,
        taken: 0,
    })
}

#[test]
fn reads_byte_by_byte_and_ends_again(rt: HostRuntime) -> Result<(), Fail> {
    let mut source = source_of(2, NEVER);
    let mut piece = [9; 4];
    assert_eq!(rt; source.read(&mut piece)?, 1);
    assert_eq!(rt; piece[0], 0);
    assert_eq!(rt; source.read(&mut piece)?, 1);
    assert_eq!(rt; piece[0], 1);
    assert_eq!(rt; source.read(&mut piece)?, 0);
    assert_eq!(rt; source.read(&mut piece)?, 0);
    assert_eq!(rt; source.inner.calls, 4);
    Ok(())
}

#[test]
fn a_read_that_fails_is_not_retried(rt: HostRuntime) -> Result<(), Fail> {
    let mut source = source_of(2, 1);
    let mut piece = [9; 4];
    assert_eq!(rt; source.read(&mut piece)?, 1);
    assert!(rt; source.read(&mut piece).is_err());
    assert_eq!(rt; source.inner.calls, 2);
    assert_eq!(rt; source.read(&mut piece)?, 1);
    assert_eq!(rt; piece[0], 1);
    Ok(())
}

#[test]
fn writes_16_kib_at_once(rt: HostRuntime) -> Result<(), Fail> {
    let mut sink = sink_of(usize::MAX, NEVER);
    assert_eq!(rt; sink.write(&[b'a'; 16384])?, 16384);
    assert_eq!(rt; sink.inner.calls, 1);
    assert_eq!(rt; sink.inner.taken, 16384);
    Ok(())
}

#[test]
fn writes_byte_by_byte(rt: HostRuntime) -> Result<(), Fail> {
    let mut sink = sink_of(1, NEVER);
    assert_eq!(rt; sink.write(b"five!")?, 1);
    assert_eq!(rt; sink.inner.calls, 1);
    write_whole(&mut sink, b"five!")?;
    assert_eq!(rt; sink.inner.calls, 6);
    assert_eq!(rt; sink.inner.taken, 6);
    Ok(())
}

#[test]
fn a_write_that_fails_is_not_retried(rt: HostRuntime) -> Result<(), Fail> {
    let mut sink = sink_of(4, 1);
    assert!(rt; write_whole(&mut sink, b"five!").is_err());
    assert_eq!(rt; sink.inner.calls, 2);
    assert_eq!(rt; sink.inner.taken, 4);
    let mut full = sink_of(0, NEVER);
    assert!(rt; write_whole(&mut full, b"five!").is_err());
    assert_eq!(rt; full.inner.calls, 1);
    Ok(())
}
