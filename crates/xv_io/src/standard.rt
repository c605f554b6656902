//! A source and a sink over the standard library's readers and writers. They tell nothing of bytes.

ghost use Rattle.std.specs.Prelude.{◌≡◌, ◌<◌, ◌≤◌, None, length, IfOk, OnOk, OnErr};
ghost use Rattle.std.specs.Io.KnownBytes.{ReadConsumes, WriteAppends};
ghost use Rattle.xv_io.specs.Faults.{HasRisen};
ghost use Rattle.xv_io.specs.Standard.{reader_of, writer_of};

use crate::{Failed, Sink, Source};
use std::io::{Read, Write};

#[cfg(test)]
mod tests;

/// Reads from a reader, and counts the reads that failed. An error is passed on and not retried. As a source
/// it tells nothing of bytes: what is left of it is unknown.
#[derive(Drop)]
pub struct StdSource<R> {
    inner: R,
    faults: u64,
}

impl<R: Read> StdSource<R> {
    pub fn new(inner: R) -> StdSource<R>
        ensures faults { ⟦<StdSource<R> as Source>⟧.faults result ≡ 0 }
        ensures reader { reader_of result ≡ inner }
    {
        StdSource { inner, faults: 0 }
    }
}

impl<R: Read> Source for StdSource<R> {
    ghost left = { λ _. None };

    ghost faults = { λ s. s.faults };

    fn read(&mut self, into: &mut [u8]) -> Result<usize, Failed>
        ensures bound { IfOk result (λ n. n ≤ length into.new) }
        ensures bytes { ReadConsumes (⟦<StdSource<R> as Source>⟧.left self.old)
            (⟦<StdSource<R> as Source>⟧.left self.new) result into.new }
        ensures failed { OnErr result (HasRisen (⟦<StdSource<R> as Source>⟧.faults self.old)
            (⟦<StdSource<R> as Source>⟧.faults self.new)) }
        ensures count { ⟦<StdSource<R> as Source>⟧.faults self.old ≤
            ⟦<StdSource<R> as Source>⟧.faults self.new }

        // It adds nothing to what the reader does.
        ensures steady { OnOk result
            (⟦<StdSource<R> as Source>⟧.faults self.new ≡ ⟦<StdSource<R> as Source>⟧.faults self.old) }
        ensures passes { ReadConsumes (R.remaining (reader_of self.old))
            (R.remaining (reader_of self.new)) result into.new }
    {
        match self.inner.read(into) {
            Ok(n) => Ok(n),
            Err(_) => {
                self.faults = self.faults.saturating_add(1);
                Err(Failed)
            }
        }
    }
}

/// Writes to a writer, and counts the writes that failed or took nothing. An error is passed on and not
/// retried. As a sink it tells nothing of bytes: what it holds is unknown.
#[derive(Drop)]
pub struct StdSink<W> {
    inner: W,
    faults: u64,
}

impl<W: Write> StdSink<W> {
    pub fn new(inner: W) -> StdSink<W>
        ensures faults { ⟦<StdSink<W> as Sink>⟧.faults result ≡ 0 }
        ensures writer { writer_of result ≡ inner }
    {
        StdSink { inner, faults: 0 }
    }
}

impl<W: Write> Sink for StdSink<W> {
    ghost held = { λ _. None };

    ghost faults = { λ s. s.faults };

    fn write(&mut self, from: &[u8]) -> Result<usize, Failed>
        ensures bound { IfOk result (λ n. n ≤ length from.now) }
        ensures bytes { WriteAppends (⟦<StdSink<W> as Sink>⟧.held self.old)
            (⟦<StdSink<W> as Sink>⟧.held self.new) result from.now }
        ensures failed { OnErr result (HasRisen (⟦<StdSink<W> as Sink>⟧.faults self.old)
            (⟦<StdSink<W> as Sink>⟧.faults self.new)) }
        ensures full { IfOk result (λ n. n ≡ 0 → 0 < length from.now →
            HasRisen (⟦<StdSink<W> as Sink>⟧.faults self.old)
            (⟦<StdSink<W> as Sink>⟧.faults self.new)) }
        ensures count { ⟦<StdSink<W> as Sink>⟧.faults self.old ≤
            ⟦<StdSink<W> as Sink>⟧.faults self.new }

        // It adds nothing to what the writer does.
        ensures steady { IfOk result (λ n. 0 < n →
            ⟦<StdSink<W> as Sink>⟧.faults self.new ≡ ⟦<StdSink<W> as Sink>⟧.faults self.old) }
        ensures nothing { IfOk result (λ n. length from.now ≡ 0 →
            ⟦<StdSink<W> as Sink>⟧.faults self.new ≡ ⟦<StdSink<W> as Sink>⟧.faults self.old) }
        ensures passes { WriteAppends (W.contents (writer_of self.old))
            (W.contents (writer_of self.new)) result from.now }
    {
        match self.inner.write(from) {
            Ok(0) => {
                if !from.is_empty() {
                    self.faults = self.faults.saturating_add(1);
                }
                Ok(0)
            }
            Ok(n) => Ok(n),
            Err(_) => {
                self.faults = self.faults.saturating_add(1);
                Err(Failed)
            }
        }
    }
}
