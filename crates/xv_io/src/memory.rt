//! A source and a sink in memory, which fail at the calls that they were told.

ghost use Rattle.std.specs.Prelude.{◌≡◌, ◌<◌, ◌≤◌, ◌+◌, ◌-◌, ◌^◌, ◌↔◌, Some, [], drop, length, min, IsErr, vec_len, vec_capacity, IfOk, OnOk, OnErr};
ghost use Rattle.std.specs.List.{Contains};
ghost use Rattle.std.specs.Io.KnownBytes.{ReadConsumes, WriteAppends};
ghost use Rattle.xv_io.specs.Faults.{HasRisen};

use crate::{Failed, Sink, Source};
use std::alloc::Global;
use xv_base::NoMemory;

/// Gives bytes in pieces, and fails at some calls.
#[derive(Drop)]
pub struct MemSource {
    bytes: Vec<u8>,
    at: usize,
    piece: u32,
    failing: Vec<u64>,
    calls: u64,
    faults: u64,
    ghost within: { at ≤ vec_len bytes },
    ghost some: { 1 ≤ piece },
}

impl MemSource {
    ghost use Rattle.xv_io.specs.Memory.{piece_of, failing_reads, next_read};

    /// Gives at most `piece` bytes at a call, and fails at the calls whose numbers, from 0 on, are in
    /// `failing`.
    pub fn new(bytes: Vec<u8>, piece: u32, failing: Vec<u64>) -> MemSource
        requires { 1 ≤ piece }
        ensures left { ⟦<MemSource as Source>⟧.left result ≡ Some bytes.items }
        ensures faults { ⟦<MemSource as Source>⟧.faults result ≡ 0 }
        ensures piece { piece_of result ≡ piece }
        ensures failing { failing_reads result ≡ failing.items }
        ensures call { next_read result ≡ 0 }
    {
        MemSource {
            bytes,
            at: 0,
            piece,
            failing,
            calls: 0,
            faults: 0,
        }
    }
}

impl Source for MemSource {
    ghost use Rattle.xv_io.specs.Memory.{piece_of, failing_reads, next_read};

    ghost left = { λ s. Some (drop s.at s.bytes.items) };

    ghost faults = { λ s. s.faults };

    fn read(&mut self, into: &mut [u8]) -> Result<usize, Failed>
        ensures bound { IfOk result (λ n. n ≤ length into.new) }
        ensures bytes { ReadConsumes (⟦<MemSource as Source>⟧.left self.old)
            (⟦<MemSource as Source>⟧.left self.new) result into.new }
        ensures failed { OnErr result (HasRisen (⟦<MemSource as Source>⟧.faults self.old)
            (⟦<MemSource as Source>⟧.faults self.new)) }
        ensures count { ⟦<MemSource as Source>⟧.faults self.old ≤
            ⟦<MemSource as Source>⟧.faults self.new }

        // It fails at the calls that it was told and at no other, and gives a piece at most.
        ensures fails { IsErr result ↔ Contains (failing_reads self.old) (next_read self.old) }
        ensures piece { IfOk result (λ n. n ≤ piece_of self.old) }
        ensures told { (piece_of self.new ≡ piece_of self.old) ×
            (failing_reads self.new ≡ failing_reads self.old) }
        ensures next { next_read self.new ≡ min (next_read self.old + 1) (2 ^ 64 - 1) }
        ensures steady { OnOk result
            (⟦<MemSource as Source>⟧.faults self.new ≡ ⟦<MemSource as Source>⟧.faults self.old) }
    {
        let call = self.calls;
        self.calls = self.calls.saturating_add(1);
        if self.failing.contains(&call) {
            self.faults = self.faults.saturating_add(1);
            return Err(Failed);
        }
        let n = into
            .len()
            .min(self.piece as usize)
            .min(self.bytes.len() - self.at);
        into[..n].copy_from_slice(&self.bytes[self.at..self.at + n]);
        self.at += n;
        Ok(n)
    }
}

/// Holds bytes up to some room, and fails at some calls.
#[derive(Drop)]
pub struct MemSink {
    held: Vec<u8>,
    room: u32,
    failing: Vec<u64>,
    calls: u64,
    faults: u64,
    ghost within: { vec_len held ≤ room },
    ghost reserved: { room ≤ vec_capacity held },
}

impl MemSink {
    ghost use Rattle.xv_io.specs.Memory.{space_of, failing_writes, next_write};

    /// Allocates `room` bytes, and fails at the calls whose numbers, from 0 on, are in `failing`.
    pub fn new(alloc: Global, room: u32, failing: Vec<u64>) -> Result<MemSink, NoMemory>
        ensures held { IfOk result (λ s. ⟦<MemSink as Sink>⟧.held s ≡ Some []) }
        ensures faults { IfOk result (λ s. ⟦<MemSink as Sink>⟧.faults s ≡ 0) }
        ensures space { IfOk result (λ s. space_of s ≡ room) }
        ensures failing { IfOk result (λ s. failing_writes s ≡ failing.items) }
        ensures call { IfOk result (λ s. next_write s ≡ 0) }
    {
        match Vec::with_capacity(alloc, room as usize) {
            Ok(held) => Ok(MemSink {
                held,
                room,
                failing,
                calls: 0,
                faults: 0,
            }),
            Err(_) => Err(NoMemory),
        }
    }

    /// The bytes that it took.
    pub fn held(&self) -> &[u8]
        ensures { ⟦<MemSink as Sink>⟧.held self.now ≡ Some result.now }
    {
        self.held.as_slice()
    }
}

impl Sink for MemSink {
    ghost use Rattle.xv_io.specs.Memory.{space_of, failing_writes, next_write};

    ghost held = { λ s. Some s.held.items };

    ghost faults = { λ s. s.faults };

    fn write(&mut self, from: &[u8]) -> Result<usize, Failed>
        ensures bound { IfOk result (λ n. n ≤ length from.now) }
        ensures bytes { WriteAppends (⟦<MemSink as Sink>⟧.held self.old)
            (⟦<MemSink as Sink>⟧.held self.new) result from.now }
        ensures failed { OnErr result (HasRisen (⟦<MemSink as Sink>⟧.faults self.old)
            (⟦<MemSink as Sink>⟧.faults self.new)) }
        ensures full { IfOk result (λ n. n ≡ 0 → 0 < length from.now →
            HasRisen (⟦<MemSink as Sink>⟧.faults self.old)
            (⟦<MemSink as Sink>⟧.faults self.new)) }
        ensures count { ⟦<MemSink as Sink>⟧.faults self.old ≤ ⟦<MemSink as Sink>⟧.faults self.new }

        // It fails at the calls that it was told and at no other, and takes what it has room for.
        ensures fails { IsErr result ↔ Contains (failing_writes self.old) (next_write self.old) }
        ensures takes { IfOk result (λ n. n ≡ min (length from.now) (space_of self.old)) }
        ensures space { IfOk result (λ n. space_of self.new ≡ space_of self.old - n) }
        ensures lost { OnErr result (space_of self.new ≡ space_of self.old) }
        ensures told { failing_writes self.new ≡ failing_writes self.old }
        ensures next { next_write self.new ≡ min (next_write self.old + 1) (2 ^ 64 - 1) }
        ensures steady { IfOk result (λ n. 0 < n →
            ⟦<MemSink as Sink>⟧.faults self.new ≡ ⟦<MemSink as Sink>⟧.faults self.old) }
        ensures nothing { IfOk result (λ n. length from.now ≡ 0 →
            ⟦<MemSink as Sink>⟧.faults self.new ≡ ⟦<MemSink as Sink>⟧.faults self.old) }
    {
        let call = self.calls;
        self.calls = self.calls.saturating_add(1);
        if self.failing.contains(&call) {
            self.faults = self.faults.saturating_add(1);
            return Err(Failed);
        }
        let n = from.len().min(self.room as usize - self.held.len());
        if n == 0 && !from.is_empty() {
            self.faults = self.faults.saturating_add(1);
            return Ok(0);
        }
        match self.held.extend_from_slice(&from[..n]) {
            Ok(()) => Ok(n),
            Err(_) => unreachable!(),
        }
    }
}
