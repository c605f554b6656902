//! A program that owns a machine and steps it, without a script and without a printer.

mod presentations;
mod processors;
mod queues;
mod routes;
mod sources;

ghost use Rattle.std.specs.Prelude.{◌+◌, ◌<◌, ◌^◌, ◌≡◌};
ghost use Rattle.xv_model.specs.board.Boards.{IsBoard, AreBelow};

use crate::{Machine, SourceView};
use fabric_core::QueueView;
use nvt_backlog::Vp;
use std::process::Abort;
use thread_context::Ring;
use xv_base::Limits;
use xv_base::limits::{ENDS_PER_PROCESSOR, MOST_ENTRIES};
use xv_model::board::{Board, Span, Spans};
use xv_model::hypercalls::H_INT_SET_SOURCE_CONFIG;
use xv_model::hypercalls::flags::SRC_SET_EISN;
use xv_model::known::Known;
use xv_model::operations::{Access, EndConfig, EndFlags, Op, PqOp};
use xv_model::outcomes::{EndRun, Outcome, Presented, Routed, Then};
use xv_model::validity::valid;

/// One number.
fn only(n: u32) -> Spans
    ensures { AreBelow result (n + 1) }
{
    let mut spans = [Span { first: 0, last: 0 }; 16];
    spans[0] = Span { first: n, last: n };
    Spans { count: 1, spans }
}

/// Four sources, of which source 2 is unclaimed and source 3 is a level source, two processors, of which
/// processor 1 isn't connected, two threads, and 1 MiB of memory.
pub fn small_board() -> Board
    ensures { IsBoard result }
{
    Board {
        limits: Limits {
            sources: 4,
            processors: 2,
            threads: 2,
            actors: 2,
        },
        ram_mib: 1,
        two_pages: true,
        store_eoi: false,
        level: only(3),
        unclaimed: only(2),
        unconnected: only(1),
    }
}

/// The largest counts of everything. Source 8,190 is unclaimed.
pub fn largest_board() -> Board
    ensures { IsBoard result }
{
    Board {
        limits: Limits {
            sources: 8192,
            processors: 64,
            threads: 32,
            actors: 16,
        },
        ram_mib: 64,
        two_pages: true,
        store_eoi: true,
        level: only(8191),
        unclaimed: only(8190),
        unconnected: Spans::NONE,
    }
}

/// Steps a machine, after it was asked whether it has the operation.
pub fn step(rt: &impl Abort, machine: &mut Machine, op: &Op) -> Outcome {
    assert!(rt; valid(machine.board(), op));
    assert!(rt; machine.count() <= MOST_ENTRIES);
    machine.step(1, op).outcome
}

/// A source, after it was asked whether the board has it.
pub fn source(rt: &impl Abort, machine: &Machine, s: u32) -> SourceView {
    assert!(rt; s < machine.board().limits.sources);
    machine.source(s)
}

/// The pair that a source had before the last set of it, after it was asked whether the board has it.
pub fn old_pair(rt: &impl Abort, machine: &Machine, s: u32) -> u8 {
    assert!(rt; s < machine.board().limits.sources);
    machine.old_pair(s)
}

/// An END, after it was asked whether the board has it.
pub fn queue(rt: &impl Abort, machine: &Machine, e: u32) -> QueueView {
    assert!(rt; e < ENDS_PER_PROCESSOR * machine.board().limits.processors);
    machine.queue(e)
}

/// A processor, after it was asked whether the board has it.
pub fn processor(rt: &impl Abort, machine: &Machine, v: u32) -> Vp {
    assert!(rt; v < machine.board().limits.processors);
    machine.processor(v)
}

/// The ring of a thread, after it was asked whether the board has it.
pub fn ring(rt: &impl Abort, machine: &Machine, t: u32) -> Ring {
    assert!(rt; t < machine.board().limits.threads);
    machine.ring(t)
}

pub fn set(s: u32) -> Op {
    Op::Pq {
        s,
        op: PqOp::Set { pq: 0 },
    }
}

pub fn trigger(s: u32) -> Op {
    Op::Pq {
        s,
        op: PqOp::Trigger,
    }
}

pub fn eoi(s: u32) -> Op {
    Op::Pq { s, op: PqOp::Eoi }
}

/// H_INT_SET_SOURCE_CONFIG with a payload.
pub fn target(s: u64, server: u64, priority: u64, eisn: u64) -> Op {
    Op::Hcall {
        number: H_INT_SET_SOURCE_CONFIG,
        args: [SRC_SET_EISN, s, server, priority, eisn],
    }
}

pub fn restore(v: u32, t: u32) -> Op {
    Op::Restore { v, t }
}

pub fn save(v: u32) -> Op {
    Op::Save { v }
}

/// Pushes the context of a processor onto a thread.
pub fn push(t: u32, v: u32) -> Op {
    store(t, 1, 0x18, 4, 0x8000_0400 + v as u64)
}

pub fn pull(t: u32) -> Op {
    load(t, 1, 0x818, 4)
}

pub fn set_cppr(t: u32, value: u64) -> Op {
    store(t, 2, 0x11, 1, value)
}

/// Makes a priority pending on a thread.
pub fn inject(t: u32, priority: u64) -> Op {
    store(t, 2, 0x812, 1, priority)
}

pub fn acknowledge(t: u32) -> Op {
    load(t, 2, 0x810, 2)
}

/// Loads the registers of a thread's ring.
pub fn registers(t: u32) -> Op {
    load(t, 2, 0x10, 8)
}

/// A load from the TIMA.
fn load(t: u32, page: u8, offset: u16, size: u8) -> Op {
    Op::Tima {
        t,
        page,
        offset,
        size,
        access: Access::Load,
    }
}

/// A store to the TIMA.
fn store(t: u32, page: u8, offset: u16, size: u8, value: u64) -> Op {
    Op::Tima {
        t,
        page,
        offset,
        size,
        access: Access::Store { value },
    }
}

/// An END with v and b and without a queue, or with q too and a queue of 4 KiB.
pub fn end(vp: u32, priority: u8, qaddr: u64, qshift: u32) -> EndConfig {
    let flags = EndFlags::VALID | EndFlags::BACKLOG;
    EndConfig {
        flags: if qshift == 0 {
            flags
        } else {
            flags | EndFlags::ENQUEUE
        },
        vp,
        priority,
        qaddr,
        qshift,
        start: 0,
        esc: 0,
        esc_eisn: 0,
    }
}

/// Whether a pair changed so, and this was the forward's number, or 0.
pub fn changed(outcome: &Outcome, from: u8, to: u8, number: u64) -> bool {
    match *outcome {
        Outcome::Pq { old, new, forward } => old == from && new == to && forward == number,
        _ => false,
    }
}

/// Routes a notice of a source: its number, and what became of it; none where none was routed.
pub fn routed(rt: &impl Abort, machine: &mut Machine, s: u32) -> Option<(u64, Routed)> {
    match step(rt, machine, &Op::Route { s }) {
        Outcome::Routed { k, routed } => Some((k, routed)),
        _ => None,
    }
}

/// Whether notice `number` reached this END, which presents it, and whether it wrote into a queue.
pub fn reached(notice: Option<(u64, Routed)>, number: u64, end: u32, writes: bool) -> bool {
    let Some(
        (
            k,
            Routed::Run {
                run: EndRun::Ran { e, wrote, then },
            },
        ),
    ) = notice
    else {
        return false;
    };
    k == number && e == end && wrote.is_some() == writes && matches!(then, Then::Present)
}

/// Whether an operation is done, and answers no more than that.
pub fn is_done(rt: &impl Abort, machine: &mut Machine, op: &Op) -> bool {
    matches!(step(rt, machine, op), Outcome::Fine)
}

/// Whether a store to the TIMA is done, and moves no context.
pub fn is_stored(rt: &impl Abort, machine: &mut Machine, op: &Op) -> bool {
    matches!(step(rt, machine, op), Outcome::Stored)
}

/// What a load gives; none where it is refused.
pub fn loaded(rt: &impl Abort, machine: &mut Machine, op: &Op) -> Option<u64> {
    match step(rt, machine, op) {
        Outcome::Value { value } => Some(value),
        _ => None,
    }
}

/// The code of a hypercall.
pub fn called(rt: &impl Abort, machine: &mut Machine, op: &Op) -> Option<i64> {
    match step(rt, machine, op) {
        Outcome::Reply { reply } => Some(reply.code),
        _ => None,
    }
}

/// Takes message `i` of those in flight: the processor and the priority, and what became of it. None where
/// there is no such message, or where it escalates.
pub fn taken(rt: &impl Abort, machine: &mut Machine, i: u32) -> Option<(u32, u8, Presented)> {
    match step(rt, machine, &Op::Take { i }) {
        Outcome::Present {
            v,
            p,
            presented,
            escalates: false,
        } => Some((v, p, presented)),
        _ => None,
    }
}
