//! What the tests share: boards, and a fabric that is asked first whether its board has what is named.

mod acknowledgements;
mod device;
mod hypercalls;
mod memory;
mod moves;
mod operations;
mod presentations;
mod processors;
mod routes;

ghost use Rattle.std.specs.Prelude.{◌≡◌, ◌+◌, IsTrue, None, true, false};
ghost use Rattle.xv_model.specs.board.Boards.{IsBoard, AreBelow};
ghost use Rattle.xv_model.specs.account.Kinds.{access_of};
ghost use Rattle.xv_model.specs.source.Pages.{page_op};

use crate::tests::operations::{config, target};
use crate::{Fabric, QueueView};
use nvt_backlog::Vp;
use std::alloc::Global;
use std::marker::Model;
use std::process::Abort;
use thread_context::Ring;
use xv_base::Limits;
use xv_base::limits::{ENDS_PER_PROCESSOR, MOST_ENTRIES};
use xv_model::board::{Board, Span, Spans};
use xv_model::operations::Op;
use xv_model::outcomes::{EndRun, MoveRefused, Outcome, Phase, Presented, Routed, Then};
use xv_model::pages::{ESB_OFFSETS, ESB_SET_PQ, ESB_STORE_EOI};
use xv_model::validity::valid;

/// One number.
fn only(n: u32) -> Spans
    ensures { AreBelow result (n + 1) }
{
    let mut spans = [Span { first: 0, last: 0 }; 16];
    spans[0] = Span { first: n, last: n };
    Spans { count: 1, spans }
}

/// Four sources, of which source 2 is unclaimed and source 3 is a level source, three processors, of which
/// processor 2 isn't connected, two threads, and 1 MiB of memory.
pub fn small_board() -> Board
    ensures board { IsBoard result }
    ensures processors { result.limits.processors ≡ 3 }
    ensures threads { result.limits.threads ≡ 2 }
{
    Board {
        limits: Limits {
            sources: 4,
            processors: 3,
            threads: 2,
            actors: 2,
        },
        ram_mib: 1,
        two_pages: true,
        store_eoi: false,
        level: only(3),
        unclaimed: only(2),
        unconnected: only(2),
    }
}

/// The largest counts of everything. Source 8,190 is unclaimed, and processor 62 isn't connected.
pub fn largest_board() -> Board
    ensures { IsBoard result }
{
    Board {
        limits: Limits {
            sources: 8192,
            processors: 64,
            threads: 32,
            actors: 16,
        },
        ram_mib: 64,
        two_pages: true,
        store_eoi: true,
        level: only(8191),
        unclaimed: only(8190),
        unconnected: only(62),
    }
}

/// Whether an access to a page of a source touches its word, on a board with two pages a source.
fn touches(eoi: bool, page: u8, offset: u16, store: bool) -> bool
    ensures { result ≡ false → page_op true eoi page offset store ≡ None }
{
    let offset = offset as u64 % ESB_OFFSETS;
    if page == 0 {
        store
    } else {
        !store || offset < ESB_STORE_EOI || ESB_SET_PQ <= offset || eoi
    }
}

/// Whether an operation is on no word of a source, on a board with two pages a source.
fn is_on_no_word(board: &Board, op: &Op) -> bool
    ensures { IsTrue result → access_of board.now op.now ≡ None }
{
    match *op {
        Op::Pq { .. } => false,
        Op::Esb {
            s: _,
            page,
            offset,
            store,
        } => board.two_pages && !touches(board.store_eoi, page, offset, store),
        _ => true,
    }
}

/// Whether two contexts are in the same place.
fn is_phase(phase: Phase, wanted: Phase) -> bool {
    match (phase, wanted) {
        (Phase::Saved, Phase::Saved) => true,
        (Phase::Restored { t: found }, Phase::Restored { t })
        | (Phase::On { t: found }, Phase::On { t })
        | (Phase::Pulled { t: found }, Phase::Pulled { t }) => found == t,
        _ => false,
    }
}

/// Whether a move was refused for this reason.
pub fn is_refused(outcome: Outcome, wanted: MoveRefused) -> bool {
    let Outcome::Refused { why } = outcome else {
        return false;
    };
    match (why, wanted) {
        (MoveRefused::NotValid, MoveRefused::NotValid)
        | (MoveRefused::NoContext, MoveRefused::NoContext) => true,
        (MoveRefused::RingBusy { vp: found }, MoveRefused::RingBusy { vp }) => found == vp,
        (MoveRefused::VpBusy { phase: found }, MoveRefused::VpBusy { phase })
        | (MoveRefused::NotPulled { phase: found }, MoveRefused::NotPulled { phase })
        | (MoveRefused::NotRestored { phase: found }, MoveRefused::NotRestored { phase }) => {
            is_phase(found, phase)
        }
        _ => false,
    }
}

/// A fabric, and how many entries it made. Each call asks first whether the board has what it names.
#[derive(Drop)]
pub struct Bench {
    fabric: Fabric,
    count: u64,
}

impl Model for Bench {
    ghost use Rattle.std.specs.Prelude.{ℕ, All};
    ghost use Rattle.end_queue.specs.Ends.{HasCountsAtMost};

    ghost Value = { ℕ };

    ghost view = { λ b. b.count };

    ghost invariant = { λ b. All (HasCountsAtMost b.count) b.fabric.tables.ends };
}

impl Bench {
    pub fn build(rt: &impl Abort, alloc: Global, board: &Board) -> Bench
        requires { IsBoard board.now }
    {
        match Fabric::build(alloc, board) {
            Ok(fabric) => Bench { fabric, count: 0 },
            Err(_) => panic!(rt),
        }
    }

    /// What an operation answers that routes nothing, or the notice of a source that forwarded so often.
    fn answer(&mut self, rt: &impl Abort, op: &Op, forwards: u64) -> Outcome {
        assert!(rt; valid(self.fabric.board(), op));
        assert!(rt; is_on_no_word(self.fabric.board(), op));
        assert!(rt; self.count < MOST_ENTRIES);
        let entry = self.fabric.step(1, op, forwards);
        self.count += 1;
        assert_eq!(rt; entry.actor, 1);
        entry.outcome
    }

    /// What an operation answers that routes nothing.
    pub fn step(&mut self, rt: &impl Abort, op: Op) -> Outcome {
        self.answer(rt, &op, 0)
    }

    /// Routes a notice of a source that forwarded so often.
    pub fn route(&mut self, rt: &impl Abort, s: u32, forwards: u64) -> Outcome {
        self.answer(rt, &Op::Route { s }, forwards)
    }

    /// Whether an operation answers `Fine`.
    pub fn fine(&mut self, rt: &impl Abort, op: Op) -> bool {
        matches!(self.step(rt, op), Outcome::Fine)
    }

    /// Whether a store answers that it was done.
    pub fn stored(&mut self, rt: &impl Abort, op: Op) -> bool {
        matches!(self.step(rt, op), Outcome::Stored)
    }

    /// The value that a load answers.
    pub fn value(&mut self, rt: &impl Abort, op: Op) -> Option<u64> {
        match self.step(rt, op) {
            Outcome::Value { value } => Some(value),
            _ => None,
        }
    }

    /// The code of a hypercall, whose reply has no outputs.
    pub fn code(&mut self, rt: &impl Abort, op: Op) -> i64 {
        match self.step(rt, op) {
            Outcome::Reply { reply } => {
                let out = reply.out;
                assert_eq!(rt; (reply.outs, out), (0, [0; 4]));
                reply.code
            }
            _ => panic!(rt),
        }
    }

    /// The code of connecting a processor.
    pub fn connect(&mut self, rt: &impl Abort, v: u32) -> i32 {
        match self.step(rt, Op::Connect { v }) {
            Outcome::Code { code } => code,
            _ => panic!(rt),
        }
    }

    /// Sends a message to a processor, which is kept in its backlog with b.
    pub fn send(&mut self, rt: &impl Abort, vp: u32, priority: u8, b: bool) {
        let config = config(if b { 9 } else { 1 }, vp, priority);
        assert!(rt; self.fine(rt, Op::EndSet { e: 0, config }));
        assert_eq!(rt; self.code(rt, target(0, 0, 0, 0)), 0);
        let forwards = self.routes(rt, 0).saturating_add(1);
        let Outcome::Routed { k, routed } = self.route(rt, 0, forwards) else {
            panic!(rt);
        };
        assert_eq!(rt; k, forwards);
        assert!(rt;
            matches!(
                routed,
                Routed::Run {
                    run: EndRun::Ran {
                        e: 0,
                        wrote: None,
                        then: Then::Present
                    }
                }
            )
        );
    }

    /// What becomes of message `i` of those in flight, which is for this processor and has this priority.
    pub fn take(&mut self, rt: &impl Abort, i: u32, vp: u32, priority: u8) -> Presented {
        match self.step(rt, Op::Take { i }) {
            Outcome::Present {
                v,
                p,
                presented,
                escalates: false,
            } => {
                assert_eq!(rt; (v, p), (vp, priority));
                presented
            }
            _ => panic!(rt),
        }
    }

    /// Sends a message, and takes it where none but this one is in flight: what becomes of it.
    pub fn present(&mut self, rt: &impl Abort, vp: u32, priority: u8, b: bool) -> Presented {
        self.send(rt, vp, priority, b);
        assert_eq!(rt; self.flight(), 1);
        self.take(rt, 0, vp, priority)
    }

    pub fn flight(&self) -> u32 {
        self.fabric.flight()
    }

    pub fn flight_of(&self, s: u32) -> u32 {
        self.fabric.flight_of(s)
    }

    /// How many notices of a source were routed.
    pub fn routes(&self, rt: &impl Abort, s: u32) -> u64 {
        assert!(rt; s < self.fabric.board().limits.sources);
        self.fabric.routes(s)
    }

    /// Whether a source has a valid EAS.
    pub fn initialised(&self, rt: &impl Abort, s: u32) -> bool {
        assert!(rt; s < self.fabric.board().limits.sources);
        self.fabric.initialised(s)
    }

    pub fn queue(&self, rt: &impl Abort, e: u32) -> QueueView {
        assert!(rt; e < ENDS_PER_PROCESSOR * self.fabric.board().limits.processors);
        self.fabric.queue(e)
    }

    pub fn processor(&self, rt: &impl Abort, v: u32) -> Vp {
        assert!(rt; v < self.fabric.board().limits.processors);
        self.fabric.processor(v)
    }

    pub fn ring(&self, rt: &impl Abort, t: u32) -> Ring {
        assert!(rt; t < self.fabric.board().limits.threads);
        self.fabric.ring(t)
    }

    /// Whether the context of a processor is there.
    pub fn is_at(&self, rt: &impl Abort, v: u32, wanted: Phase) -> bool {
        is_phase(self.processor(rt, v).phase, wanted)
    }

    /// CPPR, IPB and backlog of a processor.
    pub fn kept(&self, rt: &impl Abort, v: u32) -> (u8, u8, u8) {
        let found = self.processor(rt, v);
        (found.cppr, found.ipb, found.backlog)
    }

    /// NSR, CPPR, IPB and PIPR of a thread.
    pub fn registers(&self, rt: &impl Abort, t: u32) -> (u8, u8, u8, u8) {
        let found = self.ring(rt, t);
        (found.nsr, found.cppr, found.ipb, found.pipr)
    }

    pub fn cam(&self, rt: &impl Abort, t: u32) -> u32 {
        self.ring(rt, t).cam
    }
}
