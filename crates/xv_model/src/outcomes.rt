//! What operations answer.

use crate::operations::EqFields;

/// Where a processor's context is.
#[derive(Clone, Copy)]
pub enum Phase {
    Saved,
    Restored { t: u32 },
    On { t: u32 },
    Pulled { t: u32 },
}

/// Why a move of a context is refused.
#[derive(Clone, Copy)]
pub enum MoveRefused {
    NotValid,
    VpBusy { phase: Phase },
    RingBusy { vp: u32 },
    NotPulled { phase: Phase },
    NotRestored { phase: Phase },
    NoContext,
}

/// What became of a presentation.
#[derive(Clone, Copy)]
pub enum Presented {
    Found,
    Backlogged,
    Lost,
    NoProcessor,
}

/// An entry written into an event queue: the address in bytes, and the word.
#[derive(Clone, Copy)]
pub struct Wrote {
    pub addr: u64,
    pub word: u32,
}

/// How an END's pass goes on.
#[derive(Clone, Copy)]
pub enum Then {
    Coalesced,
    Silent,
    Present,
    Escalate,
}

/// A pass of an END.
#[derive(Clone, Copy)]
pub enum EndRun {
    NoEnd {
        e: u32,
    },
    Ran {
        e: u32,
        wrote: Option<Wrote>,
        then: Then,
    },
}

/// What became of a notice.
#[derive(Clone, Copy)]
pub enum Routed {
    NoSource,
    Masked,
    Run { run: EndRun },
}

/// A hypercall's reply. The first `outs` numbers are the outputs, at most 4; the others are 0.
#[derive(Clone, Copy)]
pub struct HReply {
    pub code: i64,
    pub outs: u8,
    pub out: [u64; 4],
}

/// What an operation answers.
#[derive(Clone, Copy)]
pub enum Outcome {
    /// A source's pair before and after, and the number of the forward, or 0 where there is none.
    Pq {
        old: u8,
        new: u8,
        forward: u64,
    },
    /// The source has forwarded as often as its count can tell, and nothing has changed.
    Spent,
    Ones,
    BadOffset,
    EndPq {
        old: u8,
        new: u8,
    },
    NoEnd,
    NoNotice,
    BusFull,
    Routed {
        k: u64,
        routed: Routed,
    },
    NoMessage,
    Present {
        v: u32,
        p: u8,
        presented: Presented,
        escalates: bool,
    },
    /// No pass where the END's state coalesced the escalation.
    Escalated {
        e: u32,
        run: Option<EndRun>,
    },
    Quiet,
    Busy {
        notices: u64,
        messages: u32,
    },
    Fine,
    Refused {
        why: MoveRefused,
    },
    Value {
        value: u64,
    },
    Stored,
    BadAccess,
    Reply {
        reply: HReply,
    },
    Code {
        code: i32,
    },
    Queue {
        eq: EqFields,
    },
    Context {
        cppr: u8,
        ipb: u8,
    },
    Item {
        payload: u32,
    },
    Empty,
    NoQueue,
    Cell {
        word: u32,
    },
    BadRange,
}
