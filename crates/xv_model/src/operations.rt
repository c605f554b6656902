//! What an actor may do to a board.

ghost use Rattle.std.specs.Prelude.{⊤, [], ◌∷◌, codes};

use bitflags::{Flag, Flags, bitflag_items};

/// An operation on the P and Q bits of a source (QEMU's ppc-xive, "event state buffer"). A pair PQ is a
/// number: `00` is 0, `01` is 1, `10` is 2, `11` is 3.
#[derive(Clone, Copy)]
pub enum PqOp {
    Trigger,
    Eoi,
    Get,
    Set { pq: u8 },
    Raise,
    Lower,
    Init { asserted: bool },
}

/// A load or a store.
#[derive(Clone, Copy)]
pub enum Access {
    Load,
    Store { value: u64 },
}

/// The flags of an END: v, q, n, b, e, u and s, from bit 0 on.
#[derive(Clone, Copy)]
pub struct EndFlags(u8);

bitflag_items! {
    impl EndFlags: u8 {
        /// v: the END is valid.
        const VALID = 1;
        /// q: the END writes what is routed to it into its event queue.
        const ENQUEUE = 2;
        /// n: the END notifies whatever its state is.
        const NOTIFY_ALWAYS = 4;
        /// b: a presentation to a processor that isn't on a thread is kept in its backlog.
        const BACKLOG = 8;
        /// e: a presentation that isn't delivered escalates.
        const ESCALATE = 16;
        /// u: an escalation asks no state.
        const ESCALATE_ALWAYS = 32;
        /// s: the END presents nothing, and escalates with e.
        const SILENT = 64;
    }
}

impl Flags for EndFlags {
    type Bits = u8;

    ghost exact = { ⊤ };

    ghost table = { (codes "VALID", 1) ∷ (codes "ENQUEUE", 2) ∷ (codes "NOTIFY_ALWAYS", 4) ∷ (codes "BACKLOG", 8)
        ∷ (codes "ESCALATE", 16) ∷ (codes "ESCALATE_ALWAYS", 32) ∷ (codes "SILENT", 64) ∷ [] };

    ghost set_of = { λ flags. flags.0 };

    fn flags<'a>() -> &'a [Flag<EndFlags>] {
        EndFlags::FLAGS
    }

    fn bits(&self) -> u8 {
        self.0
    }

    fn from_bits_retain(bits: u8) -> EndFlags {
        EndFlags(bits)
    }
}

/// What an END is told to do.
#[derive(Clone, Copy)]
pub struct EndConfig {
    pub flags: EndFlags,
    /// The processor that it notifies.
    pub vp: u32,
    /// The priority that it notifies with, at most 7.
    pub priority: u8,
    /// Where its event queue lies in memory, in bytes.
    pub qaddr: u64,
    /// The queue has 2 to the power of this many bytes, 4 bytes an entry.
    pub qshift: u32,
    /// The number of the first entry, counted in entries.
    pub start: u64,
    /// The escalation END.
    pub esc: u32,
    /// What an escalation writes, 31 bits.
    pub esc_eisn: u32,
}

impl EndConfig {
    /// What an END is told that isn't valid, as each one is at the start.
    pub const OFF: EndConfig = EndConfig {
        flags: EndFlags(0),
        vp: 0,
        priority: 0,
        qaddr: 0,
        qshift: 0,
        start: 0,
        esc: 0,
        esc_eisn: 0,
    };
}

/// The fields of the KVM device's queue attribute.
#[derive(Clone, Copy)]
pub struct EqFields {
    pub flags: u32,
    pub qshift: u32,
    pub qaddr: u64,
    pub qtoggle: u32,
    pub qindex: u32,
}

/// What a KVM attribute is set to.
#[derive(Clone, Copy)]
pub enum AttrValue {
    Number { value: u64 },
    Queue { eq: EqFields },
}

/// An operation: one event on the board. `s` is a source, `e` an END, `v` a processor, `t` a thread.
#[derive(Clone, Copy)]
pub enum Op {
    Pq {
        s: u32,
        op: PqOp,
    },
    Esb {
        s: u32,
        page: u8,
        offset: u16,
        store: bool,
    },
    EndEsb {
        e: u32,
        page: u8,
        offset: u16,
        store: bool,
    },
    Route {
        s: u32,
    },
    /// Takes message `i` of those in flight.
    Take {
        i: u32,
    },
    Quiet {
        s: u32,
    },
    EndSet {
        e: u32,
        config: EndConfig,
    },
    Connect {
        v: u32,
    },
    Restore {
        v: u32,
        t: u32,
    },
    Save {
        v: u32,
    },
    Tima {
        t: u32,
        page: u8,
        offset: u16,
        size: u8,
        access: Access,
    },
    Hcall {
        number: u64,
        args: [u64; 5],
    },
    AttrSet {
        group: u32,
        attr: u64,
        value: AttrValue,
    },
    AttrGet {
        group: u32,
        attr: u64,
    },
    VpGet {
        v: u32,
    },
    VpSet {
        v: u32,
        cppr: u8,
        ipb: u8,
    },
    Read {
        e: u32,
    },
    Peek {
        addr: u64,
    },
    Zero {
        addr: u64,
        len: u64,
    },
}
