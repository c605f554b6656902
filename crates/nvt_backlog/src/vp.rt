//! A virtual processor: what is kept of it while it isn't on a thread.

ghost use Rattle.std.specs.Prelude.{◌≡◌};
ghost use Rattle.nvt_backlog.specs.Vps.{first_vp as first_vp_of};

use xv_model::board::Board;
use xv_model::outcomes::Phase;

/// A virtual processor. POWER9 keeps it as an NVT, a notification virtual target (QEMU's
/// include/hw/ppc/xive_regs.h, XiveNVT; docs/specs/ppc-xive, "XIVE internal tables"). While its context is on
/// a thread, the thread's ring has CPPR and IPB.
#[derive(Clone, Copy)]
pub struct Vp {
    /// It is connected: interrupts can be sent to it, and its context can be moved.
    pub valid: bool,
    /// Where its context is.
    pub phase: Phase,
    /// The saved CPPR: only priorities below it interrupt the processor.
    pub cppr: u8,
    /// The saved IPB: the priorities that are pending, with `1 << (7 - p)` for priority p.
    pub ipb: u8,
    /// The priorities that came while it wasn't on a thread, with the bits of `ipb`.
    pub backlog: u8,
}

/// A processor of a board at the start: its context is saved, all of it 0, and it is connected unless the
/// board names it as unconnected.
pub(crate) fn first_vp(board: &Board, v: u32) -> Vp
    ensures { result ≡ first_vp_of board.now v }
{
    Vp {
        valid: !board.unconnected.has(v),
        phase: Phase::Saved,
        cppr: 0,
        ipb: 0,
        backlog: 0,
    }
}
