//! Refused calls of a busy guest: the code of each, and that it has no outputs and changes nothing. The processors and
//! the memory are only read.

ghost use Rattle.xv_model.specs.board.Boards.{IsBoard};

use crate::call;
use crate::tests::only;
use bitflags::Flags;
use eas_table::EasTable;
use end_queue::Ends;
use guest_ram::Ram;
use nvt_backlog::Vps;
use std::alloc::Global;
use std::marker::Model;
use std::process::Abort;
use std::test::Fail;
use xv_base::limits::ENDS_PER_PROCESSOR;
use xv_base::{Limits, NoMemory};
use xv_model::board::Board;
use xv_model::operations::EndFlags;
use xv_model::outcomes::HReply;

const SOURCES: u32 = 5;

const PROCESSORS: u32 = 3;

/// Five sources, of which source 3 is unclaimed and source 4 is a level source, three processors, of which
/// processor 2 isn't connected, and 1 MiB of memory.
fn board() -> Board
    ensures { IsBoard result }
{
    Board {
        limits: Limits {
            sources: SOURCES,
            processors: PROCESSORS,
            threads: 1,
            actors: 1,
        },
        ram_mib: 1,
        two_pages: true,
        store_eoi: false,
        level: only(4),
        unclaimed: only(3),
        unconnected: only(2),
    }
}

/// What a guest's calls are on. No END has more than 16 entries.
#[derive(Drop)]
struct Guest {
    board: Board,
    eas: EasTable,
    ends: Ends,
    vps: Vps,
    ram: Ram,
}

impl Model for Guest {
    ghost use Rattle.std.specs.Prelude.{◌≡◌, ◌*◌, All, List, length};
    ghost use Rattle.xv_model.specs.board.Boards.{IsBoard};
    ghost use Rattle.xv_model.specs.board.Validity.{end_count, ram_size};
    ghost use Rattle.eas_table.specs.Table.{IsEas};
    ghost use Rattle.end_queue.specs.declared.ends.EndRecord.{EndRecord};
    ghost use Rattle.end_queue.specs.Accounts.{IsEnd};
    ghost use Rattle.end_queue.specs.Ends.{HasCountsAtMost};

    ghost Value = { List EndRecord };

    ghost view = { λ g. g.ends };

    ghost invariant = { λ g. IsBoard g.board
        × (length g.eas ≡ g.board.limits.sources) × (length g.ends ≡ end_count g.board)
        × (length g.vps.vps ≡ g.board.limits.processors) × (4 * length g.ram ≡ ram_size g.board)
        × All (IsEas g.board) g.eas × All (IsEnd g.board) g.ends
        × All (HasCountsAtMost 16) g.ends };
}

impl Guest {
    fn build(alloc: Global, board: &Board) -> Result<Guest, NoMemory>
        requires { IsBoard board.now }
    {
        Ok(Guest {
            board: *board,
            eas: EasTable::build(alloc, board)?,
            ends: Ends::build(alloc, board)?,
            vps: Vps::build(alloc, board)?,
            ram: Ram::new(alloc, board.ram_mib as u64 * (1 << 20))?,
        })
    }

    fn call(&mut self, number: u64, args: &[u64; 5]) -> HReply {
        call(
            &self.board,
            &mut self.eas,
            &mut self.ends,
            &self.vps,
            &self.ram,
            number,
            args,
        )
    }

    /// Writes an entry into the queue of an END.
    fn enqueue(&mut self, rt: &impl Abort, e: u32, eisn: u32) {
        assert!(rt; e < ENDS_PER_PROCESSOR * self.board.limits.processors);
        assert!(rt; self.ends.config(e).flags.contains(EndFlags::VALID));
        assert!(rt; self.ends.config(e).flags.contains(EndFlags::ENQUEUE));
        assert!(rt; self.ends.written(e) < 16);
        assert!(rt; eisn < 1 << 31);
        self.ends.enqueue(&mut self.ram, e, eisn);
    }

    /// What the EAS of a source has: whether it is valid, whether it is masked, its END and its EISN.
    fn source(&self, rt: &impl Abort, s: u32) -> (bool, bool, u32, u32) {
        assert!(rt; s < self.board.limits.sources);
        let eas = self.eas.get(s);
        (eas.valid, eas.masked, eas.end, eas.eisn)
    }

    /// What an END notifies: its flags, its processor and its priority, and the END that it escalates to, and how.
    fn notifies(&self, rt: &impl Abort, e: u32) -> (u8, u32, u8, u32, u32) {
        assert!(rt; e < ENDS_PER_PROCESSOR * self.board.limits.processors);
        let config = self.ends.config(e);
        (
            config.flags.bits(),
            config.vp,
            config.priority,
            config.esc,
            config.esc_eisn,
        )
    }

    /// The queue of an END: its address, its size, the number of its first entry, and how many were written and taken.
    fn queue(&self, rt: &impl Abort, e: u32) -> (u64, u32, u64, u64, u64) {
        assert!(rt; e < ENDS_PER_PROCESSOR * self.board.limits.processors);
        let config = self.ends.config(e);
        (
            config.qaddr,
            config.qshift,
            config.start,
            self.ends.written(e),
            self.ends.taken(e),
        )
    }

    /// ESn and ESe of an END.
    fn states(&self, rt: &impl Abort, e: u32) -> (u8, u8) {
        assert!(rt; e < ENDS_PER_PROCESSOR * self.board.limits.processors);
        (self.ends.esn(e), self.ends.ese(e))
    }
}

/// A guest whose source 0 notifies END 6, whose source 1 is masked and has END 11, whose source 2 is masked and has
/// none, whose source 3 isn't initialised, and whose level source 4 notifies END 8. Each of the three ENDs has a queue,
/// and two of the queues have entries.
fn busy_guest(rt: &impl Abort, alloc: Global) -> Result<Guest, NoMemory> {
    let mut guest = Guest::build(alloc, &board())?;
    for (number, args) in [
        (0x3b8, [1, 0, 6, 0x4000, 12]),
        (0x3b8, [0, 1, 3, 0x1_0000, 16]),
        (0x3b8, [0, 1, 0, 0xf_f000, 12]),
        (0x3ac, [2, 0, 0, 6, 0x21]),
        (0x3ac, [3, 1, 1, 3, 5]),
        (0x3ac, [2, 4, 1, 0, 0x7fff_ffff]),
    ] {
        assert_eq!(rt; guest.call(number, &args).code, 0);
    }
    for e in [6, 6, 6, 11] {
        guest.enqueue(rt, e, 0x21);
    }
    Ok(guest)
}

/// Whether two guests have the same EASes and ENDs.
fn are_alike(rt: &impl Abort, guest: &Guest, other: &Guest) -> bool {
    for s in 0..SOURCES {
        if guest.source(rt, s) != other.source(rt, s) {
            return false;
        }
    }
    for e in 0..ENDS_PER_PROCESSOR * PROCESSORS {
        if guest.notifies(rt, e) != other.notifies(rt, e)
            || guest.queue(rt, e) != other.queue(rt, e)
            || guest.states(rt, e) != other.states(rt, e)
        {
            return false;
        }
    }
    true
}

/// Makes each call on a busy guest, which refuses it with this code and stays as it is.
fn refuse(rt: &impl Abort, alloc: Global, calls: &[(u64, [u64; 5], i64)]) -> Result<(), NoMemory> {
    let mut guest = busy_guest(rt, alloc)?;
    let untouched = busy_guest(rt, alloc)?;
    for &(number, args, code) in calls {
        let reply = guest.call(number, &args);
        let out = reply.out;
        assert_eq!(rt;
            (reply.code, reply.outs, out),
            (code, 0, [0; 4]),
            "{number} is refused with {code}"
        );
        assert!(rt;
            are_alike(rt, &guest, &untouched),
            "{number}, refused with {code}, changes nothing"
        );
    }
    Ok(())
}

#[test]
fn a_busy_guest(rt: HostRuntime) -> Result<(), Fail> {
    let guest = busy_guest(&rt, rt.alloc())?;
    assert_eq!(rt; guest.source(&rt, 0), (true, false, 6, 0x21));
    assert_eq!(rt; guest.source(&rt, 1), (true, true, 11, 5));
    assert_eq!(rt; guest.source(&rt, 2), (true, true, 0, 0));
    assert_eq!(rt; guest.source(&rt, 3), (false, false, 0, 0));
    assert_eq!(rt; guest.source(&rt, 4), (true, false, 8, 0x7fff_ffff));
    assert_eq!(rt; guest.notifies(&rt, 6), (15, 0, 6, 0, 0));
    assert_eq!(rt; guest.queue(&rt, 6), (0x4000, 12, 0, 3, 0));
    assert_eq!(rt; guest.states(&rt, 6), (0, 0));
    assert_eq!(rt; guest.notifies(&rt, 11), (11, 1, 3, 0, 0));
    assert_eq!(rt; guest.queue(&rt, 11), (0x1_0000, 16, 0, 1, 0));
    assert_eq!(rt; guest.queue(&rt, 8), (0xf_f000, 12, 0, 0, 0));
    assert_eq!(rt; guest.notifies(&rt, 23), (0, 0, 0, 0, 0));
    assert_eq!(rt; guest.states(&rt, 23), (1, 1));
    Ok(())
}

#[test]
fn refused_calls_on_sources(rt: HostRuntime) -> Result<(), Fail> {
    let calls = [
        (0x3a8, [1, 5, 0, 0, 0], -4),
        (0x3a8, [1 << 63, 0, 0, 0, 0], -4),
        (0x3a8, [0, 5, 0, 0, 0], -55),
        (0x3a8, [0, 3, 0, 0, 0], -55),
        (0x3a8, [0, 1 << 32, 0, 0, 0], -55),
        (0x3ac, [4, 5, 2, 7, 0], -4),
        (0x3ac, [7, 0, 0, 0xff, 0], -4),
        (0x3ac, [1 << 32, 0, 0, 6, 0], -4),
        (0x3ac, [3, 5, 2, 7, 0], -55),
        (0x3ac, [3, 3, 0, 6, 0], -55),
        (0x3ac, [0, 3, 0, 0xff, 0], -55),
        (0x3ac, [0, 1 << 32, 0, 0xff, 0], -55),
        (0x3ac, [3, 0, 2, 7, 5], -57),
        (0x3ac, [3, 0, 1, 7, 5], -57),
        (0x3ac, [3, 0, 1, 0xfe, 5], -57),
        (0x3ac, [3, 0, 1, 0x100, 5], -57),
        (0x3ac, [3, 0, 1, 0x1ff, 5], -57),
        (0x3ac, [3, 0, 2, 6, 5], -56),
        (0x3ac, [3, 1, 3, 0, 5], -56),
        (0x3ac, [3, 4, 1 << 32, 6, 5], -56),
        (0x3b0, [1, 5, 0, 0, 0], -4),
        (0x3b0, [0, 5, 0, 0, 0], -55),
        (0x3b0, [0, 3, 0, 0, 0], -55),
        (0x3b0, [0, 1 << 32, 0, 0, 0], -55),
        (0x3c8, [2, 5, 0x1_0000, 0, 0], -4),
        (0x3c8, [1, 5, 0x1_0000, 0, 0], -55),
        (0x3c8, [0, 3, 0, 0, 0], -55),
        (0x3c8, [0, 0, 0x1_0000, 0, 0], -56),
        (0x3c8, [1, 4, 1 << 32, 0, 0], -56),
        (0x3cc, [1, 5, 0, 0, 0], -4),
        (0x3cc, [0, 5, 0, 0, 0], -55),
        (0x3cc, [0, 3, 0, 0, 0], -55),
    ];
    refuse(&rt, rt.alloc(), &calls)?;
    Ok(())
}

#[test]
fn refused_calls_on_queues(rt: HostRuntime) -> Result<(), Fail> {
    let calls = [
        (0x3b4, [1, 2, 7, 0, 0], -4),
        (0x3b4, [0, 2, 7, 0, 0], -56),
        (0x3b4, [0, 0, 0x106, 0, 0], -56),
        (0x3b4, [0, 2, 6, 0, 0], -55),
        (0x3b4, [0, 3, 6, 0, 0], -55),
        (0x3b4, [0, 1 << 32, 6, 0, 0], -55),
        (0x3b8, [2, 2, 7, 1, 13], -4),
        (0x3b8, [3, 0, 6, 0, 0], -4),
        (0x3b8, [1, 2, 7, 1, 13], -56),
        (0x3b8, [0, 0, 7, 0, 0], -56),
        (0x3b8, [0, 0, 0xff, 0, 0], -56),
        (0x3b8, [0, 0, 0x106, 0, 0], -56),
        (0x3b8, [1, 2, 6, 1, 13], -55),
        (0x3b8, [0, 3, 6, 0, 0], -55),
        (0x3b8, [0, 1 << 32, 6, 0, 0], -55),
        (0x3b8, [0, 0, 6, 1, 13], -58),
        (0x3b8, [0, 0, 6, 0x4000, 1], -58),
        (0x3b8, [0, 0, 6, 0x4000, 11], -58),
        (0x3b8, [0, 0, 6, 0, 25], -58),
        (0x3b8, [0, 0, 6, 0x4000, (1 << 32) + 12], -58),
        (0x3b8, [0, 0, 6, 0x4004, 12], -57),
        (0x3b8, [0, 1, 3, 0x8000, 16], -57),
        (0x3b8, [0, 0, 6, 0x10_0000, 12], -57),
        (0x3b8, [0, 0, 6, 0, 21], -57),
        (0x3b8, [0, 0, 6, 0, 24], -57),
        (0x3b8, [0, 1, 3, 1 << 32, 16], -57),
        (0x3b8, [0, 1, 3, u64::MAX - 0xfff, 12], -57),
        (0x3bc, [2, 2, 7, 0, 0], -4),
        (0x3bc, [3, 0, 6, 0, 0], -4),
        (0x3bc, [1, 2, 7, 0, 0], -56),
        (0x3bc, [0, 0, 0x106, 0, 0], -56),
        (0x3bc, [1, 2, 6, 0, 0], -55),
        (0x3bc, [0, 3, 6, 0, 0], -55),
        (0x3bc, [0, 1 << 32, 6, 0, 0], -55),
    ];
    refuse(&rt, rt.alloc(), &calls)?;
    Ok(())
}

#[test]
fn other_refused_calls(rt: HostRuntime) -> Result<(), Fail> {
    let calls = [
        (0x3d0, [1, 0, 0, 0, 0], -4),
        (0x3d0, [1 << 63, 0, 0, 0, 0], -4),
        (0x3c0, [0, 0, 0, 0, 0], -2),
        (0x3c4, [0, 0, 0, 0, 0], -2),
        (0x3a4, [0, 0, 0, 0, 0], -2),
        (0x3d4, [0, 0, 0, 0, 0], -2),
        ((1 << 32) + 0x3d0, [0, 0, 0, 0, 0], -2),
    ];
    refuse(&rt, rt.alloc(), &calls)?;
    Ok(())
}
