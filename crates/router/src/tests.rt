//! What the tests share: boards, and the tables of a board beside its memory.

mod escalating;
mod pages;
mod presenting;
mod queues;
mod routes;

ghost use Rattle.std.specs.Prelude.{◌≡◌, ◌+◌, ◌*◌, ◌<◌, ◌^◌, All, IsTrue, length};
ghost use Rattle.xv_model.specs.board.Boards.{IsBoard, AreBelow};
ghost use Rattle.xv_model.specs.board.Validity.{ram_size};
ghost use Rattle.end_queue.specs.Ends.{HasRoom};

use crate::tables::Tables;
use bitflags::Flags;
use guest_ram::Ram;
use std::alloc::Global;
use std::process::Abort;
use xv_base::Limits;
use xv_base::limits::{
    ENDS_PER_PROCESSOR, MOST_ACTORS, MOST_PROCESSORS, MOST_RAM_MIB, MOST_SOURCES, MOST_THREADS,
};
use xv_model::board::{Board, Span, Spans};
use xv_model::eas::Eas;
use xv_model::messages::Message;
use xv_model::operations::{EndConfig, EndFlags, Op};
use xv_model::outcomes::{EndRun, Outcome, Presented, Routed, Then};
use xv_model::validity::valid;

/// One number.
fn only(n: u32) -> Spans
    ensures { AreBelow result (n + 1) }
{
    let mut spans = [Span { first: 0, last: 0 }; 16];
    spans[0] = Span { first: n, last: n };
    Spans { count: 1, spans }
}

/// Four sources, of which source 3 is unclaimed, two processors, of which processor 1 isn't connected, and
/// 1 MiB of memory.
pub fn small_board() -> Board
    ensures board { IsBoard result }
    ensures processors { result.limits.processors ≡ 2 }
{
    Board {
        limits: Limits {
            sources: 4,
            processors: 2,
            threads: 1,
            actors: 1,
        },
        ram_mib: 1,
        two_pages: true,
        store_eoi: false,
        level: only(3),
        unclaimed: only(3),
        unconnected: only(1),
    }
}

/// Sixteen ranges of one number each: this one, and every second one after it.
fn every_second(first: u32) -> Spans
    requires { first < 2 ^ 31 }
    ensures { AreBelow result (first + 32) }
{
    let mut spans = [Span { first: 0, last: 0 }; 16];
    for i in 0..16 {
        let n = first + 2 * i;
        spans[i as usize] = Span { first: n, last: n };
    }
    Spans { count: 16, spans }
}

/// The largest counts of everything.
pub fn largest_board() -> Board
    ensures { IsBoard result }
{
    Board {
        limits: Limits {
            sources: MOST_SOURCES,
            processors: MOST_PROCESSORS,
            threads: MOST_THREADS,
            actors: MOST_ACTORS,
        },
        ram_mib: MOST_RAM_MIB,
        two_pages: true,
        store_eoi: true,
        level: every_second(8160),
        unclaimed: every_second(8160),
        unconnected: every_second(32),
    }
}

/// An END with these flags, and with a queue of 4 KiB at 0x4000 where they have q.
pub fn config(flags: u8) -> EndConfig {
    EndConfig {
        flags: EndFlags::from_bits_retain(flags),
        vp: 0,
        priority: 6,
        qaddr: if flags & 2 == 2 { 0x4000 } else { 0 },
        qshift: if flags & 2 == 2 { 12 } else { 0 },
        start: 0,
        esc: 0,
        esc_eisn: 0,
    }
}

/// An END with these flags, whose processor is 1 where this is odd, and which escalates to END 7 where they have e.
fn sender(priority: u8, flags: u8) -> EndConfig {
    let escalates = flags & 16 == 16;
    EndConfig {
        vp: (priority & 1) as u32,
        priority,
        esc: if escalates { 7 } else { 0 },
        esc_eisn: if escalates { 9 } else { 0 },
        ..config(flags)
    }
}

/// Whether each END has room, by what is shown of it.
fn has_room(tables: &Tables) -> bool
    ensures { IsTrue result → All HasRoom tables.now.ends }
{
    let ends = tables.ends();
    for e in 0..ENDS_PER_PROCESSOR * tables.board().limits.processors {
        if ends.written(e) >= 1 << 63 || ends.taken(e) >= 1 << 63 {
            return false;
        }
    }
    true
}

/// Whether memory is as large as that of a board.
fn is_memory_of(board: &Board, ram: &Ram) -> bool
    ensures { IsTrue result → 4 * length ram.now ≡ ram_size board.now }
{
    let size = board.ram_mib as u64 * (1 << 20);
    ram.fits(size, 0) && !ram.fits(size, 4)
}

/// The tables of a board, beside its memory. Each call asks first what the tables need to
/// be told.
#[derive(Drop)]
pub struct Bench {
    pub tables: Tables,
    pub ram: Ram,
}

impl Bench {
    pub fn build(rt: &impl Abort, alloc: Global, board: &Board) -> Bench
        requires { IsBoard board.now }
    {
        let tables = match Tables::build(alloc, board) {
            Ok(tables) => tables,
            Err(_) => panic!(rt),
        };
        let ram = match Ram::new(alloc, board.ram_mib as u64 * (1 << 20)) {
            Ok(ram) => ram,
            Err(_) => panic!(rt),
        };
        Bench { tables, ram }
    }

    /// Routes the notices of a source to an END, with this payload.
    pub fn assign(&mut self, rt: &impl Abort, s: u32, end: u32, eisn: u32) {
        assert!(rt; s < self.tables.board.limits.sources);
        assert!(rt; end < ENDS_PER_PROCESSOR * self.tables.board.limits.processors);
        assert!(rt; eisn < 1 << 31);
        let eas = Eas {
            valid: true,
            masked: false,
            end,
            eisn,
        };
        self.tables.eas.set(s, eas);
    }

    pub fn configure(&mut self, rt: &impl Abort, e: u32, config: &EndConfig) {
        assert!(rt; valid(self.tables.board(), &Op::EndSet { e, config: *config }));
        self.tables.configure(e, config);
    }

    pub fn route(&mut self, rt: &impl Abort, s: u32, forwards: u64) -> Outcome {
        assert!(rt; s < self.tables.board().limits.sources);
        assert!(rt; has_room(&self.tables));
        assert!(rt; is_memory_of(self.tables.board(), &self.ram));
        self.tables.route(&mut self.ram, s, forwards)
    }

    /// Takes message `i`, a presentation of which this became, and answers whether it escalates.
    pub fn end_present(&mut self, rt: &impl Abort, i: u32, presented: Presented) -> bool {
        assert!(rt; matches!(self.tables.message(i), Some(Message::Present { .. })));
        self.tables.end_present(i, presented)
    }

    /// Takes message `i`, an escalation, and answers the pass that this makes.
    pub fn end_escalate(&mut self, rt: &impl Abort, i: u32) -> Option<EndRun> {
        assert!(rt; matches!(self.tables.message(i), Some(Message::Escalate { .. })));
        assert!(rt; has_room(&self.tables));
        assert!(rt; is_memory_of(self.tables.board(), &self.ram));
        self.tables.end_escalate(&mut self.ram, i)
    }

    pub fn read(&mut self, rt: &impl Abort, e: u32) -> Outcome {
        assert!(rt; e < ENDS_PER_PROCESSOR * self.tables.board().limits.processors);
        assert!(rt; has_room(&self.tables));
        assert!(rt; is_memory_of(self.tables.board(), &self.ram));
        self.tables.read(&self.ram, e)
    }

    /// What became of a notice of source 0 that has this number, where that is its turn.
    pub fn routed(&mut self, rt: &impl Abort, number: u64) -> Routed {
        match self.route(rt, 0, number) {
            Outcome::Routed { k, routed } => {
                assert_eq!(rt; k, number);
                routed
            }
            _ => panic!(rt),
        }
    }

    /// Sends one more message by END 0, with this priority and these flags.
    pub fn send(&mut self, rt: &impl Abort, number: u64, priority: u8, flags: u8) {
        self.configure(rt, 0, &sender(priority, flags));
        self.assign(rt, 0, 0, 0);
        assert!(rt; matches!(self.routed(rt, number), Routed::Run { run: _ }));
    }

    /// What a pass of END 6 wrote for such a notice, and whether it presents.
    pub fn passed(&mut self, rt: &impl Abort, number: u64) -> (Option<(u64, u32)>, bool) {
        match self.routed(rt, number) {
            Routed::Run {
                run: EndRun::Ran { e: 6, wrote, then },
            } => (
                match wrote {
                    Some(wrote) => Some((wrote.addr, wrote.word)),
                    None => None,
                },
                matches!(then, Then::Present),
            ),
            _ => panic!(rt),
        }
    }

    /// The payload that a read of END 6 found, where it found one in its queue.
    pub fn item(&mut self, rt: &impl Abort) -> Option<u32> {
        match self.read(rt, 6) {
            Outcome::Item { payload } => Some(payload),
            Outcome::Empty => None,
            _ => panic!(rt),
        }
    }

    /// How many entries were written into the queue of an END, and how many were taken from it.
    pub fn counts(&self, rt: &impl Abort, e: u32) -> (u64, u64) {
        assert!(rt; e < ENDS_PER_PROCESSOR * self.tables.board().limits.processors);
        (self.tables.ends().written(e), self.tables.ends().taken(e))
    }

    /// The word of memory at an address.
    pub fn word(&self, rt: &impl Abort, addr: u64) -> u32 {
        assert!(rt; self.ram.fits(addr, 4));
        self.ram.word(addr)
    }
}
