//! A device whose parts are looked at one by one.

ghost use Rattle.std.specs.Prelude.{◌+◌, ◌≤◌};
ghost use Rattle.xv_model.specs.board.Boards.{AreBelow, IsBoard};

use crate::{get_attr, set_attr};
use bitflags::Flags;
use eas_table::EasTable;
use end_queue::Ends;
use guest_ram::Ram;
use nvt_backlog::Vps;
use std::alloc::Global;
use std::marker::Model;
use std::process::Abort;
use xv_base::limits::ENDS_PER_PROCESSOR;
use xv_base::{Limits, NoMemory};
use xv_model::board::{Board, Span, Spans};
use xv_model::operations::{AttrValue, EndConfig, EqFields};
use xv_model::outcomes::Outcome;
use xv_model::validity::valid_config;

pub const SOURCES: u32 = 5;

pub const PROCESSORS: u32 = 3;

/// The numbers of a range.
pub fn span(first: u32, last: u32) -> Spans
    requires { first ≤ last }
    ensures { AreBelow result (last + 1) }
{
    let mut spans = [Span { first: 0, last: 0 }; 16];
    spans[0] = Span { first, last };
    Spans { count: 1, spans }
}

/// Five sources, of which source 3 is unclaimed and source 4 is a level source, three processors, of which those from
/// one on aren't connected, and 1 MiB of memory.
pub fn board(first_unconnected: u32) -> Board
    requires { first_unconnected ≤ 2 }
    ensures { IsBoard result }
{
    Board {
        limits: Limits {
            sources: SOURCES,
            processors: PROCESSORS,
            threads: 1,
            actors: 1,
        },
        ram_mib: 1,
        two_pages: true,
        store_eoi: false,
        level: span(4, 4),
        unclaimed: span(3, 3),
        unconnected: span(first_unconnected, 2),
    }
}

/// A number as a value.
pub fn number(value: u64) -> AttrValue {
    AttrValue::Number { value }
}

/// The fields of a queue as a value.
pub fn queue(flags: u32, qshift: u32, qaddr: u64, qtoggle: u32, qindex: u32) -> AttrValue {
    AttrValue::Queue {
        eq: EqFields {
            flags,
            qshift,
            qaddr,
            qtoggle,
            qindex,
        },
    }
}

/// What calls are on. No END has more than 16 entries.
#[derive(Drop)]
pub struct Device {
    board: Board,
    eas: EasTable,
    ends: Ends,
    vps: Vps,
    ram: Ram,
}

impl Model for Device {
    ghost use Rattle.std.specs.Prelude.{◌≡◌, ◌*◌, All, List, length};
    ghost use Rattle.xv_model.specs.board.Boards.{IsBoard};
    ghost use Rattle.xv_model.specs.board.Validity.{end_count, ram_size};
    ghost use Rattle.eas_table.specs.Table.{IsEas};
    ghost use Rattle.end_queue.specs.declared.ends.EndRecord.{EndRecord};
    ghost use Rattle.end_queue.specs.Accounts.{IsEnd};
    ghost use Rattle.end_queue.specs.Ends.{HasCountsAtMost};

    ghost Value = { List EndRecord };

    ghost view = { λ d. d.ends };

    ghost invariant = { λ d. IsBoard d.board
        × (length d.eas ≡ d.board.limits.sources) × (length d.ends ≡ end_count d.board)
        × (length d.vps.vps ≡ d.board.limits.processors) × (4 * length d.ram ≡ ram_size d.board)
        × All (IsEas d.board) d.eas × All (IsEnd d.board) d.ends
        × All (HasCountsAtMost 16) d.ends };
}

/// What is kept of a queue's END: its flags, its processor and its priority; the address, the size and the number of the
/// first entry; how many entries were written; and ESn and ESe.
pub type End = (u8, (u32, u8), (u64, u32, u64), u64, (u8, u8));

impl Device {
    pub fn build(alloc: Global, board: &Board) -> Result<Device, NoMemory>
        requires { IsBoard board.now }
    {
        Ok(Device {
            board: *board,
            eas: EasTable::build(alloc, board)?,
            ends: Ends::build(alloc, board)?,
            vps: Vps::build(alloc, board)?,
            ram: Ram::new(alloc, board.ram_mib as u64 * (1 << 20))?,
        })
    }

    pub fn set(&mut self, group: u32, attr: u64, value: AttrValue) -> i32 {
        set_attr(
            &self.board,
            &mut self.eas,
            &mut self.ends,
            &mut self.vps,
            &self.ram,
            group,
            attr,
            value,
        )
    }

    /// What a get answers: a code, and the fields of a queue.
    pub fn get(&self, group: u32, attr: u64) -> (i32, [u64; 5]) {
        match get_attr(&self.ends, &self.vps, group, attr) {
            Outcome::Code { code } => (code, [0; 5]),
            Outcome::Queue { eq } => (
                0,
                [
                    eq.flags as u64,
                    eq.qshift as u64,
                    eq.qaddr,
                    eq.qtoggle as u64,
                    eq.qindex as u64,
                ],
            ),
            _ => (1, [0; 5]),
        }
    }

    /// Configures an END as no call to the device does.
    pub fn configure(&mut self, rt: &impl Abort, e: u32, config: &EndConfig) {
        assert!(rt; e < ENDS_PER_PROCESSOR * self.board.limits.processors);
        assert!(rt; valid_config(&self.board, config));
        self.ends.configure(e, config);
    }

    /// Writes an entry into the queue of an END, and answers the word.
    pub fn enqueue(&mut self, rt: &impl Abort, e: u32, eisn: u32) -> u32 {
        assert!(rt; e < ENDS_PER_PROCESSOR * self.board.limits.processors);
        assert!(rt; self.ends.has_queue(e));
        assert!(rt; self.ends.written(e) < 16);
        assert!(rt; eisn < 1 << 31);
        self.ends.enqueue(&mut self.ram, e, eisn).word
    }

    /// What the EAS of a source has: whether it is valid, whether it is masked, its END and its EISN.
    pub fn source(&self, rt: &impl Abort, s: u32) -> (bool, bool, u32, u32) {
        assert!(rt; s < self.board.limits.sources);
        let eas = self.eas.get(s);
        (eas.valid, eas.masked, eas.end, eas.eisn)
    }

    pub fn end(&self, rt: &impl Abort, e: u32) -> End {
        assert!(rt; e < ENDS_PER_PROCESSOR * self.board.limits.processors);
        let config = self.ends.config(e);
        (
            config.flags.bits(),
            (config.vp, config.priority),
            (config.qaddr, config.qshift, config.start),
            self.ends.written(e),
            (self.ends.esn(e), self.ends.ese(e)),
        )
    }

    /// The number of servers, and which processors are connected.
    pub fn processors(&self) -> (u32, [bool; 3]) {
        (
            self.vps.servers(),
            [
                self.vps.is_connected(0),
                self.vps.is_connected(1),
                self.vps.is_connected(2),
            ],
        )
    }

    /// Whether two devices have the same EASes, ENDs and processors.
    pub fn is_like(&self, rt: &impl Abort, other: &Device) -> bool {
        for s in 0..SOURCES {
            if self.source(rt, s) != other.source(rt, s) {
                return false;
            }
        }
        for e in 0..ENDS_PER_PROCESSOR * PROCESSORS {
            if self.end(rt, e) != other.end(rt, e) {
                return false;
            }
        }
        self.processors() == other.processors()
    }
}

/// A device whose source 0 notifies END 6, whose source 1 is masked and has END 11, whose source 2 is masked and has
/// none, whose source 3 isn't initialised, and whose level source 4 notifies END 6. The queues of both ENDs have
/// entries; processor 2 isn't connected.
pub fn busy_device(rt: &impl Abort, alloc: Global) -> Result<Device, NoMemory> {
    let mut device = Device::build(alloc, &board(2))?;
    for (group, attr, value) in [
        (4, 6, queue(1, 12, 0x4000, 1, 5)),
        (4, 11, queue(1, 16, 0x1_0000, 0, 2)),
        (3, 0, number(0x42_0000_0006)),
        (3, 1, number(0x0a_0000_000b)),
        (3, 1, number(0x01_0000_0000)),
        (3, 4, number(0xffff_fffe_0000_0006)),
    ] {
        assert_eq!(rt; device.set(group, attr, value), 0);
    }
    for e in [6, 6, 11] {
        device.enqueue(rt, e, 0x21);
    }
    Ok(device)
}
