//! Processors at the ends of their range: how they start, what is put there, and which can be connected.

ghost use Rattle.std.specs.Prelude.{◌<◌, IsTrue, length};

use crate::{Vp, Vps};
use std::alloc::Global;
use std::process::Abort;
use std::test::Fail;
use xv_base::{Limits, NoMemory};
use xv_model::board::{Board, Span, Spans};
use xv_model::kvm::errors::EINVAL;
use xv_model::outcomes::Phase;

/// The processors of a board, of which some are unconnected. It has fewer threads than processors.
fn processors(alloc: Global, processors: u32, unconnected: Spans) -> Result<Vps, NoMemory> {
    let limits = Limits {
        sources: 1,
        processors,
        threads: 1,
        actors: 1,
    };
    let board = Board {
        limits,
        ram_mib: 0,
        two_pages: true,
        store_eoi: false,
        level: Spans::NONE,
        unclaimed: Spans::NONE,
        unconnected,
    };
    Vps::build(alloc, &board)
}

/// The numbers of two ranges.
fn two_ranges(first: Span, second: Span) -> Spans {
    let mut spans = Spans::NONE;
    spans.count = 2;
    spans.spans[0] = first;
    spans.spans[1] = second;
    spans
}

/// Whether there is such a processor.
fn has(vps: &Vps, v: u32) -> bool
    ensures { IsTrue result → v < length vps.now.vps }
{
    v < vps.count()
}

/// What is kept of a processor: whether it is connected, a number for its phase with the thread, and then the
/// saved CPPR, the saved IPB and the backlog.
type Shown = (bool, (u8, u32), u8, u8, u8);

fn show(vp: Vp) -> Shown {
    let phase = match vp.phase {
        Phase::Saved => (0, 0),
        Phase::Restored { t } => (1, t),
        Phase::On { t } => (2, t),
        Phase::Pulled { t } => (3, t),
    };
    (vp.valid, phase, vp.cppr, vp.ipb, vp.backlog)
}

fn shown(rt: &impl Abort, vps: &Vps, v: u32) -> Shown {
    assert!(rt; has(vps, v));
    show(vps.get(v))
}

fn set(rt: &impl Abort, vps: &mut Vps, v: u32, vp: Vp) {
    assert!(rt; has(vps, v));
    vps.set(v, vp);
}

fn connect(rt: &impl Abort, vps: &mut Vps, v: u32) -> i32 {
    assert!(rt; has(vps, v));
    vps.connect(v)
}

fn set_state(rt: &impl Abort, vps: &mut Vps, v: u32, cppr: u8, ipb: u8) {
    assert!(rt; has(vps, v));
    vps.set_state(v, cppr, ipb);
}

/// A processor at the start, connected or not.
fn first(valid: bool) -> Shown {
    (valid, (0, 0), 0, 0, 0)
}

/// A processor of which nothing is as at the start, but that it may be connected.
fn busy(valid: bool, phase: Phase) -> Vp {
    Vp {
        valid,
        phase,
        cppr: 0xff,
        ipb: 0x81,
        backlog: 0x42,
    }
}

#[test]
fn how_processors_start(rt: HostRuntime) -> Result<(), Fail> {
    let unconnected = two_ranges(Span { first: 0, last: 0 }, Span { first: 5, last: 7 });
    let vps = processors(rt.alloc(), 8, unconnected)?;
    assert_eq!(rt; vps.count(), 8);
    assert_eq!(rt; vps.servers(), 8);
    for v in 0..8 {
        assert_eq!(rt;
            shown(&rt, &vps, v),
            first(v >= 1 && v <= 4),
            "processor {v}"
        );
    }
    assert!(rt; !has(&vps, 8));
    Ok(())
}

#[test]
fn the_largest_board(rt: HostRuntime) -> Result<(), Fail> {
    let mut vps = processors(rt.alloc(), 64, Spans::NONE)?;
    assert_eq!(rt; vps.count(), 64);
    assert_eq!(rt; vps.servers(), 64);
    for v in 0..64 {
        assert_eq!(rt; shown(&rt, &vps, v), first(true), "processor {v}");
    }
    assert_eq!(rt; connect(&rt, &mut vps, 63), 0);
    assert!(rt; !has(&vps, 64));
    Ok(())
}

#[test]
fn processors_that_are_set(rt: HostRuntime) -> Result<(), Fail> {
    let mut vps = processors(rt.alloc(), 3, Spans::NONE)?;
    set(&rt, &mut vps, 0, busy(false, Phase::Restored { t: 0 }));
    set(&rt, &mut vps, 2, busy(true, Phase::On { t: u32::MAX }));
    assert_eq!(rt; shown(&rt, &vps, 0), (false, (1, 0), 0xff, 0x81, 0x42));
    assert_eq!(rt; shown(&rt, &vps, 1), first(true));
    assert_eq!(rt;
        shown(&rt, &vps, 2),
        (true, (2, u32::MAX), 0xff, 0x81, 0x42)
    );
    set(&rt, &mut vps, 2, busy(true, Phase::Pulled { t: 31 }));
    assert_eq!(rt; shown(&rt, &vps, 2), (true, (3, 31), 0xff, 0x81, 0x42));
    assert_eq!(rt; vps.servers(), 3);
    Ok(())
}

#[test]
fn processors_that_connect(rt: HostRuntime) -> Result<(), Fail> {
    let mut vps = processors(
        rt.alloc(),
        4,
        two_ranges(Span { first: 0, last: 1 }, Span { first: 2, last: 3 }),
    )?;
    vps.set_servers(2);
    assert_eq!(rt; vps.servers(), 2);
    set(&rt, &mut vps, 1, busy(false, Phase::On { t: 7 }));
    assert_eq!(rt; connect(&rt, &mut vps, 1), 0);
    assert_eq!(rt; shown(&rt, &vps, 1), (true, (2, 7), 0xff, 0x81, 0x42));
    assert_eq!(rt; connect(&rt, &mut vps, 1), 0);
    assert_eq!(rt; shown(&rt, &vps, 1), (true, (2, 7), 0xff, 0x81, 0x42));
    for v in 2..4 {
        assert_eq!(rt; connect(&rt, &mut vps, v), EINVAL, "processor {v}");
        assert_eq!(rt; shown(&rt, &vps, v), first(false), "processor {v}");
    }
    assert_eq!(rt; shown(&rt, &vps, 0), first(false));
    Ok(())
}

#[test]
fn numbers_of_servers(rt: HostRuntime) -> Result<(), Fail> {
    let mut vps = processors(rt.alloc(), 2, Spans::NONE)?;
    vps.set_servers(0);
    for v in 0..2 {
        assert_eq!(rt; connect(&rt, &mut vps, v), -22, "processor {v}");
        assert_eq!(rt; shown(&rt, &vps, v), first(true), "processor {v}");
    }
    vps.set_servers(u32::MAX);
    assert_eq!(rt; vps.servers(), u32::MAX);
    assert_eq!(rt; connect(&rt, &mut vps, 1), 0);
    assert_eq!(rt; vps.count(), 2);
    Ok(())
}

#[test]
fn which_processors_are_connected(rt: HostRuntime) -> Result<(), Fail> {
    let all = Span { first: 0, last: 63 };
    let mut vps = processors(rt.alloc(), 64, two_ranges(all, all))?;
    assert!(rt; !vps.some_connected());
    assert!(rt; !vps.is_connected(0));
    assert_eq!(rt; connect(&rt, &mut vps, 63), 0);
    assert!(rt; vps.some_connected());
    assert!(rt; vps.is_connected(63));
    for number in [0, 62, 64, (1 << 32) + 63, u64::MAX] {
        assert!(rt; !vps.is_connected(number), "{number}");
    }
    let mut first = processors(rt.alloc(), 2, two_ranges(all, all))?;
    assert_eq!(rt; connect(&rt, &mut first, 0), 0);
    assert!(rt; first.some_connected());
    Ok(())
}

#[test]
fn states_that_are_set(rt: HostRuntime) -> Result<(), Fail> {
    let mut vps = processors(rt.alloc(), 3, Spans::NONE)?;
    set(&rt, &mut vps, 1, busy(true, Phase::Saved));
    for (cppr, stored) in [(0, 0), (7, 7), (8, 0xff), (0xfe, 0xff), (0xff, 0xff)] {
        set_state(&rt, &mut vps, 1, cppr, 0x18);
        assert_eq!(rt;
            shown(&rt, &vps, 1),
            (true, (0, 0), stored, 0x18, 0),
            "CPPR {cppr}"
        );
    }
    assert_eq!(rt; shown(&rt, &vps, 0), first(true));
    assert_eq!(rt; shown(&rt, &vps, 2), first(true));
    assert_eq!(rt; vps.servers(), 3);
    Ok(())
}
