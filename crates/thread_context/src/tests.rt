//! Rings from load to clear: what is acknowledged, what stays pending, and the bytes that are read.

ghost use Rattle.std.specs.Prelude.{◌<◌, IsTrue, length};

use crate::Rings;
use std::alloc::Global;
use std::process::Abort;
use std::test::Fail;
use xv_base::{Limits, NoMemory};
use xv_model::board::{Board, Spans};

/// The CAM word of processor 0.
const CAM: u32 = 0x8000_0400;

/// The rings of a board of this many threads.
fn rings_of(alloc: Global, threads: u32) -> Result<Rings, NoMemory> {
    let limits = Limits {
        sources: 1,
        processors: 1,
        threads,
        actors: 1,
    };
    let board = Board {
        limits,
        ram_mib: 0,
        two_pages: true,
        store_eoi: false,
        level: Spans::NONE,
        unclaimed: Spans::NONE,
        unconnected: Spans::NONE,
    };
    Rings::build(alloc, &board)
}

/// Whether there is such a thread.
fn has_thread(rings: &Rings, t: u32) -> bool
    ensures { IsTrue result → t < length rings.now }
{
    (t as usize) < rings.records.len()
}

/// A thread that runs a processor whose CPPR is 0, with these priorities backlogged.
fn push(rt: &impl Abort, rings: &mut Rings, t: u32, backlog: u8) {
    assert!(rt; has_thread(rings, t));
    rings.load(t, 0, 0);
    assert!(rt; has_thread(rings, t));
    rings.push(t, CAM, backlog);
}

fn set_cppr(rt: &impl Abort, rings: &mut Rings, t: u32, value: u8) {
    assert!(rt; has_thread(rings, t));
    rings.set_cppr(t, value);
}

fn inject(rt: &impl Abort, rings: &mut Rings, t: u32, priorities: &[u8]) {
    for &priority in priorities {
        assert!(rt; has_thread(rings, t));
        rings.add_pending(t, priority);
    }
}

fn accept(rt: &impl Abort, rings: &mut Rings, t: u32) -> u16 {
    assert!(rt; has_thread(rings, t));
    rings.accept(t)
}

fn pull(rt: &impl Abort, rings: &mut Rings, t: u32) -> u32 {
    assert!(rt; has_thread(rings, t));
    rings.pull(t)
}

fn bytes(rt: &impl Abort, rings: &Rings, t: u32, at: u8, size: u8) -> u64 {
    assert!(rt; has_thread(rings, t));
    assert!(rt; size <= 8 && at <= 16 - size);
    rings.bytes(t, at, size)
}

/// The first eight bytes, as one load.
fn registers(rt: &impl Abort, rings: &Rings, t: u32) -> u64 {
    bytes(rt, rings, t, 0, 8)
}

#[test]
fn free_at_the_start(rt: HostRuntime) -> Result<(), Fail> {
    let rings = rings_of(rt.alloc(), 32)?;
    assert!(rt; !has_thread(&rings, 32));
    for t in 0..32 {
        assert_eq!(rt; registers(&rt, &rings, t), 0x0000_00ff_ff00_ffff);
        assert_eq!(rt; bytes(&rt, &rings, t, 8, 8), 0);
    }
    assert!(rt; has_thread(&rings, 31));
    let ring = rings.get(31);
    assert_eq!(rt; (ring.nsr, ring.cppr, ring.ipb, ring.pipr), (0, 0, 0, 0xff));
    assert_eq!(rt; ring.cam, 0);
    Ok(())
}

#[test]
fn acknowledges_the_least_first(rt: HostRuntime) -> Result<(), Fail> {
    let mut rings = rings_of(rt.alloc(), 1)?;
    push(&rt, &mut rings, 0, 0);
    set_cppr(&rt, &mut rings, 0, 4);
    inject(&rt, &mut rings, 0, &[6, 2, 2, 5]);
    assert_eq!(rt; accept(&rt, &mut rings, 0), 0x8002);
    assert_eq!(rt; accept(&rt, &mut rings, 0), 0x2);
    set_cppr(&rt, &mut rings, 0, 0xff);
    assert_eq!(rt; accept(&rt, &mut rings, 0), 0x8005);
    assert_eq!(rt; accept(&rt, &mut rings, 0), 0x5);
    assert_eq!(rt; registers(&rt, &rings, 0), 0x0005_02ff_ff00_ff06);
    Ok(())
}

#[test]
fn nsr_follows_cppr(rt: HostRuntime) -> Result<(), Fail> {
    let mut rings = rings_of(rt.alloc(), 1)?;
    push(&rt, &mut rings, 0, 0);
    set_cppr(&rt, &mut rings, 0, 7);
    inject(&rt, &mut rings, 0, &[3]);
    assert_eq!(rt; registers(&rt, &rings, 0), 0x8007_10ff_ff00_ff03);
    set_cppr(&rt, &mut rings, 0, 2);
    assert_eq!(rt; registers(&rt, &rings, 0), 0x0002_10ff_ff00_ff03);
    assert_eq!(rt; accept(&rt, &mut rings, 0), 0x2);
    set_cppr(&rt, &mut rings, 0, 8);
    assert_eq!(rt; registers(&rt, &rings, 0), 0x80ff_10ff_ff00_ff03);
    Ok(())
}

#[test]
fn backlog_is_pending_once_pushed(rt: HostRuntime) -> Result<(), Fail> {
    let mut rings = rings_of(rt.alloc(), 2)?;
    push(&rt, &mut rings, 1, 0);
    assert_eq!(rt; pull(&rt, &mut rings, 1), CAM);
    push(&rt, &mut rings, 1, 0xe0);
    inject(&rt, &mut rings, 1, &[3, 8, 0xff]);
    assert_eq!(rt; registers(&rt, &rings, 1), 0x0000_f0ff_ff00_ff00);
    assert_eq!(rt; pull(&rt, &mut rings, 1), CAM);
    assert_eq!(rt; registers(&rt, &rings, 1), 0x0000_f0ff_ff00_ff00);
    assert_eq!(rt; pull(&rt, &mut rings, 1), 0x400);
    assert_eq!(rt; registers(&rt, &rings, 0), 0x0000_00ff_ff00_ffff);
    assert!(rt; has_thread(&rings, 1));
    rings.clear(1);
    assert_eq!(rt; registers(&rt, &rings, 1), 0x0000_00ff_ff00_ffff);
    Ok(())
}

#[test]
fn bytes_of_each_size(rt: HostRuntime) -> Result<(), Fail> {
    let mut rings = rings_of(rt.alloc(), 1)?;
    assert!(rt; has_thread(&rings, 0));
    rings.push(0, 0x8123_4567, 0x01);
    for (size, cam) in [
        (1, 0x81),
        (2, 0x8123),
        (4, 0x8123_4567),
        (8, 0x8123_4567_0000_0000),
    ] {
        assert_eq!(rt; bytes(&rt, &rings, 0, 8, size), cam);
    }
    assert_eq!(rt; bytes(&rt, &rings, 0, 10, 2), 0x4567);
    assert_eq!(rt; bytes(&rt, &rings, 0, 7, 1), 7);
    assert_eq!(rt; bytes(&rt, &rings, 0, 15, 1), 0);
    Ok(())
}

#[test]
fn each_priority_is_found(rt: HostRuntime) -> Result<(), Fail> {
    for priority in 0..8 {
        let mut rings = rings_of(rt.alloc(), 1)?;
        push(&rt, &mut rings, 0, 0);
        set_cppr(&rt, &mut rings, 0, 0xff);
        inject(&rt, &mut rings, 0, &[7, priority]);
        assert_eq!(rt; accept(&rt, &mut rings, 0), 0x8000 + priority as u16);
    }
    Ok(())
}
