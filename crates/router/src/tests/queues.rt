//! What routes write into memory, and what reads find there.

use crate::tests::{Bench, config, small_board};
use guest_ram::Ram;
use std::process::Abort;
use xv_model::outcomes::{EndRun, Outcome, Routed};

/// Whether each word of 1 MiB of memory is 0, but the one at an address, which is this.
fn is_alone(ram: &Ram, addr: u64, word: u32) -> bool {
    for number in 0..1 << 18 {
        let here = 4 * number;
        let wanted = if here == addr { word } else { 0 };
        if !ram.fits(here, 4) || ram.word(here) != wanted {
            return false;
        }
    }
    true
}

/// Zeroes the page of the queue of END 6, as a guest does.
fn zero_page(rt: &impl Abort, bench: &mut Bench) {
    assert!(rt; bench.ram.fits(0x4000, 0x1000));
    bench.ram.zero(0x4000, 0x1000);
}

#[test]
fn words_of_routes(rt: HostRuntime) {
    let bench = &mut Bench::build(&rt, rt.alloc(), &small_board());
    assert!(rt; matches!(bench.routed(&rt, 1), Routed::Masked));
    bench.assign(&rt, 0, 6, 7);
    assert!(rt;
        matches!(
            bench.routed(&rt, 2),
            Routed::Run {
                run: EndRun::NoEnd { e: 6 }
            }
        )
    );
    bench.configure(&rt, 6, &config(1));
    assert_eq!(rt; bench.passed(&rt, 3), (None, true));
    assert!(rt; is_alone(&bench.ram, 0x4000, 0));
    bench.configure(&rt, 6, &config(3));
    assert_eq!(rt; bench.passed(&rt, 4), (Some((0x4000, 0x8000_0007)), true));
    assert!(rt; is_alone(&bench.ram, 0x4000, 0x8000_0007));
    zero_page(&rt, bench);
    assert_eq!(rt; bench.passed(&rt, 5), (Some((0x4004, 0x8000_0007)), false));
    assert!(rt; is_alone(&bench.ram, 0x4004, 0x8000_0007));
}

#[test]
fn queue_that_wraps_twice(rt: HostRuntime) {
    let bench = &mut Bench::build(&rt, rt.alloc(), &small_board());
    bench.assign(&rt, 0, 6, 5);
    bench.configure(&rt, 6, &config(3));
    for number in 1..=2049 {
        let (wrote, _) = bench.passed(&rt, number);
        let addr = 0x4000 + (number - 1) % 1024 * 4;
        let word = if number <= 1024 || number > 2048 {
            0x8000_0005
        } else {
            5
        };
        assert_eq!(rt; wrote, Some((addr, word)), "at {number}");
        assert_eq!(rt; bench.word(&rt, addr), word, "at {number}");
        assert_eq!(rt; bench.item(&rt), Some(5), "at {number}");
        assert_eq!(rt; bench.item(&rt), None, "at {number}");
    }
    assert_eq!(rt; bench.counts(&rt, 6), (2049, 2049));
    bench.configure(&rt, 6, &config(3));
    assert_eq!(rt; bench.counts(&rt, 6), (0, 0));
    assert_eq!(rt;
        bench.passed(&rt, 2050),
        (Some((0x4000, 0x8000_0005)), true)
    );
}

#[test]
fn reads_of_routes(rt: HostRuntime) {
    let bench = &mut Bench::build(&rt, rt.alloc(), &small_board());
    assert!(rt; matches!(bench.read(&rt, 6), Outcome::NoQueue));
    bench.configure(&rt, 6, &config(1));
    assert!(rt; matches!(bench.read(&rt, 6), Outcome::NoQueue));
    bench.configure(&rt, 6, &config(3));
    assert_eq!(rt; bench.item(&rt), None);
    bench.assign(&rt, 0, 6, 7);
    assert_eq!(rt; bench.passed(&rt, 1), (Some((0x4000, 0x8000_0007)), true));
    bench.assign(&rt, 0, 6, 8);
    assert_eq!(rt; bench.passed(&rt, 2), (Some((0x4004, 0x8000_0008)), false));
    assert!(rt; matches!(bench.read(&rt, 5), Outcome::NoQueue));
    assert_eq!(rt; bench.item(&rt), Some(7));
    assert_eq!(rt; bench.item(&rt), Some(8));
    assert_eq!(rt; bench.item(&rt), None);
    assert_eq!(rt; bench.counts(&rt, 6), (2, 2));
    assert_eq!(rt; bench.counts(&rt, 5), (0, 0));
}

#[test]
fn reads_of_a_queue_that_was_configured_anew(rt: HostRuntime) {
    let bench = &mut Bench::build(&rt, rt.alloc(), &small_board());
    bench.configure(&rt, 6, &config(3));
    for number in 1..=2 {
        bench.assign(&rt, 0, 6, number as u32);
        assert!(rt; matches!(bench.routed(&rt, number), Routed::Run { run: _ }));
    }
    assert_eq!(rt; bench.item(&rt), Some(1));
    // The first entry is still in memory, where the guest hasn't zeroed it.
    bench.configure(&rt, 6, &config(3));
    assert_eq!(rt; bench.item(&rt), Some(1));
    assert_eq!(rt; bench.counts(&rt, 6), (0, 1));
    zero_page(&rt, bench);
    bench.configure(&rt, 6, &config(3));
    assert_eq!(rt; bench.item(&rt), None);
    assert_eq!(rt; bench.passed(&rt, 3), (Some((0x4000, 0x8000_0002)), true));
    assert_eq!(rt; bench.item(&rt), Some(2));
    assert_eq!(rt; bench.item(&rt), None);
}
