//! Accesses to the pages of ENDs.

use crate::tests::{Bench, config, small_board};
use std::process::Abort;
use xv_base::limits::ENDS_PER_PROCESSOR;
use xv_model::outcomes::Outcome;
use xv_model::pages::END_PAGES;

/// A load at an offset of a page of END 6.
fn load(rt: &impl Abort, bench: &mut Bench, page: u8, offset: u16) -> Outcome {
    assert!(rt; 6 < ENDS_PER_PROCESSOR * bench.tables.board().limits.processors);
    assert!(rt; page < END_PAGES);
    bench.tables.access_end(6, page, offset, false)
}

/// Whether a load found the state `from` and left it as `to`.
fn loaded(outcome: Outcome, from: u8, to: u8) -> bool {
    matches!(outcome, Outcome::EndPq { old, new } if old == from && new == to)
}

#[test]
fn pages_of_an_end(rt: HostRuntime) {
    let bench = &mut Bench::build(&rt, rt.alloc(), &small_board());
    bench.assign(&rt, 0, 6, 5);
    assert!(rt; matches!(load(&rt, bench, 0, 0), Outcome::NoEnd));
    bench.configure(&rt, 6, &config(3));
    assert!(rt; bench.passed(&rt, 1).1);
    assert!(rt; !bench.passed(&rt, 2).1);
    // ESn is 11: an EOI leaves 10, and the next one 00, so that the END presents again.
    assert!(rt; loaded(load(&rt, bench, 0, 0x800), 3, 3));
    assert!(rt; loaded(load(&rt, bench, 0, 0), 3, 2));
    assert!(rt; loaded(load(&rt, bench, 0, 0x1000), 2, 0));
    assert_eq!(rt; bench.tables.flight(), 1);
    assert!(rt; bench.passed(&rt, 3).1);
    assert!(rt; loaded(load(&rt, bench, 1, 0xd00), 0, 1));
    assert!(rt; loaded(load(&rt, bench, 0, 0x800), 2, 2));
    assert!(rt; loaded(load(&rt, bench, 1, 0x800), 1, 1));
    assert_eq!(rt; bench.counts(&rt, 6), (3, 0));
}

#[test]
fn stores_to_pages_of_ends(rt: HostRuntime) {
    let bench = &mut Bench::build(&rt, rt.alloc(), &small_board());
    assert!(rt; 15 < ENDS_PER_PROCESSOR * bench.tables.board().limits.processors);
    assert!(rt; matches!(bench.tables.access_end(15, 0, 0, true), Outcome::BadOffset));
    assert!(rt; matches!(bench.tables.access_end(15, 1, 0xc00, false), Outcome::NoEnd));
}
