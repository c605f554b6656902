//! Escalations that are taken.

use crate::tests::{Bench, config, small_board};
use std::process::Abort;
use xv_model::messages::Message;
use xv_model::outcomes::{EndRun, Presented, Then};

/// Takes the presentation that END 0 sent last, which is lost, and the escalation that it goes on as: what the
/// pass of END 7 wrote, where there is one.
fn escalated(rt: &impl Abort, bench: &mut Bench) -> Option<(u64, u32)> {
    let flight = bench.tables.flight();
    assert!(rt; flight >= 1);
    assert!(rt; bench.end_present(rt, flight - 1, Presented::Lost));
    assert!(rt;
        matches!(
            bench.tables.message(flight - 1),
            Some(Message::Escalate {
                e: 0,
                flags: _,
                esc: 7,
                esc_eisn: 9,
                origin: 0
            })
        )
    );
    match bench.end_escalate(rt, flight - 1)? {
        EndRun::Ran {
            e: 7,
            wrote: Some(wrote),
            then: Then::Present,
        } => Some((wrote.addr, wrote.word)),
        _ => panic!(rt),
    }
}

#[test]
fn escalations_that_coalesce(rt: HostRuntime) {
    let bench = &mut Bench::build(&rt, rt.alloc(), &small_board());
    bench.configure(&rt, 7, &config(7));
    bench.send(&rt, 1, 2, 21);
    assert_eq!(rt; escalated(&rt, bench), Some((0x4000, 0x8000_0009)));
    assert_eq!(rt; bench.tables.flight(), 1);
    bench.routed(&rt, 2);
    assert_eq!(rt; escalated(&rt, bench), None);
    assert_eq!(rt; bench.tables.flight(), 1);
    // A configuration makes the state 00 anew.
    bench.send(&rt, 3, 2, 21);
    assert_eq!(rt; escalated(&rt, bench), Some((0x4004, 0x8000_0009)));
    assert_eq!(rt; bench.tables.flight(), 2);
    assert_eq!(rt; bench.counts(&rt, 7), (2, 0));
}

#[test]
fn escalations_that_ask_no_state(rt: HostRuntime) {
    let bench = &mut Bench::build(&rt, rt.alloc(), &small_board());
    bench.configure(&rt, 7, &config(7));
    bench.send(&rt, 1, 2, 53);
    assert_eq!(rt; escalated(&rt, bench), Some((0x4000, 0x8000_0009)));
    bench.routed(&rt, 2);
    assert_eq!(rt; escalated(&rt, bench), Some((0x4004, 0x8000_0009)));
    assert_eq!(rt; bench.tables.flight(), 2);
    assert_eq!(rt; bench.tables.flight_of(0), 2);
    assert_eq!(rt; bench.tables.flight_of(1), 0);
}

#[test]
fn an_escalation_end_that_is_not_valid(rt: HostRuntime) {
    let bench = &mut Bench::build(&rt, rt.alloc(), &small_board());
    bench.send(&rt, 1, 2, 21);
    assert!(rt; bench.end_present(&rt, 0, Presented::Lost));
    assert!(rt; matches!(bench.end_escalate(&rt, 0), Some(EndRun::NoEnd { e: 7 })));
    assert_eq!(rt; bench.tables.flight(), 0);
}
