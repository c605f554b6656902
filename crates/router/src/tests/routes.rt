//! What becomes of notices.

use crate::passes::go_on;
use crate::tests::{Bench, config, largest_board, small_board};
use bitflags::Flags;
use end_escalate::decide;
use end_queue::Ends;
use std::alloc::Global;
use std::process::Abort;
use xv_model::messages::Message;
use xv_model::operations::{EndConfig, EndFlags};
use xv_model::outcomes::{EndRun, Outcome, Presented, Routed, Then, Wrote};

#[test]
fn outcomes_of_a_route(rt: HostRuntime) {
    let bench = &mut Bench::build(&rt, rt.alloc(), &small_board());
    assert!(rt; matches!(bench.route(&rt, 0, 0), Outcome::NoNotice));
    assert!(rt; matches!(bench.routed(&rt, 1), Routed::Masked));
    assert!(rt; matches!(bench.route(&rt, 0, 1), Outcome::NoNotice));
    assert!(rt;
        matches!(
            bench.route(&rt, 3, 1),
            Outcome::Routed {
                k: 1,
                routed: Routed::NoSource
            }
        )
    );
    bench.assign(&rt, 0, 6, 7);
    assert!(rt;
        matches!(
            bench.routed(&rt, 2),
            Routed::Run {
                run: EndRun::NoEnd { e: 6 }
            }
        )
    );
    bench.configure(&rt, 6, &config(1));
    assert_eq!(rt; bench.passed(&rt, 3), (None, true));
    bench.configure(&rt, 6, &config(3));
    assert_eq!(rt; bench.passed(&rt, 4), (Some((0x4000, 0x8000_0007)), true));
    assert_eq!(rt; bench.passed(&rt, 5), (Some((0x4004, 0x8000_0007)), false));
    assert_eq!(rt; bench.tables.flight(), 2);
    assert!(rt;
        matches!(
            bench.tables.message(1),
            Some(Message::Present {
                e: 6,
                flags: _,
                vp: 0,
                priority: 6,
                esc: 0,
                esc_eisn: 0,
                origin: 0
            })
        )
    );
    assert!(rt; bench.tables.message(2).is_none());
}

#[test]
fn largest_counts(rt: HostRuntime) {
    let bench = &mut Bench::build(&rt, rt.alloc(), &largest_board());
    let queue_of_16_mib = EndConfig {
        vp: 63,
        qaddr: 0x300_0000,
        qshift: 24,
        ..config(3)
    };
    bench.configure(&rt, 510, &queue_of_16_mib);
    bench.configure(&rt, 511, &config(1));
    bench.assign(&rt, 8191, 510, 0x7fff_ffff);
    assert!(rt;
        matches!(
            bench.route(&rt, 8191, 1),
            Outcome::Routed {
                k: 1,
                routed: Routed::Run {
                    run: EndRun::Ran {
                        e: 510,
                        wrote: Some(Wrote {
                            addr: 0x300_0000,
                            word: 0xffff_ffff
                        }),
                        then: Then::Present
                    }
                }
            }
        )
    );
    assert_eq!(rt; bench.word(&rt, 0x300_0000), 0xffff_ffff);
    assert!(rt;
        matches!(
            bench.read(&rt, 510),
            Outcome::Item {
                payload: 0x7fff_ffff
            }
        )
    );
    assert_eq!(rt; bench.counts(&rt, 510), (1, 1));
    assert_eq!(rt; bench.counts(&rt, 511), (0, 0));
    assert_eq!(rt; bench.tables.flight(), 1);
}

#[test]
fn full_bus(rt: HostRuntime) {
    let bench = &mut Bench::build(&rt, rt.alloc(), &small_board());
    bench.assign(&rt, 0, 6, 0);
    bench.configure(&rt, 6, &config(7));
    for number in 1..=4096 {
        assert!(rt; matches!(bench.routed(&rt, number), Routed::Run { run: _ }));
    }
    assert_eq!(rt; bench.tables.flight(), 4096);
    assert!(rt; matches!(bench.route(&rt, 0, 4096), Outcome::NoNotice));
    assert!(rt; matches!(bench.route(&rt, 0, 4097), Outcome::BusFull));
    assert_eq!(rt; bench.tables.flight(), 4096);
    assert_eq!(rt; bench.counts(&rt, 6), (4096, 0));
    // The next entry would stand there, and be of generation 1.
    assert_eq!(rt; bench.word(&rt, 0x4000), 0);
    assert!(rt; bench.tables.message(4096).is_none());
    assert!(rt; !bench.end_present(&rt, 4095, Presented::Found));
    assert!(rt; matches!(bench.routed(&rt, 4097), Routed::Run { run: _ }));
    assert!(rt; matches!(bench.route(&rt, 0, 4098), Outcome::BusFull));
}

/// How END 6 goes on with these flags and from this state, and the state after that.
fn after_step(rt: &impl Abort, alloc: Global, flags: u8, esn: u8) -> (Then, u8) {
    let ends = &mut match Ends::build(alloc, &small_board()) {
        Ok(ends) => ends,
        Err(_) => panic!(rt),
    };
    let config = EndConfig {
        flags: EndFlags::from_bits_retain(flags),
        qaddr: 0x4000,
        qshift: 12,
        ..EndConfig::OFF
    };
    ends.configure(6, &config);
    assert!(rt; esn < 4);
    ends.set_esn(6, esn);
    let step = decide(ends.config(6).flags, ends.esn(6));
    match go_on(ends, 6, step) {
        Some(then) => (then, ends.esn(6)),
        None => panic!(rt),
    }
}

#[test]
fn ways_to_go_on(rt: HostRuntime) {
    // flags, the state before, whether the pass presents, whether it escalates, the state after
    let cases = [
        (1, 0, true, false, 2),
        (1, 1, false, false, 1),
        (1, 2, false, false, 3),
        (1, 3, false, false, 3),
        (5, 1, true, false, 1),
        (65, 0, false, false, 0),
        (81, 0, false, true, 0),
    ];
    for (flags, esn, presents, escalates, after) in cases {
        let (then, left) = after_step(&rt, rt.alloc(), flags, esn);
        assert_eq!(rt; matches!(then, Then::Present), presents, "at {flags}");
        assert_eq!(rt; matches!(then, Then::Escalate), escalates, "at {flags}");
        assert_eq!(rt; left, after, "at {flags}");
    }
}
