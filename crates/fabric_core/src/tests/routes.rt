//! Operations on sources, on ENDs and on the messages in flight.

use crate::tests::operations::{config, target};
use crate::tests::{Bench, small_board};
use xv_base::limits::MOST_MESSAGES;
use xv_model::operations::Op;
use xv_model::outcomes::{EndRun, Outcome, Presented, Routed, Then, Wrote};

/// An access to a page of a source.
fn source_page(s: u32, page: u8, offset: u16, store: bool) -> Op {
    Op::Esb {
        s,
        page,
        offset,
        store,
    }
}

/// An access to a page of END 0.
fn end_page(page: u8, offset: u16, store: bool) -> Op {
    Op::EndEsb {
        e: 0,
        page,
        offset,
        store,
    }
}

/// Whether a load found the state `from` of an END and left it as `to`.
fn is_loaded(outcome: Outcome, from: u8, to: u8) -> bool {
    matches!(outcome, Outcome::EndPq { old, new } if old == from && new == to)
}

/// The pass of an END for notice `number` of a source: the END, what it wrote, and whether it presents.
fn pass(outcome: Outcome, number: u64) -> Option<(u32, Option<(u64, u32)>, bool)> {
    match outcome {
        Outcome::Routed {
            k,
            routed: Routed::Run {
                run: EndRun::Ran { e, wrote, then },
            },
        } if k == number => Some((
            e,
            match wrote {
                Some(Wrote { addr, word }) => Some((addr, word)),
                None => None,
            },
            matches!(then, Then::Present),
        )),
        _ => None,
    }
}

/// Whether notice `number` of a source came to an END that isn't valid.
fn is_at_no_end(outcome: Outcome, number: u64, end: u32) -> bool {
    matches!(
        outcome,
        Outcome::Routed {
            k,
            routed: Routed::Run {
                run: EndRun::NoEnd { e }
            }
        } if k == number && e == end
    )
}

#[test]
fn accesses_that_touch_no_word(rt: HostRuntime) {
    let b = &mut Bench::build(&rt, rt.alloc(), &small_board());
    assert!(rt; matches!(b.step(&rt, source_page(0, 0, 0, false)), Outcome::Ones));
    assert!(rt; matches!(b.step(&rt, source_page(2, 0, 0xfff, false)), Outcome::Ones));
    assert!(rt;
        matches!(
            b.step(&rt, source_page(3, 1, 0x400, true)),
            Outcome::BadOffset
        )
    );
    assert!(rt;
        matches!(
            b.step(&rt, source_page(0, 1, 0xbff, true)),
            Outcome::BadOffset
        )
    );
    assert_eq!(rt; (b.routes(&rt, 0), b.flight()), (0, 0));
}

#[test]
fn routes_by_the_forwards_that_are_handed_in(rt: HostRuntime) {
    let b = &mut Bench::build(&rt, rt.alloc(), &small_board());
    assert!(rt; matches!(b.route(&rt, 0, 0), Outcome::NoNotice));
    assert!(rt;
        matches!(
            b.route(&rt, 0, 2),
            Outcome::Routed {
                k: 1,
                routed: Routed::Masked
            }
        )
    );
    assert_eq!(rt; b.code(&rt, target(0, 0, 0, 0x10)), 0);
    assert!(rt; is_at_no_end(b.route(&rt, 0, 2), 2, 0));
    assert!(rt; matches!(b.route(&rt, 0, 2), Outcome::NoNotice));
    assert_eq!(rt; b.routes(&rt, 0), 2);
    assert!(rt;
        matches!(
            b.route(&rt, 2, 1),
            Outcome::Routed {
                k: 1,
                routed: Routed::NoSource
            }
        )
    );
    assert_eq!(rt; (b.routes(&rt, 1), b.routes(&rt, 2)), (0, 1));
    assert_eq!(rt;
        (b.initialised(&rt, 0), b.initialised(&rt, 2)),
        (true, false)
    );
    assert_eq!(rt; b.flight(), 0);
}

#[test]
fn passes_of_an_end_and_its_view(rt: HostRuntime) {
    let b = &mut Bench::build(&rt, rt.alloc(), &small_board());
    assert!(rt; matches!(b.step(&rt, end_page(0, 0, false)), Outcome::NoEnd));
    let queued = config(3, 1, 6);
    assert!(rt;
        b.fine(
            &rt,
            Op::EndSet {
                e: 0,
                config: queued
            }
        )
    );
    assert_eq!(rt; b.code(&rt, target(0, 0, 0, 0x10)), 0);
    let first = b.route(&rt, 0, 1);
    assert_eq!(rt;
        pass(first, 1),
        Some((0, Some((0x1000, 0x8000_0010)), true))
    );
    let second = b.route(&rt, 0, 2);
    assert_eq!(rt;
        pass(second, 2),
        Some((0, Some((0x1004, 0x8000_0010)), false))
    );
    assert!(rt;
        matches!(
            b.step(&rt, Op::Read { e: 0 }),
            Outcome::Item { payload: 0x10 }
        )
    );
    let found = b.queue(&rt, 0);
    assert_eq!(rt; (found.config.vp, found.config.priority), (1, 6));
    assert_eq!(rt; (found.written, found.taken), (2, 1));
    assert_eq!(rt; (found.esn, found.ese), (3, 0));
    assert_eq!(rt; b.queue(&rt, 1).written, 0);
    // ESn is 11: an EOI leaves 10, and the next one 00.
    assert!(rt; is_loaded(b.step(&rt, end_page(0, 0, false)), 3, 2));
    assert!(rt; is_loaded(b.step(&rt, end_page(0, 0x7ff, false)), 2, 0));
    assert!(rt; is_loaded(b.step(&rt, end_page(1, 0xd00, false)), 0, 1));
    assert!(rt; matches!(b.step(&rt, end_page(0, 0xd00, true)), Outcome::BadOffset));
    assert_eq!(rt; (b.queue(&rt, 0).esn, b.queue(&rt, 0).ese), (0, 1));
    assert_eq!(rt; b.flight(), 1);
    assert!(rt;
        b.fine(
            &rt,
            Op::EndSet {
                e: 0,
                config: queued
            }
        )
    );
    let anew = b.queue(&rt, 0);
    assert_eq!(rt; (anew.written, anew.taken, anew.ese), (0, 0, 0));
    assert_eq!(rt; b.flight(), 1);
}

#[test]
fn target_that_was_connected_since(rt: HostRuntime) {
    let b = &mut Bench::build(&rt, rt.alloc(), &small_board());
    assert_eq!(rt; b.code(&rt, target(0, 2, 6, 9)), -56);
    assert_eq!(rt; b.code(&rt, target(0, 2, 7, 9)), -57);
    assert_eq!(rt; b.code(&rt, target(2, 2, 6, 9)), -55);
    assert!(rt; !b.processor(&rt, 2).valid);
    assert_eq!(rt; b.connect(&rt, 2), 0);
    assert_eq!(rt; b.connect(&rt, 2), 0);
    assert!(rt; b.processor(&rt, 2).valid);
    assert_eq!(rt; b.code(&rt, target(0, 2, 6, 9)), 0);
    assert!(rt; is_at_no_end(b.route(&rt, 0, 1), 1, 22));
    assert!(rt;
        b.fine(
            &rt,
            Op::EndSet {
                e: 22,
                config: config(9, 2, 6)
            }
        )
    );
    assert_eq!(rt; pass(b.route(&rt, 0, 2), 2), Some((22, None, true)));
    assert!(rt; matches!(b.take(&rt, 0, 2, 6), Presented::Backlogged));
    assert_eq!(rt; b.kept(&rt, 2), (0, 0, 2));
}

#[test]
fn as_many_messages_as_there_is_room_for(rt: HostRuntime) {
    let b = &mut Bench::build(&rt, rt.alloc(), &small_board());
    // It notifies whatever its state is.
    assert!(rt;
        b.fine(
            &rt,
            Op::EndSet {
                e: 0,
                config: config(5, 0, 3)
            }
        )
    );
    assert_eq!(rt; b.code(&rt, target(0, 0, 0, 0)), 0);
    for number in 1..=MOST_MESSAGES as u64 {
        assert_eq!(rt;
            pass(b.route(&rt, 0, 5000), number),
            Some((0, None, true)),
            "at {number}"
        );
    }
    assert!(rt; matches!(b.route(&rt, 0, 5000), Outcome::BusFull));
    assert_eq!(rt; (b.flight(), b.routes(&rt, 0)), (4096, 4096));
    assert_eq!(rt; (b.flight_of(0), b.flight_of(1)), (4096, 0));
    assert!(rt; matches!(b.step(&rt, Op::Take { i: 4096 }), Outcome::NoMessage));
    assert!(rt; matches!(b.take(&rt, 4095, 0, 3), Presented::Lost));
    assert_eq!(rt; b.flight(), 4095);
    assert_eq!(rt; pass(b.route(&rt, 0, 5000), 4097), Some((0, None, true)));
    assert!(rt; matches!(b.route(&rt, 0, 5000), Outcome::BusFull));
}
