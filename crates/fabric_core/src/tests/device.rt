//! Calls to the KVM device: what they answer, and what they do.

ghost use Rattle.xv_model.specs.board.Boards.{IsBoard};

use crate::tests::operations::restore;
use crate::tests::{Bench, small_board};
use std::process::Abort;
use xv_base::Limits;
use xv_model::board::{Board, Span, Spans};
use xv_model::operations::{AttrValue, EqFields, Op};
use xv_model::outcomes::{EndRun, Outcome, Presented, Routed, Then, Wrote};

/// The code of an operation that answers one.
fn code(rt: &impl Abort, bench: &mut Bench, op: Op) -> i32 {
    match bench.step(rt, op) {
        Outcome::Code { code } => code,
        _ => panic!(rt),
    }
}

/// The code of setting an attribute to a number.
fn set(rt: &impl Abort, bench: &mut Bench, group: u32, attr: u64, value: u64) -> i32 {
    code(
        rt,
        bench,
        Op::AttrSet {
            group,
            attr,
            value: AttrValue::Number { value },
        },
    )
}

/// The fields of a queue of 4 KiB at 0x1000.
fn fields(qtoggle: u32, qindex: u32) -> EqFields {
    EqFields {
        flags: 1,
        qshift: 12,
        qaddr: 0x1000,
        qtoggle,
        qindex,
    }
}

/// Flags, shift, address, toggle and index of the queue that an attribute shows.
fn shown(rt: &impl Abort, bench: &mut Bench, attr: u64) -> (u32, u32, u64, u32, u32) {
    match bench.step(rt, Op::AttrGet { group: 4, attr }) {
        Outcome::Queue { eq } => (eq.flags, eq.qshift, eq.qaddr, eq.qtoggle, eq.qindex),
        _ => panic!(rt),
    }
}

/// The CPPR and the IPB of a processor.
fn state(rt: &impl Abort, bench: &mut Bench, v: u32) -> (u8, u8) {
    match bench.step(rt, Op::VpGet { v }) {
        Outcome::Context { cppr, ipb } => (cppr, ipb),
        _ => panic!(rt),
    }
}

#[test]
fn a_queue_that_begins_at_an_index(rt: HostRuntime) {
    let b = &mut Bench::build(&rt, rt.alloc(), &small_board());
    let queue = Op::AttrSet {
        group: 4,
        attr: 0xb,
        value: AttrValue::Queue { eq: fields(0, 5) },
    };
    assert_eq!(rt; code(&rt, b, queue), 0);
    assert_eq!(rt; shown(&rt, b, 0xb), (1, 12, 0x1000, 0, 5));
    let end = b.queue(&rt, 11);
    assert_eq!(rt;
        (end.config.vp, end.config.priority, end.config.start),
        (1, 3, 1029)
    );
    assert_eq!(rt; set(&rt, b, 3, 0, (0x11 << 33) + 0xb), 0);
    let Outcome::Routed { k: 1, routed } = b.route(&rt, 0, 1) else {
        panic!(rt);
    };
    assert!(rt;
        matches!(
            routed,
            Routed::Run {
                run: EndRun::Ran {
                    e: 11,
                    wrote: Some(Wrote {
                        addr: 0x1014,
                        word: 0x11
                    }),
                    then: Then::Present
                }
            }
        )
    );
    assert_eq!(rt; shown(&rt, b, 0xb), (1, 12, 0x1000, 0, 6));
    assert_eq!(rt; set(&rt, b, 1, 1, 0), 0);
    assert_eq!(rt; shown(&rt, b, 0xb), (0, 0, 0, 0, 0));
    assert!(rt;
        matches!(
            b.route(&rt, 0, 2),
            Outcome::Routed {
                k: 2,
                routed: Routed::Masked
            }
        )
    );
}

#[test]
fn settings_that_are_refused(rt: HostRuntime) {
    let b = &mut Bench::build(&rt, rt.alloc(), &small_board());
    assert_eq!(rt; set(&rt, b, 9, 1, 0), -6);
    assert_eq!(rt; set(&rt, b, 1, 3, 0), -22);
    assert_eq!(rt; set(&rt, b, 1, 3, 3), -16);
    assert_eq!(rt; set(&rt, b, 2, 4, 0), -7);
    assert_eq!(rt; set(&rt, b, 2, 3, 0), -22);
    assert_eq!(rt; set(&rt, b, 3, 2, 0xb), -22);
    assert_eq!(rt; set(&rt, b, 3, 0, 0xb), -6);
    assert_eq!(rt; set(&rt, b, 4, 0xb, 0), -22);
    assert_eq!(rt; set(&rt, b, 5, 4, 0), -2);
    assert_eq!(rt; code(&rt, b, Op::AttrGet { group: 3, attr: 0 }), -6);
    assert_eq!(rt;
        code(
            &rt,
            b,
            Op::AttrGet {
                group: 4,
                attr: 0x10
            }
        ),
        -2
    );
    assert_eq!(rt; code(&rt, b, Op::AttrGet { group: 4, attr: 7 }), -22);
    assert!(rt; !b.initialised(&rt, 2));
    assert_eq!(rt; set(&rt, b, 2, 2, 0), 0);
    assert!(rt; b.initialised(&rt, 2));
}

#[test]
fn states_of_processors(rt: HostRuntime) {
    let b = &mut Bench::build(&rt, rt.alloc(), &small_board());
    let set = |v: u32, cppr: u8, ipb: u8| Op::VpSet { v, cppr, ipb };
    assert_eq!(rt; code(&rt, b, set(0, 9, 0x80)), 0);
    assert_eq!(rt; b.kept(&rt, 0), (0xff, 0x80, 0));
    assert!(rt; matches!(b.present(&rt, 0, 6, true), Presented::Backlogged));
    assert_eq!(rt; b.kept(&rt, 0), (0xff, 0x80, 2));
    assert_eq!(rt; state(&rt, b, 0), (0xff, 0x82));
    assert_eq!(rt; code(&rt, b, set(0, 5, 1)), 0);
    assert_eq!(rt; b.kept(&rt, 0), (5, 1, 0));
    assert_eq!(rt; state(&rt, b, 0), (5, 1));
    assert_eq!(rt; code(&rt, b, set(2, 5, 1)), -22);
    assert_eq!(rt; code(&rt, b, Op::VpGet { v: 2 }), -22);
    assert!(rt; b.fine(&rt, restore(1, 0)));
    assert_eq!(rt; code(&rt, b, set(1, 5, 1)), -16);
    assert_eq!(rt; code(&rt, b, Op::VpGet { v: 1 }), -16);
    assert_eq!(rt; b.kept(&rt, 1), (0, 0, 0));
}

/// Two processors, none of which is connected.
fn unconnected_board() -> Board
    ensures { IsBoard result }
{
    let mut spans = [Span { first: 0, last: 0 }; 16];
    spans[0] = Span { first: 0, last: 1 };
    Board {
        limits: Limits {
            sources: 1,
            processors: 2,
            threads: 1,
            actors: 1,
        },
        ram_mib: 0,
        two_pages: true,
        store_eoi: false,
        level: Spans::NONE,
        unclaimed: Spans::NONE,
        unconnected: Spans { count: 1, spans },
    }
}

#[test]
fn fewer_servers_than_processors(rt: HostRuntime) {
    let b = &mut Bench::build(&rt, rt.alloc(), &unconnected_board());
    assert_eq!(rt; set(&rt, b, 1, 3, 3), -22);
    assert_eq!(rt; set(&rt, b, 1, 3, 1), 0);
    assert_eq!(rt; b.connect(&rt, 1), -22);
    assert_eq!(rt; b.connect(&rt, 0), 0);
    assert_eq!(rt; set(&rt, b, 1, 3, 2), -16);
    assert_eq!(rt; b.connect(&rt, 1), -22);
    assert_eq!(rt;
        code(
            &rt,
            b,
            Op::VpSet {
                v: 1,
                cppr: 0,
                ipb: 0
            }
        ),
        -22
    );
}
