//! Memory and the queues in it, up to the largest counts of everything.

use crate::tests::operations::{acknowledge, config, push, restore, set_cppr, target};
use crate::tests::{Bench, largest_board, small_board};
use xv_model::operations::{EndConfig, Op};
use xv_model::outcomes::{EndRun, Outcome, Presented, Routed, Wrote};

/// The word at an address, where there is one.
fn word(outcome: Outcome) -> Option<u32> {
    match outcome {
        Outcome::Cell { word } => Some(word),
        _ => None,
    }
}

#[test]
fn words_of_a_queue_and_their_reader(rt: HostRuntime) {
    let b = &mut Bench::build(&rt, rt.alloc(), &small_board());
    assert!(rt; matches!(b.step(&rt, Op::Read { e: 8 }), Outcome::NoQueue));
    assert!(rt;
        b.fine(
            &rt,
            Op::EndSet {
                e: 8,
                config: config(3, 1, 0)
            }
        )
    );
    assert!(rt; matches!(b.step(&rt, Op::Read { e: 8 }), Outcome::Empty));
    assert_eq!(rt; b.code(&rt, target(1, 1, 0, 0x11)), 0);
    assert!(rt;
        matches!(
            b.route(&rt, 1, 1),
            Outcome::Routed {
                k: 1,
                routed: Routed::Run { run: _ }
            }
        )
    );
    assert_eq!(rt;
        word(b.step(&rt, Op::Peek { addr: 0x1000 })),
        Some(0x8000_0011)
    );
    assert_eq!(rt; word(b.step(&rt, Op::Peek { addr: 0x1004 })), Some(0));
    assert!(rt; matches!(b.step(&rt, Op::Read { e: 1 }), Outcome::NoQueue));
    assert!(rt;
        matches!(
            b.step(&rt, Op::Read { e: 8 }),
            Outcome::Item { payload: 0x11 }
        )
    );
    assert!(rt; matches!(b.step(&rt, Op::Read { e: 8 }), Outcome::Empty));
    assert_eq!(rt; (b.queue(&rt, 8).written, b.queue(&rt, 8).taken), (1, 1));
    assert!(rt;
        b.fine(
            &rt,
            Op::Zero {
                addr: 0x1000,
                len: 4
            }
        )
    );
    assert_eq!(rt; word(b.step(&rt, Op::Peek { addr: 0x1000 })), Some(0));
}

#[test]
fn ends_of_memory(rt: HostRuntime) {
    let b = &mut Bench::build(&rt, rt.alloc(), &small_board());
    for (addr, wanted) in [
        (0, Some(0)),
        (2, None),
        (0xf_fffc, Some(0)),
        (0x10_0000, None),
        (u64::MAX - 3, None),
    ] {
        assert_eq!(rt; word(b.step(&rt, Op::Peek { addr })), wanted, "at {addr}");
    }
    for (addr, len, wanted) in [
        (0, 0x10_0000, true),
        (0x10_0000, 0, true),
        (0xf_fffc, 4, true),
        (0xf_fffc, 8, false),
        (0x10_0004, 0, false),
        (2, 4, false),
        (4, 2, false),
        (4, u64::MAX - 3, false),
    ] {
        let outcome = b.step(&rt, Op::Zero { addr, len });
        assert_eq!(rt; matches!(outcome, Outcome::Fine), wanted, "at {addr}");
        assert_eq!(rt; matches!(outcome, Outcome::BadRange), !wanted, "at {addr}");
    }
}

#[test]
fn largest_counts(rt: HostRuntime) {
    let b = &mut Bench::build(&rt, rt.alloc(), &largest_board());
    let config = EndConfig {
        qaddr: 0x3ff_f000,
        ..config(11, 63, 7)
    };
    assert!(rt; b.fine(&rt, Op::EndSet { e: 511, config }));
    assert!(rt; b.fine(&rt, Op::EndSet { e: 510, config }));
    assert_eq!(rt; b.code(&rt, target(8190, 63, 6, 0)), -55);
    assert_eq!(rt; b.code(&rt, target(8191, 62, 6, 0)), -56);
    assert_eq!(rt; b.code(&rt, target(8191, 63, 6, 0x7fff_ffff)), 0);
    let Outcome::Routed {
        k: 1,
        routed: Routed::Run {
            run: EndRun::Ran {
                e: 510,
                wrote: Some(
                    Wrote {
                        addr: 0x3ff_f000,
                        word: 0xffff_ffff,
                    },
                ),
                then: _,
            },
        },
    } = b.route(&rt, 8191, 1)
    else {
        panic!(rt);
    };
    assert!(rt; b.fine(&rt, restore(63, 31)));
    assert!(rt; b.fine(&rt, push(31, 63)));
    assert!(rt; b.stored(&rt, set_cppr(31, 0xff)));
    assert!(rt; matches!(b.take(&rt, 0, 63, 7), Presented::Found));
    assert_eq!(rt; b.value(&rt, acknowledge(31)), Some(0x8007));
    assert_eq!(rt; b.registers(&rt, 31), (0, 7, 0, 0xff));
    assert_eq!(rt; b.cam(&rt, 31), 0x8000_043f);
    assert!(rt;
        matches!(
            b.step(&rt, Op::Read { e: 510 }),
            Outcome::Item {
                payload: 0x7fff_ffff
            }
        )
    );
    assert_eq!(rt; (b.queue(&rt, 510).taken, b.queue(&rt, 511).taken), (1, 0));
    assert!(rt;
        b.fine(
            &rt,
            Op::Zero {
                addr: 0,
                len: 0x400_0000
            }
        )
    );
    assert_eq!(rt; word(b.step(&rt, Op::Peek { addr: 0x3ff_f000 })), Some(0));
    assert_eq!(rt; word(b.step(&rt, Op::Peek { addr: 0x3ff_fffc })), Some(0));
    assert_eq!(rt; b.routes(&rt, 8191), 1);
}
