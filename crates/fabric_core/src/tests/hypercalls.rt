//! Hypercalls: what they answer, and what they do.

use crate::tests::{Bench, small_board};
use std::process::Abort;
use xv_model::operations::Op;
use xv_model::outcomes::Outcome;

/// The code of a hypercall, how many outputs it has, and these, the others being 0.
fn called(rt: &impl Abort, bench: &mut Bench, number: u64, args: [u64; 5]) -> (i64, u8, [u64; 4]) {
    match bench.step(rt, Op::Hcall { number, args }) {
        Outcome::Reply { reply } => {
            let out = reply.out;
            (reply.code, reply.outs, out)
        }
        _ => panic!(rt),
    }
}

#[test]
fn outputs_of_hypercalls(rt: HostRuntime) {
    let bench = &mut Bench::build(&rt, rt.alloc(), &small_board());
    let none = u64::MAX;
    let cases = [
        (
            0x3a8,
            [0, 1, 0, 0, 0],
            (4, [0, 0x6010000030000, 0x6010000020000, 16]),
        ),
        (0x3a8, [0, 3, 0, 0, 0], (4, [12, none, none, 16])),
        (0x3b0, [0, 1, 0, 0, 0], (3, [0, 0xff, 0, 0])),
        (0x3ac, [2, 1, 1, 3, 0x8000_0021], (0, [0; 4])),
        (0x3b0, [0, 1, 0, 0, 0], (3, [1, 3, 0x21, 0])),
        (0x3ac, [1, 1, 0, 6, 5], (0, [0; 4])),
        (0x3b0, [0, 1, 0, 0, 0], (3, [0, 0xff, 0x21, 0])),
        (0x3b4, [0, 1, 3, 0, 0], (2, [0x6020000160000, 16, 0, 0])),
        (0x3bc, [1, 1, 3, 0, 0], (4, [0, 0, 0, 0])),
        (0x3b8, [1, 1, 3, 0x1000, 12], (0, [0; 4])),
        (0x3bc, [0, 1, 3, 0, 0], (4, [1, 0x1000, 12, 0])),
        (0x3bc, [1, 1, 3, 0, 0], (4, [(1 << 62) + 1, 0x1000, 12, 0])),
        (0x3c8, [1, 1, 0xffff, 0, 0], (0, [0; 4])),
        (0x3cc, [0, 1, 0, 0, 0], (0, [0; 4])),
        (0x3d0, [0, 0, 0, 0, 0], (0, [0; 4])),
        (0x3b0, [0, 1, 0, 0, 0], (3, [0, 0xff, 0, 0])),
        (0x3bc, [1, 1, 3, 0, 0], (4, [0, 0, 0, 0])),
    ];
    for (number, args, (outs, out)) in cases {
        assert_eq!(rt;
            called(&rt, bench, number, args),
            (0, outs, out),
            "{number}"
        );
    }
    assert_eq!(rt;
        called(&rt, bench, 0x3b0, [0, 2, 0, 0, 0]),
        (-55, 0, [0; 4])
    );
    assert_eq!(rt; called(&rt, bench, 0x999, [0; 5]), (-2, 0, [0; 4]));
}
