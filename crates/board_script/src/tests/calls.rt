//! Lines of hypercalls, and what they go on with.

use crate::lines::Line;
use crate::parser::Parser;
use crate::tests::{assert_places, assert_read, first_fault, next_of, next_while, work_of};
use crate::work::Work;
use std::process::Abort;
use xv_model::operations::{Op, PqOp};
use xv_model::outcomes::{HReply, Outcome};

/// A call that was accepted, without outputs.
const ACCEPTED: Outcome = Outcome::Reply {
    reply: HReply {
        code: 0,
        outs: 0,
        out: [0; 4],
    },
};

/// A call that was refused for its flags.
const REFUSED: Outcome = Outcome::Reply {
    reply: HReply {
        code: -4,
        outs: 0,
        out: [0; 4],
    },
};

/// What an access or a set answers.
const SET: Outcome = Outcome::Pq {
    old: 0,
    new: 1,
    forward: 0,
};

#[test]
fn reads_and_refuses_hypercalls(rt: HostRuntime) {
    let good = [
        b"0 hcall 0x3AC 0 1 2 3 4".as_slice(),
        b"0 hcall 940 0xffffffffffffffff 18446744073709551615 0 0 0",
        b"0 hcall 0x3a8 0 1 2 3 4",
        b"0 hcall 0 0 0 0 0 0",
        b"0 hcall 0xffffffffffffffff 0 0 0 0 0",
        b" 15  reset ",
    ];
    let bad = [
        (b"0 hcall".as_slice(), 8),
        (b"0 hcall 0x3ac 0 1 2 3", 22),
        (b"0 hcall 0x3ac 0 1 2 3 4 5", 25),
        (b"0 hcall 0x3ac 0 1 2 3 18446744073709551616", 23),
        (b"0 hcall 0x3ac 0 1 - 3 4", 19),
        (b"16 hcall 0x3ac 0 1 2 3 4", 1),
        (b"0 reset 0", 9),
        (b"0 Reset", 3),
    ];
    assert_read(&rt, &good, true);
    assert_places(&rt, &bad);
}

/// The number and the arguments of the call that a line makes first.
fn call_of(rt: &impl Abort, work: &mut Work) -> (u64, [u64; 5]) {
    match next_of(work, None) {
        Some(Op::Hcall { number, args }) => (number, args),
        _ => panic!(rt; "no call"),
    }
}

#[test]
fn makes_the_call_first(rt: HostRuntime) {
    let (number, args) = call_of(&rt, &mut work_of(&rt, b"0 hcall 0x3ac 5 6 7 8 9"));
    assert_eq!(rt; number, 0x3ac);
    assert_eq!(rt; args, [5, 6, 7, 8, 9]);
    let (number, args) = call_of(&rt, &mut work_of(&rt, b"0 reset"));
    assert_eq!(rt; number, 0x3d0);
    assert_eq!(rt; args, [0, 0, 0, 0, 0]);
}

#[test]
fn ends_after_most_calls_and_after_each_that_is_refused(rt: HostRuntime) {
    let most = [
        b"0 hcall 0x3a8 0 7 0 0 0".as_slice(),
        b"0 hcall 0x3ac 2 7 0 6 1",
        b"0 hcall 0x3b0 0 7 0 0 0",
        b"0 hcall 0x3b4 0 0 6 0 0",
        b"0 hcall 0x3b8 0 0 6 0 0",
        b"0 hcall 0x3bc 1 0 6 0 0",
        b"0 hcall 0x3c0 0 7 0 0 0",
        b"0 hcall 0x3c4 0 7 0 0 0",
        b"0 hcall 0x3d4 0 7 0 0 0",
    ];
    for line in most {
        let mut work = work_of(&rt, line);
        assert!(rt; next_of(&mut work, None).is_some());
        assert!(rt; next_of(&mut work, Some(&ACCEPTED)).is_none());
    }
    let refused = [
        b"0 hcall 0x3c8 2 7 0x800 0 0".as_slice(),
        b"0 hcall 0x3cc 1 7 0 0 0",
        b"0 hcall 0x3d0 1 0 0 0 0",
    ];
    for line in refused {
        let mut work = work_of(&rt, line);
        assert!(rt; next_of(&mut work, None).is_some());
        assert!(rt; next_while(&mut work, Some(&REFUSED), 7).is_none());
    }
}

/// Asserts that a line goes on with one access to a page of source 7, and ends after it.
fn assert_access(rt: &impl Abort, work: &mut Work, page: u8, offset: u16, store: bool) {
    assert!(rt; next_of(work, None).is_some());
    match next_of(work, Some(&ACCEPTED)) {
        Some(
            Op::Esb {
                s,
                page: p,
                offset: o,
                store: is_store,
            },
        ) => {
            assert_eq!(rt; s, 7);
            assert_eq!(rt; p, page);
            assert_eq!(rt; o, offset);
            assert_eq!(rt; is_store, store);
        }
        _ => assert!(rt; false),
    }
    for last in [SET, Outcome::Spent, Outcome::BadOffset] {
        assert!(rt; next_of(work, Some(&last)).is_none());
    }
}

#[test]
fn accesses_the_management_page(rt: HostRuntime) {
    let mut load = work_of(&rt, b"0 hcall 0x3c8 0 7 0x800 0 0");
    assert_access(&rt, &mut load, 1, 0x800, false);
    let mut store = work_of(&rt, b"0 hcall 0x3c8 1 7 0xffff 9 9");
    assert_access(&rt, &mut store, 1, 0xffff, true);
    let mut parser = Parser::new(false);
    let header = [
        b"board 1".as_slice(),
        b"sources 8",
        b"processors 1",
        b"threads 1",
        b"ram 1",
        b"actors 1",
        b"esb 1 0",
        b"go",
    ];
    assert!(rt; first_fault(&mut parser, &header).is_none());
    match parser.feed(b"0 hcall 0x3c8 0 7 0 0 0") {
        Ok(Line::Work { mut work, .. }) => assert_access(&rt, &mut work, 0, 0, false),
        _ => assert!(rt; false),
    }
}

#[test]
fn goes_on_with_nothing_that_the_board_lacks(rt: HostRuntime) {
    let lines = [
        b"0 hcall 0x3c8 0 8192 0x800 0 0".as_slice(),
        b"0 hcall 0x3c8 0 0x100000007 0x800 0 0",
        b"0 hcall 0x3c8 0 7 0x10000 0 0",
        b"0 hcall 0x3cc 0 8192 0 0 0",
        b"0 hcall 0x3cc 0 0x100000007 0 0 0",
    ];
    for line in lines {
        let mut work = work_of(&rt, line);
        assert!(rt; next_of(&mut work, None).is_some());
        assert!(rt; next_of(&mut work, Some(&ACCEPTED)).is_none());
    }
}

#[test]
fn brings_a_source_to_rest_after_the_call(rt: HostRuntime) {
    let none = Outcome::NoMessage;
    let mut sync = work_of(&rt, b"0 hcall 0x3cc 0 7 0 0 0");
    assert!(rt; matches!(next_while(&mut sync, None, 7), Some(Op::Hcall { .. })));
    assert!(rt;
        matches!(
            next_while(&mut sync, Some(&ACCEPTED), 7),
            Some(Op::Take { i: 0 })
        )
    );
    assert!(rt;
        matches!(
            next_while(&mut sync, Some(&none), 7),
            Some(Op::Route { s: 7 })
        )
    );
    assert!(rt;
        matches!(
            next_while(&mut sync, Some(&Outcome::NoNotice), 7),
            Some(Op::Take { i: 0 })
        )
    );
    assert!(rt;
        matches!(
            next_while(&mut sync, Some(&none), 6),
            Some(Op::Quiet { s: 7 })
        )
    );
    assert!(rt; next_while(&mut sync, Some(&Outcome::Quiet), 6).is_none());
}

#[test]
fn sets_each_initialised_source_after_a_reset(rt: HostRuntime) {
    for line in [b"0 reset".as_slice(), b"0 hcall 0x3d0 0 1 2 3 4"] {
        let mut reset = work_of(&rt, line);
        assert!(rt; matches!(next_of(&mut reset, None), Some(Op::Hcall { .. })));
        let mut last = ACCEPTED;
        for source in [2, 7, 8191] {
            match next_of(&mut reset, Some(&last)) {
                Some(
                    Op::Pq {
                        s,
                        op: PqOp::Set { pq },
                    },
                ) => {
                    assert_eq!(rt; s, source);
                    assert_eq!(rt; pq, 1);
                }
                _ => assert!(rt; false),
            }
            last = SET;
        }
        assert!(rt; next_of(&mut reset, Some(&last)).is_none());
    }
}
