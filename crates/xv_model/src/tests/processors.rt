//! Which operations on processors and on messages are valid.

use crate::board::Board;
use crate::operations::Op;
use crate::tests::small_board;
use crate::validity::valid;
use xv_base::Limits;

/// A board with one processor and two threads.
fn one_processor() -> Board {
    Board {
        limits: Limits {
            sources: 2,
            processors: 1,
            threads: 2,
            actors: 1,
        },
        ..small_board()
    }
}

#[test]
fn valid_connects(rt: HostRuntime) {
    let board = small_board();
    assert!(rt; valid(&board, &Op::Connect { v: 0 }));
    assert!(rt; valid(&board, &Op::Connect { v: 1 }));
    assert!(rt; !valid(&board, &Op::Connect { v: 2 }));
    assert!(rt; !valid(&board, &Op::Connect { v: u32::MAX }));
    // a CAM word is no processor's number
    assert!(rt; !valid(&board, &Op::Connect { v: 0x400 }));
    assert!(rt; !valid(&one_processor(), &Op::Connect { v: 1 }));
}

#[test]
fn valid_saves(rt: HostRuntime) {
    let board = small_board();
    assert!(rt; valid(&board, &Op::Save { v: 0 }));
    assert!(rt; valid(&board, &Op::Save { v: 1 }));
    assert!(rt; !valid(&board, &Op::Save { v: 2 }));
    assert!(rt; !valid(&board, &Op::Save { v: u32::MAX }));
    assert!(rt; !valid(&one_processor(), &Op::Save { v: 1 }));
}

#[test]
fn valid_restores(rt: HostRuntime) {
    let board = small_board();
    assert!(rt; valid(&board, &Op::Restore { v: 0, t: 0 }));
    assert!(rt; valid(&board, &Op::Restore { v: 1, t: 0 }));
    assert!(rt; !valid(&board, &Op::Restore { v: 2, t: 0 }));
    assert!(rt; !valid(&board, &Op::Restore { v: 0, t: 1 }));
    assert!(rt; !valid(&board, &Op::Restore { v: 0, t: u32::MAX }));
    let board = one_processor();
    assert!(rt; valid(&board, &Op::Restore { v: 0, t: 1 }));
    assert!(rt; !valid(&board, &Op::Restore { v: 1, t: 0 }));
    assert!(rt; !valid(&board, &Op::Restore { v: 0, t: 2 }));
}

#[test]
fn valid_takes(rt: HostRuntime) {
    // also of a message that isn't in flight: the outcome says so
    let board = small_board();
    assert!(rt; valid(&board, &Op::Take { i: 0 }));
    assert!(rt; valid(&board, &Op::Take { i: 1 }));
    assert!(rt; valid(&board, &Op::Take { i: u32::MAX }));
}

#[test]
fn valid_states(rt: HostRuntime) {
    let board = small_board();
    let set = |v: u32| Op::VpSet {
        v,
        cppr: 0xff,
        ipb: 0xff,
    };
    for v in [0, 1] {
        assert!(rt; valid(&board, &Op::VpGet { v }));
        assert!(rt; valid(&board, &set(v)));
    }
    for v in [2, 0x400, u32::MAX] {
        assert!(rt; !valid(&board, &Op::VpGet { v }));
        assert!(rt; !valid(&board, &set(v)));
    }
    assert!(rt; !valid(&one_processor(), &Op::VpGet { v: 1 }));
    assert!(rt; !valid(&one_processor(), &set(1)));
}
