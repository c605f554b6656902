//! Which operations are valid.

use crate::board::{Board, Span, Spans};
use crate::operations::{Op, PqOp};
use crate::tests::small_board;
use crate::validity::valid;

/// Whether a board has an operation on the word of a source.
fn has(board: &Board, s: u32, op: PqOp) -> bool {
    valid(board, &Op::Pq { s, op })
}

/// A board on which source 1 is a level source, and sources have one page.
fn level_board() -> Board {
    let mut level = Spans::NONE;
    level.count = 1;
    level.spans[0] = Span { first: 1, last: 1 };
    Board {
        level,
        two_pages: false,
        ..small_board()
    }
}

#[test]
fn valid_operations(rt: HostRuntime) {
    let board = small_board();
    assert!(rt; has(&board, 1, PqOp::Trigger));
    assert!(rt; has(&board, 0, PqOp::Eoi));
    assert!(rt; has(&board, 0, PqOp::Get));
    assert!(rt; has(&board, 0, PqOp::Set { pq: 3 }));
    assert!(rt; !has(&board, 2, PqOp::Trigger));
    assert!(rt; !has(&board, 0, PqOp::Set { pq: 4 }));
}

#[test]
fn operations_of_level_sources(rt: HostRuntime) {
    let board = level_board();
    assert!(rt; has(&board, 1, PqOp::Raise));
    assert!(rt; has(&board, 1, PqOp::Lower));
    assert!(rt; has(&board, 1, PqOp::Init { asserted: true }));
    assert!(rt; has(&board, 1, PqOp::Init { asserted: false }));
    assert!(rt; has(&board, 0, PqOp::Init { asserted: false }));
    assert!(rt; !has(&board, 0, PqOp::Raise));
    assert!(rt; !has(&board, 0, PqOp::Lower));
    assert!(rt; !has(&board, 0, PqOp::Init { asserted: true }));
    assert!(rt; !has(&board, 2, PqOp::Init { asserted: false }));
}

#[test]
fn valid_accesses_to_pages(rt: HostRuntime) {
    let of_source = |s: u32, page: u8| Op::Esb {
        s,
        page,
        offset: 0xffff,
        store: true,
    };
    let of_end = |e: u32, page: u8| Op::EndEsb {
        e,
        page,
        offset: 0,
        store: false,
    };
    assert!(rt; valid(&small_board(), &of_source(1, 1)));
    assert!(rt; !valid(&small_board(), &of_source(1, 2)));
    assert!(rt; !valid(&small_board(), &of_source(2, 0)));
    assert!(rt; valid(&level_board(), &of_source(1, 0)));
    assert!(rt; !valid(&level_board(), &of_source(1, 1)));
    assert!(rt; valid(&small_board(), &of_end(15, 1)));
    assert!(rt; !valid(&small_board(), &of_end(15, 2)));
    assert!(rt; !valid(&small_board(), &of_end(16, 0)));
}

#[test]
fn valid_routes(rt: HostRuntime) {
    let board = small_board();
    assert!(rt; valid(&board, &Op::Route { s: 1 }));
    assert!(rt; !valid(&board, &Op::Route { s: 2 }));
    assert!(rt; valid(&board, &Op::Quiet { s: 1 }));
    assert!(rt; !valid(&board, &Op::Quiet { s: 2 }));
}

#[test]
fn valid_reads(rt: HostRuntime) {
    let board = small_board();
    assert!(rt; valid(&board, &Op::Read { e: 0 }));
    assert!(rt; valid(&board, &Op::Read { e: 15 }));
    assert!(rt; !valid(&board, &Op::Read { e: 16 }));
    assert!(rt; !valid(&board, &Op::Read { e: u32::MAX }));
}

#[test]
fn valid_addresses(rt: HostRuntime) {
    // also those that are no word's, or lie beyond memory: the outcome says so
    let board = small_board();
    let zero = |addr: u64, len: u64| Op::Zero { addr, len };
    assert!(rt; valid(&board, &Op::Peek { addr: 0x1000 }));
    assert!(rt; valid(&board, &Op::Peek { addr: 2 }));
    assert!(rt; valid(&board, &Op::Peek { addr: 0x400000 }));
    assert!(rt; valid(&board, &Op::Peek { addr: u64::MAX }));
    assert!(rt; valid(&board, &zero(0x1000, 0x1000)));
    assert!(rt; valid(&board, &zero(0, 0)));
    assert!(rt; valid(&board, &zero(2, 4)));
    assert!(rt; valid(&board, &zero(u64::MAX, u64::MAX)));
}

#[test]
fn valid_hypercalls(rt: HostRuntime) {
    let board = small_board();
    for number in [0, 0x3ac, 0x3c0, 0x3d0, u64::MAX] {
        let args = [number, 1, 2, 3, u64::MAX];
        assert!(rt; valid(&board, &Op::Hcall { number, args }));
    }
}
