//! The ranges of sources and processors in a header.

use crate::lines::Line;
use crate::parser::Parser;
use crate::stage::{Stage, Turn};
use crate::tests::{after_header, before_go, place_at};
use std::process::Abort;

/// Asserts where each line is refused at a turn of the header of the largest board, from byte 1 on; 0 where it is
/// read.
fn assert_places_at(rt: &impl Abort, turn: Turn, lines: &[(&[u8], usize)]) {
    let parser = before_go(rt);
    for (line, byte) in lines {
        assert_eq!(rt;
            place_at(Stage::Header { turn }, parser.board(), line),
            *byte
        );
    }
}

#[test]
fn reads_ranges_of_all_kinds(rt: HostRuntime) {
    let mut parser = before_go(&rt);
    for _ in 0..15 {
        assert!(rt; matches!(parser.feed(b"level 3 0x1fff"), Ok(Line::Header)));
    }
    assert!(rt; parser.feed(b" level  0X0 00 ").is_ok());
    assert!(rt; matches!(parser.feed(b"# full"), Ok(Line::Nothing)));
    for _ in 0..15 {
        assert!(rt; matches!(parser.feed(b"unclaimed 3 0x1fff"), Ok(Line::Header)));
    }
    assert!(rt; parser.feed(b" unclaimed 5 5 ").is_ok());
    assert!(rt; matches!(parser.feed(b""), Ok(Line::Nothing)));
    for _ in 0..15 {
        assert!(rt; matches!(parser.feed(b"unconnected 3 0x3f"), Ok(Line::Header)));
    }
    assert!(rt; parser.feed(b" unconnected  0X0 07 ").is_ok());
    assert!(rt; matches!(parser.feed(b"  # full"), Ok(Line::Nothing)));
    match parser.feed(b"go") {
        Ok(Line::Go { board }) => {
            assert_eq!(rt; board.level.count, 16);
            assert_eq!(rt; board.level.spans[14].first, 3);
            assert_eq!(rt; board.level.spans[14].last, 8191);
            assert_eq!(rt; board.level.spans[15].last, 0);
            assert_eq!(rt; board.unclaimed.count, 16);
            assert_eq!(rt; board.unclaimed.spans[14].first, 3);
            assert_eq!(rt; board.unclaimed.spans[14].last, 8191);
            assert_eq!(rt; board.unclaimed.spans[15].first, 5);
            assert_eq!(rt; board.unconnected.count, 16);
            assert_eq!(rt; board.unconnected.spans[14].first, 3);
            assert_eq!(rt; board.unconnected.spans[14].last, 63);
            assert_eq!(rt; board.unconnected.spans[15].first, 0);
            assert_eq!(rt; board.unconnected.spans[15].last, 7);
        }
        _ => assert!(rt; false),
    }
}

#[test]
fn reads_ranges_of_one_kind_or_none(rt: HostRuntime) {
    let level = after_header(&rt);
    assert_eq!(rt; level.board().level.count, 1);
    assert_eq!(rt; level.board().level.spans[0].first, 4);
    assert_eq!(rt; level.board().level.spans[0].last, 6);
    assert_eq!(rt; level.board().unclaimed.count, 0);
    let mut unclaimed = before_go(&rt);
    assert!(rt; unclaimed.feed(b"unclaimed 1 2").is_ok());
    assert!(rt; unclaimed.feed(b"go").is_ok());
    assert_eq!(rt; unclaimed.board().level.count, 0);
    assert_eq!(rt; unclaimed.board().unclaimed.count, 1);
    let mut unconnected = before_go(&rt);
    assert!(rt; unconnected.feed(b"unconnected 1 2").is_ok());
    assert!(rt; unconnected.feed(b"go").is_ok());
    assert_eq!(rt; unconnected.board().unclaimed.count, 0);
    assert_eq!(rt; unconnected.board().unconnected.count, 1);
    let mut none = before_go(&rt);
    assert!(rt; none.feed(b"go").is_ok());
    assert_eq!(rt; none.board().level.count, 0);
    assert_eq!(rt; none.board().unconnected.count, 0);
}

#[test]
fn names_the_place_in_a_range(rt: HostRuntime) {
    let level = [
        (b"level 0 8191".as_slice(), 0),
        (b"level 3 2", 9),
        (b"level  0x10  15", 14),
        (b"level 0 8192", 9),
        (b"level 8192 8192", 7),
        (b"level 1 -", 9),
        (b"level 1", 8),
        (b"level", 6),
        (b"level 1 2  3", 12),
        (b" Level 1 2", 2),
        (b"unclaimed 0 0", 0),
        (b"unclaimed 3 2", 13),
        (b"unconnected 0 63", 0),
        (b"unconnected 0 64", 15),
        (b"esb 2 1", 1),
        (b"go 0", 4),
    ];
    let unclaimed = [
        (b"unclaimed 0 8191".as_slice(), 0),
        (b"unclaimed 3 2", 13),
        (b"unclaimed 0 8192", 13),
        (b"unclaimed 8192 8192", 11),
        (b"unclaimed 1", 12),
        (b"unclaimed", 10),
        (b"unclaimed 1 2 3", 15),
        (b"Unclaimed 1 2", 1),
        (b"  level 0 0", 3),
        (b"level", 1),
        (b"unconnected 0 0", 0),
        (b"unconnected 1 0", 15),
        (b"go", 0),
        (b"go 0", 4),
    ];
    assert_places_at(&rt, Turn::Level, &level);
    assert_places_at(&rt, Turn::Unclaimed, &unclaimed);
    let early = [
        (b" level 0 0".as_slice(), 2),
        (b"unclaimed 0 0", 1),
        (b"unconnected 0 0", 1),
    ];
    assert_places_at(&rt, Turn::Esb, &early);
}

#[test]
fn names_the_place_in_a_range_of_processors(rt: HostRuntime) {
    let lines = [
        (b"unconnected 0 63".as_slice(), 0),
        (b"  unconnected  0x3F  63 ", 0),
        (b"unconnected 64 64", 13),
        (b"unconnected 0 64", 15),
        (b"unconnected 5 4", 15),
        (b"unconnected - 4", 13),
        (b"unconnected 1 4294967297", 15),
        (b"unconnected 1", 14),
        (b"unconnected ", 13),
        (b"unconnected 1 2  3", 18),
        (b" Unconnected 1 2", 2),
        (b"unconnected63 63", 1),
        (b"level 0 0", 1),
        (b"  unclaimed 0 0", 3),
        (b"unclaimed", 1),
        (b"esb 2 1", 1),
        (b"go", 0),
        (b"go 0", 4),
    ];
    assert_places_at(&rt, Turn::Unconnected, &lines);
}

#[test]
fn refuses_a_seventeenth_range(rt: HostRuntime) {
    let level = Stage::Header { turn: Turn::Level };
    let unclaimed = Stage::Header {
        turn: Turn::Unclaimed,
    };
    let mut full = before_go(&rt);
    for _ in 0..16 {
        assert!(rt; full.feed(b"level 0 0").is_ok());
    }
    assert_eq!(rt; place_at(level, full.board(), b" level 0 0"), 2);
    assert_eq!(rt; place_at(level, full.board(), b" level 2 1"), 2);
    assert_eq!(rt; place_at(level, full.board(), b"unclaimed 0 0"), 0);
    for _ in 0..16 {
        assert!(rt; full.feed(b"unclaimed 0 0").is_ok());
    }
    assert_eq!(rt; place_at(unclaimed, full.board(), b" unclaimed 0 0"), 2);
    assert_eq!(rt; place_at(unclaimed, full.board(), b" unclaimed"), 2);
    assert_eq!(rt; place_at(unclaimed, full.board(), b"go"), 0);
    assert!(rt; full.feed(b"unclaimed 0 0").is_err());
}

#[test]
fn refuses_a_seventeenth_range_of_processors(rt: HostRuntime) {
    let unconnected = Stage::Header {
        turn: Turn::Unconnected,
    };
    let mut full = before_go(&rt);
    for _ in 0..16 {
        assert!(rt; full.feed(b"unconnected 0 0").is_ok());
    }
    assert_eq!(rt; place_at(unconnected, full.board(), b" unconnected 0 0"), 2);
    assert_eq!(rt; place_at(unconnected, full.board(), b" unconnected"), 2);
    assert_eq!(rt; place_at(unconnected, full.board(), b"go"), 0);
    assert!(rt; full.feed(b"unconnected 0 0").is_err());
}

#[test]
fn refuses_ranges_out_of_turn(rt: HostRuntime) {
    let mut late = before_go(&rt);
    assert!(rt; late.feed(b"level 0 0").is_ok());
    assert!(rt; late.feed(b"unclaimed 0 0").is_ok());
    assert!(rt; late.feed(b"level 0 0").is_err());
    let mut last = before_go(&rt);
    assert!(rt; last.feed(b"unconnected 0 0").is_ok());
    assert!(rt; last.feed(b"unclaimed 0 0").is_err());
    let mut early = Parser::new(false);
    assert!(rt; early.feed(b"board 1").is_ok());
    assert!(rt; early.feed(b"level 0 0").is_err());
    assert!(rt; after_header(&rt).feed(b"unclaimed 0 0").is_err());
    assert!(rt; after_header(&rt).feed(b"level 0 0").is_err());
    assert!(rt; after_header(&rt).feed(b"unconnected 0 0").is_err());
}
