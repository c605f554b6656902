//! Lines on the pages of sources and ENDs.

use crate::lines::Line;
use crate::parser::Parser;
use crate::stage::Stage;
use crate::tests::{assert_places, assert_read, first_fault, next_of, place_at, work_of};
use xv_model::operations::Op;
use xv_model::outcomes::Outcome;

#[test]
fn reads_accesses_to_pages(rt: HostRuntime) {
    let good = [
        b"0 load 0 0 0".as_slice(),
        b"0 load 8191 1 0xffff",
        b" 15  store  0x1FFF 0X1 00065535 ",
        b"0 store 0 00 0x0400",
        b"0 endload 0 0 0",
        b"0 endload 511 1 0xFFFF",
        b"0xF endstore 0x1ff 0x01 65535",
    ];
    assert_read(&rt, &good, true);
}

#[test]
fn refuses_accesses_to_pages_of_sources(rt: HostRuntime) {
    let bad = [
        (b"0 load 8192 0 0".as_slice(), 8),
        (b"0 store -1 0 0", 9),
        (b"0 load 0 2 0", 10),
        (b"0 store 0  256 0", 12),
        (b"0 load 0 x 0", 10),
        (b"0 load 0 0 0x10000", 12),
        (b"0 store 0 1 65536", 13),
        (b"0 store 0 1 0x", 13),
        (b"0 load 0 1 18446744073709551616", 12),
        (b"0 load", 7),
        (b"0 load 0", 9),
        (b"0 load 0 0 ", 12),
        (b"0 load 0 0 0 0", 14),
        (b"0 store 0 0 0  # 0", 16),
        (b"0 Load 0 0 0", 3),
        (b"16 load 0 0 0", 1),
    ];
    assert_places(&rt, &bad);
}

#[test]
fn refuses_accesses_to_pages_of_ends(rt: HostRuntime) {
    let bad = [
        (b"0 endload 512 0 0".as_slice(), 11),
        (b"0 endstore 4294967296 0 0", 12),
        (b"0 endload 0 2 0", 13),
        (b"0 endstore 0 1 0x10000", 16),
        (b"0 endload 0 1 1_0", 15),
        (b"0 endload", 10),
        (b"0 endstore 0", 13),
        (b"0 endload 0 1", 14),
        (b"0 endstore 0 1 0 0", 18),
        (b"0 end load 0 1", 3),
    ];
    assert_places(&rt, &bad);
}

#[test]
fn refuses_a_second_page_of_a_source_with_one(rt: HostRuntime) {
    let mut parser = Parser::new(false);
    let header = [
        b"board 1".as_slice(),
        b"sources 1",
        b"processors 1",
        b"threads 1",
        b"ram 0",
        b"actors 1",
        b"esb 1 0",
    ];
    assert!(rt; first_fault(&mut parser, &header).is_none());
    assert!(rt; matches!(parser.feed(b"go"), Ok(Line::Go { .. })));
    let lines = [
        (b"0 load 0 0 0xfff".as_slice(), 0),
        (b"0 load 0 1 0xfff", 10),
        (b"0 store 0 1 0", 11),
        (b"0 endload 7 1 0", 0),
        (b"0 endload 8 1 0", 11),
    ];
    for (line, byte) in lines {
        assert_eq!(rt; place_at(Stage::Work, parser.board(), line), byte);
    }
}

#[test]
fn makes_accesses_to_pages(rt: HostRuntime) {
    let mut load = work_of(&rt, b"0 load 7 1 0xc12");
    match next_of(&mut load, None) {
        Some(
            Op::Esb {
                s,
                page,
                offset,
                store,
            },
        ) => {
            assert_eq!(rt; s, 7);
            assert_eq!(rt; page, 1);
            assert_eq!(rt; offset, 0xc12);
            assert!(rt; !store);
        }
        _ => assert!(rt; false),
    }
    let forwarded = Outcome::Pq {
        old: 3,
        new: 2,
        forward: 1,
    };
    assert!(rt; next_of(&mut load, Some(&forwarded)).is_none());
    match next_of(&mut work_of(&rt, b"0 store 8191 0 65535"), None) {
        Some(
            Op::Esb {
                s,
                page,
                offset,
                store,
            },
        ) => {
            assert_eq!(rt; s, 8191);
            assert_eq!(rt; page, 0);
            assert_eq!(rt; offset, 65535);
            assert!(rt; store);
        }
        _ => assert!(rt; false),
    }
}

#[test]
fn makes_accesses_to_pages_of_ends(rt: HostRuntime) {
    let lines = [
        (b"0 endload 511 1 0x800".as_slice(), false),
        (b"0 endstore 511 1 0x800", true),
    ];
    for (line, stores) in lines {
        let mut work = work_of(&rt, line);
        match next_of(&mut work, None) {
            Some(
                Op::EndEsb {
                    e,
                    page,
                    offset,
                    store,
                },
            ) => {
                assert_eq!(rt; e, 511);
                assert_eq!(rt; page, 1);
                assert_eq!(rt; offset, 0x800);
                assert_eq!(rt; store, stores);
            }
            _ => assert!(rt; false),
        }
        assert!(rt; next_of(&mut work, Some(&Outcome::NoEnd)).is_none());
    }
}
