//! Why a line is refused, and at which byte.

use crate::faults::{Cause, ScriptFault};
use crate::parser::Parser;
use crate::tests::{after_header, before_go, first_fault};
use std::process::Abort;

/// Asserts why a line is refused, and where.
fn refuses(rt: &impl Abort, parser: &mut Parser, line: &[u8], cause: Cause, byte: u32) {
    match parser.feed(line) {
        Ok(_) => panic!(rt; "it is read"),
        Err(fault) => {
            assert_eq!(rt; fault.cause, cause);
            assert_eq!(rt; fault.byte, byte);
        }
    }
}

#[test]
fn refuses_lines_of_work(rt: HostRuntime) {
    let lines = [
        (b"0 get\t0".as_slice(), Cause::BadByte, 6),
        (b"# \x7f", Cause::BadByte, 3),
        (b"  board 1", Cause::WrongPlace, 3),
        (b"go", Cause::WrongPlace, 1),
        (b"got 0", Cause::UnknownWord, 1),
        (b"18446744073709551616 get 0", Cause::UnknownWord, 1),
        (b"0x1 got 0", Cause::UnknownWord, 5),
        (b"0 sources 1", Cause::UnknownWord, 3),
        (b"0 end", Cause::UnknownWord, 3),
        (b"0  ", Cause::MissingWord, 4),
        (b"0 get  ", Cause::MissingWord, 8),
        (b"0 get 0 0", Cause::ExtraWord, 9),
        (b"end 0", Cause::ExtraWord, 5),
        (b"0 get 18446744073709551616", Cause::BadNumber, 7),
        (b"0 get x", Cause::BadNumber, 7),
        (b"0 set 0 2", Cause::BadNumber, 9),
        (b"0 set 8192 2", Cause::OutOfRange, 7),
        (b"0 endset 0 bv 0 0 0 0 0 0", Cause::BadNumber, 12),
        (b"16 got", Cause::OutOfRange, 1),
        (b"0 get 8192 0", Cause::OutOfRange, 7),
        (b"0 tload 0 4 0 1", Cause::OutOfRange, 11),
        (b"0 tload 0 0 0 3", Cause::OutOfRange, 15),
        (b"0 tstore 0 2 0x11 1 0x100", Cause::OutOfRange, 21),
        (b"0 init 0 2", Cause::OutOfRange, 10),
        (b"0 raise 0", Cause::NotLevel, 3),
        (b"0 raise 0 0", Cause::ExtraWord, 11),
        (b"0 assert 3", Cause::NotLevel, 3),
        (b"0 init 0 1", Cause::NotLevel, 3),
        (b"0 endset 0 - 0 1 0 0 0 0", Cause::BadEnd, 3),
        (b"0 endset 0 v 0 256 0 0 0 0", Cause::OutOfRange, 16),
    ];
    for (line, cause, byte) in lines {
        refuses(&rt, &mut after_header(&rt), line, cause, byte);
    }
    refuses(
        &rt,
        &mut after_header(&rt),
        &[b'\t'; 257],
        Cause::LongLine,
        257,
    );
}

#[test]
fn refuses_lines_of_the_device(rt: HostRuntime) {
    let lines = [
        (b"0 migrate 0".as_slice(), Cause::ExtraWord, 11),
        (b"0 kvmset 0x100000000 0x1 0x0", Cause::OutOfRange, 10),
        (b"0 kvmset 1 0x1", Cause::MissingWord, 15),
        (b"0 kvmset 1 v 0x1", Cause::BadNumber, 12),
        (b"0 kvmeq 0x0 v 16 0x1000 0 0", Cause::BadNumber, 13),
        (
            b"0 kvmeq 0x0 0x1 16 0x1000 0x100000000 0",
            Cause::OutOfRange,
            27,
        ),
        (b"0 kvmget 3", Cause::MissingWord, 11),
        (b"0 kvmget 3 0x0 0", Cause::ExtraWord, 16),
        (b"0 vpget 64", Cause::OutOfRange, 9),
        (b"0 vpset 0 0xff 0x100", Cause::OutOfRange, 16),
    ];
    for (line, cause, byte) in lines {
        refuses(&rt, &mut after_header(&rt), line, cause, byte);
    }
}

#[test]
fn refuses_lines_of_the_header(rt: HostRuntime) {
    let lines = [
        (b"boards 1".as_slice(), Cause::UnknownWord, 1),
        (b" start", Cause::WrongPlace, 2),
        (b"end", Cause::WrongPlace, 1),
        (b"0 get 0", Cause::WrongPlace, 1),
        (b"sources 1", Cause::WrongPlace, 1),
        (b"level", Cause::MissingWord, 6),
        (b"level 1", Cause::MissingWord, 8),
        (b"level 2 1", Cause::OutOfRange, 9),
        (b"level 0 8192", Cause::OutOfRange, 9),
        (b"unconnected 0 64", Cause::OutOfRange, 15),
        (b"level 0 1 2", Cause::ExtraWord, 11),
        (b"go 1", Cause::ExtraWord, 4),
    ];
    for (line, cause, byte) in lines {
        refuses(&rt, &mut before_go(&rt), line, cause, byte);
    }
    let mut new = Parser::new(false);
    refuses(&rt, &mut new, b"board 2", Cause::OutOfRange, 7);
    let mut two = Parser::new(false);
    let fault = ScriptFault {
        line: 2,
        byte: 1,
        cause: Cause::WrongPlace,
    };
    assert_eq!(rt;
        first_fault(&mut two, &[b"board 1", b"processors 1"]),
        Some(fault)
    );
}
