//! Lines on queues and on memory.

use crate::tests::{assert_places, assert_read, next_of, work_of};
use xv_model::operations::Op;
use xv_model::outcomes::Outcome;

#[test]
fn reads_lines_on_queues_and_memory(rt: HostRuntime) {
    let good = [
        b"0 read 0".as_slice(),
        b" 15  read  0x1FF ",
        b"0 read 00511",
        b"0 peek 0",
        b"0 peek 0xffffffffffffffff",
        b"0xF peek 18446744073709551615",
        b"0 zero 0x2 0X4",
        b"0 zero 0 0xFFFFFFFFFFFFFFFF ",
    ];
    assert_read(&rt, &good, true);
}

#[test]
fn refuses_lines_on_queues_and_memory(rt: HostRuntime) {
    let bad = [
        (b"0 read 512".as_slice(), 8),
        (b"0 read 4294967296", 8),
        (b"0 read x", 8),
        (b"0 read", 7),
        (b"0 read 0 0", 10),
        (b"0 Read 0", 3),
        (b"0 peek 18446744073709551616", 8),
        (b"0 peek 0x", 8),
        (b"0 peek  ", 9),
        (b"0 peek 0 4", 10),
        (b"0 zero 0", 9),
        (b"0 zero -4 4", 8),
        (b"0 zero 0 0x10000000000000000", 10),
        (b"0 zero 0 4 0", 12),
        (b"16 zero 0 4", 1),
    ];
    assert_places(&rt, &bad);
}

#[test]
fn makes_reads_and_looks(rt: HostRuntime) {
    let mut read = work_of(&rt, b"0 read 511");
    assert!(rt; matches!(next_of(&mut read, None), Some(Op::Read { e: 511 })));
    let item = Outcome::Item { payload: 0x10 };
    assert!(rt; next_of(&mut read, Some(&item)).is_none());
    let mut peek = work_of(&rt, b"0 peek 0x1ffc");
    assert!(rt; matches!(next_of(&mut peek, None), Some(Op::Peek { addr: 0x1ffc })));
    assert!(rt; next_of(&mut peek, Some(&Outcome::BadRange)).is_none());
}

#[test]
fn makes_zeros(rt: HostRuntime) {
    let mut zero = work_of(&rt, b"0 zero 0x1000 0x20");
    match next_of(&mut zero, None) {
        Some(Op::Zero { addr, len }) => {
            assert_eq!(rt; addr, 0x1000);
            assert_eq!(rt; len, 0x20);
        }
        _ => assert!(rt; false),
    }
    assert!(rt; next_of(&mut zero, Some(&Outcome::Fine)).is_none());
}
