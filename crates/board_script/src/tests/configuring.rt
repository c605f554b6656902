//! Lines that configure an END.

use crate::tests::{assert_places, assert_read, next_of, work_of};
use bitflags::Flags;
use xv_model::operations::Op;
use xv_model::outcomes::Outcome;

#[test]
fn reads_a_configuration(rt: HostRuntime) {
    let mut work = work_of(&rt, b"0 endset 511 vqb 63 7 0x3ff0000 16 0 0");
    match next_of(&mut work, None) {
        Some(Op::EndSet { e, config }) => {
            assert_eq!(rt; e, 511);
            assert_eq!(rt; config.flags.bits(), 11);
            assert_eq!(rt; config.vp, 63);
            assert_eq!(rt; config.priority, 7);
            assert_eq!(rt; config.qaddr, 0x3ff0000);
            assert_eq!(rt; config.qshift, 16);
            assert_eq!(rt; config.start, 0);
        }
        _ => assert!(rt; false),
    }
    assert!(rt; next_of(&mut work, Some(&Outcome::Fine)).is_none());
}

#[test]
fn reads_and_refuses_configurations(rt: HostRuntime) {
    let good = [
        b"0 endset 0 - 0 0 0 0 0 0".as_slice(),
        b"0 endset 0 v 0 0 0 0 0 0",
        b"0 endset 0x1ff vnb 0 0 0 0 0 0",
        b"0 endset 1 vqnb 0 0x7 0x1000 12 0 0",
        b"0 endset 1 vq 0 0 50331648 24 0 0",
        b"0 endset 1 vq 0 0 0x200000 21 0 0",
    ];
    let bad = [
        b"0 endset 512 v 0 0 0 0 0 0".as_slice(),
        b"0 endset 0 v 64 0 0 0 0 0",
        b"0 endset 0 v 0 8 0 0 0 0",
        b"0 endset 0 v 0 256 0 0 0 0",
        b"0 endset 0 v 0 0 0x1000 12 0 0",
        b"0 endset 0 v 0 0 0 0 1 0",
        b"0 endset 0 v 0 0 0 0 512 0",
        b"0 endset 0 v 0 0 0 0 0 1",
        b"0 endset 0 v 0 0 0 0 0 4294967296",
        b"0 endset 0 v 0 0 0 0 0",
        b"0 endset 0 v 0 0 0 0 0 0 0",
        b"0 endset 0 - 0 1 0 0 0 0",
        b"0 endset 0",
        b"0 endset",
    ];
    assert_read(&rt, &good, true);
    assert_read(&rt, &bad, false);
}

#[test]
fn refuses_queues_and_flags(rt: HostRuntime) {
    let queues = [
        b"0 endset 0 vq 0 0 0x1000 13 0 0".as_slice(),
        b"0 endset 0 vq 0 0 0 0 0 0",
        b"0 endset 0 vq 0 0 0 64 0 0",
        b"0 endset 0 vq 0 0 0x1000 4294967308 0 0",
        b"0 endset 0 vq 0 0 0x1800 12 0 0",
        b"0 endset 0 vq 0 0 0x1000 16 0 0",
        b"0 endset 0 vq 0 0 0x4000000 12 0 0",
        b"0 endset 0 vq 0 0 0xfffffffffffff000 12 0 0",
    ];
    let flags = [
        b"0 endset 0 qv 0 0 0x1000 12 0 0".as_slice(),
        b"0 endset 0 bv 0 0 0 0 0 0",
        b"0 endset 0 vv 0 0 0 0 0 0",
        b"0 endset 0 ve 0 0 0 0 0 0",
        b"0 endset 0 u 0 0 0 0 0 0",
        b"0 endset 0 vse 0 0 0 0 7 0",
        b"0 endset 0 vee 0 0 0 0 7 0",
        b"0 endset 0 veb 0 0 0 0 7 0",
        b"0 endset 0 vx 0 0 0 0 0 0",
        b"0 endset 0 V 0 0 0 0 0 0",
        b"0 endset 0 -v 0 0 0 0 0 0",
        b"0 endset 0 -- 0 0 0 0 0 0",
        b"0 endset 0 nb 0 0 0 0 0 0",
        b"0 endset 0 0 0 0 0 0 0 0",
    ];
    assert_read(&rt, &queues, false);
    assert_read(&rt, &flags, false);
}

#[test]
fn reads_and_refuses_escalations(rt: HostRuntime) {
    let good = [
        b"0 endset 0 vqnbeus 0 7 0x1000 12 7 0x7fffffff".as_slice(),
        b"0 endset 510 ve 63 0 0 0 511 0",
        b"0 endset 1 veu 0 0 0 0 15 1",
        b"0 endset 7 vqnbus 0 0 0x1000 12 0 0",
        b"0 endset 0 vs 0 0 0 0 0 0",
    ];
    let places = [
        (b"0 endset 0 ve 0 0 0 0 6 0".as_slice(), 3),
        (b"0  endset 7 ve 0 0 0 0 15 0", 4),
        (b"0 endset 0 ve 0 0 0 0 7 0x80000000", 3),
        (b"0 endset 0 vus 0 0 0 0 7 0", 3),
        (b"0 endset 0 e 0 0 0 0 7 0", 3),
        (b"0 endset 0 ve 0 0 0 0 512 0", 23),
        (b"0 endset 0 vue 0 0 0 0 7 0", 12),
    ];
    assert_read(&rt, &good, true);
    assert_places(&rt, &places);
}
