//! The texts of calls to the KVM device, and of what they answer.

use super::prints;
use xv_model::operations::{AttrValue, EqFields, Op};
use xv_model::outcomes::Outcome;

/// The longest fields of a queue.
const LONGEST: EqFields = EqFields {
    flags: u32::MAX,
    qshift: u32::MAX,
    qaddr: u64::MAX,
    qtoggle: u32::MAX,
    qindex: u32::MAX,
};

/// The fields of a queue of 64 KiB.
const FIELDS: EqFields = EqFields {
    flags: 1,
    qshift: 16,
    qaddr: 0x20000,
    qtoggle: 0,
    qindex: 11,
};

#[test]
fn settings(rt: HostRuntime) {
    let set = Op::AttrSet {
        group: 1,
        attr: 3,
        value: AttrValue::Number { value: 1 },
    };
    let line = b"0 0 kvmset 1 0x3 0x1 -> code 0\n";
    assert!(rt; prints(0, 0, set, Outcome::Code { code: 0 }, line));
    let longest = Op::AttrSet {
        group: u32::MAX,
        attr: u64::MAX,
        value: AttrValue::Number { value: u64::MAX },
    };
    let line = b"3 1 kvmset 4294967295 0xffffffffffffffff 0xffffffffffffffff -> code -2147483648\n";
    assert!(rt; prints(3, 1, longest, Outcome::Code { code: i32::MIN }, line));
    let queue = Op::AttrSet {
        group: 4,
        attr: 0x1d,
        value: AttrValue::Queue { eq: FIELDS },
    };
    let line = b"7 2 kvmeq 0x1d 0x1 16 0x20000 0 11 -> code -22\n";
    assert!(rt; prints(7, 2, queue, Outcome::Code { code: -22 }, line));
    let longest = Op::AttrSet {
        group: 4,
        attr: u64::MAX,
        value: AttrValue::Queue { eq: LONGEST },
    };
    let line =
        b"8 0 kvmeq 0xffffffffffffffff 0xffffffff 4294967295 0xffffffffffffffff 4294967295 4294967295 -> code -16\n";
    assert!(rt; prints(8, 0, longest, Outcome::Code { code: -16 }, line));
}

#[test]
fn queues_that_are_got(rt: HostRuntime) {
    let get = Op::AttrGet {
        group: 4,
        attr: 0x8,
    };
    let line = b"1 0 kvmget 4 0x8 -> queue 0x1 16 0x20000 0 11\n";
    assert!(rt; prints(1, 0, get, Outcome::Queue { eq: FIELDS }, line));
    let none = EqFields {
        flags: 0,
        qshift: 0,
        qaddr: 0,
        qtoggle: 0,
        qindex: 0,
    };
    let line = b"2 0 kvmget 4 0x8 -> queue 0x0 0 0x0 0 0\n";
    assert!(rt; prints(2, 0, get, Outcome::Queue { eq: none }, line));
    let line =
        b"3 0 kvmget 4 0x8 -> queue 0xffffffff 4294967295 0xffffffffffffffff 4294967295 4294967295\n";
    assert!(rt; prints(3, 0, get, Outcome::Queue { eq: LONGEST }, line));
    let other = Op::AttrGet {
        group: u32::MAX,
        attr: u64::MAX,
    };
    let line = b"4 0 kvmget 4294967295 0xffffffffffffffff -> code -6\n";
    assert!(rt; prints(4, 0, other, Outcome::Code { code: -6 }, line));
}

#[test]
fn states_of_processors(rt: HostRuntime) {
    let get = Op::VpGet { v: 63 };
    let line = b"5 15 vpget 63 -> context 0xff 0x6\n";
    let context = Outcome::Context { cppr: 255, ipb: 6 };
    assert!(rt; prints(5, 15, get, context, line));
    let line = b"6 15 vpget 63 -> code -16\n";
    assert!(rt; prints(6, 15, get, Outcome::Code { code: -16 }, line));
    let set = Op::VpSet {
        v: 1,
        cppr: 0,
        ipb: 0x80,
    };
    let line = b"7 3 vpset 1 0x0 0x80 -> code -22\n";
    assert!(rt; prints(7, 3, set, Outcome::Code { code: -22 }, line));
}
