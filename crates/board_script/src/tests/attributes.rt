//! Lines of the KVM device, and what they go on with.

use crate::tests::{assert_places, assert_read, next_of, next_while, work_of};
use crate::work::Work;
use std::process::Abort;
use xv_model::operations::{AttrValue, Op, PqOp};
use xv_model::outcomes::Outcome;

/// What the device answers a call that it accepts.
const ACCEPTED: Outcome = Outcome::Code { code: 0 };

/// What it answers one that it refuses.
const REFUSED: Outcome = Outcome::Code { code: -22 };

/// What a set or an initialisation answers.
const SET: Outcome = Outcome::Pq {
    old: 0,
    new: 1,
    forward: 0,
};

#[test]
fn reads_and_refuses_lines_of_the_device(rt: HostRuntime) {
    let good = [
        b"0 kvmset 1 0x3 0X1".as_slice(),
        b"0 kvmset 0xffffffff 0xffffffffffffffff 18446744073709551615",
        b"0 kvmeq 0xffffffffffffffff 0 0 18446744073709551615 0xffffffff 4294967295",
        b"15 kvmget 0 0",
        b"0 kvmget 4294967295 18446744073709551615",
        b"0 vpget 63",
        b"0 vpset 63 255 0xff",
        b" 0  migrate ",
    ];
    let bad = [
        (b"0 kvmset 4294967296 0 0".as_slice(), 10),
        (b"0 kvmset 1 18446744073709551616 0", 12),
        (b"0 kvmset 1 0 0x", 14),
        (b"0 kvmset 1 0", 13),
        (b"0 kvmset 1 0 0 0", 16),
        (b"0 kvmeq 0 4294967296 0 0 0 0", 11),
        (b"0 kvmeq 0 0 4294967296 0 0 0", 13),
        (b"0 kvmeq 0 0 0 18446744073709551616 0 0", 15),
        (b"0 kvmeq 0 0 0 0 4294967296 0", 17),
        (b"0 kvmeq 0 0 0 0 0 4294967296", 19),
        (b"0 kvmeq 0 0 0 0 0", 18),
        (b"0 kvmget 4294967296 0", 10),
        (b"0 vpget 64", 9),
        (b"0 vpget", 8),
        (b"0 vpset 64 0 0", 9),
        (b"0 vpset 0 256 0", 11),
        (b"0 vpset 0 0 256", 13),
        (b"0 migrate 0", 11),
        (b"16 migrate", 1),
    ];
    assert_read(&rt, &good, true);
    assert_places(&rt, &bad);
}

/// The group and the attribute that a line sets first, and the number that it sets it to.
fn number_of(rt: &impl Abort, work: &mut Work) -> (u32, u64, u64) {
    match next_of(work, None) {
        Some(
            Op::AttrSet {
                group,
                attr,
                value: AttrValue::Number { value },
            },
        ) => (group, attr, value),
        _ => panic!(rt; "no number is set"),
    }
}

#[test]
fn sets_an_attribute_first(rt: HostRuntime) {
    let (group, attr, value) = number_of(&rt, &mut work_of(&rt, b"0 kvmset 3 0x5 0x100000000"));
    assert_eq!(rt; group, 3);
    assert_eq!(rt; attr, 5);
    assert_eq!(rt; value, 1 << 32);
    let mut queue = work_of(&rt, b"0 kvmeq 0x8 1 12 0x1000 1 7");
    match next_of(&mut queue, None) {
        Some(
            Op::AttrSet {
                group,
                attr,
                value: AttrValue::Queue { eq },
            },
        ) => {
            assert_eq!(rt; group, 4);
            assert_eq!(rt; attr, 8);
            assert_eq!(rt; eq.flags, 1);
            assert_eq!(rt; eq.qshift, 12);
            assert_eq!(rt; eq.qaddr, 0x1000);
            assert_eq!(rt; eq.qtoggle, 1);
            assert_eq!(rt; eq.qindex, 7);
        }
        _ => assert!(rt; false),
    }
    assert!(rt; next_of(&mut queue, Some(&ACCEPTED)).is_none());
}

#[test]
fn asks_once(rt: HostRuntime) {
    let mut get = work_of(&rt, b"0 kvmget 4 9");
    assert!(rt;
        matches!(
            next_of(&mut get, None),
            Some(Op::AttrGet { group: 4, attr: 9 })
        )
    );
    assert!(rt; next_of(&mut get, Some(&ACCEPTED)).is_none());
    let mut state = work_of(&rt, b"0 vpget 3");
    assert!(rt; matches!(next_of(&mut state, None), Some(Op::VpGet { v: 3 })));
    assert!(rt; next_of(&mut state, Some(&ACCEPTED)).is_none());
    let mut set = work_of(&rt, b"0 vpset 3 0xff 0x81");
    assert!(rt;
        matches!(
            next_of(&mut set, None),
            Some(Op::VpSet {
                v: 3,
                cppr: 255,
                ipb: 0x81,
            })
        )
    );
    assert!(rt; next_of(&mut set, Some(&ACCEPTED)).is_none());
}

#[test]
fn ends_after_most_settings_and_after_each_that_is_refused(rt: HostRuntime) {
    let most = [
        b"0 kvmset 1 3 1".as_slice(),
        b"0 kvmset 1 4 0",
        b"0 kvmset 3 7 0",
        b"0 kvmset 4 0 0",
        b"0 kvmset 9 0 0",
        b"0 kvmset 2 8192 0",
        b"0 kvmset 2 0x100000007 0",
        b"0 kvmset 5 8192 0",
        b"0 kvmset 5 0x100000007 0",
    ];
    for line in most {
        let mut work = work_of(&rt, line);
        assert!(rt; next_of(&mut work, None).is_some());
        assert!(rt; next_of(&mut work, Some(&ACCEPTED)).is_none());
    }
    let refused = [
        b"0 kvmset 1 1 0".as_slice(),
        b"0 kvmset 1 2 0",
        b"0 kvmset 2 7 0",
        b"0 kvmset 5 7 0",
    ];
    for line in refused {
        let mut work = work_of(&rt, line);
        assert!(rt; next_of(&mut work, None).is_some());
        assert!(rt; next_while(&mut work, Some(&REFUSED), 7).is_none());
    }
}

/// Asserts that a line goes on with the initialisation of a source, and ends after it.
fn assert_init(rt: &impl Abort, line: &[u8], source: u32, up: bool) {
    let mut work = work_of(rt, line);
    assert!(rt; next_of(&mut work, None).is_some());
    match next_of(&mut work, Some(&ACCEPTED)) {
        Some(
            Op::Pq {
                s,
                op: PqOp::Init { asserted },
            },
        ) => {
            assert_eq!(rt; s, source);
            assert_eq!(rt; asserted, up);
        }
        _ => assert!(rt; false),
    }
    assert!(rt; next_of(&mut work, Some(&SET)).is_none());
}

#[test]
fn initialises_a_source(rt: HostRuntime) {
    assert_init(&rt, b"0 kvmset 2 7 0", 7, false);
    assert_init(&rt, b"0 kvmset 2 7 2", 7, false);
    assert_init(&rt, b"0 kvmset 2 5 1", 5, false);
    assert_init(&rt, b"0 kvmset 2 5 3", 5, true);
    assert_init(&rt, b"0 kvmset 2 8191 0xfffffffffffffffc", 8191, false);
}

#[test]
fn sets_each_initialised_source_after_a_reset(rt: HostRuntime) {
    let mut reset = work_of(&rt, b"0 kvmset 1 1 5");
    assert!(rt; next_of(&mut reset, None).is_some());
    let mut last = ACCEPTED;
    for source in [2, 7, 8191] {
        match next_of(&mut reset, Some(&last)) {
            Some(
                Op::Pq {
                    s,
                    op: PqOp::Set { pq },
                },
            ) => {
                assert_eq!(rt; s, source);
                assert_eq!(rt; pq, 1);
            }
            _ => assert!(rt; false),
        }
        last = SET;
    }
    assert!(rt; next_of(&mut reset, Some(&last)).is_none());
}

/// Asserts that a line goes on as one that brings to rest does, once it was accepted: with a take, the route of a notice
/// of source 7, and a take.
fn assert_settles(rt: &impl Abort, work: &mut Work) {
    assert!(rt; next_of(work, None).is_some());
    assert!(rt;
        matches!(
            next_while(work, Some(&ACCEPTED), 7),
            Some(Op::Take { i: 0 })
        )
    );
    assert!(rt;
        matches!(
            next_while(work, Some(&Outcome::NoMessage), 7),
            Some(Op::Route { s: 7 })
        )
    );
    assert!(rt;
        matches!(
            next_while(work, Some(&Outcome::BusFull), 7),
            Some(Op::Take { i: 0 })
        )
    );
}

#[test]
fn drains_and_brings_to_rest(rt: HostRuntime) {
    let none = Outcome::NoMessage;
    let mut drain = work_of(&rt, b"0 kvmset 1 2 0");
    assert_settles(&rt, &mut drain);
    assert!(rt; next_of(&mut drain, Some(&none)).is_none());
    let mut sync = work_of(&rt, b"0 kvmset 5 7 0");
    assert_settles(&rt, &mut sync);
    assert!(rt; matches!(next_of(&mut sync, Some(&none)), Some(Op::Quiet { s: 7 })));
    assert!(rt; next_of(&mut sync, Some(&Outcome::Quiet)).is_none());
}
