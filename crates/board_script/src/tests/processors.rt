//! Lines on processors, messages and rings.

use crate::steps::Then;
use crate::tests::{assert_places, assert_read, next_of, next_while, work_of};
use crate::work::Work;
use std::process::Abort;
use xv_model::operations::{Access, Op};
use xv_model::outcomes::{Outcome, Presented, Routed};

/// A route that found no valid EAS.
const ROUTED: Outcome = Outcome::Routed {
    k: 1,
    routed: Routed::NoSource,
};

#[test]
fn reads_lines_on_processors(rt: HostRuntime) {
    let good = [
        b"0 connect 0".as_slice(),
        b" 15  connect  0x3F ",
        b"0 restore 63 31",
        b"0 restore 0x0 000",
        b"0xf save 63",
        b"0 push 31 63",
        b"0 push 0x1f  0X3f",
        b"0 pull 31 ",
    ];
    assert_read(&rt, &good, true);
}

#[test]
fn reads_lines_on_messages_and_rings(rt: HostRuntime) {
    let good = [
        b"0 settle".as_slice(),
        b"  0xF  settle  ",
        b"0 take 0",
        b"0 take 0xffffffff",
        b"0 take 00004294967295",
        b"0 ack 31",
        b"0 cppr 31 255",
        b"0 cppr 0 0xFF",
        b"0 inject 31 0xff",
        b"0 inject 0 8",
        b"0 regs 0x1f",
    ];
    assert_read(&rt, &good, true);
}

#[test]
fn refuses_lines_on_processors(rt: HostRuntime) {
    let bad = [
        (b"0 connect 64".as_slice(), 11),
        (b"0 connect x", 11),
        (b"0 connect", 10),
        (b"0 connect 0 0", 13),
        (b"0 Connect 0", 3),
        (b"16 connect 0", 1),
        (b"0 restore 64 0", 11),
        (b"0 restore 0 32", 13),
        (b"0 restore 63 -", 14),
        (b"0 restore  ", 12),
        (b"0 restore 0", 12),
        (b"0 restore 0 0 0", 15),
        (b"0 save 64", 8),
        (b"0 save 18446744073709551616", 8),
        (b"0 save", 7),
        (b"0 save 0  1", 11),
    ];
    assert_places(&rt, &bad);
}

#[test]
fn refuses_pushes_and_pulls(rt: HostRuntime) {
    let bad = [
        (b"0 push 32 0".as_slice(), 8),
        (b"0 push 0 64", 10),
        (b"0 push 0 4294967296", 10),
        (b"0 push 0x 0", 8),
        (b"0 push", 7),
        (b"0 push 0", 9),
        (b"0 push 0 0 0", 12),
        (b"0 pull 32", 8),
        (b"0 pull", 7),
        (b"0 pull 0 0", 10),
    ];
    assert_places(&rt, &bad);
}

#[test]
fn refuses_lines_on_messages(rt: HostRuntime) {
    let bad = [
        (b"0 settle 0".as_slice(), 10),
        (b"0 settled", 3),
        (b"0 Settle", 3),
        (b"16 settle", 1),
        (b"0 take 4294967296", 8),
        (b"0 take 0x", 8),
        (b"0 take", 7),
        (b"0 take 0 0", 10),
    ];
    assert_places(&rt, &bad);
}

#[test]
fn refuses_lines_on_rings(rt: HostRuntime) {
    let bad = [
        (b"0 ack 32".as_slice(), 7),
        (b"0 ack", 6),
        (b"0 ack 0 0", 9),
        (b"0 cppr 32 0", 8),
        (b"0 cppr 0 256", 10),
        (b"0 cppr 0 0x100", 10),
        (b"0 cppr 0 -1", 10),
        (b"0 cppr", 7),
        (b"0 cppr 0", 9),
        (b"0 cppr 0 0 0", 12),
        (b"0 inject 32 0", 10),
        (b"0 inject 0 256", 12),
        (b"0 inject", 9),
        (b"0 inject 0 ", 12),
        (b"0 inject 0 0 0", 14),
        (b"0 regs 32", 8),
        (b"0 regs", 7),
        (b"0 regs 0 0", 10),
    ];
    assert_places(&rt, &bad);
}

#[test]
fn makes_moves_of_contexts(rt: HostRuntime) {
    let mut connect = work_of(&rt, b"0 connect 63");
    assert!(rt; matches!(next_of(&mut connect, None), Some(Op::Connect { v: 63 })));
    assert!(rt; next_of(&mut connect, Some(&Outcome::Code { code: 0 })).is_none());
    let mut restore = work_of(&rt, b"0 restore 17 5");
    assert!(rt;
        matches!(
            next_of(&mut restore, None),
            Some(Op::Restore { v: 17, t: 5 })
        )
    );
    assert!(rt; next_of(&mut restore, Some(&Outcome::Fine)).is_none());
    let mut save = work_of(&rt, b"0 save 9");
    assert!(rt; matches!(next_of(&mut save, None), Some(Op::Save { v: 9 })));
    assert!(rt; next_of(&mut save, Some(&Outcome::Fine)).is_none());
}

/// Asserts that a line makes one access of a thread to the TIMA: on a page at an offset, of so many bytes, a load
/// or a store of a value.
fn assert_access(
    rt: &impl Abort,
    line: &[u8],
    thread: u32,
    place: (u8, u16, u8),
    stored: Option<u64>,
) {
    let mut work = work_of(rt, line);
    match next_of(&mut work, None) {
        Some(
            Op::Tima {
                t,
                page,
                offset,
                size,
                access,
            },
        ) => {
            assert_eq!(rt; t, thread);
            assert_eq!(rt; page, place.0);
            assert_eq!(rt; offset, place.1);
            assert_eq!(rt; size, place.2);
            match access {
                Access::Load => assert!(rt; stored.is_none()),
                Access::Store { value } => assert_eq!(rt; Some(value), stored),
            }
        }
        _ => assert!(rt; false),
    }
    assert!(rt; next_of(&mut work, Some(&Outcome::BadAccess)).is_none());
}

#[test]
fn makes_accesses_to_the_tima(rt: HostRuntime) {
    assert_access(&rt, b"0 push 3 17", 3, (1, 0x18, 4), Some(0x80000411));
    assert_access(&rt, b"0 push 31 0", 31, (1, 0x18, 4), Some(0x80000400));
    assert_access(&rt, b"0 pull 3", 3, (1, 0x818, 4), None);
    assert_access(&rt, b"0 ack 4", 4, (2, 0x810, 2), None);
    assert_access(&rt, b"0 cppr 5 0xff", 5, (2, 0x11, 1), Some(0xff));
    assert_access(&rt, b"0 inject 6 7", 6, (2, 0x812, 1), Some(7));
    assert_access(&rt, b"0 regs 7", 7, (2, 0x10, 8), None);
}

#[test]
fn makes_takes(rt: HostRuntime) {
    let found = Outcome::Present {
        v: 0,
        p: 6,
        presented: Presented::Found,
        escalates: false,
    };
    let mut take = work_of(&rt, b"0 take 4294967295");
    assert!(rt; matches!(next_of(&mut take, None), Some(Op::Take { i: 4294967295 })));
    assert!(rt; next_of(&mut take, Some(&found)).is_none());
}

#[test]
fn takes_messages_until_there_is_none(rt: HostRuntime) {
    let mut settle = work_of(&rt, b"3 settle");
    assert!(rt; matches!(next_of(&mut settle, None), Some(Op::Take { i: 0 })));
    for presented in [Presented::Found, Presented::Backlogged, Presented::Lost] {
        for escalates in [false, true] {
            let found = Outcome::Present {
                v: 1,
                p: 6,
                presented,
                escalates,
            };
            assert!(rt; matches!(next_of(&mut settle, Some(&found)), Some(Op::Take { i: 0 })));
        }
    }
    let escalated = Outcome::Escalated { e: 7, run: None };
    assert!(rt;
        matches!(
            next_of(&mut settle, Some(&escalated)),
            Some(Op::Take { i: 0 })
        )
    );
    assert!(rt; next_of(&mut settle, Some(&Outcome::NoMessage)).is_none());
    let mut refused = work_of(&rt, b"3 settle");
    assert!(rt; next_of(&mut refused, None).is_some());
    assert!(rt; next_of(&mut refused, Some(&Outcome::BadAccess)).is_none());
}

#[test]
fn brings_a_source_to_rest(rt: HostRuntime) {
    let mut sync = work_of(&rt, b"3 sync 7");
    let found = Outcome::Escalated { e: 7, run: None };
    let none = Outcome::NoMessage;
    assert!(rt; matches!(next_while(&mut sync, None, 7), Some(Op::Take { i: 0 })));
    assert!(rt;
        matches!(
            next_while(&mut sync, Some(&found), 7),
            Some(Op::Take { i: 0 })
        )
    );
    assert!(rt;
        matches!(
            next_while(&mut sync, Some(&none), 7),
            Some(Op::Route { s: 7 })
        )
    );
    assert!(rt;
        matches!(
            next_while(&mut sync, Some(&ROUTED), 7),
            Some(Op::Take { i: 0 })
        )
    );
    assert!(rt;
        matches!(
            next_while(&mut sync, Some(&none), 6),
            Some(Op::Quiet { s: 7 })
        )
    );
    assert!(rt; next_while(&mut sync, Some(&Outcome::Quiet), 6).is_none());
    let busy = Outcome::Busy {
        notices: 1,
        messages: 0,
    };
    assert!(rt; next_while(&mut sync, Some(&busy), 7).is_none());
}

#[test]
fn drains_each_source(rt: HostRuntime) {
    let mut drain = work_of(&rt, b"3 drain");
    let none = Outcome::NoMessage;
    assert!(rt; matches!(next_while(&mut drain, None, 0), Some(Op::Take { i: 0 })));
    assert!(rt;
        matches!(
            next_while(&mut drain, Some(&none), 0),
            Some(Op::Route { s: 0 })
        )
    );
    assert!(rt;
        matches!(
            next_while(&mut drain, Some(&ROUTED), 0),
            Some(Op::Take { i: 0 })
        )
    );
    assert!(rt;
        matches!(
            next_while(&mut drain, Some(&none), 8191),
            Some(Op::Route { s: 8191 })
        )
    );
    assert!(rt; next_while(&mut drain, Some(&none), 8192).is_none());
}

/// Asserts the place of a line that drains the largest board.
fn assert_place(rt: &impl Abort, drain: &Work, place: u32) {
    match drain {
        Work::Simple { steps } => match steps.then {
            Then::Drain { from, sources } => {
                assert_eq!(rt; from, place);
                assert_eq!(rt; sources, 8192);
            }
            _ => assert!(rt; false),
        },
        Work::Migrate { .. } => assert!(rt; false),
    }
}

#[test]
fn drains_from_a_place_that_moves(rt: HostRuntime) {
    let mut drain = work_of(&rt, b"3 drain");
    let none = Outcome::NoMessage;
    assert!(rt; matches!(next_while(&mut drain, None, 5), Some(Op::Take { i: 0 })));
    assert_place(&rt, &drain, 0);
    for source in [5, 5, 9] {
        match next_while(&mut drain, Some(&none), source) {
            Some(Op::Route { s }) => assert_eq!(rt; s, source),
            _ => assert!(rt; false),
        }
        assert_place(&rt, &drain, source);
        assert!(rt;
            matches!(
                next_while(&mut drain, Some(&ROUTED), source),
                Some(Op::Take { i: 0 })
            )
        );
        assert_place(&rt, &drain, source);
    }
    assert!(rt; next_while(&mut drain, Some(&none), 8).is_none());
    assert_place(&rt, &drain, 9);
}

#[test]
fn reads_and_refuses_lines_that_settle(rt: HostRuntime) {
    let places = [
        (b"0 sync 8191".as_slice(), 0),
        (b"0 quiet 0x1fff", 0),
        (b" 0  drain ", 0),
        (b"0 sync 8192", 8),
        (b"0 quiet 8192", 9),
        (b"0 quiet", 8),
        (b"0 sync", 7),
        (b"0 sync 0 0", 10),
        (b"0 drain 0", 9),
        (b"0 Drain", 3),
    ];
    assert_places(&rt, &places);
}
