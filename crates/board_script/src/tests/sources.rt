//! Lines on the word of a source.

use crate::tests::{assert_places, assert_read, next_of, work_of};
use xv_model::operations::{Op, PqOp};
use xv_model::outcomes::Outcome;

#[test]
fn reads_and_refuses_lines_on_sources(rt: HostRuntime) {
    let good = [
        b"0 route 8191".as_slice(),
        b"15 fire 0",
        b" 0x1  finish  0x1fff ",
    ];
    let bad = [
        b"0 route 8192".as_slice(),
        b"0 route",
        b"0 route 0 0",
        b"0 fire 8192",
        b"0 fire",
        b"0 fire 0 0",
        b"16 fire 0",
        b"0 Fire 0",
        b"0 finish 0 00",
        b"0 finish -",
    ];
    assert_read(&rt, &good, true);
    assert_read(&rt, &bad, false);
}

#[test]
fn routes_what_a_line_forwards(rt: HostRuntime) {
    let forwarded = Outcome::Pq {
        old: 0,
        new: 2,
        forward: 1,
    };
    let coalesced = Outcome::Pq {
        old: 2,
        new: 3,
        forward: 0,
    };
    let mut fire = work_of(&rt, b"3 fire 7");
    let first = next_of(&mut fire, None);
    assert!(rt;
        matches!(
            first,
            Some(Op::Pq {
                s: 7,
                op: PqOp::Trigger
            })
        )
    );
    assert!(rt;
        matches!(
            next_of(&mut fire, Some(&forwarded)),
            Some(Op::Route { s: 7 })
        )
    );
    assert!(rt; next_of(&mut fire, Some(&Outcome::NoNotice)).is_none());
    let mut finish = work_of(&rt, b"3 finish 9");
    let first = next_of(&mut finish, None);
    assert!(rt;
        matches!(
            first,
            Some(Op::Pq {
                s: 9,
                op: PqOp::Eoi
            })
        )
    );
    assert!(rt;
        matches!(
            next_of(&mut finish, Some(&forwarded)),
            Some(Op::Route { s: 9 })
        )
    );
    for last in [coalesced, Outcome::Spent] {
        let mut quiet = work_of(&rt, b"3 fire 7");
        assert!(rt; next_of(&mut quiet, None).is_some());
        assert!(rt; next_of(&mut quiet, Some(&last)).is_none());
    }
    let mut trigger = work_of(&rt, b"3 trigger 7");
    assert!(rt; next_of(&mut trigger, None).is_some());
    assert!(rt; next_of(&mut trigger, Some(&forwarded)).is_none());
    let mut route = work_of(&rt, b"3 route 7");
    assert!(rt; matches!(next_of(&mut route, None), Some(Op::Route { s: 7 })));
    assert!(rt; next_of(&mut route, Some(&forwarded)).is_none());
}

#[test]
fn reads_and_refuses_lines_on_level_sources(rt: HostRuntime) {
    let good = [
        b"0 raise 4".as_slice(),
        b" 0xf  raise  0X0006 ",
        b"0 lower 5",
        b"0 assert 6",
        b"0 init 4 1",
        b"0 init 4 0x0",
        b"0 init 3 00",
        b"15 init 8191 0",
    ];
    let bad = [
        (b"0 raise 3".as_slice(), 3),
        (b"  1  lower 7", 6),
        (b"0 assert 0", 3),
        (b"0 init 8191 1", 3),
        (b"0 Raise 4", 3),
        (b"0 raise", 8),
        (b"0 lower ", 9),
        (b"0 assert", 9),
        (b"0 init 4", 9),
        (b"0 raise 8192", 9),
        (b"0 lower -", 9),
        (b"0 assert 0x2000", 10),
        (b"0 init 8192 0", 8),
        (b"0 init 4 2", 10),
        (b"0 init 4 -", 10),
        (b"0 raise 4 4", 11),
        (b"0 init 4 1 1", 12),
    ];
    assert_read(&rt, &good, true);
    assert_places(&rt, &bad);
}

#[test]
fn reads_all_words_before_it_asks_for_a_level_source(rt: HostRuntime) {
    let bad = [
        (b"0 raise 3 3".as_slice(), 11),
        (b"0 lower 3  3", 12),
        (b"0 assert 3 3 3", 12),
        (b"0 init 3", 9),
        (b"0 init 3 2", 10),
        (b"0 init 3 1  0", 13),
    ];
    assert_places(&rt, &bad);
}

#[test]
fn makes_operations_of_level_sources(rt: HostRuntime) {
    let raise = next_of(&mut work_of(&rt, b"0 raise 4"), None);
    assert!(rt;
        matches!(
            raise,
            Some(Op::Pq {
                s: 4,
                op: PqOp::Raise
            })
        )
    );
    let lower = next_of(&mut work_of(&rt, b"0 lower 5"), None);
    assert!(rt;
        matches!(
            lower,
            Some(Op::Pq {
                s: 5,
                op: PqOp::Lower
            })
        )
    );
    let words = [(b"0 init 6 1".as_slice(), true), (b"0 init 6 0x00", false)];
    for (line, up) in words {
        match next_of(&mut work_of(&rt, line), None) {
            Some(
                Op::Pq {
                    s: 6,
                    op: PqOp::Init { asserted },
                },
            ) => assert_eq!(rt; asserted, up),
            _ => assert!(rt; false),
        }
    }
}

#[test]
fn routes_what_an_assertion_forwards(rt: HostRuntime) {
    let forwarded = Outcome::Pq {
        old: 0,
        new: 2,
        forward: 1,
    };
    let mut line = work_of(&rt, b"3 assert 5");
    let first = next_of(&mut line, None);
    assert!(rt;
        matches!(
            first,
            Some(Op::Pq {
                s: 5,
                op: PqOp::Raise
            })
        )
    );
    assert!(rt;
        matches!(
            next_of(&mut line, Some(&forwarded)),
            Some(Op::Route { s: 5 })
        )
    );
    assert!(rt; next_of(&mut line, Some(&Outcome::NoNotice)).is_none());
    let masked = Outcome::Pq {
        old: 1,
        new: 1,
        forward: 0,
    };
    let mut quiet = work_of(&rt, b"3 assert 5");
    assert!(rt; next_of(&mut quiet, None).is_some());
    assert!(rt; next_of(&mut quiet, Some(&masked)).is_none());
    let mut raise = work_of(&rt, b"3 raise 5");
    assert!(rt; next_of(&mut raise, None).is_some());
    assert!(rt; next_of(&mut raise, Some(&forwarded)).is_none());
}
