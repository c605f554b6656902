//! The line of a migration.

use crate::tests::{next_of, next_while, work_of};
use crate::work::Work;
use std::process::Abort;
use xv_model::operations::{Op, PqOp};
use xv_model::outcomes::Outcome;

/// What a set answers.
const SET: Outcome = Outcome::Pq {
    old: 0,
    new: 1,
    forward: 0,
};

/// Asserts that an operation sets the pair of a source.
fn assert_set(rt: &impl Abort, op: Option<Op>, source: u32, pair: u8) {
    match op {
        Some(
            Op::Pq {
                s,
                op: PqOp::Set { pq },
            },
        ) => {
            assert_eq!(rt; s, source);
            assert_eq!(rt; pq, pair);
        }
        _ => assert!(rt; false),
    }
}

/// A migration that has masked its sources and then taken a message, or tried to.
fn masked(rt: &impl Abort) -> Work {
    let mut work = work_of(rt, b"0 migrate");
    assert_set(rt, next_while(&mut work, None, 7), 2, 1);
    assert_set(rt, next_while(&mut work, Some(&SET), 7), 7, 1);
    assert_set(rt, next_while(&mut work, Some(&SET), 7), 8191, 1);
    assert!(rt;
        matches!(
            next_while(&mut work, Some(&SET), 7),
            Some(Op::Take { i: 0 })
        )
    );
    work
}

#[test]
fn masks_then_drains_then_restores(rt: HostRuntime) {
    let none = Outcome::NoMessage;
    let found = Outcome::Escalated { e: 0, run: None };
    let mut work = masked(&rt);
    assert!(rt;
        matches!(
            next_while(&mut work, Some(&found), 7),
            Some(Op::Take { i: 0 })
        )
    );
    assert!(rt;
        matches!(
            next_while(&mut work, Some(&none), 7),
            Some(Op::Route { s: 7 })
        )
    );
    assert!(rt;
        matches!(
            next_while(&mut work, Some(&Outcome::BusFull), 7),
            Some(Op::Take { i: 0 })
        )
    );
    assert!(rt;
        matches!(
            next_while(&mut work, Some(&none), 8190),
            Some(Op::Route { s: 8190 })
        )
    );
    assert!(rt;
        matches!(
            next_of(&mut work, Some(&Outcome::BusFull)),
            Some(Op::Take { i: 0 })
        )
    );
    assert_set(&rt, next_of(&mut work, Some(&none)), 2, 2);
    assert_set(&rt, next_of(&mut work, Some(&SET)), 7, 3);
    assert_set(&rt, next_of(&mut work, Some(&SET)), 8191, 2);
    assert!(rt; next_of(&mut work, Some(&SET)).is_none());
}

#[test]
fn drains_from_a_place_that_moves(rt: HostRuntime) {
    let none = Outcome::NoMessage;
    let mut work = masked(&rt);
    for source in [5, 5, 9] {
        match next_while(&mut work, Some(&none), source) {
            Some(Op::Route { s }) => assert_eq!(rt; s, source),
            _ => assert!(rt; false),
        }
        assert!(rt;
            matches!(
                next_while(&mut work, Some(&Outcome::BusFull), source),
                Some(Op::Take { i: 0 })
            )
        );
    }
    assert_set(&rt, next_while(&mut work, Some(&none), 8), 2, 2);
}
