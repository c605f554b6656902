//! Presentations that are taken.

use crate::tests::{Bench, small_board};
use std::process::Abort;
use xv_model::messages::Message;
use xv_model::outcomes::Presented;

/// Takes a presentation that reached its processor: the processor and the priority.
fn taken(rt: &impl Abort, bench: &mut Bench, i: u32) -> Option<(u32, u8)> {
    let Some(Message::Present { vp, priority, .. }) = bench.tables.message(i) else {
        return None;
    };
    assert!(rt; !bench.end_present(rt, i, Presented::Found));
    Some((vp, priority))
}

#[test]
fn where_messages_are_taken(rt: HostRuntime) {
    let bench = &mut Bench::build(&rt, rt.alloc(), &small_board());
    assert!(rt; taken(&rt, bench, 0).is_none());
    let sent = [(1, 7, 5), (2, 6, 5), (3, 5, 13), (4, 4, 5), (5, 0, 15)];
    for (number, priority, flags) in sent {
        bench.send(&rt, number, priority, flags);
    }
    assert_eq!(rt; bench.tables.flight(), 5);
    assert!(rt; taken(&rt, bench, 5).is_none());
    assert!(rt; taken(&rt, bench, u32::MAX).is_none());
    assert_eq!(rt; bench.tables.flight(), 5);
    assert_eq!(rt; taken(&rt, bench, 0), Some((1, 7)));
    assert_eq!(rt; taken(&rt, bench, 1), Some((1, 5)));
    assert_eq!(rt; taken(&rt, bench, 2), Some((0, 0)));
    assert!(rt; taken(&rt, bench, 2).is_none());
    assert_eq!(rt; bench.tables.flight(), 2);
    // What is sent now comes behind those that are left.
    bench.send(&rt, 6, 3, 5);
    assert_eq!(rt; taken(&rt, bench, 0), Some((0, 6)));
    assert_eq!(rt; taken(&rt, bench, 1), Some((1, 3)));
    assert_eq!(rt; taken(&rt, bench, 0), Some((0, 4)));
    assert!(rt; taken(&rt, bench, 0).is_none());
}

#[test]
fn what_escalates(rt: HostRuntime) {
    let bench = &mut Bench::build(&rt, rt.alloc(), &small_board());
    let cases = [
        (1, 5, Presented::Lost, false),
        (2, 13, Presented::Backlogged, false),
        (3, 21, Presented::Found, false),
        (4, 21, Presented::NoProcessor, false),
        (5, 21, Presented::Lost, true),
        (6, 29, Presented::Backlogged, true),
    ];
    for (number, flags, presented, escalates) in cases {
        bench.send(&rt, number, 2, flags);
        let left = bench.tables.flight();
        assert!(rt; left >= 1);
        assert_eq!(rt;
            bench.end_present(&rt, left - 1, presented),
            escalates,
            "at {flags}"
        );
        assert_eq!(rt; bench.tables.flight() == left, escalates, "at {flags}");
    }
    assert_eq!(rt; bench.tables.flight(), 2);
}
