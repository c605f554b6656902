//! Messages that are presented, and what acknowledgements find.

ghost use Rattle.xv_model.specs.board.Boards.{IsBoard};

use crate::Machine;
use crate::tests::{
    acknowledge, called, changed, end, eoi, inject, is_done, is_stored, loaded, processor, pull,
    push, reached, registers, restore, ring, routed, save, set, set_cppr, small_board, step, taken,
    target, trigger,
};
use std::process::Abort;
use std::test::Fail;
use xv_model::board::{Board, Spans};
use xv_model::operations::{EndConfig, EndFlags, Op};
use xv_model::outcomes::{Outcome, Presented};

/// The small board, but each source is a message source with a valid EAS.
fn message_board() -> Board
    ensures { IsBoard result }
{
    Board {
        level: Spans::NONE,
        unclaimed: Spans::NONE,
        ..small_board()
    }
}

/// Has a source notify a priority of processor 0, by an END without a queue.
fn notify(rt: &impl Abort, machine: &mut Machine, s: u32, priority: u8) {
    let config = end(0, priority, 0, 0);
    let e = priority as u32;
    assert!(rt; is_done(rt, machine, &Op::EndSet { e, config }));
    let call = target(s as u64, 0, priority as u64, 0x10);
    assert_eq!(rt; called(rt, machine, &call), Some(0));
    assert!(rt; changed(&step(rt, machine, &set(s)), 1, 0, 0));
}

/// The first event of a source: its message is in flight then, from this END.
fn fire(rt: &impl Abort, machine: &mut Machine, s: u32, e: u32) {
    assert!(rt; changed(&step(rt, machine, &trigger(s)), 0, 2, 1));
    assert!(rt; reached(routed(rt, machine, s), 1, e, false));
}

/// Whether a message is taken that presents a priority to processor 0, which is found on its thread.
fn is_found(rt: &impl Abort, machine: &mut Machine, i: u32, priority: u8) -> bool {
    match taken(rt, machine, i) {
        Some((0, p, Presented::Found)) => p == priority,
        _ => false,
    }
}

/// Whether a message is taken that presents a priority to processor 0, which is off its thread: it goes into
/// the backlog.
fn is_backlogged(rt: &impl Abort, machine: &mut Machine, i: u32, priority: u8) -> bool {
    match taken(rt, machine, i) {
        Some((0, p, Presented::Backlogged)) => p == priority,
        _ => false,
    }
}

#[test]
fn an_event_on_a_thread(rt: HostRuntime) -> Result<(), Fail> {
    let board = small_board();
    let mut machine = Machine::build(rt.alloc(), &board)?;
    let m = &mut machine;
    notify(&rt, m, 0, 3);
    assert!(rt; is_done(&rt, m, &restore(0, 0)));
    assert!(rt; is_done(&rt, m, &push(0, 0)));
    assert!(rt; is_stored(&rt, m, &set_cppr(0, 0xff)));
    fire(&rt, m, 0, 3);
    assert_eq!(rt; (m.count(), m.notices(), m.flight()), (8, 0, 1));
    assert!(rt; is_found(&rt, m, 0, 3));
    let called = ring(&rt, m, 0);
    assert_eq!(rt;
        (called.nsr, called.cppr, called.ipb, called.pipr),
        (0x80, 0xff, 0x10, 3)
    );
    assert_eq!(rt; loaded(&rt, m, &registers(0)), Some(0x80ff_10ff_ff00_ff03));
    assert_eq!(rt; loaded(&rt, m, &acknowledge(0)), Some(0x8003));
    let accepted = ring(&rt, m, 0);
    assert_eq!(rt;
        (accepted.nsr, accepted.cppr, accepted.ipb, accepted.pipr),
        (0, 3, 0, 0xff)
    );
    assert_eq!(rt; accepted.cam, 0x8000_0400);
    assert_eq!(rt; loaded(&rt, m, &acknowledge(0)), Some(3));
    assert_eq!(rt; (m.count(), m.notices(), m.flight()), (12, 0, 0));
    Ok(())
}

#[test]
fn an_event_in_each_of_four_windows(rt: HostRuntime) -> Result<(), Fail> {
    let board = message_board();
    let mut machine = Machine::build(rt.alloc(), &board)?;
    let m = &mut machine;
    notify(&rt, m, 0, 0);
    notify(&rt, m, 1, 1);
    step(&rt, m, &restore(0, 0));
    step(&rt, m, &push(0, 0));
    assert_eq!(rt; loaded(&rt, m, &pull(0)), Some(0x8000_0400));
    fire(&rt, m, 0, 0);
    assert!(rt; is_backlogged(&rt, m, 0, 0));
    assert_eq!(rt;
        (processor(&rt, m, 0).backlog, ring(&rt, m, 0).ipb),
        (0x80, 0)
    );
    assert!(rt; is_done(&rt, m, &save(0)));
    fire(&rt, m, 1, 1);
    assert!(rt; is_backlogged(&rt, m, 0, 1));
    assert_eq!(rt;
        (processor(&rt, m, 0).backlog, processor(&rt, m, 0).ipb),
        (0xc0, 0)
    );
    notify(&rt, m, 2, 2);
    assert!(rt; is_done(&rt, m, &restore(0, 1)));
    fire(&rt, m, 2, 2);
    assert!(rt; is_backlogged(&rt, m, 0, 2));
    assert_eq!(rt;
        (processor(&rt, m, 0).backlog, ring(&rt, m, 1).ipb),
        (0xe0, 0)
    );
    notify(&rt, m, 3, 3);
    assert!(rt; is_done(&rt, m, &push(1, 0)));
    assert_eq!(rt;
        (processor(&rt, m, 0).backlog, ring(&rt, m, 1).ipb),
        (0, 0xe0)
    );
    fire(&rt, m, 3, 3);
    assert!(rt; is_found(&rt, m, 0, 3));
    assert_eq!(rt; loaded(&rt, m, &registers(1)), Some(0xf0ff_ff00_ff00));
    assert_eq!(rt; ring(&rt, m, 0).ipb, 0);
    Ok(())
}

#[test]
fn messages_by_their_place(rt: HostRuntime) -> Result<(), Fail> {
    let board = message_board();
    let mut machine = Machine::build(rt.alloc(), &board)?;
    let m = &mut machine;
    step(&rt, m, &restore(0, 0));
    step(&rt, m, &push(0, 0));
    for s in 0..3 {
        notify(&rt, m, s, s as u8 + 1);
        fire(&rt, m, s, s + 1);
    }
    assert_eq!(rt; m.flight(), 3);
    assert!(rt; matches!(step(&rt, m, &Op::Take { i: 3 }), Outcome::NoMessage));
    assert!(rt; is_found(&rt, m, 1, 2));
    // the third message is the second now
    assert!(rt; is_found(&rt, m, 1, 3));
    assert!(rt; matches!(step(&rt, m, &Op::Take { i: 1 }), Outcome::NoMessage));
    assert_eq!(rt; m.flight(), 1);
    assert!(rt; is_found(&rt, m, 0, 1));
    assert!(rt; matches!(step(&rt, m, &Op::Take { i: 0 }), Outcome::NoMessage));
    assert_eq!(rt; (m.count(), m.notices(), m.flight()), (23, 0, 0));
    for priority in 1..4 {
        assert!(rt; is_stored(&rt, m, &set_cppr(0, 0xff)));
        assert_eq!(rt; loaded(&rt, m, &acknowledge(0)), Some(0x8000 + priority));
    }
    assert_eq!(rt; ring(&rt, m, 0).pipr, 0xff);
    Ok(())
}

#[test]
fn presentations_that_reach_nobody(rt: HostRuntime) -> Result<(), Fail> {
    let board = small_board();
    let mut machine = Machine::build(rt.alloc(), &board)?;
    let m = &mut machine;
    notify(&rt, m, 0, 3);
    // without b a presentation to a processor off its thread is lost
    let config = EndConfig {
        flags: EndFlags::VALID | EndFlags::NOTIFY_ALWAYS,
        ..end(0, 3, 0, 0)
    };
    step(&rt, m, &Op::EndSet { e: 3, config });
    fire(&rt, m, 0, 3);
    assert!(rt; matches!(taken(&rt, m, 0), Some((0, 3, Presented::Lost))));
    assert_eq!(rt; processor(&rt, m, 0).backlog, 0);
    // a message has the target that its END had when it was made
    let config = end(1, 3, 0, 0);
    step(&rt, m, &Op::EndSet { e: 3, config });
    assert!(rt; changed(&step(&rt, m, &eoi(0)), 2, 0, 0));
    assert!(rt; changed(&step(&rt, m, &trigger(0)), 0, 2, 2));
    assert!(rt; reached(routed(&rt, m, 0), 2, 3, false));
    step(
        &rt,
        m,
        &Op::EndSet {
            e: 3,
            config: end(0, 4, 0, 0),
        },
    );
    assert!(rt; matches!(taken(&rt, m, 0), Some((1, 3, Presented::NoProcessor))));
    assert_eq!(rt; (m.count(), m.notices(), m.flight()), (13, 0, 0));
    Ok(())
}

#[test]
fn the_most_favoured_priority_first(rt: HostRuntime) -> Result<(), Fail> {
    let board = small_board();
    let mut machine = Machine::build(rt.alloc(), &board)?;
    let m = &mut machine;
    step(&rt, m, &restore(0, 0));
    step(&rt, m, &push(0, 0));
    step(&rt, m, &set_cppr(0, 4));
    for priority in [6, 2, 5] {
        assert!(rt; is_stored(&rt, m, &inject(0, priority)));
    }
    assert_eq!(rt; loaded(&rt, m, &acknowledge(0)), Some(0x8002));
    assert_eq!(rt; loaded(&rt, m, &acknowledge(0)), Some(2));
    // what is no priority opens CPPR, and makes nothing pending
    step(&rt, m, &set_cppr(0, 8));
    step(&rt, m, &inject(0, 8));
    assert_eq!(rt; ring(&rt, m, 0).cppr, 0xff);
    assert_eq!(rt; loaded(&rt, m, &acknowledge(0)), Some(0x8005));
    assert_eq!(rt; ring(&rt, m, 0).ipb, 2);
    Ok(())
}
