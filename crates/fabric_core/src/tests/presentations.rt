//! Messages that are taken: what becomes of each, and where it is found.

use crate::tests::operations::{pull, push, restore, save, set_cppr};
use crate::tests::{Bench, small_board};
use xv_model::operations::Op;
use xv_model::outcomes::{Outcome, Presented};

#[test]
fn presentations_in_each_window(rt: HostRuntime) {
    let b = &mut Bench::build(&rt, rt.alloc(), &small_board());
    // Saved.
    assert!(rt; matches!(b.present(&rt, 0, 0, true), Presented::Backlogged));
    assert!(rt; matches!(b.present(&rt, 0, 1, false), Presented::Lost));
    assert_eq!(rt; b.kept(&rt, 0), (0, 0, 0x80));
    // Restored: what was backlogged waits for the push.
    assert!(rt; b.fine(&rt, restore(0, 1)));
    assert!(rt; matches!(b.present(&rt, 0, 2, true), Presented::Backlogged));
    assert!(rt; matches!(b.present(&rt, 0, 1, false), Presented::Lost));
    assert_eq!(rt; b.kept(&rt, 0), (0, 0, 0xa0));
    assert_eq!(rt; b.registers(&rt, 1), (0, 0, 0, 0xff));
    // On the thread, with b and without.
    assert!(rt; b.fine(&rt, push(1, 0)));
    assert_eq!(rt; b.kept(&rt, 0), (0, 0, 0));
    assert_eq!(rt; b.registers(&rt, 1), (0, 0, 0xa0, 0));
    assert!(rt; matches!(b.present(&rt, 0, 3, true), Presented::Found));
    assert!(rt; matches!(b.present(&rt, 0, 4, false), Presented::Found));
    assert_eq!(rt; b.kept(&rt, 0), (0, 0, 0));
    assert_eq!(rt; b.registers(&rt, 1), (0, 0, 0xb8, 0));
    assert_eq!(rt; b.registers(&rt, 0), (0, 0, 0, 0xff));
    // Pulled: the ring stays as it was.
    assert_eq!(rt; b.value(&rt, pull(1)), Some(0x8000_0400));
    assert!(rt; matches!(b.present(&rt, 0, 5, true), Presented::Backlogged));
    assert!(rt; matches!(b.present(&rt, 0, 1, false), Presented::Lost));
    assert_eq!(rt; b.kept(&rt, 0), (0, 0, 4));
    assert_eq!(rt; b.registers(&rt, 1), (0, 0, 0xb8, 0));
    // Saved, and pushed elsewhere: what was pending comes along, and what came meanwhile.
    assert!(rt; b.fine(&rt, save(0)));
    assert_eq!(rt; b.kept(&rt, 0), (0, 0xb8, 4));
    assert_eq!(rt; b.registers(&rt, 1), (0, 0, 0, 0xff));
    assert!(rt; b.fine(&rt, restore(0, 0)));
    assert_eq!(rt; b.registers(&rt, 0), (0, 0, 0xb8, 0));
    assert!(rt; b.fine(&rt, push(0, 0)));
    assert_eq!(rt; b.registers(&rt, 0), (0, 0, 0xbc, 0));
}

#[test]
fn presentations_before_a_processor_is_connected(rt: HostRuntime) {
    let b = &mut Bench::build(&rt, rt.alloc(), &small_board());
    assert!(rt; matches!(b.present(&rt, 2, 2, true), Presented::NoProcessor));
    assert!(rt; matches!(b.present(&rt, 2, 2, false), Presented::NoProcessor));
    assert_eq!(rt; b.kept(&rt, 2), (0, 0, 0));
    b.send(&rt, 2, 5, true);
    assert_eq!(rt; b.connect(&rt, 2), 0);
    assert!(rt; matches!(b.take(&rt, 0, 2, 5), Presented::Backlogged));
    assert_eq!(rt; b.kept(&rt, 2), (0, 0, 4));
}

#[test]
fn presentations_to_two_threads(rt: HostRuntime) {
    let b = &mut Bench::build(&rt, rt.alloc(), &small_board());
    for (v, t) in [(0, 1), (1, 0)] {
        assert!(rt; b.fine(&rt, restore(v, t)));
        assert!(rt; b.fine(&rt, push(t, v)));
        assert!(rt; b.stored(&rt, set_cppr(t, 5)));
    }
    assert!(rt; matches!(b.present(&rt, 1, 7, true), Presented::Found));
    assert_eq!(rt; b.registers(&rt, 0), (0, 5, 1, 7));
    assert!(rt; matches!(b.present(&rt, 1, 4, false), Presented::Found));
    assert_eq!(rt; b.registers(&rt, 0), (0x80, 5, 9, 4));
    assert_eq!(rt; b.registers(&rt, 1), (0, 5, 0, 0xff));
}

#[test]
fn message_out_of_the_middle(rt: HostRuntime) {
    let b = &mut Bench::build(&rt, rt.alloc(), &small_board());
    assert!(rt; matches!(b.step(&rt, Op::Take { i: 0 }), Outcome::NoMessage));
    b.send(&rt, 0, 1, true);
    b.send(&rt, 1, 2, true);
    // Each message keeps what its END was told when it was sent.
    b.send(&rt, 0, 3, false);
    assert_eq!(rt; b.flight(), 3);
    assert!(rt; matches!(b.step(&rt, Op::Take { i: 3 }), Outcome::NoMessage));
    assert!(rt; matches!(b.step(&rt, Op::Take { i: u32::MAX }), Outcome::NoMessage));
    assert!(rt; matches!(b.take(&rt, 1, 1, 2), Presented::Backlogged));
    assert_eq!(rt; b.flight(), 2);
    assert!(rt; matches!(b.take(&rt, 1, 0, 3), Presented::Lost));
    b.send(&rt, 1, 4, true);
    assert!(rt; matches!(b.take(&rt, 0, 0, 1), Presented::Backlogged));
    assert!(rt; matches!(b.take(&rt, 0, 1, 4), Presented::Backlogged));
    assert!(rt; matches!(b.step(&rt, Op::Take { i: 0 }), Outcome::NoMessage));
    assert_eq!(rt; b.flight(), 0);
    assert_eq!(rt;
        (b.kept(&rt, 0), b.kept(&rt, 1)),
        ((0, 0, 0x40), (0, 0, 0x28))
    );
    assert_eq!(rt; b.routes(&rt, 0), 4);
}
