//! Moves of contexts, in their turn and out of it.

use crate::tests::operations::{acknowledge, inject, pull, push, restore, save, set_cppr};
use crate::tests::{Bench, is_refused, small_board};
use xv_model::outcomes::{MoveRefused, Phase, Presented};

#[test]
fn a_context_and_where_it_is(rt: HostRuntime) {
    let b = &mut Bench::build(&rt, rt.alloc(), &small_board());
    assert!(rt; b.is_at(&rt, 0, Phase::Saved));
    assert!(rt; b.fine(&rt, restore(0, 1)));
    assert!(rt; b.is_at(&rt, 0, Phase::Restored { t: 1 }));
    assert_eq!(rt; b.cam(&rt, 1), 0);
    assert!(rt; b.fine(&rt, push(1, 0)));
    assert!(rt; b.is_at(&rt, 0, Phase::On { t: 1 }));
    assert_eq!(rt; b.cam(&rt, 1), 0x8000_0400);
    assert_eq!(rt; b.value(&rt, pull(1)), Some(0x8000_0400));
    assert!(rt; b.is_at(&rt, 0, Phase::Pulled { t: 1 }));
    assert_eq!(rt; b.cam(&rt, 1), 0x400);
    assert!(rt; b.fine(&rt, save(0)));
    assert!(rt; b.is_at(&rt, 0, Phase::Saved));
    assert_eq!(rt; b.cam(&rt, 1), 0);
    assert!(rt; b.is_at(&rt, 1, Phase::Saved));
    assert_eq!(rt; b.cam(&rt, 0), 0);
}

fn vp_busy(phase: Phase) -> MoveRefused {
    MoveRefused::VpBusy { phase }
}

fn ring_busy(vp: u32) -> MoveRefused {
    MoveRefused::RingBusy { vp }
}

fn not_pulled(phase: Phase) -> MoveRefused {
    MoveRefused::NotPulled { phase }
}

fn not_restored(phase: Phase) -> MoveRefused {
    MoveRefused::NotRestored { phase }
}

#[test]
fn refusals_of_restore_and_save(rt: HostRuntime) {
    let b = &mut Bench::build(&rt, rt.alloc(), &small_board());
    assert!(rt; is_refused(b.step(&rt, save(2)), MoveRefused::NotValid));
    assert!(rt; is_refused(b.step(&rt, save(0)), not_pulled(Phase::Saved)));
    assert!(rt; b.fine(&rt, restore(0, 1)));
    assert!(rt; is_refused(b.step(&rt, restore(2, 1)), MoveRefused::NotValid));
    for (move_on, phase) in [
        (None, Phase::Restored { t: 1 }),
        (Some(push(1, 0)), Phase::On { t: 1 }),
    ] {
        if let Some(op) = move_on {
            assert!(rt; b.fine(&rt, op));
        }
        assert!(rt; is_refused(b.step(&rt, restore(0, 1)), vp_busy(phase)));
        assert!(rt; is_refused(b.step(&rt, restore(0, 0)), vp_busy(phase)));
        assert!(rt; is_refused(b.step(&rt, restore(1, 1)), ring_busy(0)));
        assert!(rt; is_refused(b.step(&rt, save(0)), not_pulled(phase)));
    }
    assert_eq!(rt; b.value(&rt, pull(1)), Some(0x8000_0400));
    assert!(rt; is_refused(b.step(&rt, restore(0, 0)), vp_busy(Phase::Pulled { t: 1 })));
    assert!(rt; is_refused(b.step(&rt, restore(1, 1)), ring_busy(0)));
    assert!(rt; b.is_at(&rt, 0, Phase::Pulled { t: 1 }));
    assert!(rt; b.is_at(&rt, 1, Phase::Saved));
    assert!(rt; b.fine(&rt, save(0)));
    assert!(rt; is_refused(b.step(&rt, save(0)), not_pulled(Phase::Saved)));
    assert_eq!(rt; b.connect(&rt, 2), 0);
    assert!(rt; b.fine(&rt, restore(2, 1)));
}

#[test]
fn refusals_of_push_and_pull(rt: HostRuntime) {
    let b = &mut Bench::build(&rt, rt.alloc(), &small_board());
    assert!(rt; is_refused(b.step(&rt, push(0, 2)), MoveRefused::NotValid));
    assert!(rt; is_refused(b.step(&rt, push(0, 0)), not_restored(Phase::Saved)));
    assert!(rt; is_refused(b.step(&rt, pull(0)), MoveRefused::NoContext));
    assert!(rt; b.fine(&rt, restore(0, 0)));
    let restored = Phase::Restored { t: 0 };
    assert!(rt; is_refused(b.step(&rt, push(1, 0)), not_restored(restored)));
    assert!(rt; is_refused(b.step(&rt, pull(0)), MoveRefused::NoContext));
    assert!(rt; b.fine(&rt, push(0, 0)));
    let on = Phase::On { t: 0 };
    assert!(rt; is_refused(b.step(&rt, push(0, 0)), not_restored(on)));
    assert!(rt; is_refused(b.step(&rt, pull(1)), MoveRefused::NoContext));
    assert_eq!(rt; b.value(&rt, pull(0)), Some(0x8000_0400));
    let pulled = Phase::Pulled { t: 0 };
    assert!(rt; is_refused(b.step(&rt, push(0, 0)), not_restored(pulled)));
    assert!(rt; is_refused(b.step(&rt, pull(0)), MoveRefused::NoContext));
    assert!(rt; b.is_at(&rt, 0, pulled));
    assert_eq!(rt; b.cam(&rt, 0), 0x400);
}

#[test]
fn registers_of_a_thread_on_which_none_is(rt: HostRuntime) {
    let b = &mut Bench::build(&rt, rt.alloc(), &small_board());
    let accesses = [set_cppr(0, 5), inject(0, 3), acknowledge(0)];
    for op in accesses {
        assert!(rt; is_refused(b.step(&rt, op), MoveRefused::NoContext));
    }
    assert!(rt; b.fine(&rt, restore(0, 0)));
    for op in accesses {
        assert!(rt; is_refused(b.step(&rt, op), MoveRefused::NoContext));
    }
    assert!(rt; b.fine(&rt, push(0, 0)));
    assert!(rt; b.stored(&rt, set_cppr(0, 4)));
    assert_eq!(rt; b.value(&rt, pull(0)), Some(0x8000_0400));
    for op in accesses {
        assert!(rt; is_refused(b.step(&rt, op), MoveRefused::NoContext));
    }
    assert_eq!(rt; b.registers(&rt, 0), (0, 4, 0, 0xff));
}

#[test]
fn two_processors_change_places_on_a_thread(rt: HostRuntime) {
    let b = &mut Bench::build(&rt, rt.alloc(), &small_board());
    assert!(rt; b.fine(&rt, restore(0, 0)));
    assert!(rt; b.fine(&rt, push(0, 0)));
    assert!(rt; b.stored(&rt, set_cppr(0, 5)));
    assert!(rt; b.stored(&rt, inject(0, 6)));
    assert_eq!(rt; b.value(&rt, pull(0)), Some(0x8000_0400));
    assert!(rt; b.fine(&rt, save(0)));
    assert_eq!(rt; b.kept(&rt, 0), (5, 2, 0));
    assert!(rt; b.fine(&rt, restore(1, 0)));
    assert_eq!(rt; b.registers(&rt, 0), (0, 0, 0, 0xff));
    assert!(rt; b.fine(&rt, push(0, 1)));
    assert_eq!(rt; b.cam(&rt, 0), 0x8000_0401);
    assert!(rt; b.stored(&rt, set_cppr(0, 0xff)));
    assert!(rt; b.stored(&rt, inject(0, 3)));
    assert!(rt; matches!(b.present(&rt, 0, 1, true), Presented::Backlogged));
    assert_eq!(rt; b.registers(&rt, 0), (0x80, 0xff, 0x10, 3));
    assert_eq!(rt; b.value(&rt, pull(0)), Some(0x8000_0401));
    assert!(rt; is_refused(b.step(&rt, restore(0, 0)), ring_busy(1)));
    assert!(rt; b.fine(&rt, save(1)));
    assert_eq!(rt; b.kept(&rt, 1), (0xff, 0x10, 0));
    assert_eq!(rt; b.kept(&rt, 0), (5, 2, 0x40));
    assert!(rt; b.fine(&rt, restore(0, 0)));
    assert_eq!(rt; b.kept(&rt, 0), (0, 0, 0x40));
    assert_eq!(rt; b.registers(&rt, 0), (0, 5, 2, 6));
    assert!(rt; b.fine(&rt, push(0, 0)));
    assert_eq!(rt; b.kept(&rt, 0), (0, 0, 0));
    assert_eq!(rt; b.registers(&rt, 0), (0x80, 5, 0x42, 1));
    assert_eq!(rt; b.value(&rt, acknowledge(0)), Some(0x8001));
    assert_eq!(rt; b.kept(&rt, 1), (0xff, 0x10, 0));
}
