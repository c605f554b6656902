//! Acknowledgements, and the registers that they depend on.

use crate::tests::operations::{acknowledge, inject, load_ring, push, restore, set_cppr};
use crate::tests::{Bench, small_board};
use std::alloc::Global;
use std::process::Abort;

/// A fabric on which processor 0 is on thread 0.
fn on_a_thread(rt: &impl Abort, alloc: Global) -> Bench {
    let mut b = Bench::build(rt, alloc, &small_board());
    assert!(rt; b.fine(rt, restore(0, 0)));
    assert!(rt; b.fine(rt, push(0, 0)));
    b
}

#[test]
fn the_most_favoured_is_accepted(rt: HostRuntime) {
    let b = &mut on_a_thread(&rt, rt.alloc());
    assert!(rt; b.stored(&rt, set_cppr(0, 0xff)));
    for priority in [6, 1, 3] {
        assert!(rt; b.stored(&rt, inject(0, priority)));
    }
    assert_eq!(rt; b.value(&rt, load_ring(0)), Some(0x80ff_52ff_ff00_ff01));
    assert_eq!(rt; b.value(&rt, acknowledge(0)), Some(0x8001));
    assert_eq!(rt; b.registers(&rt, 0), (0, 1, 0x12, 3));
    // Spurious: nothing changes.
    assert_eq!(rt; b.value(&rt, acknowledge(0)), Some(1));
    assert_eq!(rt; b.registers(&rt, 0), (0, 1, 0x12, 3));
    // What equals CPPR isn't accepted.
    assert!(rt; b.stored(&rt, set_cppr(0, 3)));
    assert_eq!(rt; b.value(&rt, acknowledge(0)), Some(3));
    assert_eq!(rt; b.registers(&rt, 0), (0, 3, 0x12, 3));
    assert!(rt; b.stored(&rt, set_cppr(0, 4)));
    assert_eq!(rt; b.registers(&rt, 0), (0x80, 4, 0x12, 3));
    assert_eq!(rt; b.value(&rt, acknowledge(0)), Some(0x8003));
    assert_eq!(rt; b.registers(&rt, 0), (0, 3, 2, 6));
    assert!(rt; b.stored(&rt, set_cppr(0, 7)));
    assert_eq!(rt; b.value(&rt, acknowledge(0)), Some(0x8006));
    assert!(rt; b.stored(&rt, set_cppr(0, 8)));
    assert_eq!(rt; b.value(&rt, acknowledge(0)), Some(0xff));
    assert_eq!(rt; b.registers(&rt, 0), (0, 0xff, 0, 0xff));
}

#[test]
fn cppr_above_7_is_open(rt: HostRuntime) {
    let b = &mut on_a_thread(&rt, rt.alloc());
    assert!(rt; b.stored(&rt, inject(0, 7)));
    for (value, cppr, nsr) in [
        (7, 7, 0),
        (8, 0xff, 0x80),
        (0, 0, 0),
        (0x80, 0xff, 0x80),
        (0xff, 0xff, 0x80),
    ] {
        assert!(rt; b.stored(&rt, set_cppr(0, value)));
        assert_eq!(rt; b.registers(&rt, 0), (nsr, cppr, 1, 7), "at {value}");
    }
}

#[test]
fn injection_above_7_changes_nothing(rt: HostRuntime) {
    let b = &mut on_a_thread(&rt, rt.alloc());
    assert!(rt; b.stored(&rt, set_cppr(0, 0xff)));
    for priority in [8, 0x80, 0xff] {
        assert!(rt; b.stored(&rt, inject(0, priority)));
        assert_eq!(rt; b.registers(&rt, 0), (0, 0xff, 0, 0xff), "at {priority}");
    }
    for (priority, ipb) in [(7, 1), (7, 1), (0, 0x81)] {
        assert!(rt; b.stored(&rt, inject(0, priority)));
        assert_eq!(rt;
            b.registers(&rt, 0),
            (0x80, 0xff, ipb, priority),
            "at {priority}"
        );
    }
}
