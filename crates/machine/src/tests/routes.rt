//! Notices that are routed.

use crate::Machine;
use crate::tests::{
    acknowledge, changed, end, eoi, largest_board, loaded, push, queue, reached, restore, ring,
    routed, set, set_cppr, small_board, source, step, taken, target, trigger,
};
use std::test::Fail;
use xv_model::operations::Op;
use xv_model::outcomes::{EndRun, Outcome, Presented, Routed};

#[test]
fn routes_of_three_sources(rt: HostRuntime) -> Result<(), Fail> {
    let board = small_board();
    let mut machine = Machine::build(rt.alloc(), &board)?;
    let m = &mut machine;
    assert!(rt; changed(&step(&rt, m, &set(0)), 1, 0, 0));
    assert!(rt; changed(&step(&rt, m, &trigger(0)), 0, 2, 1));
    assert_eq!(rt; m.notices(), 1);
    assert!(rt; matches!(routed(&rt, m, 0), Some((1, Routed::Masked))));
    step(&rt, m, &target(1, 0, 5, 0x11));
    step(&rt, m, &set(1));
    assert!(rt; changed(&step(&rt, m, &trigger(1)), 0, 2, 1));
    assert!(rt;
        matches!(
            routed(&rt, m, 1),
            Some((
                1,
                Routed::Run {
                    run: EndRun::NoEnd { e: 5 }
                }
            ))
        )
    );
    step(&rt, m, &set(2));
    step(&rt, m, &trigger(2));
    assert!(rt; matches!(routed(&rt, m, 2), Some((1, Routed::NoSource))));
    assert!(rt; routed(&rt, m, 2).is_none());
    step(&rt, m, &target(1, 0, 6, 0x12));
    let config = end(0, 6, 0, 0);
    assert!(rt; matches!(step(&rt, m, &Op::EndSet { e: 6, config }), Outcome::Fine));
    assert!(rt; changed(&step(&rt, m, &trigger(1)), 2, 3, 0));
    assert!(rt; changed(&step(&rt, m, &eoi(1)), 3, 2, 2));
    assert!(rt; reached(routed(&rt, m, 1), 2, 6, false));
    assert_eq!(rt; m.count(), 16);
    assert_eq!(rt; m.notices(), 0);
    assert_eq!(rt; m.flight(), 1);
    Ok(())
}

#[test]
fn the_largest_board(rt: HostRuntime) -> Result<(), Fail> {
    let board = largest_board();
    let mut machine = Machine::build(rt.alloc(), &board)?;
    let m = &mut machine;
    let config = end(63, 6, 0x3ff_f000, 12);
    step(&rt, m, &Op::EndSet { e: 510, config });
    step(&rt, m, &target(8191, 63, 6, 0x7fff_ffff));
    for s in 8189..8192 {
        assert!(rt; changed(&step(&rt, m, &set(s)), 1, 0, 0));
        assert!(rt; changed(&step(&rt, m, &trigger(s)), 0, 2, 1));
    }
    assert_eq!(rt; m.notices(), 3);
    assert!(rt; matches!(routed(&rt, m, 8189), Some((1, Routed::Masked))));
    assert!(rt; matches!(routed(&rt, m, 8190), Some((1, Routed::NoSource))));
    assert!(rt; reached(routed(&rt, m, 8191), 1, 510, true));
    assert_eq!(rt; queue(&rt, m, 510).written, 1);
    assert_eq!(rt; queue(&rt, m, 511).written, 0);
    assert_eq!(rt; source(&rt, m, 0).pq, 1);
    assert_eq!(rt; m.notices(), 0);
    assert_eq!(rt; m.count(), 11);
    step(&rt, m, &restore(63, 31));
    step(&rt, m, &push(31, 63));
    step(&rt, m, &set_cppr(31, 0xff));
    assert!(rt; matches!(taken(&rt, m, 0), Some((63, 6, Presented::Found))));
    assert_eq!(rt; loaded(&rt, m, &acknowledge(31)), Some(0x8006));
    assert_eq!(rt; ring(&rt, m, 31).cam, 0x8000_043f);
    assert_eq!(rt; (m.count(), m.flight()), (16, 0));
    Ok(())
}
