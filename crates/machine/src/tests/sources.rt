//! The words of sources, by operations and by accesses to their pages.

use crate::Machine;
use crate::tests::{changed, eoi, old_pair, set, small_board, source, step, trigger};
use std::test::Fail;
use xv_model::operations::{Op, PqOp};
use xv_model::outcomes::Outcome;

/// A load, or a store, at an offset of a page of a source.
fn access(s: u32, page: u8, offset: u16, store: bool) -> Op {
    Op::Esb {
        s,
        page,
        offset,
        store,
    }
}

#[test]
fn a_line_that_is_still_up_at_the_eoi(rt: HostRuntime) -> Result<(), Fail> {
    let board = small_board();
    let mut machine = Machine::build(rt.alloc(), &board)?;
    let m = &mut machine;
    let line = |op: PqOp| Op::Pq { s: 3, op };
    step(&rt, m, &set(3));
    assert!(rt; changed(&step(&rt, m, &line(PqOp::Raise)), 0, 2, 1));
    assert!(rt; source(&rt, m, 3).asserted);
    assert!(rt; changed(&step(&rt, m, &eoi(3)), 2, 2, 2));
    assert!(rt; changed(&step(&rt, m, &trigger(3)), 2, 2, 0));
    assert!(rt; changed(&step(&rt, m, &line(PqOp::Lower)), 2, 2, 0));
    assert!(rt; !source(&rt, m, 3).asserted);
    assert!(rt; changed(&step(&rt, m, &eoi(3)), 2, 0, 0));
    assert!(rt; changed(&step(&rt, m, &line(PqOp::Init { asserted: true })), 0, 1, 0));
    assert!(rt; source(&rt, m, 3).asserted);
    assert_eq!(rt; m.notices(), 2);
    Ok(())
}

#[test]
fn an_interrupt_by_loads_and_stores(rt: HostRuntime) -> Result<(), Fail> {
    let board = small_board();
    let mut machine = Machine::build(rt.alloc(), &board)?;
    let m = &mut machine;
    assert!(rt; changed(&step(&rt, m, &access(0, 1, 0xc00, false)), 1, 0, 0));
    assert!(rt; changed(&step(&rt, m, &access(0, 0, 0x123, true)), 0, 2, 1));
    assert!(rt; changed(&step(&rt, m, &access(0, 1, 0x800, false)), 2, 2, 0));
    assert!(rt; changed(&step(&rt, m, &access(0, 1, 0, true)), 2, 3, 0));
    assert!(rt; matches!(step(&rt, m, &access(0, 0, 0, false)), Outcome::Ones));
    assert!(rt; matches!(step(&rt, m, &access(0, 1, 0x400, true)), Outcome::BadOffset));
    assert!(rt; changed(&step(&rt, m, &access(0, 1, 0x7ff, false)), 3, 2, 2));
    assert_eq!(rt; source(&rt, m, 0).forwards, 2);
    assert_eq!(rt; m.notices(), 2);
    Ok(())
}

#[test]
fn the_pair_before_the_last_set(rt: HostRuntime) -> Result<(), Fail> {
    let board = small_board();
    let mut machine = Machine::build(rt.alloc(), &board)?;
    let m = &mut machine;
    assert_eq!(rt; old_pair(&rt, m, 0), 1);
    assert!(rt; changed(&step(&rt, m, &set(0)), 1, 0, 0));
    assert_eq!(rt; old_pair(&rt, m, 0), 1);
    assert!(rt; changed(&step(&rt, m, &trigger(0)), 0, 2, 1));
    assert_eq!(rt; old_pair(&rt, m, 0), 1);
    assert!(rt; changed(&step(&rt, m, &access(0, 1, 0xd00, false)), 2, 1, 0));
    assert_eq!(rt; old_pair(&rt, m, 0), 2);
    assert!(rt; changed(&step(&rt, m, &eoi(0)), 1, 1, 0));
    let init = Op::Pq {
        s: 0,
        op: PqOp::Init { asserted: false },
    };
    assert!(rt; changed(&step(&rt, m, &init), 1, 1, 0));
    assert_eq!(rt; old_pair(&rt, m, 0), 2);
    assert_eq!(rt; (old_pair(&rt, m, 1), old_pair(&rt, m, 3)), (1, 1));
    Ok(())
}
