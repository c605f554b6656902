//! ENDs, their queues in memory and their pages.

use crate::Machine;
use crate::tests::{end, queue, reached, routed, set, small_board, source, step, target, trigger};
use std::process::Abort;
use std::test::Fail;
use xv_model::known::Known;
use xv_model::operations::Op;
use xv_model::outcomes::Outcome;

/// What a line may ask of a source: its outstanding notices, whether it has a valid EAS, and the pair that it
/// had before it was last set.
fn known(rt: &impl Abort, machine: &Machine, s: u32) -> (u64, bool, u8) {
    assert!(rt; s < machine.board().limits.sources);
    (machine.out(s), machine.initialised(s), machine.old_pair(s))
}

#[test]
fn a_queue_and_its_views(rt: HostRuntime) -> Result<(), Fail> {
    let board = small_board();
    let mut machine = Machine::build(rt.alloc(), &board)?;
    let m = &mut machine;
    let config = end(0, 0, 0x1000, 12);
    step(&rt, m, &Op::EndSet { e: 0, config });
    step(&rt, m, &target(0, 0, 0, 0x10));
    step(&rt, m, &set(0));
    step(&rt, m, &trigger(0));
    assert_eq!(rt; known(&rt, m, 0), (1, true, 1));
    assert!(rt; reached(routed(&rt, m, 0), 1, 0, true));
    assert_eq!(rt; known(&rt, m, 0), (0, true, 1));
    assert_eq!(rt; known(&rt, m, 2), (0, false, 1));
    let source = source(&rt, m, 0);
    assert_eq!(rt; source.pq, 2);
    assert!(rt; !source.asserted);
    assert_eq!(rt; source.forwards, 1);
    assert_eq!(rt; source.routes, 1);
    let queue = queue(&rt, m, 0);
    assert_eq!(rt; queue.config.qaddr, 0x1000);
    assert_eq!(rt; queue.written, 1);
    assert_eq!(rt; queue.taken, 0);
    assert_eq!(rt; queue.esn, 2);
    assert_eq!(rt; queue.ese, 0);
    assert_eq!(rt; m.board().limits.sources, 4);
    step(&rt, m, &set(0));
    assert_eq!(rt; known(&rt, m, 0), (0, true, 2));
    Ok(())
}

#[test]
fn a_word_in_memory_and_its_reader(rt: HostRuntime) -> Result<(), Fail> {
    let board = small_board();
    let mut machine = Machine::build(rt.alloc(), &board)?;
    let m = &mut machine;
    let config = end(0, 0, 0x1000, 12);
    step(&rt, m, &Op::EndSet { e: 0, config });
    step(&rt, m, &target(0, 0, 0, 0x10));
    step(&rt, m, &set(0));
    step(&rt, m, &trigger(0));
    assert!(rt; reached(routed(&rt, m, 0), 1, 0, true));
    let looked = step(&rt, m, &Op::Peek { addr: 0x1000 });
    assert!(rt; matches!(looked, Outcome::Cell { word: 0x8000_0010 }));
    assert!(rt;
        matches!(
            step(&rt, m, &Op::Read { e: 0 }),
            Outcome::Item { payload: 0x10 }
        )
    );
    assert!(rt; matches!(step(&rt, m, &Op::Read { e: 0 }), Outcome::Empty));
    assert!(rt; matches!(step(&rt, m, &Op::Read { e: 1 }), Outcome::NoQueue));
    assert_eq!(rt; queue(&rt, m, 0).taken, 1);
    assert!(rt;
        matches!(
            step(
                &rt,
                m,
                &Op::Zero {
                    addr: 0x1000,
                    len: 4
                }
            ),
            Outcome::Fine
        )
    );
    assert!(rt;
        matches!(
            step(&rt, m, &Op::Peek { addr: 0x1000 }),
            Outcome::Cell { word: 0 }
        )
    );
    assert!(rt; matches!(step(&rt, m, &Op::Peek { addr: 0x1002 }), Outcome::BadRange));
    Ok(())
}

/// A load at an offset of a page of END 0.
fn end_load(page: u8, offset: u16) -> Op {
    Op::EndEsb {
        e: 0,
        page,
        offset,
        store: false,
    }
}

/// Whether a load found the state `from` of an END and left it as `to`.
fn changed_end(outcome: &Outcome, from: u8, to: u8) -> bool {
    match *outcome {
        Outcome::EndPq { old, new } => old == from && new == to,
        _ => false,
    }
}

#[test]
fn an_eoi_of_an_end(rt: HostRuntime) -> Result<(), Fail> {
    let board = small_board();
    let mut machine = Machine::build(rt.alloc(), &board)?;
    let m = &mut machine;
    assert!(rt; matches!(step(&rt, m, &end_load(0, 0)), Outcome::NoEnd));
    let config = end(0, 0, 0, 0);
    step(&rt, m, &Op::EndSet { e: 0, config });
    step(&rt, m, &target(0, 0, 0, 0x10));
    step(&rt, m, &set(0));
    step(&rt, m, &trigger(0));
    assert!(rt; reached(routed(&rt, m, 0), 1, 0, false));
    assert_eq!(rt; queue(&rt, m, 0).esn, 2);
    assert!(rt; changed_end(&step(&rt, m, &end_load(0, 0x800)), 2, 2));
    assert!(rt; changed_end(&step(&rt, m, &end_load(0, 0)), 2, 0));
    assert!(rt; changed_end(&step(&rt, m, &end_load(1, 0xd00)), 0, 1));
    assert_eq!(rt; queue(&rt, m, 0).esn, 0);
    assert_eq!(rt; queue(&rt, m, 0).ese, 1);
    assert_eq!(rt; m.flight(), 1);
    Ok(())
}
