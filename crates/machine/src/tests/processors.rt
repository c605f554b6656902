//! Processors and the moves of their contexts.

use crate::Machine;
use crate::tests::{
    acknowledge, called, inject, is_done, is_stored, loaded, processor, pull, push, registers,
    restore, ring, routed, save, set, set_cppr, small_board, step, target, trigger,
};
use std::process::Abort;
use std::test::Fail;
use xv_model::operations::Op;
use xv_model::outcomes::{EndRun, MoveRefused, Outcome, Phase, Routed};

#[test]
fn processors_and_rings_as_at_the_start(rt: HostRuntime) -> Result<(), Fail> {
    let board = small_board();
    let mut machine = Machine::build(rt.alloc(), &board)?;
    let m = &mut machine;
    let connected = processor(&rt, m, 0);
    assert!(rt; connected.valid);
    assert!(rt; matches!(connected.phase, Phase::Saved));
    assert_eq!(rt;
        (connected.cppr, connected.ipb, connected.backlog),
        (0, 0, 0)
    );
    assert!(rt; !processor(&rt, m, 1).valid);
    let ring = ring(&rt, m, 1);
    assert_eq!(rt; (ring.nsr, ring.cppr, ring.ipb, ring.pipr), (0, 0, 0, 0xff));
    assert_eq!(rt; ring.cam, 0);
    Ok(())
}

#[test]
fn a_context_goes_on_a_thread_and_off_it(rt: HostRuntime) -> Result<(), Fail> {
    let board = small_board();
    let mut machine = Machine::build(rt.alloc(), &board)?;
    let m = &mut machine;
    assert!(rt; is_done(&rt, m, &restore(0, 1)));
    assert!(rt; matches!(processor(&rt, m, 0).phase, Phase::Restored { t: 1 }));
    assert_eq!(rt; ring(&rt, m, 1).cam, 0);
    assert!(rt; is_done(&rt, m, &push(1, 0)));
    assert!(rt; matches!(processor(&rt, m, 0).phase, Phase::On { t: 1 }));
    assert_eq!(rt; ring(&rt, m, 1).cam, 0x8000_0400);
    assert!(rt; is_stored(&rt, m, &set_cppr(1, 6)));
    assert!(rt; is_stored(&rt, m, &inject(1, 7)));
    let on = ring(&rt, m, 1);
    assert_eq!(rt; (on.nsr, on.cppr, on.ipb, on.pipr), (0, 6, 1, 7));
    assert_eq!(rt; ring(&rt, m, 0).cppr, 0);
    assert_eq!(rt; loaded(&rt, m, &pull(1)), Some(0x8000_0400));
    assert!(rt; matches!(processor(&rt, m, 0).phase, Phase::Pulled { t: 1 }));
    assert_eq!(rt;
        (ring(&rt, m, 1).cam, processor(&rt, m, 0).cppr),
        (0x400, 0)
    );
    assert!(rt; is_done(&rt, m, &save(0)));
    let saved = processor(&rt, m, 0);
    assert!(rt; matches!(saved.phase, Phase::Saved));
    assert_eq!(rt; (saved.cppr, saved.ipb, saved.backlog), (6, 1, 0));
    let free = ring(&rt, m, 1);
    assert_eq!(rt; (free.nsr, free.cppr, free.ipb, free.pipr), (0, 0, 0, 0xff));
    assert_eq!(rt; free.cam, 0);
    assert_eq!(rt; (m.count(), m.notices(), m.flight()), (6, 0, 0));
    Ok(())
}

#[test]
fn a_connect_lets_a_hypercall_through(rt: HostRuntime) -> Result<(), Fail> {
    let board = small_board();
    let mut machine = Machine::build(rt.alloc(), &board)?;
    let m = &mut machine;
    step(&rt, m, &set(0));
    assert_eq!(rt; called(&rt, m, &target(0, 1, 4, 0x10)), Some(-56));
    step(&rt, m, &trigger(0));
    assert!(rt; matches!(routed(&rt, m, 0), Some((1, Routed::Masked))));
    assert!(rt; matches!(refusal(&rt, m, &restore(1, 0)), Some(MoveRefused::NotValid)));
    assert!(rt; is_connected(&rt, m, 1));
    assert!(rt; processor(&rt, m, 1).valid);
    // the refusal left nothing behind
    assert_eq!(rt; called(&rt, m, &target(0, 1, 4, 0x10)), Some(0));
    step(&rt, m, &set(0));
    step(&rt, m, &trigger(0));
    assert!(rt;
        matches!(
            routed(&rt, m, 0),
            Some((
                2,
                Routed::Run {
                    run: EndRun::NoEnd { e: 12 }
                }
            ))
        )
    );
    assert!(rt; is_done(&rt, m, &restore(1, 0)));
    // a second connection leaves the context where it is
    assert!(rt; is_connected(&rt, m, 1));
    assert!(rt; matches!(processor(&rt, m, 1).phase, Phase::Restored { t: 0 }));
    assert!(rt; is_connected(&rt, m, 0));
    assert_eq!(rt; (m.count(), m.notices(), m.flight()), (13, 0, 0));
    Ok(())
}

/// Whether connecting a processor answers 0.
fn is_connected(rt: &impl Abort, machine: &mut Machine, v: u32) -> bool {
    matches!(
        step(rt, machine, &Op::Connect { v }),
        Outcome::Code { code: 0 }
    )
}

/// Why a move is refused; none where it isn't.
fn refusal(rt: &impl Abort, machine: &mut Machine, op: &Op) -> Option<MoveRefused> {
    match step(rt, machine, op) {
        Outcome::Refused { why } => Some(why),
        _ => None,
    }
}

/// Whether an operation is refused since no processor is on the thread.
fn has_no_context(rt: &impl Abort, machine: &mut Machine, op: &Op) -> bool {
    matches!(refusal(rt, machine, op), Some(MoveRefused::NoContext))
}

#[test]
fn moves_of_contexts_that_are_refused(rt: HostRuntime) -> Result<(), Fail> {
    let board = small_board();
    let mut machine = Machine::build(rt.alloc(), &board)?;
    let m = &mut machine;
    assert!(rt; matches!(refusal(&rt, m, &save(1)), Some(MoveRefused::NotValid)));
    assert!(rt; matches!(refusal(&rt, m, &push(0, 1)), Some(MoveRefused::NotValid)));
    assert!(rt; is_connected(&rt, m, 1));
    assert!(rt;
        matches!(
            refusal(&rt, m, &save(0)),
            Some(MoveRefused::NotPulled {
                phase: Phase::Saved
            })
        )
    );
    assert!(rt;
        matches!(
            refusal(&rt, m, &push(0, 0)),
            Some(MoveRefused::NotRestored {
                phase: Phase::Saved
            })
        )
    );
    assert!(rt; is_done(&rt, m, &restore(0, 1)));
    assert!(rt;
        matches!(
            refusal(&rt, m, &restore(0, 0)),
            Some(MoveRefused::VpBusy {
                phase: Phase::Restored { t: 1 }
            })
        )
    );
    assert!(rt;
        matches!(
            refusal(&rt, m, &restore(1, 1)),
            Some(MoveRefused::RingBusy { vp: 0 })
        )
    );
    assert!(rt;
        matches!(
            refusal(&rt, m, &push(0, 0)),
            Some(MoveRefused::NotRestored {
                phase: Phase::Restored { t: 1 }
            })
        )
    );
    assert!(rt; is_done(&rt, m, &push(1, 0)));
    assert!(rt;
        matches!(
            refusal(&rt, m, &save(0)),
            Some(MoveRefused::NotPulled {
                phase: Phase::On { t: 1 }
            })
        )
    );
    assert!(rt; matches!(processor(&rt, m, 1).phase, Phase::Saved));
    assert_eq!(rt;
        (ring(&rt, m, 0).cam, ring(&rt, m, 1).cam),
        (0, 0x8000_0400)
    );
    assert_eq!(rt; (m.count(), m.notices(), m.flight()), (11, 0, 0));
    Ok(())
}

#[test]
fn a_thread_without_a_processor(rt: HostRuntime) -> Result<(), Fail> {
    let board = small_board();
    let mut machine = Machine::build(rt.alloc(), &board)?;
    let m = &mut machine;
    assert!(rt; is_done(&rt, m, &restore(0, 0)));
    assert!(rt; has_no_context(&rt, m, &pull(0)));
    assert!(rt; has_no_context(&rt, m, &acknowledge(0)));
    assert!(rt; has_no_context(&rt, m, &set_cppr(0, 5)));
    assert!(rt; has_no_context(&rt, m, &inject(0, 2)));
    assert_eq!(rt; loaded(&rt, m, &registers(0)), Some(0xff_ff00_ffff));
    assert!(rt; is_done(&rt, m, &push(0, 0)));
    assert!(rt; is_stored(&rt, m, &set_cppr(0, 5)));
    assert!(rt; is_stored(&rt, m, &inject(0, 2)));
    // the other thread has no part in it
    assert!(rt; has_no_context(&rt, m, &acknowledge(1)));
    assert_eq!(rt; loaded(&rt, m, &registers(1)), Some(0xff_ff00_ffff));
    assert_eq!(rt; loaded(&rt, m, &registers(0)), Some(0x8005_20ff_ff00_ff02));
    assert_eq!(rt; loaded(&rt, m, &pull(0)), Some(0x8000_0400));
    assert!(rt; has_no_context(&rt, m, &pull(0)));
    assert!(rt; has_no_context(&rt, m, &set_cppr(0, 6)));
    assert_eq!(rt; loaded(&rt, m, &registers(0)), Some(0x5_20ff_ff00_ff02));
    Ok(())
}
