//! Moves in their turn and out of it, and where a presentation is found.

ghost use Rattle.std.specs.Prelude.{◌≡◌};

use crate::{present, pull, push, restore, save};
use nvt_backlog::Vps;
use std::alloc::Global;
use std::marker::Model;
use std::process::Abort;
use std::test::Fail;
use thread_context::Rings;
use xv_base::{Limits, NoMemory};
use xv_model::board::{Board, Span, Spans};
use xv_model::outcomes::{MoveRefused, Phase, Presented};

/// The CAM words of processors 0 and 1 on their threads, and of processor 0 that was pulled.
const CAM: u32 = 0x8000_0400;

const CAM_1: u32 = 0x8000_0401;

const PULLED: u32 = 0x400;

/// Three processors, of which the last isn't connected, and the rings of two threads.
#[derive(Drop)]
struct Parts {
    vps: Vps,
    rings: Rings,
    threads: u32,
}

impl Model for Parts {
    ghost use Rattle.std.specs.Prelude.{ℕ, ◌≡◌, length};
    ghost use Rattle.presenter.specs.Contexts.{AreFit};

    ghost Value = { ℕ };

    ghost view = { λ p. p.threads };

    ghost invariant = { λ p. AreFit p.vps.vps p.rings × (length p.rings ≡ p.threads) };
}

/// What is done with the parts, or looked at.
#[derive(Clone, Copy)]
enum Step {
    Restore {
        v: u32,
        t: u32,
    },
    Push {
        t: u32,
        cam: u32,
    },
    Pull {
        t: u32,
    },
    Save {
        v: u32,
    },
    Present {
        vp: u32,
        priority: u8,
        backlog: bool,
    },
    Ring {
        t: u32,
    },
    Kept {
        v: u32,
    },
    SetCppr {
        t: u32,
        value: u8,
    },
    Cppr {
        t: u32,
    },
}

/// What a step answers: what it is, and then the phase and the number of a refusal; the IPB and the CAM word of a
/// ring, or its CPPR; or the IPB and the backlog of a processor.
type Answer = (u8, u8, u32);

const DONE: Answer = (0, 0, 0);

const NOT_VALID: Answer = (1, 0, 0);

const NO_CONTEXT: Answer = (6, 0, 0);

const FOUND: Answer = (7, 0, 0);

const BACKLOGGED: Answer = (7, 1, 0);

const LOST: Answer = (7, 2, 0);

const NO_PROCESSOR: Answer = (7, 3, 0);

fn cam_word(cam: u32) -> Answer {
    (8, 0, cam)
}

fn ring(ipb: u8, cam: u32) -> Answer {
    (9, ipb, cam)
}

fn cppr(value: u8) -> Answer {
    (11, value, 0)
}

fn kept(ipb: u8, backlog: u32) -> Answer {
    (10, ipb, backlog)
}

/// A phase as two numbers.
fn phase_as(phase: Phase) -> (u8, u32) {
    match phase {
        Phase::Saved => (0, 0),
        Phase::Restored { t } => (1, t),
        Phase::On { t } => (2, t),
        Phase::Pulled { t } => (3, t),
    }
}

fn with_phase(cause: u8, phase: Phase) -> Answer {
    let (number, t) = phase_as(phase);
    (cause, number, t)
}

fn vp_busy(phase: Phase) -> Answer {
    with_phase(2, phase)
}

fn ring_busy(vp: u32) -> Answer {
    (3, 0, vp)
}

fn not_pulled(phase: Phase) -> Answer {
    with_phase(4, phase)
}

fn not_restored(phase: Phase) -> Answer {
    with_phase(5, phase)
}

fn refused(why: MoveRefused) -> Answer {
    match why {
        MoveRefused::NotValid => NOT_VALID,
        MoveRefused::VpBusy { phase } => vp_busy(phase),
        MoveRefused::RingBusy { vp } => ring_busy(vp),
        MoveRefused::NotPulled { phase } => not_pulled(phase),
        MoveRefused::NotRestored { phase } => not_restored(phase),
        MoveRefused::NoContext => NO_CONTEXT,
    }
}

fn told(moved: Result<(), MoveRefused>) -> Answer {
    match moved {
        Ok(()) => DONE,
        Err(why) => refused(why),
    }
}

/// The board of three processors and two threads.
fn board() -> Board
    ensures processors { result.limits.processors ≡ 3 }
    ensures threads { result.limits.threads ≡ 2 }
{
    let limits = Limits {
        sources: 1,
        processors: 3,
        threads: 2,
        actors: 1,
    };
    let mut unconnected = Spans::NONE;
    unconnected.count = 1;
    unconnected.spans[0] = Span { first: 2, last: 2 };
    Board {
        limits,
        ram_mib: 0,
        two_pages: true,
        store_eoi: false,
        level: Spans::NONE,
        unclaimed: Spans::NONE,
        unconnected,
    }
}

impl Parts {
    fn build(alloc: Global) -> Result<Parts, NoMemory> {
        let board = board();
        let vps = Vps::build(alloc, &board)?;
        let rings = Rings::build(alloc, &board)?;
        Ok(Parts {
            vps,
            rings,
            threads: 2,
        })
    }

    fn restore(&mut self, rt: &impl Abort, v: u32, t: u32) -> Answer {
        assert!(rt; v < self.vps.count() && t < self.threads);
        told(restore(&mut self.vps, &mut self.rings, v, t))
    }

    fn push(&mut self, rt: &impl Abort, t: u32, cam: u32) -> Answer {
        assert!(rt; t < self.threads);
        told(push(&mut self.vps, &mut self.rings, t, cam))
    }

    fn save(&mut self, rt: &impl Abort, v: u32) -> Answer {
        assert!(rt; v < self.vps.count());
        told(save(&mut self.vps, &mut self.rings, v))
    }

    fn pull(&mut self, rt: &impl Abort, t: u32) -> Answer {
        assert!(rt; t < self.threads);
        match pull(&mut self.vps, &mut self.rings, t) {
            Ok(cam) => cam_word(cam),
            Err(why) => refused(why),
        }
    }

    fn present(&mut self, rt: &impl Abort, vp: u32, priority: u8, backlog: bool) -> Answer {
        assert!(rt; vp < self.vps.count() && priority < 8);
        match present(&mut self.vps, &mut self.rings, vp, priority, backlog) {
            Presented::Found => FOUND,
            Presented::Backlogged => BACKLOGGED,
            Presented::Lost => LOST,
            Presented::NoProcessor => NO_PROCESSOR,
        }
    }

    fn kept(&self, rt: &impl Abort, v: u32) -> Answer {
        assert!(rt; v < self.vps.count());
        let vp = self.vps.get(v);
        kept(vp.ipb, vp.backlog as u32)
    }

    fn ring(&self, rt: &impl Abort, t: u32) -> Answer {
        assert!(rt; t < self.threads);
        let found = self.rings.get(t);
        ring(found.ipb, found.cam)
    }

    fn set_cppr(&mut self, rt: &impl Abort, t: u32, value: u8) -> Answer {
        assert!(rt; t < self.threads);
        self.rings.set_cppr(t, value);
        DONE
    }

    fn cppr(&self, rt: &impl Abort, t: u32) -> Answer {
        assert!(rt; t < self.threads);
        cppr(self.rings.get(t).cppr)
    }

    fn step(&mut self, rt: &impl Abort, step: Step) -> Answer {
        match step {
            Step::Restore { v, t } => self.restore(rt, v, t),
            Step::Push { t, cam } => self.push(rt, t, cam),
            Step::Pull { t } => self.pull(rt, t),
            Step::Save { v } => self.save(rt, v),
            Step::Present {
                vp,
                priority,
                backlog,
            } => self.present(rt, vp, priority, backlog),
            Step::SetCppr { t, value } => self.set_cppr(rt, t, value),
            Step::Ring { t } => self.ring(rt, t),
            Step::Cppr { t } => self.cppr(rt, t),
            Step::Kept { v } => self.kept(rt, v),
        }
    }
}

/// Takes these steps from the start, and looks at what each answers.
fn answer_so(rt: &impl Abort, alloc: Global, steps: &[(Step, Answer)]) -> Result<(), NoMemory> {
    let mut parts = Parts::build(alloc)?;
    for &(step, wanted) in steps {
        let answer = parts.step(rt, step);
        assert_eq!(rt; answer, wanted);
    }
    Ok(())
}

fn restored(v: u32, t: u32) -> Step {
    Step::Restore { v, t }
}

fn pushed(t: u32, cam: u32) -> Step {
    Step::Push { t, cam }
}

fn presented(vp: u32, priority: u8, backlog: bool) -> Step {
    Step::Present {
        vp,
        priority,
        backlog,
    }
}

#[test]
fn presentations_in_each_place(rt: HostRuntime) -> Result<(), Fail> {
    let steps = [
        (presented(0, 0, true), BACKLOGGED),
        (Step::Kept { v: 0 }, kept(0, 0x80)),
        (restored(0, 1), DONE),
        (presented(0, 1, true), BACKLOGGED),
        (presented(0, 7, false), LOST),
        (Step::Kept { v: 0 }, kept(0, 0xc0)),
        (Step::Ring { t: 1 }, ring(0, 0)),
        (pushed(1, CAM), DONE),
        (Step::Kept { v: 0 }, kept(0, 0)),
        (Step::Ring { t: 1 }, ring(0xc0, CAM)),
        (presented(0, 2, true), FOUND),
        (presented(0, 3, false), FOUND),
        (Step::Kept { v: 0 }, kept(0, 0)),
        (Step::Ring { t: 1 }, ring(0xf0, CAM)),
        (Step::Pull { t: 1 }, cam_word(CAM)),
        (presented(0, 4, true), BACKLOGGED),
        (presented(0, 7, false), LOST),
        (Step::Kept { v: 0 }, kept(0, 8)),
        (Step::Ring { t: 1 }, ring(0xf0, PULLED)),
        (Step::Save { v: 0 }, DONE),
        (Step::Kept { v: 0 }, kept(0xf0, 8)),
        (Step::Ring { t: 1 }, ring(0, 0)),
        (restored(0, 0), DONE),
        (Step::Ring { t: 0 }, ring(0xf0, 0)),
        (pushed(0, CAM), DONE),
        (Step::Ring { t: 0 }, ring(0xf8, CAM)),
        (presented(2, 0, true), NO_PROCESSOR),
        (Step::Kept { v: 2 }, kept(0, 0)),
    ];
    answer_so(&rt, rt.alloc(), &steps)?;
    Ok(())
}

#[test]
fn two_processors(rt: HostRuntime) -> Result<(), Fail> {
    let steps = [
        (restored(0, 1), DONE),
        (restored(1, 0), DONE),
        (pushed(1, CAM), DONE),
        (pushed(0, CAM_1), DONE),
        (presented(1, 6, false), FOUND),
        (Step::Ring { t: 0 }, ring(2, CAM_1)),
        (Step::Ring { t: 1 }, ring(0, CAM)),
        (Step::Pull { t: 0 }, cam_word(CAM_1)),
        (Step::Save { v: 1 }, DONE),
        (Step::Kept { v: 1 }, kept(2, 0)),
        (Step::Kept { v: 0 }, kept(0, 0)),
        (Step::Ring { t: 1 }, ring(0, CAM)),
    ];
    answer_so(&rt, rt.alloc(), &steps)?;
    Ok(())
}

#[test]
fn refusals_of_restore_and_save(rt: HostRuntime) -> Result<(), Fail> {
    let steps = [
        (Step::Save { v: 2 }, NOT_VALID),
        (Step::Save { v: 0 }, not_pulled(Phase::Saved)),
        (restored(0, 1), DONE),
        (restored(2, 1), NOT_VALID),
        (restored(0, 1), vp_busy(Phase::Restored { t: 1 })),
        (restored(1, 1), ring_busy(0)),
        (Step::Save { v: 0 }, not_pulled(Phase::Restored { t: 1 })),
        (pushed(1, CAM), DONE),
        (restored(0, 0), vp_busy(Phase::On { t: 1 })),
        (restored(1, 1), ring_busy(0)),
        (Step::Save { v: 0 }, not_pulled(Phase::On { t: 1 })),
        (Step::Pull { t: 1 }, cam_word(CAM)),
        (restored(0, 0), vp_busy(Phase::Pulled { t: 1 })),
        (restored(1, 1), ring_busy(0)),
        (Step::Save { v: 0 }, DONE),
        (restored(1, 1), DONE),
    ];
    answer_so(&rt, rt.alloc(), &steps)?;
    Ok(())
}

#[test]
fn refusals_of_push_and_pull(rt: HostRuntime) -> Result<(), Fail> {
    let steps = [
        (Step::Pull { t: 0 }, NO_CONTEXT),
        (pushed(0, CAM), not_restored(Phase::Saved)),
        (restored(0, 0), DONE),
        (Step::Pull { t: 0 }, NO_CONTEXT),
        (pushed(1, CAM), not_restored(Phase::Restored { t: 0 })),
        (pushed(0, CAM - 1), NOT_VALID),
        (pushed(0, CAM + 2), NOT_VALID),
        (pushed(0, CAM + 3), NOT_VALID),
        (pushed(0, PULLED), NOT_VALID),
        (pushed(0, CAM), DONE),
        (pushed(0, CAM), not_restored(Phase::On { t: 0 })),
        (Step::Pull { t: 1 }, NO_CONTEXT),
        (Step::Pull { t: 0 }, cam_word(CAM)),
        (Step::Pull { t: 0 }, NO_CONTEXT),
        (pushed(0, CAM), not_restored(Phase::Pulled { t: 0 })),
    ];
    answer_so(&rt, rt.alloc(), &steps)?;
    Ok(())
}

#[test]
fn cppr_comes_along(rt: HostRuntime) -> Result<(), Fail> {
    let steps = [
        (restored(0, 0), DONE),
        (pushed(0, CAM), DONE),
        (Step::SetCppr { t: 0, value: 5 }, DONE),
        (presented(0, 6, false), FOUND),
        (Step::Pull { t: 0 }, cam_word(CAM)),
        (Step::Cppr { t: 0 }, cppr(5)),
        (Step::Save { v: 0 }, DONE),
        (Step::Cppr { t: 0 }, cppr(0)),
        (restored(0, 1), DONE),
        (Step::Cppr { t: 1 }, cppr(5)),
        (Step::Cppr { t: 0 }, cppr(0)),
    ];
    answer_so(&rt, rt.alloc(), &steps)?;
    Ok(())
}
