//! Processors and rings without a fabric around them.

ghost use Rattle.std.specs.Prelude.{IsTrue};
ghost use Rattle.tima_access.specs.Accesses.{IsInRing};

use crate::processors::Processors;
use crate::tests::{is_refused, small_board};
use std::alloc::Global;
use std::marker::Model;
use std::process::Abort;
use xv_model::outcomes::{MoveRefused, Outcome, Phase, Presented};
use xv_model::tima::RingOp;

/// The processors of a small board. Each call asks first whether they are as many, and so are the threads.
#[derive(Drop)]
struct Bench {
    processors: Processors,
    threads: u32,
}

impl Model for Bench {
    ghost use Rattle.std.specs.Prelude.{ℕ, ◌≡◌, length};

    ghost Value = { ℕ };

    ghost view = { λ b. b.threads };

    ghost invariant = { λ b. length b.processors.rings ≡ b.threads };
}

/// Whether what is loaded from a ring lies in it.
fn is_in_ring(op: &RingOp) -> bool
    ensures { IsTrue result → IsInRing op.now }
{
    match *op {
        RingOp::Load { at, size } => size <= 8 && at as u32 + size as u32 <= 16,
        _ => true,
    }
}

impl Bench {
    fn build(rt: &impl Abort, alloc: Global) -> Bench {
        match Processors::build(alloc, &small_board()) {
            Ok(processors) => Bench {
                processors,
                threads: 2,
            },
            Err(_) => panic!(rt),
        }
    }

    fn restore(&mut self, rt: &impl Abort, v: u32, t: u32) -> Outcome {
        assert!(rt; v < self.processors.vps().count() && t < self.threads);
        self.processors.restore(v, t)
    }

    fn save(&mut self, rt: &impl Abort, v: u32) -> Outcome {
        assert!(rt; v < self.processors.vps().count());
        self.processors.save(v)
    }

    fn connect(&mut self, rt: &impl Abort, v: u32) -> Outcome {
        assert!(rt; v < self.processors.vps().count());
        self.processors.connect(v)
    }

    fn access(&mut self, rt: &impl Abort, t: u32, op: RingOp) -> Outcome {
        assert!(rt; t < self.threads);
        assert!(rt; is_in_ring(&op));
        self.processors.access(t, op)
    }

    fn present(&mut self, rt: &impl Abort, v: u32, priority: u8, backlog: bool) -> Presented {
        assert!(rt; v < self.processors.vps().count() && priority < 8);
        self.processors.present(v, priority, backlog)
    }

    /// Pushes a context by its CAM word onto thread 1.
    fn push(&mut self, rt: &impl Abort, cam: u32) -> Outcome {
        self.access(rt, 1, RingOp::Push { cam })
    }

    /// What a load of some bytes of the ring of thread 1 answers.
    fn bytes(&mut self, rt: &impl Abort, at: u8, size: u8) -> u64 {
        match self.access(rt, 1, RingOp::Load { at, size }) {
            Outcome::Value { value } => value,
            _ => panic!(rt),
        }
    }
}

#[test]
fn bytes_of_a_ring(rt: HostRuntime) {
    let b = &mut Bench::build(&rt, rt.alloc());
    assert_eq!(rt; b.bytes(&rt, 0, 8), 0x0000_00ff_ff00_ffff);
    assert!(rt; matches!(b.restore(&rt, 1, 1), Outcome::Fine));
    assert!(rt; matches!(b.push(&rt, 0x8000_0401), Outcome::Fine));
    assert!(rt;
        matches!(
            b.access(&rt, 1, RingOp::SetCppr { value: 6 }),
            Outcome::Stored
        )
    );
    assert!(rt;
        matches!(
            b.access(&rt, 1, RingOp::Inject { priority: 2 }),
            Outcome::Stored
        )
    );
    assert!(rt; matches!(b.present(&rt, 1, 5, false), Presented::Found));
    for (at, size, value) in [
        (0, 8, 0x8006_24ff_ff00_ff02),
        (8, 8, 0x8000_0401_0000_0000),
        (4, 4, 0xff00_ff02),
        (8, 4, 0x8000_0401),
        (0, 2, 0x8006),
        (6, 2, 0xff02),
        (1, 1, 6),
        (2, 1, 0x24),
        (7, 1, 2),
        (15, 1, 0),
    ] {
        assert_eq!(rt; b.bytes(&rt, at, size), value, "at {at}");
    }
    assert!(rt;
        matches!(
            b.access(&rt, 1, RingOp::Accept),
            Outcome::Value { value: 0x8002 }
        )
    );
    assert_eq!(rt; b.bytes(&rt, 0, 8), 0x0002_04ff_ff00_ff05);
    assert!(rt;
        matches!(
            b.access(&rt, 1, RingOp::Pull),
            Outcome::Value { value: 0x8000_0401 }
        )
    );
    assert_eq!(rt; b.bytes(&rt, 8, 8), 0x401_0000_0000);
    assert!(rt; matches!(b.save(&rt, 1), Outcome::Fine));
    assert_eq!(rt; b.bytes(&rt, 0, 8), 0x0000_00ff_ff00_ffff);
}

#[test]
fn cam_words_of_no_processor(rt: HostRuntime) {
    let b = &mut Bench::build(&rt, rt.alloc());
    assert!(rt; matches!(b.restore(&rt, 0, 1), Outcome::Fine));
    for cam in [
        0,
        0x400,
        0x8000_0000,
        0x8000_03ff,
        0x8000_0402,
        0x8000_0403,
        u32::MAX,
    ] {
        assert!(rt;
            is_refused(b.push(&rt, cam), MoveRefused::NotValid),
            "at {cam}"
        );
    }
    assert_eq!(rt; b.bytes(&rt, 8, 4), 0);
    assert!(rt; is_refused(b.access(&rt, 0, RingOp::Accept), MoveRefused::NoContext));
    assert!(rt; matches!(b.connect(&rt, 2), Outcome::Code { code: 0 }));
    let saved = MoveRefused::NotRestored {
        phase: Phase::Saved,
    };
    assert!(rt; is_refused(b.push(&rt, 0x8000_0402), saved));
    assert!(rt; matches!(b.push(&rt, 0x8000_0400), Outcome::Fine));
}
