//! The state of processors: which can be got and set, and what is.

ghost use Rattle.std.specs.Prelude.{◌<◌, IsTrue, length};

use crate::tests::device::board;
use crate::{set_vp_state, vp_state};
use nvt_backlog::{Vp, Vps};
use std::process::Abort;
use std::test::Fail;
use xv_model::outcomes::{Outcome, Phase};

/// Whether there is such a processor.
fn has(vps: &Vps, v: u32) -> bool
    ensures { IsTrue result → v < length vps.now.vps }
{
    v < vps.count()
}

/// What getting the state of a processor answers: a code, CPPR and IPB.
fn get(rt: &impl Abort, vps: &Vps, v: u32) -> (i32, u8, u8) {
    assert!(rt; has(vps, v));
    match vp_state(vps, v) {
        Outcome::Code { code } => (code, 0, 0),
        Outcome::Context { cppr, ipb } => (0, cppr, ipb),
        _ => (1, 0, 0),
    }
}

fn set(rt: &impl Abort, vps: &mut Vps, v: u32, cppr: u8, ipb: u8) -> i32 {
    assert!(rt; has(vps, v));
    set_vp_state(vps, v, cppr, ipb)
}

/// Puts a processor in place, of which something is saved and something came late.
fn put(rt: &impl Abort, vps: &mut Vps, v: u32, valid: bool, phase: Phase) {
    assert!(rt; has(vps, v));
    let vp = Vp {
        valid,
        phase,
        cppr: 5,
        ipb: 0x81,
        backlog: 0x42,
    };
    vps.set(v, vp);
}

/// Whether a processor is connected, its CPPR, its IPB and its backlog.
fn shown(rt: &impl Abort, vps: &Vps, v: u32) -> (bool, u8, u8, u8) {
    assert!(rt; has(vps, v));
    let vp = vps.get(v);
    (vp.valid, vp.cppr, vp.ipb, vp.backlog)
}

#[test]
fn states_of_saved_processors(rt: HostRuntime) -> Result<(), Fail> {
    let mut vps = Vps::build(rt.alloc(), &board(2))?;
    assert_eq!(rt; get(&rt, &vps, 0), (0, 0, 0));
    put(&rt, &mut vps, 0, true, Phase::Saved);
    put(&rt, &mut vps, 1, true, Phase::Saved);
    assert_eq!(rt; get(&rt, &vps, 0), (0, 5, 0xc3));
    assert_eq!(rt; shown(&rt, &vps, 0), (true, 5, 0x81, 0x42));
    for (cppr, stored) in [(0, 0), (7, 7), (8, 0xff), (0xff, 0xff)] {
        put(&rt, &mut vps, 0, true, Phase::Saved);
        assert_eq!(rt; set(&rt, &mut vps, 0, cppr, 0x18), 0);
        assert_eq!(rt; shown(&rt, &vps, 0), (true, stored, 0x18, 0));
        assert_eq!(rt; get(&rt, &vps, 0), (0, stored, 0x18));
    }
    assert_eq!(rt; shown(&rt, &vps, 1), (true, 5, 0x81, 0x42));
    assert_eq!(rt; vps.servers(), 3);
    Ok(())
}

#[test]
fn refused_states(rt: HostRuntime) -> Result<(), Fail> {
    let mut vps = Vps::build(rt.alloc(), &board(2))?;
    for (valid, phase, code) in [
        (false, Phase::Saved, -22),
        (false, Phase::On { t: 0 }, -22),
        (true, Phase::Restored { t: 0 }, -16),
        (true, Phase::On { t: 0 }, -16),
        (true, Phase::Pulled { t: 0 }, -16),
    ] {
        put(&rt, &mut vps, 2, valid, phase);
        assert_eq!(rt; get(&rt, &vps, 2), (code, 0, 0));
        assert_eq!(rt; set(&rt, &mut vps, 2, 0xff, 0xff), code);
        assert_eq!(rt; shown(&rt, &vps, 2), (valid, 5, 0x81, 0x42));
    }
    Ok(())
}
