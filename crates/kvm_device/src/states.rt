//! The state of a processor, while its context is saved.

ghost use Rattle.std.specs.Prelude.{◌≡◌, ◌<◌, ◌∷◌, ℕ, List, IsTrue, length, slice_set, true, false};
ghost use Rattle.xv_model.specs.declared.entries.Entry.{Entry};
ghost use Rattle.xv_model.specs.declared.outcomes.Outcome.TheVariants.{Code};
ghost use Rattle.xv_model.specs.declared.operations.Op.TheVariants.{VpSet};
ghost use Rattle.xv_model.specs.account.Outcomes.{IsWellFormed};
ghost use Rattle.xv_model.specs.account.Start.{Start};
ghost use Rattle.xv_model.specs.call.Accepted.{is_success};
ghost use Rattle.xv_model.specs.device.Answers.{vp_state_code, vp_state_outcome};
ghost use Rattle.xv_model.specs.processor.Phases.{is_connected, is_saved, phase};
ghost use Rattle.nvt_backlog.specs.Accounts.{IsVp, StandFor};
ghost use Rattle.nvt_backlog.specs.Vps.{AreConnected, vp_in, with_state};

use nvt_backlog::Vps;
use xv_model::kvm::errors::{EBUSY, EINVAL};
use xv_model::outcomes::{Outcome, Phase};

/// The code of getting or setting the state of a processor.
fn state_code(vps: &Vps, v: u32) -> i32
    requires { v < length vps.now.vps }
    ensures value { (z : Start) (h : List Entry) → (vp_in vps.now.vps v).valid ≡ is_connected z h v
        → (vp_in vps.now.vps v).phase ≡ phase z h v → result ≡ vp_state_code z h v }
    ensures saved { is_success result ≡ true → is_saved (vp_in vps.now.vps v).phase ≡ true }
{
    let vp = vps.get(v);
    if !vp.valid {
        return EINVAL;
    }
    match vp.phase {
        Phase::Saved => 0,
        _ => EBUSY,
    }
}

/// The state of a processor (kvmppc_xive_native_get_vp): its CPPR, and as its IPB all that is pending for it, with what
/// came while it wasn't on a thread. Errors: EINVAL for a processor that isn't connected, and EBUSY for one whose context
/// isn't saved.
pub fn vp_state(vps: &Vps, v: u32) -> Outcome
    requires { v < length vps.now.vps }
    ensures outcome { (z : Start) (h : List Entry) → IsVp (vp_in vps.now.vps v) z h v → result ≡ vp_state_outcome z h v }
    ensures well_formed { IsWellFormed result }
{
    let code = state_code(vps, v);
    if code != 0 {
        return Outcome::Code { code };
    }
    let vp = vps.get(v);
    Outcome::Context {
        cppr: vp.cppr,
        ipb: vp.ipb | vp.backlog,
    }
}

/// Sets the state of a processor (kvmppc_xive_native_set_vp).
///
/// Arguments: processor, CPPR, where a value above 7 becomes 0xff, and IPB, which is all that is pending for it then:
/// what came while it wasn't on a thread is forgotten. Errors: EINVAL for a processor that isn't connected, and EBUSY for
/// one whose context isn't saved.
pub fn set_vp_state(vps: &mut Vps, v: u32, cppr: u8, ipb: u8) -> i32
    requires { v < length vps.old.vps }
    ensures code { (z : Start) (h : List Entry) → IsVp (vp_in vps.old.vps v) z h v → result ≡ vp_state_code z h v }
    ensures stands { (z : Start) (h : List Entry) (actor : ℕ) → StandFor vps.old.vps z h
        → StandFor vps.new.vps z (record { actor = actor; op = VpSet v cppr ipb; outcome = Code result } ∷ h) }
    ensures accepted { is_success result ≡ true
        → vps.new.vps ≡ slice_set vps.old.vps v (with_state cppr ipb (vp_in vps.old.vps v)) }
    ensures saved { is_success result ≡ true → is_saved (vp_in vps.old.vps v).phase ≡ true }
    ensures servers { vps.new.servers ≡ vps.old.servers }
    ensures refused { is_success result ≡ false → vps.new ≡ vps.old }
{
    let code = state_code(vps, v);
    if code != 0 {
        return code;
    }
    vps.set_state(v, cppr, ipb);
    0
}
