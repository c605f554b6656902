//! The states of processors, as a hypervisor gets and sets them.

ghost use Rattle.std.specs.Prelude.{◌≡◌, ◌<◌, ◌∷◌, ℕ, ℤ, List, length, false};
ghost use Rattle.xv_model.specs.declared.entries.Entry.{Entry};
ghost use Rattle.xv_model.specs.declared.operations.Op.TheVariants.{VpSet};
ghost use Rattle.xv_model.specs.declared.outcomes.Outcome.TheVariants.{Code};
ghost use Rattle.xv_model.specs.account.Outcomes.{IsWellFormed};
ghost use Rattle.xv_model.specs.account.Start.{Start};
ghost use Rattle.xv_model.specs.call.Accepted.{is_success};
ghost use Rattle.xv_model.specs.device.Answers.{vp_state_code, vp_state_outcome};
ghost use Rattle.fabric_core.specs.Processors.{StandsFor};

use crate::processors::Processors;
use kvm_device::{set_vp_state, vp_state};
use xv_model::outcomes::Outcome;

impl Processors {
    /// The state of a processor, with what is in its backlog.
    pub fn state(&self, v: u32) -> Outcome
        requires { v < length self.now.vps.vps }
        ensures outcome { (z : Start) (h : List Entry) → StandsFor self.now z h → result ≡ vp_state_outcome z h v }
        ensures well_formed { IsWellFormed result }
    {
        vp_state(&self.vps, v)
    }

    /// Sets the state of a processor. Refused, it changes nothing.
    pub fn set_state(&mut self, v: u32, cppr: u8, ipb: u8) -> Outcome
        requires { v < length self.old.vps.vps }
        ensures outcome { (z : Start) (h : List Entry) → StandsFor self.old z h → result ≡ Code (vp_state_code z h v) }
        ensures stands { (z : Start) (h : List Entry) (actor : ℕ) → StandsFor self.old z h
            → StandsFor self.new z (record { actor = actor; op = VpSet v cppr ipb; outcome = result } ∷ h) }
        ensures refused { (code : ℤ) → result ≡ Code code → is_success code ≡ false → self.new ≡ self.old }
        ensures well_formed { IsWellFormed result }
        ensures processors { length self.new.vps.vps ≡ length self.old.vps.vps }
        ensures threads { length self.new.rings ≡ length self.old.rings }
    {
        Outcome::Code {
            code: set_vp_state(&mut self.vps, v, cppr, ipb),
        }
    }
}
