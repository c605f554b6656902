//! The moves of contexts, by operations and by accesses to the TIMA.

ghost use Rattle.std.specs.Prelude.{◌≡◌, ◌≢◌, ◌<◌, ◌∷◌, ℕ, List, length, OnOk};
ghost use Rattle.xv_model.specs.declared.outcomes.MoveRefused.{MoveRefused};
ghost use Rattle.xv_model.specs.declared.outcomes.Outcome.TheVariants.{BadAccess, Fine, Refused, Value};
ghost use Rattle.xv_model.specs.declared.entries.Entry.{Entry};
ghost use Rattle.xv_model.specs.declared.operations.Op.TheVariants.{Restore, Save};
ghost use Rattle.xv_model.specs.declared.tima.RingOp.TheVariants.{Push, Pull};
ghost use Rattle.xv_model.specs.account.Outcomes.{IsWellFormed};
ghost use Rattle.xv_model.specs.account.Start.{Start};
ghost use Rattle.xv_model.specs.processor.Moves.{restore_outcome, save_outcome, push_outcome, pull_outcome};
ghost use Rattle.fabric_core.specs.Processors.{StandsFor, StandsAfter};

use crate::processors::Processors;
use xv_model::outcomes::{MoveRefused, Outcome};

/// What a move answers: `Fine`, or why it is refused.
fn done(moved: Result<(), MoveRefused>) -> Outcome
    ensures well_formed { IsWellFormed result }
    ensures fine { OnOk moved (result ≡ Fine) }
    ensures refused { (why : MoveRefused) → moved ≡ Err why → result ≡ Refused why }
    ensures good_access { result ≢ BadAccess }
{
    match moved {
        Ok(()) => Outcome::Fine,
        Err(why) => Outcome::Refused { why },
    }
}

/// What a pull answers: the CAM word of the context that it took off a thread, or why it is refused.
fn pulled(moved: Result<u32, MoveRefused>) -> Outcome
    ensures value { (cam : ℕ) → moved ≡ Ok cam → result ≡ Value cam }
    ensures refused { (why : MoveRefused) → moved ≡ Err why → result ≡ Refused why }
    ensures good_access { result ≢ BadAccess }
{
    match moved {
        Ok(cam) => Outcome::Value { value: cam as u64 },
        Err(why) => Outcome::Refused { why },
    }
}

impl Processors {
    /// Restores the context of a processor on a thread. Refused, it changes nothing.
    pub fn restore(&mut self, v: u32, t: u32) -> Outcome
        requires processor { v < length self.old.vps.vps }
        requires thread { t < length self.old.rings }
        ensures outcome { (z : Start) (h : List Entry) → StandsFor self.old z h → result ≡ restore_outcome z h v t }
        ensures stands { (z : Start) (h : List Entry) (actor : ℕ) → StandsFor self.old z h
            → StandsFor self.new z (record { actor = actor; op = Restore v t; outcome = result } ∷ h) }
        ensures refused { (why : MoveRefused) → result ≡ Refused why → self.new ≡ self.old }
        ensures well_formed { IsWellFormed result }
        ensures processors { length self.new.vps.vps ≡ length self.old.vps.vps }
        ensures threads { length self.new.rings ≡ length self.old.rings }
    {
        done(presenter::restore(&mut self.vps, &mut self.rings, v, t))
    }

    /// Saves the context of a processor. Refused, it changes nothing.
    pub fn save(&mut self, v: u32) -> Outcome
        requires processor { v < length self.old.vps.vps }
        ensures outcome { (z : Start) (h : List Entry) → StandsFor self.old z h → result ≡ save_outcome z h v }
        ensures stands { (z : Start) (h : List Entry) (actor : ℕ) → StandsFor self.old z h
            → StandsFor self.new z (record { actor = actor; op = Save v; outcome = result } ∷ h) }
        ensures refused { (why : MoveRefused) → result ≡ Refused why → self.new ≡ self.old }
        ensures well_formed { IsWellFormed result }
        ensures processors { length self.new.vps.vps ≡ length self.old.vps.vps }
        ensures threads { length self.new.rings ≡ length self.old.rings }
    {
        done(presenter::save(&mut self.vps, &mut self.rings, v))
    }

    /// Pushes the context with a CAM word onto a thread. Refused, it changes nothing.
    pub(crate) fn push(&mut self, t: u32, cam: u32) -> Outcome
        requires thread { t < length self.old.rings }
        ensures outcome { (z : Start) (h : List Entry) → StandsFor self.old z h → result ≡ push_outcome z h t cam }
        ensures stands { StandsAfter self.old self.new t (Push cam) result }
        ensures refused { (why : MoveRefused) → result ≡ Refused why → self.new ≡ self.old }
        ensures good_access { result ≢ BadAccess }
        ensures well_formed { IsWellFormed result }
        ensures processors { length self.new.vps.vps ≡ length self.old.vps.vps }
        ensures threads { length self.new.rings ≡ length self.old.rings }
    {
        done(presenter::push(&mut self.vps, &mut self.rings, t, cam))
    }

    /// Pulls the context off a thread. Refused, it changes nothing.
    pub(crate) fn pull(&mut self, t: u32) -> Outcome
        requires thread { t < length self.old.rings }
        ensures outcome { (z : Start) (h : List Entry) → StandsFor self.old z h → result ≡ pull_outcome z h t }
        ensures stands { StandsAfter self.old self.new t Pull result }
        ensures refused { (why : MoveRefused) → result ≡ Refused why → self.new ≡ self.old }
        ensures good_access { result ≢ BadAccess }
        ensures well_formed { IsWellFormed result }
        ensures processors { length self.new.vps.vps ≡ length self.old.vps.vps }
        ensures threads { length self.new.rings ≡ length self.old.rings }
    {
        pulled(presenter::pull(&mut self.vps, &mut self.rings, t))
    }
}
