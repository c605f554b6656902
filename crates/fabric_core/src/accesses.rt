//! What accesses to the TIMA do to the rings of threads.

ghost use Rattle.std.specs.Prelude.{◌≡◌, ◌≢◌, ◌<◌, ℕ, List, length};
ghost use Rattle.xv_model.specs.declared.entries.Entry.{Entry};
ghost use Rattle.xv_model.specs.declared.outcomes.MoveRefused.{MoveRefused};
ghost use Rattle.xv_model.specs.declared.outcomes.Outcome.TheVariants.{BadAccess, Refused};
ghost use Rattle.xv_model.specs.declared.tima.RingOp.TheVariants.{Load, SetCppr, Accept, Inject};
ghost use Rattle.xv_model.specs.account.Outcomes.{IsWellFormed};
ghost use Rattle.xv_model.specs.account.Start.{Start};
ghost use Rattle.xv_model.specs.processor.Accesses.{ring_outcome};
ghost use Rattle.tima_access.specs.Accesses.{IsInRing};
ghost use Rattle.fabric_core.specs.Processors.{StandsFor, StandsAfter};
ghost use Rattle.thread_context.specs.Ring.{is_valid};
ghost use Rattle.thread_context.specs.Rings.{ring_in};

use crate::processors::Processors;
use xv_model::outcomes::{MoveRefused, Outcome};
use xv_model::tima::{CAM_VALID, RingOp};

/// What is answered where no processor is on a thread.
const NO_CONTEXT: Outcome = Outcome::Refused {
    why: MoveRefused::NoContext,
};

impl Processors {
    /// Whether a processor is on a thread.
    fn is_on(&self, t: u32) -> bool
        requires thread { t < length self.now.rings }
        ensures { result ≡ is_valid (ring_in self.now.rings t).cam }
    {
        self.rings.get(t).cam >= CAM_VALID
    }

    /// Stores CPPR, where a processor is on the thread.
    fn set_cppr(&mut self, t: u32, value: u8) -> Outcome
        requires thread { t < length self.old.rings }
        ensures outcome { (z : Start) (h : List Entry) → StandsFor self.old z h → result ≡ ring_outcome z h t (SetCppr value) }
        ensures stands { StandsAfter self.old self.new t (SetCppr value) result }
        ensures refused { (why : MoveRefused) → result ≡ Refused why → self.new ≡ self.old }
        ensures good_access { result ≢ BadAccess }
        ensures well_formed { IsWellFormed result }
        ensures vps { self.new.vps ≡ self.old.vps }
        ensures threads { length self.new.rings ≡ length self.old.rings }
    {
        if !self.is_on(t) {
            return NO_CONTEXT;
        }
        self.rings.set_cppr(t, value);
        Outcome::Stored
    }

    /// Acknowledges, where a processor is on the thread.
    fn accept(&mut self, t: u32) -> Outcome
        requires thread { t < length self.old.rings }
        ensures outcome { (z : Start) (h : List Entry) → StandsFor self.old z h → result ≡ ring_outcome z h t Accept }
        ensures stands { StandsAfter self.old self.new t Accept result }
        ensures refused { (why : MoveRefused) → result ≡ Refused why → self.new ≡ self.old }
        ensures good_access { result ≢ BadAccess }
        ensures well_formed { IsWellFormed result }
        ensures vps { self.new.vps ≡ self.old.vps }
        ensures threads { length self.new.rings ≡ length self.old.rings }
    {
        if !self.is_on(t) {
            return NO_CONTEXT;
        }
        Outcome::Value {
            value: self.rings.accept(t) as u64,
        }
    }

    /// Makes a priority pending, where a processor is on the thread.
    fn inject(&mut self, t: u32, priority: u8) -> Outcome
        requires thread { t < length self.old.rings }
        ensures outcome { (z : Start) (h : List Entry) → StandsFor self.old z h → result ≡ ring_outcome z h t (Inject priority) }
        ensures stands { StandsAfter self.old self.new t (Inject priority) result }
        ensures refused { (why : MoveRefused) → result ≡ Refused why → self.new ≡ self.old }
        ensures good_access { result ≢ BadAccess }
        ensures well_formed { IsWellFormed result }
        ensures vps { self.new.vps ≡ self.old.vps }
        ensures threads { length self.new.rings ≡ length self.old.rings }
    {
        if !self.is_on(t) {
            return NO_CONTEXT;
        }
        self.rings.add_pending(t, priority);
        Outcome::Stored
    }

    /// What an access to a page of the TIMA answers that does this to the ring of a thread. A load changes nothing,
    /// nor does what is refused, as all but loads and pushes are where no processor is on the thread.
    pub fn access(&mut self, t: u32, op: RingOp) -> Outcome
        requires thread { t < length self.old.rings }
        requires inside { IsInRing op }
        ensures outcome { (z : Start) (h : List Entry) → StandsFor self.old z h → result ≡ ring_outcome z h t op }
        ensures stands { StandsAfter self.old self.new t op result }
        ensures loads { (at size : ℕ) → op ≡ Load at size → self.new ≡ self.old }
        ensures refused { (why : MoveRefused) → result ≡ Refused why → self.new ≡ self.old }
        ensures good_access { result ≢ BadAccess }
        ensures well_formed { IsWellFormed result }
        ensures processors { length self.new.vps.vps ≡ length self.old.vps.vps }
        ensures threads { length self.new.rings ≡ length self.old.rings }
    {
        match op {
            RingOp::Load { at, size } => Outcome::Value {
                value: self.rings.bytes(t, at, size),
            },
            RingOp::SetCppr { value } => self.set_cppr(t, value),
            RingOp::Accept => self.accept(t),
            RingOp::Inject { priority } => self.inject(t, priority),
            RingOp::Push { cam } => self.push(t, cam),
            RingOp::Pull => self.pull(t),
        }
    }
}
