//! Presentations to processors.

ghost use Rattle.std.specs.Prelude.{◌≡◌, ◌<◌, ◌∷◌, ℕ, Bool, List, length};
ghost use Rattle.xv_model.specs.declared.entries.Entry.{Entry};
ghost use Rattle.xv_model.specs.declared.operations.Op.TheVariants.{Take};
ghost use Rattle.xv_model.specs.declared.outcomes.Outcome.TheVariants.{Present};
ghost use Rattle.xv_model.specs.account.Start.{Start};
ghost use Rattle.xv_model.specs.route.Taking.{presented_to};
ghost use Rattle.fabric_core.specs.Processors.{StandsFor};

use crate::processors::Processors;
use xv_model::outcomes::Presented;

impl Processors {
    /// Presents a priority to a processor: what becomes of it. Where a connected processor isn't on a thread, a
    /// message with b (`backlog`) is kept in its backlog, and any other is lost.
    pub fn present(&mut self, v: u32, priority: u8, backlog: bool) -> Presented
        requires processor { v < length self.old.vps.vps }
        requires priority { priority < 8 }
        ensures presented { (z : Start) (h : List Entry) → StandsFor self.old z h → result ≡ presented_to z h backlog v }
        ensures stands { (z : Start) (h : List Entry) (actor i : ℕ) (escalates : Bool) → StandsFor self.old z h
            → StandsFor self.new z (record { actor = actor; op = Take i; outcome = Present v priority result escalates } ∷ h) }
        ensures processors { length self.new.vps.vps ≡ length self.old.vps.vps }
        ensures threads { length self.new.rings ≡ length self.old.rings }
    {
        presenter::present(&mut self.vps, &mut self.rings, v, priority, backlog)
    }
}
