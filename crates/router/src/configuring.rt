//! Configurations of ENDs.

ghost use Rattle.std.specs.Prelude.{◌≡◌, ◌<◌, ◌*◌, ◌∷◌, ℕ, List, All, IsTrue};
ghost use Rattle.xv_base.specs.Limits.{ends_per_processor};
ghost use Rattle.xv_model.specs.declared.entries.Entry.{Entry};
ghost use Rattle.xv_model.specs.declared.operations.Op.TheVariants.{EndSet};
ghost use Rattle.xv_model.specs.declared.outcomes.Outcome.TheVariants.{Fine};
ghost use Rattle.xv_model.specs.account.Start.{Start};
ghost use Rattle.xv_model.specs.board.Validity.{valid_config};
ghost use Rattle.end_queue.specs.Ends.{HasCountsAtMost};
ghost use Rattle.router.specs.Tables.{StandsFor};

use crate::tables::Tables;
use xv_model::operations::EndConfig;

impl Tables {
    /// Configures an END: its counts begin anew, and so do its states.
    pub fn configure(&mut self, e: u32, config: &EndConfig)
        requires end { e < ends_per_processor * self.old.board.limits.processors }
        requires config { IsTrue (valid_config self.old.board config.now) }
        ensures stands { (z : Start) (h : List Entry) (actor : ℕ) → StandsFor self.old z h
            → StandsFor self.new z
            (record { actor = actor; op = EndSet e config.now; outcome = Fine } ∷ h) }
        ensures board { self.new.board ≡ self.old.board }
        ensures counts { (n : ℕ)
            → All (HasCountsAtMost n) self.old.ends → All (HasCountsAtMost n) self.new.ends }
    {
        self.ends.configure(e, config);
    }
}
