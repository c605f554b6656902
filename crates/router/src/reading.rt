//! Reads of the queues of ENDs.

ghost use Rattle.std.specs.Prelude.{◌≡◌, ◌<◌, ◌+◌, ◌*◌, ◌↔◌, ◌⊎◌, ◌∷◌, ℕ, List, All, length, false};
ghost use Rattle.xv_base.specs.Limits.{ends_per_processor};
ghost use Rattle.xv_model.specs.declared.entries.Entry.{Entry};
ghost use Rattle.xv_model.specs.declared.operations.Op.TheVariants.{Read};
ghost use Rattle.xv_model.specs.declared.outcomes.Outcome.TheVariants.{Empty, NoQueue};
ghost use Rattle.xv_model.specs.account.Start.{Start};
ghost use Rattle.xv_model.specs.account.Outcomes.{IsWellFormed};
ghost use Rattle.xv_model.specs.board.Validity.{ram_size};
ghost use Rattle.xv_model.specs.end.Reading.{read_outcome};
ghost use Rattle.guest_ram.specs.Ram.{StandsFor as MemoryStandsFor};
ghost use Rattle.end_queue.specs.Ends.{HasCountsAtMost, HasRoom, end_in, has_queue};
ghost use Rattle.router.specs.Tables.{StandsFor};

use crate::tables::Tables;
use guest_ram::Ram;
use xv_model::outcomes::Outcome;

impl Tables {
    /// Reads the queue of an END as a guest does (Linux's arch/powerpc/sysdev/xive/common.c,
    /// xive_read_eq): `NoQueue` where the END isn't valid or has no queue, and `Empty` where its next
    /// entry isn't in this memory, which is that of the board; both change nothing.
    pub fn read(&mut self, ram: &Ram, e: u32) -> Outcome
        requires end { e < ends_per_processor * self.old.board.limits.processors }
        requires memory { 4 * length ram.now ≡ ram_size self.old.board }
        requires room { All HasRoom self.old.ends }
        ensures outcome { (z : Start) (h : List Entry) → StandsFor self.old z h
            → MemoryStandsFor ram.now z h → result ≡ read_outcome z h e }
        ensures stands { (z : Start) (h : List Entry) (actor : ℕ) → StandsFor self.old z h
            → StandsFor self.new z (record { actor = actor; op = Read e; outcome = result } ∷ h) }
        ensures no_queue { (result ≡ NoQueue) ↔ (has_queue (end_in self.old.ends e).config ≡ false) }
        ensures refused { (result ≡ NoQueue) ⊎ (result ≡ Empty) → self.new ≡ self.old }
        ensures well_formed { IsWellFormed result }
        ensures board { self.new.board ≡ self.old.board }
        ensures counts { (n : ℕ)
            → All (HasCountsAtMost n) self.old.ends → All (HasCountsAtMost (n + 1)) self.new.ends }
    {
        self.ends.read(ram, e)
    }
}
