//! Accesses to the pages of ENDs.

ghost use Rattle.std.specs.Prelude.{◌≡◌, ◌<◌, ◌*◌, ◌↔◌, ◌⊎◌, ◌∷◌, ℕ, List, All, length, slice_set, true, false};
ghost use Rattle.xv_base.specs.Limits.{ends_per_processor};
ghost use Rattle.xv_model.specs.declared.entries.Entry.{Entry};
ghost use Rattle.xv_model.specs.declared.operations.Op.TheVariants.{EndEsb};
ghost use Rattle.xv_model.specs.declared.outcomes.Outcome.TheVariants.{BadOffset, NoEnd};
ghost use Rattle.xv_model.specs.account.Start.{Start};
ghost use Rattle.xv_model.specs.account.Outcomes.{IsWellFormed};
ghost use Rattle.xv_model.specs.end.Flags.{is_valid};
ghost use Rattle.xv_model.specs.end.Pages.{loaded, end_page_answer};
ghost use Rattle.end_queue.specs.Ends.{HasCountsAtMost, end_in};
ghost use Rattle.router.specs.Pages.{state_in, after_load};
ghost use Rattle.router.specs.Tables.{StandsFor};

use crate::tables::Tables;
use bitflags::Flags;
use end_escalate::page_load;
use end_queue::Ends;
use xv_model::operations::EndFlags;
use xv_model::outcomes::Outcome;
use xv_model::pages::END_PAGES;

impl Tables {
    /// A load or a store on a page of an END, at an offset in bytes (QEMU's hw/intc/xive.c,
    /// xive_end_source_read): page 0 is ESn, and page 1 is ESe. A load does to the state what the same
    /// load does to a source, and forwards nothing. `BadOffset` is the answer to each store, and
    /// `NoEnd` that to a load where the END isn't valid; both change nothing.
    pub fn access_end(&mut self, e: u32, page: u8, offset: u16, store: bool) -> Outcome
        requires end { e < ends_per_processor * self.old.board.limits.processors }
        requires page { page < END_PAGES }
        ensures outcome { (z : Start) (h : List Entry) → StandsFor self.old z h
            → result ≡ end_page_answer z h e page offset store }
        ensures stands { (z : Start) (h : List Entry) (actor : ℕ) → StandsFor self.old z h
            → StandsFor self.new z
            (record { actor = actor; op = EndEsb e page offset store; outcome = result } ∷ h) }
        ensures bad_offset { (result ≡ BadOffset) ↔ (store ≡ true) }
        ensures no_end { (result ≡ NoEnd)
            ↔ ((store ≡ false) × (is_valid (end_in self.old.ends e).config ≡ false)) }
        ensures refused { (result ≡ BadOffset) ⊎ (result ≡ NoEnd) → self.new ≡ self.old }
        ensures well_formed { IsWellFormed result }
        ensures board { self.new.board ≡ self.old.board }
        ensures counts { (n : ℕ)
            → All (HasCountsAtMost n) self.old.ends → All (HasCountsAtMost n) self.new.ends }
    {
        if store {
            return Outcome::BadOffset;
        }
        if !self.ends.config(e).flags.contains(EndFlags::VALID) {
            return Outcome::NoEnd;
        }
        load_state(&mut self.ends, e, page, offset)
    }
}

/// Loads the page of a state of a valid END.
fn load_state(ends: &mut Ends, e: u32, page: u8, offset: u16) -> Outcome
    requires { e < length ends.old }
    ensures outcome { result ≡ loaded offset (state_in (end_in ends.old e) page) }
    ensures ends { ends.new ≡ slice_set ends.old e (after_load (end_in ends.old e) page offset) }
    ensures well_formed { IsWellFormed result }
{
    let old = if page == 0 { ends.esn(e) } else { ends.ese(e) };
    let new = page_load(old, offset);
    if page == 0 {
        ends.set_esn(e, new);
    } else {
        ends.set_ese(e, new);
    }
    Outcome::EndPq { old, new }
}
