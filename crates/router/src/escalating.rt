//! Escalations that are taken out of those in flight.

ghost use Rattle.std.specs.Prelude.{◌≡◌, ◌≢◌, ◌≤◌, ◌+◌, ◌*◌, ◌↔◌, ◌∷◌, ℕ, List, All, Some, None, length, slice_get, false};
ghost use Rattle.xv_model.specs.declared.entries.Entry.{Entry};
ghost use Rattle.xv_model.specs.declared.messages.Message.TheVariants.{Escalate};
ghost use Rattle.xv_model.specs.declared.operations.EndFlags.{EndFlags};
ghost use Rattle.xv_model.specs.declared.operations.Op.TheVariants.{Take};
ghost use Rattle.xv_model.specs.declared.outcomes.Outcome.TheVariants.{Escalated};
ghost use Rattle.xv_model.specs.account.Start.{Start};
ghost use Rattle.xv_model.specs.board.Validity.{ram_size};
ghost use Rattle.xv_model.specs.end.Flags.{always_escalates};
ghost use Rattle.xv_model.specs.route.Taking.{escalate_outcome};
ghost use Rattle.guest_ram.specs.Ram.{StandsFor as MemoryStandsFor};
ghost use Rattle.end_queue.specs.Ends.{HasCountsAtMost, HasRoom, end_in};
ghost use Rattle.router.specs.Messages.{IsEscalate};
ghost use Rattle.router.specs.Tables.{StandsFor};

use crate::passes::run;
use crate::tables::Tables;
use end_escalate::escalate_state;
use guest_ram::Ram;
use xv_model::messages::Message;
use xv_model::outcomes::EndRun;

impl Tables {
    /// Takes an escalation out of those in flight (QEMU's hw/intc/xive.c, the end of xive_router_end_notify), and
    /// answers the pass of the escalation END with the escalation payload; none where the state of its END
    /// coalesced it, exactly where the message hasn't u and that state isn't 00. The queues lie in this memory,
    /// which is that of the board.
    pub fn end_escalate(&mut self, ram: &mut Ram, i: u32) -> Option<EndRun>
        requires message { IsEscalate (slice_get self.old.messages i) }
        requires memory { 4 * length ram.old ≡ ram_size self.old.board }
        requires room { All HasRoom self.old.ends }
        ensures outcome { (z : Start) (h : List Entry) (e esc esc_eisn origin : ℕ) (flags : EndFlags)
            → slice_get self.old.messages i ≡ Some (Escalate e flags esc esc_eisn origin)
            → StandsFor self.old z h
            → Escalated e result ≡ escalate_outcome z h e flags esc esc_eisn }
        ensures stands { (z : Start) (h : List Entry) (actor e esc esc_eisn origin : ℕ) (flags : EndFlags)
            → slice_get self.old.messages i ≡ Some (Escalate e flags esc esc_eisn origin)
            → StandsFor self.old z h → StandsFor self.new z
            (record { actor = actor; op = Take i; outcome = Escalated e result } ∷ h) }
        ensures memory { (z : Start) (h : List Entry) (actor e : ℕ) → MemoryStandsFor ram.old z h
            → MemoryStandsFor ram.new z
            (record { actor = actor; op = Take i; outcome = Escalated e result } ∷ h) }
        ensures coalesced { (e esc esc_eisn origin : ℕ) (flags : EndFlags)
            → slice_get self.old.messages i ≡ Some (Escalate e flags esc esc_eisn origin)
            → (result ≡ None) ↔ ((always_escalates flags ≡ false) × ((end_in self.old.ends e).ese ≢ 0)) }
        ensures few { length self.new.messages ≤ length self.old.messages }
        ensures board { self.new.board ≡ self.old.board }
        ensures size { length ram.new ≡ length ram.old }
        ensures counts { (n : ℕ)
            → All (HasCountsAtMost n) self.old.ends → All (HasCountsAtMost (n + 1)) self.new.ends }
    {
        let Some(
            Message::Escalate {
                e,
                flags,
                esc,
                esc_eisn,
                origin,
            },
        ) = self.messages.remove(i as usize)
        else {
            unreachable!()
        };
        let (ese, goes_on) = escalate_state(flags, self.ends.ese(e));
        self.ends.set_ese(e, ese);
        if !goes_on {
            return None;
        }
        Some(run(
            &mut self.ends,
            ram,
            &mut self.messages,
            esc,
            esc_eisn,
            origin,
        ))
    }
}
