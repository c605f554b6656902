//! Presentations that are taken out of those in flight.

ghost use Rattle.std.specs.Prelude.{◌≡◌, ◌≤◌, ◌&&◌, ◌∷◌, ℕ, List, Some, length, slice_get};
ghost use Rattle.xv_model.specs.declared.entries.Entry.{Entry};
ghost use Rattle.xv_model.specs.declared.messages.Message.TheVariants.{Present};
ghost use Rattle.xv_model.specs.declared.operations.EndFlags.{EndFlags};
ghost use Rattle.xv_model.specs.declared.operations.Op.TheVariants.{Take};
ghost use Rattle.xv_model.specs.declared.outcomes.Outcome.TheVariants as out;
ghost use Rattle.xv_model.specs.account.Start.{Start};
ghost use Rattle.xv_model.specs.end.Flags.{may_escalate};
ghost use Rattle.xv_model.specs.route.Taking.{is_undelivered};
ghost use Rattle.router.specs.Messages.{IsPresent};
ghost use Rattle.router.specs.Tables.{StandsFor};

use crate::tables::Tables;
use end_escalate::after_present;
use xv_model::messages::Message;
use xv_model::outcomes::Presented;

impl Tables {
    /// Takes a presentation out of those in flight, of which this became (QEMU's hw/intc/xive.c, the end of
    /// xive_router_end_notify), and answers whether it goes on as an escalation: with e, where its processor
    /// is connected and wasn't reached on a thread. The escalation has the message's fields.
    pub fn end_present(&mut self, i: u32, presented: Presented) -> bool
        requires message { IsPresent (slice_get self.old.messages i) }
        ensures escalates { (e vp priority esc esc_eisn origin : ℕ) (flags : EndFlags)
            → slice_get self.old.messages i ≡ Some (Present e flags vp priority esc esc_eisn origin)
            → result ≡ (is_undelivered presented && may_escalate flags) }
        ensures stands { (z : Start) (h : List Entry) (actor e vp priority esc esc_eisn origin : ℕ) (flags : EndFlags)
            → slice_get self.old.messages i ≡ Some (Present e flags vp priority esc esc_eisn origin)
            → StandsFor self.old z h → StandsFor self.new z
            (record { actor = actor; op = Take i; outcome = out.Present vp priority presented result } ∷ h) }
        ensures few { length self.new.messages ≤ length self.old.messages }
        ensures board { self.new.board ≡ self.old.board }
        ensures ends { self.new.ends ≡ self.old.ends }
    {
        let Some(
            Message::Present {
                e,
                flags,
                vp: _,
                priority: _,
                esc,
                esc_eisn,
                origin,
            },
        ) = self.messages.remove(i as usize)
        else {
            unreachable!()
        };
        let escalates = after_present(flags, presented);
        if escalates {
            self.messages.push_back_reserved(Message::Escalate {
                e,
                flags,
                esc,
                esc_eisn,
                origin,
            });
        }
        escalates
    }
}
