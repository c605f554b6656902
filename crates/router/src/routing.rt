//! Routes of notices.

ghost use Rattle.std.specs.Prelude.{◌≡◌, ◌<◌, ◌≤◌, ◌+◌, ◌*◌, ◌^◌, ◌↔◌, ◌⊎◌, ◌∷◌, ℕ, List, length, All};
ghost use Rattle.std.specs.Prelude.{IfSome, IsTrue, slice_index_or};
ghost use Rattle.std.specs.VecDeque.{deque_len, deque_capacity};
ghost use Rattle.xv_base.specs.Limits.{most_messages};
ghost use Rattle.xv_model.specs.declared.entries.Entry.{Entry};
ghost use Rattle.xv_model.specs.declared.operations.Op.TheVariants.{Route};
ghost use Rattle.xv_model.specs.declared.outcomes.Outcome.TheVariants.{NoNotice, BusFull};
ghost use Rattle.xv_model.specs.account.Start.{Start};
ghost use Rattle.xv_model.specs.source.Notices.{forwards as forwards_of};
ghost use Rattle.xv_model.specs.route.Routing.{route_outcome};
ghost use Rattle.xv_model.specs.account.Outcomes.{IsWellFormed};
ghost use Rattle.xv_model.specs.board.Validity.{fits, ram_size};
ghost use Rattle.guest_ram.specs.Ram.{StandsFor as MemoryStandsFor};
ghost use Rattle.end_queue.specs.Ends.{HasCountsAtMost, HasPage, HasRoom, end_in, has_queue};
ghost use Rattle.router.specs.Passes.{with_write};
ghost use Rattle.router.specs.Routing.{routed_in, ends_after, messages_after, write_in};
ghost use Rattle.router.specs.Tables.{StandsFor};

use crate::passes::run;
use crate::tables::Tables;
use end_queue::Ends;
use guest_ram::Ram;
use std::collections::VecDeque;
use xv_base::limits::MOST_MESSAGES;
use xv_model::eas::Eas;
use xv_model::messages::Message;
use xv_model::outcomes::{Outcome, Routed};

impl Tables {
    /// Routes a notice of a source that forwarded so often (QEMU's hw/intc/xive.c,
    /// xive_router_notify): `NoNotice` where none is outstanding, `BusFull` where there is no room
    /// for another message; both change nothing. A routed notice has the number `k` among those of
    /// its source, from 1 on. The queues lie in this memory, which is that of the board.
    pub fn route(&mut self, ram: &mut Ram, s: u32, forwards: u64) -> Outcome
        requires source { s < self.old.board.limits.sources }
        requires memory { 4 * length ram.old ≡ ram_size self.old.board }
        requires room { All HasRoom self.old.ends }
        ensures outcome { (z : Start) (h : List Entry) → StandsFor self.old z h
            → forwards ≡ forwards_of z h s → result ≡ route_outcome z h s }
        ensures stands { (z : Start) (h : List Entry) (actor : ℕ)
            → StandsFor self.old z h → forwards ≡ forwards_of z h s
            → StandsFor self.new z (record { actor = actor; op = Route s; outcome = result } ∷ h) }
        ensures memory { (z : Start) (h : List Entry) (actor : ℕ) → MemoryStandsFor ram.old z h
            → MemoryStandsFor ram.new z
            (record { actor = actor; op = Route s; outcome = result } ∷ h) }
        ensures no_notice { (result ≡ NoNotice) ↔ (forwards ≤ slice_index_or self.old.routes s 0) }
        ensures bus_full { (result ≡ BusFull)
            ↔ ((slice_index_or self.old.routes s 0 < forwards)
            × (length self.old.messages ≡ most_messages)) }
        ensures refused { (result ≡ NoNotice) ⊎ (result ≡ BusFull)
            → (self.new ≡ self.old) × (ram.new ≡ ram.old) }
        ensures well_formed { IsWellFormed result }
        ensures board { self.new.board ≡ self.old.board }
        ensures size { length ram.new ≡ length ram.old }
        ensures counts { (n : ℕ)
            → All (HasCountsAtMost n) self.old.ends → All (HasCountsAtMost (n + 1)) self.new.ends }
    {
        let k = self.routes[s as usize];
        if forwards <= k {
            return Outcome::NoNotice;
        }
        if self.messages.len() == MOST_MESSAGES {
            return Outcome::BusFull;
        }
        self.routes[s as usize] = k + 1;
        let eas = self.eas.get(s);
        let routed = route_by_eas(&mut self.ends, ram, &mut self.messages, s, &eas);
        Outcome::Routed { k: k + 1, routed }
    }
}

/// Routes a notice of a source by its EAS: a pass of its END, and the message that this makes,
/// unless the EAS isn't valid or is masked.
fn route_by_eas(
    ends: &mut Ends,
    ram: &mut Ram,
    messages: &mut VecDeque<Message>,
    s: u32,
    eas: &Eas,
) -> Routed
    requires end { eas.now.end < length ends.old }
    requires page { IsTrue (has_queue (end_in ends.old eas.now.end).config)
        → HasPage (length ram.old) (end_in ends.old eas.now.end).config }
    requires room { HasRoom (end_in ends.old eas.now.end) }
    requires payload { eas.now.eisn < 2 ^ 31 }
    requires free { deque_len messages.old < deque_capacity messages.old }
    ensures routed { result ≡ routed_in ends.old eas.now }
    ensures ends { ends.new ≡ ends_after ends.old eas.now }
    ensures ram { ram.new ≡ with_write (write_in result) ram.old }
    ensures fits { IfSome (write_in result) (λ w. IsTrue (fits (4 * length ram.old) w.addr 4)) }
    ensures messages { messages.new.items ≡ messages_after s ends.old eas.now messages.old.items }
    ensures few { deque_len messages.new ≤ deque_len messages.old + 1 }
    ensures capacity { deque_capacity messages.old ≤ deque_capacity messages.new }
{
    if !eas.valid {
        return Routed::NoSource;
    }
    if eas.masked {
        return Routed::Masked;
    }
    let run = run(ends, ram, messages, eas.end, eas.eisn, s);
    Routed::Run { run }
}
