//! Whether a source is quiet.

ghost use Rattle.std.specs.Prelude.{◌≡◌, ◌<◌, ◌≤◌, ◌↔◌, ℕ, List, slice_index_or};
ghost use Rattle.xv_model.specs.declared.entries.Entry.{Entry};
ghost use Rattle.xv_model.specs.declared.outcomes.Outcome.TheVariants.{Quiet};
ghost use Rattle.xv_model.specs.account.Outcomes.{IsWellFormed};
ghost use Rattle.xv_model.specs.account.Start.{Start};
ghost use Rattle.xv_model.specs.source.Notices.{forwards as forwards_of};
ghost use Rattle.xv_model.specs.route.Quiet.{messages_of, quiet_answer, quiet_by};
ghost use Rattle.router.specs.Tables.{StandsFor};

use crate::tables::Tables;
use xv_model::outcomes::Outcome;

/// What is answered of a source of which so many notices are outstanding, and so many messages in flight.
fn answer(notices: u64, messages: u32) -> Outcome
    ensures value { result ≡ quiet_by notices messages }
    ensures quiet { (result ≡ Quiet) ↔ ((notices ≡ 0) × (messages ≡ 0)) }
    ensures well_formed { IsWellFormed result }
{
    if notices == 0 && messages == 0 {
        return Outcome::Quiet;
    }
    Outcome::Busy { notices, messages }
}

impl Tables {
    /// Whether nothing is on its way of a source that forwarded so often: `Quiet`, or `Busy` with how many of its
    /// notices are outstanding, and how many messages that come of one are in flight.
    pub fn quiet(&self, s: u32, forwards: u64) -> Outcome
        requires source { s < self.now.board.limits.sources }
        ensures outcome { (z : Start) (h : List Entry) → StandsFor self.now z h
            → forwards ≡ forwards_of z h s → result ≡ quiet_answer z h s }
        ensures quiet { (result ≡ Quiet) ↔ ((forwards ≤ slice_index_or self.now.routes s 0)
            × (messages_of self.now.messages s ≡ 0)) }
        ensures well_formed { IsWellFormed result }
    {
        let notices = forwards.saturating_sub(self.routes[s as usize]);
        answer(notices, self.flight_of(s))
    }
}
