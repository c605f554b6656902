//! Lines of an operation and of what it goes on with: the operations that they make.

ghost use Rattle.std.specs.Prelude.{◌≡◌, ◌<◌, ◌≤◌, ◌-◌, ◌∷◌, ◌++◌, List, option_copied, IfSome, Some, IsTrue};
ghost use Rattle.xv_model.specs.declared.board.Board.{Board};
ghost use Rattle.xv_model.specs.declared.entries.Entry.{Entry};
ghost use Rattle.xv_model.specs.account.Start.{Start};
ghost use Rattle.xv_model.specs.source.Notices.{outstanding};
ghost use Rattle.xv_model.specs.board.Validity.{valid};
ghost use Rattle.board_script.specs.declared.steps.Steps.{Steps as TheSteps};
ghost use Rattle.xv_model.specs.laws.Triggers.{is_forwarded};
ghost use Rattle.xv_model.specs.call.Accepted.{is_success};
ghost use Rattle.board_script.specs.Steps.{has_found, is_accepted, settling, resting, first_from, draining, HasPassed};

use crate::resetting::reset_next;
use xv_model::hypercalls::codes::H_SUCCESS;
use xv_model::known::Known;
use xv_model::operations::{Op, PqOp};
use xv_model::outcomes::Outcome;

/// How a line goes on after its first operation.
#[derive(Clone, Copy)]
pub enum Then {
    /// It is done.
    Done,
    /// The notice of this source is routed, where the operation forwarded one.
    Route {
        s: u32,
    },
    /// The oldest message is taken, where the operation took one.
    Take,
    /// Messages are taken until there is none, and then also after each route of an outstanding notice of this
    /// source; then it is asked whether the source is quiet.
    Sync {
        s: u32,
    },
    /// Messages are taken until there is none, and then also after each route of an outstanding notice of the
    /// sources below `sources`, rising. Those below `from` have no outstanding notice.
    Drain {
        from: u32,
        sources: u32,
    },
    /// A page of this source is accessed, where the call was accepted.
    Esb {
        s: u32,
        page: u8,
        offset: u16,
        store: bool,
    },
    /// The pairs of the initialised sources below `sources` are set to 01, rising, where the call was accepted.
    /// Those below `from` are done.
    Reset {
        from: u32,
        sources: u32,
    },
    /// The word of this source is initialised, where the call was accepted.
    Init {
        s: u32,
        asserted: bool,
    },
}

/// A line on its way: its first operation, and how it goes on. Where it stands is told by the outcome of its last
/// operation, and, where it drains or resets, by its place: the first source that it still looks at.
#[derive(Clone, Copy)]
pub struct Steps {
    pub first: Op,
    pub then: Then,
}

/// Whether an operation on a word forwarded, by what it answered.
fn forwarded(outcome: &Outcome) -> bool
    ensures { result ≡ is_forwarded outcome.now }
{
    match *outcome {
        Outcome::Pq { forward, .. } => forward != 0,
        _ => false,
    }
}

/// Whether a take found a message, by what it answered.
fn found(outcome: &Outcome) -> bool
    ensures { result ≡ has_found outcome.now }
{
    matches!(outcome, Outcome::Present { .. } | Outcome::Escalated { .. })
}

/// Whether a call was accepted, by its code: that of a hypercall, or of a call to the KVM device.
pub fn succeeded(code: i64) -> bool
    ensures { result ≡ is_success code }
{
    code == H_SUCCESS
}

/// Whether an operation is a call that was accepted, by what it answered.
fn accepted(outcome: &Outcome) -> bool
    ensures { result ≡ is_accepted outcome.now }
{
    match outcome {
        Outcome::Reply { reply } => succeeded(reply.code),
        Outcome::Code { code } => succeeded(*code as i64),
        _ => false,
    }
}

/// The operation of a line that settles, after one that answered this: takes until there is no message, and
/// then `settled`; none after a call that was refused.
fn settling(outcome: &Outcome, settled: Op) -> Option<Op>
    ensures { result ≡ settling (Some settled) outcome.now }
{
    match outcome {
        Outcome::NoMessage => Some(settled),
        Outcome::Quiet | Outcome::Busy { .. } => None,
        Outcome::Reply { reply } if !succeeded(reply.code) => None,
        Outcome::Code { code } if !succeeded(*code as i64) => None,
        _ => Some(Op::Take { i: 0 }),
    }
}

/// What a line that brings a source to rest does once it has settled, by how many of the source's notices are
/// outstanding.
fn resting(s: u32, notices: u64) -> Op
    ensures { result ≡ resting s notices }
{
    if notices == 0 {
        Op::Quiet { s }
    } else {
        Op::Route { s }
    }
}

/// The first source from this one on, of so many, with a notice that is outstanding.
pub fn first_outstanding<N: Known>(known: &N, from: u32, sources: u32) -> Option<u32>
    requires { sources ≤ N.sources known.now }
    ensures value { (z : Start) (h : List Entry) → N.knows known.now z h →
        result ≡ first_from (outstanding z h) from (sources - from) }
    ensures below { IfSome result (λ s. s < sources) }
{
    let mut s = from;
    while s < sources {
        if known.out(s) != 0 {
            return Some(s);
        }
        s += 1;
    }
    None
}

/// The operation of a line that drains so many sources, after one that answered this. Once it has settled, it
/// moves on to the first source with a notice that is outstanding.
fn drained<N: Known>(outcome: &Outcome, from: &mut u32, sources: u32, known: &N) -> Option<Op>
    requires { sources ≤ N.sources known.now }
    ensures value { (z : Start) (h : List Entry) → N.knows known.now z h →
        result ≡ settling (draining (first_from (outstanding z h) from.old (sources - from.old))) outcome.now }
    ensures valid { IfSome result (λ o. (b : Board) →
        sources ≤ b.limits.sources → IsTrue (valid b o)) }
    ensures passed { (z : Start) (h : List Entry) → N.knows known.now z h →
        HasPassed (outstanding z h) from.old from.new }
{
    match outcome {
        Outcome::NoMessage => {
            let s = first_outstanding(known, *from, sources)?;
            *from = s;
            Some(Op::Route { s })
        }
        Outcome::Quiet | Outcome::Busy { .. } => None,
        Outcome::Reply { reply } if !succeeded(reply.code) => None,
        Outcome::Code { code } if !succeeded(*code as i64) => None,
        _ => Some(Op::Take { i: 0 }),
    }
}

impl Steps {
    ghost use Rattle.board_script.specs.Steps.{op_from_place, place_of, at_place, MovesTo, WithThen, StepsAskBelow};

    /// Before the first operation: a line that drains or resets begins with the first source.
    pub fn begin(&mut self)
        ensures { self.new ≡ at_place 0 self.old }
    {
        match &mut self.then {
            Then::Drain { from, .. } => *from = 0,
            Then::Reset { from, .. } => *from = 0,
            _ => {}
        }
    }

    /// The operation that the line makes after one that answered this. A line that drains moves on past sources
    /// that have no outstanding notice, and one that resets behind the source that it sets; nothing else of a
    /// line changes.
    pub fn next<N: Known>(&mut self, outcome: &Outcome, known: &N) -> Option<Op>
        requires sources { StepsAskBelow (N.sources known.now) self.old.then }
        ensures value { (z : Start) (h : List Entry) → N.knows known.now z h →
            result ≡ op_from_place self.old.then z h outcome.now }
        ensures valid { IfSome result (λ o. (b : Board) →
            WithThen b self.old.first self.old.then → IsTrue (valid b o)) }
        ensures place { self.new ≡ at_place (place_of self.new.then) self.old }
        ensures moves { IfSome result (λ o. (z : Start) (h : List Entry) → N.knows known.now z h →
            MovesTo self.old.then (place_of self.new.then) z h o) }
    {
        match &mut self.then {
            Then::Route { s } if forwarded(outcome) => Some(Op::Route { s: *s }),
            Then::Take if found(outcome) => Some(Op::Take { i: 0 }),
            Then::Sync { s } => settling(outcome, resting(*s, known.out(*s))),
            Then::Drain { from, sources } => drained(outcome, from, *sources, known),
            Then::Esb {
                s,
                page,
                offset,
                store,
            } if accepted(outcome) => Some(Op::Esb {
                s: *s,
                page: *page,
                offset: *offset,
                store: *store,
            }),
            Then::Reset { from, sources } => reset_next(outcome, from, *sources, known),
            Then::Init { s, asserted } if accepted(outcome) => Some(Op::Pq {
                s: *s,
                op: PqOp::Init {
                    asserted: *asserted,
                },
            }),
            _ => None,
        }
    }
}
