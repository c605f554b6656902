//! Work lines, and the operations that they make.

ghost use Rattle.std.specs.Prelude.{◌≡◌, [], ◌∷◌, ◌++◌, List, option_copied, IfSome, None, Some, IsTrue};
ghost use Rattle.xv_model.specs.declared.board.Board.{Board};
ghost use Rattle.xv_model.specs.declared.entries.Entry.{Entry};
ghost use Rattle.xv_model.specs.account.Start.{Start};
ghost use Rattle.xv_model.specs.board.Validity.{valid};
ghost use Rattle.board_script.specs.declared.work.Work.{Work as AWork};

use crate::migrating::Migration;
use crate::steps::{Steps, Then};
use xv_model::known::Known;
use xv_model::operations::{Op, PqOp};
use xv_model::outcomes::Outcome;

/// A work line on its way.
#[derive(Clone, Copy)]
pub enum Work {
    /// An operation, and what it goes on with.
    Simple { steps: Steps },
    /// A migration.
    Migrate { migration: Migration },
}

impl Work {
    ghost use Rattle.board_script.specs.Work.{once, with_then, then_route, sync, drain, migrate, next_op, IsAt, IsLast, Falls, HasValidSteps, AsksBelow};

    /// Takes of the oldest message, until there is none.
    pub(crate) const SETTLE: Work = Work::Simple {
        steps: Steps {
            first: Op::Take { i: 0 },
            then: Then::Take,
        },
    };

    /// An operation, and what it goes on with.
    pub(crate) fn with_then(first: Op, then: Then) -> Work
        ensures { result ≡ with_then first then }
    {
        Work::Simple {
            steps: Steps { first, then },
        }
    }

    /// One operation.
    pub(crate) fn once(op: Op) -> Work
        ensures { result ≡ once op }
    {
        Work::with_then(op, Then::Done)
    }

    /// An operation on the word of a source; where it forwards, also the route of the notice.
    pub(crate) fn then_route(s: u32, op: PqOp) -> Work
        ensures { result ≡ then_route s op }
    {
        Work::with_then(Op::Pq { s, op }, Then::Route { s })
    }

    /// A line that brings a source to rest.
    pub(crate) fn sync(s: u32) -> Work
        ensures { result ≡ sync s }
    {
        Work::with_then(Op::Take { i: 0 }, Then::Sync { s })
    }

    /// A line that drains so many sources.
    pub(crate) fn drain(sources: u32) -> Work
        ensures { result ≡ drain sources }
    {
        Work::with_then(Op::Take { i: 0 }, Then::Drain { from: 0, sources })
    }

    /// A migration of so many sources.
    pub(crate) fn migrate(sources: u32) -> Work
        ensures { result ≡ migrate sources }
    {
        Work::Migrate {
            migration: Migration::of(sources),
        }
    }

    /// The first operation of the line. `known` is what is known of the account before it.
    pub fn begin<N: Known>(&mut self, known: &N) -> Op
        requires sources { AsksBelow (N.sources known.now) self.old }
        ensures value { (z : Start) (before : List Entry) → N.knows known.now z before →
            Some result ≡ next_op self.old z before [] }
        ensures after { (z : Start) (before : List Entry) (x : Entry) → N.knows known.now z before →
            x.op ≡ result → IsAt self.new self.old z before (x ∷ []) }
        ensures falls { (z : Start) (before : List Entry) → N.knows known.now z before →
            Falls self.old self.new None z before result }
        ensures valid { (b : Board) → HasValidSteps b self.old → IsTrue (valid b result) }
        ensures stays { (b : Board) → HasValidSteps b self.old → HasValidSteps b self.new }
    {
        match self {
            Work::Simple { steps } => {
                steps.begin();
                steps.first
            }
            Work::Migrate { migration } => migration.begin(known),
        }
    }

    /// The operation that the line makes next; none where it is done. `last` is what its last operation
    /// answered, none before the first one, and `known` what is known of the account with its entries.
    pub fn next<N: Known>(&mut self, last: Option<&Outcome>, known: &N) -> Option<Op>
        requires sources { AsksBelow (N.sources known.now) self.old }
        ensures value { (w : AWork) (z : Start) (before part : List Entry) →
            IsAt self.old w z before part → N.knows known.now z (part ++ before) →
            IsLast part (option_copied last.entry) → result ≡ next_op w z before part }
        ensures after { IfSome result (λ o.
            (w : AWork) (z : Start) (before part : List Entry) (x : Entry) →
            IsAt self.old w z before part → N.knows known.now z (part ++ before) →
            IsLast part (option_copied last.entry) → x.op ≡ o → IsAt self.new w z before (x ∷ part)) }
        ensures falls { IfSome result (λ o.
            (w : AWork) (z : Start) (before part : List Entry) →
            IsAt self.old w z before part → N.knows known.now z (part ++ before) →
            IsLast part (option_copied last.entry) → (b : Board) → HasValidSteps b self.old →
            Falls self.old self.new (option_copied last.entry) z (part ++ before) o) }
        ensures valid { IfSome result (λ o. (b : Board) →
            HasValidSteps b self.old → IsTrue (valid b o)) }
        ensures stays { (b : Board) → HasValidSteps b self.old → HasValidSteps b self.new }
    {
        match last {
            None => Some(self.begin(known)),
            Some(outcome) => match self {
                Work::Simple { steps } => steps.next(outcome, known),
                Work::Migrate { migration } => migration.next(outcome, known),
            },
        }
    }
}
