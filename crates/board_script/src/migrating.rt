//! The lines of a migration: the operations that they make.

ghost use Rattle.std.specs.Prelude.{◌≡◌, ◌≤◌, List, IfSome, Some, IsTrue};
ghost use Rattle.xv_model.specs.declared.board.Board.{Board};
ghost use Rattle.xv_model.specs.declared.entries.Entry.{Entry};
ghost use Rattle.xv_model.specs.account.Start.{Start};
ghost use Rattle.xv_model.specs.source.Notices.{outstanding};
ghost use Rattle.xv_model.specs.board.Validity.{valid};
ghost use Rattle.board_script.specs.Steps.{settling};
ghost use Rattle.board_script.specs.Migrating.{moved, sources_of, next_initialised, masking, restoring, draining_on, MovesOn, IsBehind};

use crate::resetting::first_initialised;
use crate::steps::{first_outstanding, succeeded};
use xv_model::known::Known;
use xv_model::operations::{Op, PqOp};
use xv_model::outcomes::Outcome;

/// Where a migration of so many sources stands. Its first half masks the sources that are initialised, and drains all;
/// its second half sets the pairs again that were there before.
#[derive(Clone, Copy)]
pub enum Migration {
    /// Of the sources below `from` those that are initialised are masked.
    Masks { from: u32, sources: u32 },
    /// All initialised sources are masked, and no source below `from` has an outstanding notice.
    Drains { from: u32, sources: u32 },
    /// Nothing is on its way, and of the sources below `from` those that are initialised have their pairs again.
    Restores { from: u32, sources: u32 },
}

/// Masks the first initialised source from this one on; behind the last one the migration begins to drain.
fn mask<N: Known>(migration: &mut Migration, from: u32, sources: u32, known: &N) -> Op
    requires sources { sources ≤ N.sources known.now }
    requires same { sources_of migration.old ≡ sources }
    ensures value { (z : Start) (h : List Entry) → N.knows known.now z h →
        result ≡ masking (next_initialised z h from sources) }
    ensures valid { (b : Board) → sources ≤ b.limits.sources → IsTrue (valid b result) }
    ensures moves { migration.new ≡ moved (Migration.Masks from sources) result }
    ensures same { sources_of migration.new ≡ sources }
{
    match first_initialised(known, from, sources) {
        Some(s) => {
            *migration = Migration::Masks {
                from: s + 1,
                sources,
            };
            Op::Pq {
                s,
                op: PqOp::Set { pq: 1 },
            }
        }
        None => {
            *migration = Migration::Drains { from: 0, sources };
            Op::Take { i: 0 }
        }
    }
}

/// Sets the pair again of the first initialised source from this one on, if there is one.
fn restore<N: Known>(migration: &mut Migration, from: u32, sources: u32, known: &N) -> Option<Op>
    requires sources { sources ≤ N.sources known.now }
    requires same { sources_of migration.old ≡ sources }
    ensures value { (z : Start) (h : List Entry) → N.knows known.now z h →
        result ≡ restoring z h (next_initialised z h from sources) }
    ensures valid { IfSome result (λ o. (b : Board) →
        sources ≤ b.limits.sources → IsTrue (valid b o)) }
    ensures behind { IfSome result (λ o. IsBehind sources o migration.new) }
    ensures same { sources_of migration.new ≡ sources }
{
    let s = first_initialised(known, from, sources)?;
    *migration = Migration::Restores {
        from: s + 1,
        sources,
    };
    Some(Op::Pq {
        s,
        op: PqOp::Set {
            pq: known.old_pair(s),
        },
    })
}

/// What a migration that drains does once it has settled: it moves on to the first source with a notice that is
/// outstanding, and behind the last one to its second half.
fn settled<N: Known>(migration: &mut Migration, from: u32, sources: u32, known: &N) -> Option<Op>
    requires sources { sources ≤ N.sources known.now }
    requires same { sources_of migration.old ≡ sources }
    ensures value { (z : Start) (h : List Entry) → N.knows known.now z h →
        result ≡ draining_on z h from sources }
    ensures valid { IfSome result (λ o. (b : Board) →
        sources ≤ b.limits.sources → IsTrue (valid b o)) }
    ensures moves { IfSome result (λ o. (z : Start) (h : List Entry) → N.knows known.now z h →
        MovesOn (outstanding z h) (Migration.Drains from sources) o migration.new) }
    ensures same { sources_of migration.new ≡ sources }
{
    match first_outstanding(known, from, sources) {
        Some(s) => {
            *migration = Migration::Drains { from: s, sources };
            Some(Op::Route { s })
        }
        None => restore(migration, 0, sources, known),
    }
}

/// The operation of a migration that drains, after one that answered this.
fn drain<N: Known>(
    migration: &mut Migration,
    outcome: &Outcome,
    from: u32,
    sources: u32,
    known: &N,
) -> Option<Op>
    requires sources { sources ≤ N.sources known.now }
    requires stage { migration.old ≡ Migration.Drains from sources }
    ensures value { (z : Start) (h : List Entry) → N.knows known.now z h →
        result ≡ settling (draining_on z h from sources) outcome.now }
    ensures valid { IfSome result (λ o. (b : Board) →
        sources ≤ b.limits.sources → IsTrue (valid b o)) }
    ensures moves { IfSome result (λ o. (z : Start) (h : List Entry) → N.knows known.now z h →
        MovesOn (outstanding z h) (Migration.Drains from sources) o migration.new) }
    ensures same { sources_of migration.new ≡ sources }
{
    match outcome {
        Outcome::NoMessage => settled(migration, from, sources, known),
        Outcome::Quiet | Outcome::Busy { .. } => None,
        Outcome::Reply { reply } if !succeeded(reply.code) => None,
        Outcome::Code { code } if !succeeded(*code as i64) => None,
        _ => Some(Op::Take { i: 0 }),
    }
}

impl Migration {
    ghost use Rattle.board_script.specs.Migrating.{migrating};

    /// A migration of so many sources, before its first operation.
    pub(crate) fn of(sources: u32) -> Migration
        ensures { result ≡ Migration.Masks 0 sources }
    {
        Migration::Masks { from: 0, sources }
    }

    /// How many sources it has.
    fn sources(&self) -> u32
        ensures { result ≡ sources_of self.now }
    {
        match *self {
            Migration::Masks { sources, .. } => sources,
            Migration::Drains { sources, .. } => sources,
            Migration::Restores { sources, .. } => sources,
        }
    }

    /// Makes the first operation.
    pub fn begin<N: Known>(&mut self, known: &N) -> Op
        requires { sources_of self.old ≤ N.sources known.now }
        ensures value { (z : Start) (h : List Entry) → N.knows known.now z h →
            result ≡ masking (next_initialised z h 0 (sources_of self.old)) }
        ensures valid { (b : Board) → sources_of self.old ≤ b.limits.sources → IsTrue (valid b result) }
        ensures moves { self.new ≡ moved (Migration.Masks 0 (sources_of self.old)) result }
        ensures same { sources_of self.new ≡ sources_of self.old }
    {
        let sources = self.sources();
        mask(self, 0, sources, known)
    }

    /// The operation that the migration makes after one that answered this.
    pub fn next<N: Known>(&mut self, outcome: &Outcome, known: &N) -> Option<Op>
        requires { sources_of self.old ≤ N.sources known.now }
        ensures value { (z : Start) (h : List Entry) → N.knows known.now z h →
            result ≡ migrating self.old z h (Some outcome.now) }
        ensures valid { IfSome result (λ o. (b : Board) →
            sources_of self.old ≤ b.limits.sources → IsTrue (valid b o)) }
        ensures moves { IfSome result (λ o. (z : Start) (h : List Entry) → N.knows known.now z h →
            MovesOn (outstanding z h) self.old o self.new) }
        ensures same { sources_of self.new ≡ sources_of self.old }
    {
        match *self {
            Migration::Masks { from, sources } => Some(mask(self, from, sources, known)),
            Migration::Drains { from, sources } => drain(self, outcome, from, sources, known),
            Migration::Restores { from, sources } => restore(self, from, sources, known),
        }
    }
}
