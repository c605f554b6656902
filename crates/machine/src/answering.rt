//! What an operation answers, and what it does to the fabric and to its source's word.

ghost use Rattle.std.specs.Prelude.{◌≡◌, ◌⊎◌, ◌+◌, ◌≤◌, ◌∷◌, ℕ, ◌<◌, All, length, List, IsTrue};
ghost use Rattle.xv_model.specs.declared.entries.Entry.{Entry};
ghost use Rattle.xv_model.specs.declared.operations.Op.TheVariants.{Quiet, Route};
ghost use Rattle.xv_model.specs.account.Start.{Start};
ghost use Rattle.xv_model.specs.source.Notices.{all_outstanding};
ghost use Rattle.xv_model.specs.account.Legal.{legal};
ghost use Rattle.xv_model.specs.account.Outcomes.{IsWellFormed};
ghost use Rattle.xv_model.specs.board.Validity.{valid};
ghost use Rattle.end_queue.specs.Ends.{HasRoom, HasCountsAtMost};
ghost use Rattle.fabric_core.specs.Fabric.{IsRefusal};
ghost use Rattle.machine.specs.Answering.{forwarded_in, consumed_in, forwards_for};
ghost use Rattle.machine.specs.Machine.{AreLevels, AreOldPairs, AreParts};

use crate::accessing::{remember, touch, word_access};
use crate::pairs::Pair;
use esb_pq::SourceWord;
use fabric_core::Fabric;
use xv_model::operations::Op;
use xv_model::outcomes::Outcome;

/// How often the source forwarded whose notice an operation routes, or that it asks whether it is quiet; 0 for any
/// other operation.
fn forwards(words: &[SourceWord], op: &Op) -> u64
    requires op { (s : ℕ) → (op.now ≡ Route s) ⊎ (op.now ≡ Quiet s) → s < length words.now }
    ensures { result ≡ forwards_for words.now op.now }
{
    match op {
        Op::Route { s } | Op::Quiet { s } => words[*s as usize].count(),
        _ => 0,
    }
}

/// What an operation by an actor answers. The fabric, the words and the pairs before the last sets of sources then
/// represent the account with its entry. Refused, it changes none of them.
pub(crate) fn enter(
    fabric: &mut Fabric,
    words: &mut [SourceWord],
    old_pairs: &mut [Pair],
    levels: &[bool],
    actor: u32,
    op: &Op,
) -> Outcome
    requires op { IsTrue (valid fabric.old.tables.board op.now) }
    requires words { length words.old ≡ fabric.old.tables.board.limits.sources }
    requires old_pairs { length old_pairs.old ≡ fabric.old.tables.board.limits.sources }
    requires sources { length levels.now ≡ fabric.old.tables.board.limits.sources }
    requires levels { AreLevels fabric.old.tables.board levels.now }
    requires room { All HasRoom fabric.old.tables.ends }
    ensures outcome { (z : Start) (h : List Entry) → AreParts fabric.old words.old z h → result ≡ legal z h op.now }
    ensures parts { (z : Start) (h : List Entry) → AreParts fabric.old words.old z h
        → AreParts fabric.new words.new z (record { actor = actor; op = op.now; outcome = result } ∷ h) }
    ensures old_pairs { (z : Start) (h : List Entry) → fabric.old.tables.board ≡ z.board → AreOldPairs old_pairs.old z h
        → AreOldPairs old_pairs.new z (record { actor = actor; op = op.now; outcome = result } ∷ h) }
    ensures refused { IsRefusal op.now result
        → (fabric.new ≡ fabric.old) × (words.new ≡ words.old) × (old_pairs.new ≡ old_pairs.old) }
    ensures notices { (z : Start) (h : List Entry) → AreParts fabric.old words.old z h
        → all_outstanding z (record { actor = actor; op = op.now; outcome = result } ∷ h) + consumed_in result
        ≡ all_outstanding z h + forwarded_in result }
    ensures well_formed { IsWellFormed result }
    ensures board { fabric.new.tables.board ≡ fabric.old.tables.board }
    ensures counts { (n : ℕ) → All (HasCountsAtMost n) fabric.old.tables.ends
        → All (HasCountsAtMost (n + 1)) fabric.new.tables.ends }
    ensures len { length words.new ≡ length words.old }
    ensures pairs { length old_pairs.new ≡ length old_pairs.old }
{
    match word_access(fabric.board(), levels, op) {
        Some(access) => {
            let s = access.s as usize;
            let outcome = touch(&mut words[s], levels[s], access.op);
            remember(&mut old_pairs[s], access.op, &outcome);
            outcome
        }
        None => fabric.step(actor, op, forwards(words, op)).outcome,
    }
}

/// How many notices an outcome makes: one where it forwarded.
pub(crate) fn notices_of(outcome: &Outcome) -> u64
    ensures value { result ≡ forwarded_in outcome.now }
    ensures few { result ≤ 1 }
{
    match *outcome {
        Outcome::Pq {
            old: _,
            new: _,
            forward,
        } if forward != 0 => 1,
        _ => 0,
    }
}

/// How many notices an outcome consumes: one where it routed.
pub(crate) fn consumed_by(outcome: &Outcome) -> u64
    ensures { result ≡ consumed_in outcome.now }
{
    match outcome {
        Outcome::Routed { .. } => 1,
        _ => 0,
    }
}
