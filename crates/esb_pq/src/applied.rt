//! The whole PQ table, applied to a source's word.

ghost use Rattle.std.specs.Prelude.{◌≡◌, ◌↔◌, Bool, IsTrue, IsFalse};
ghost use Rattle.xv_model.specs.declared.operations.PqOp.{PqOp as APqOp};
ghost use Rattle.xv_base.specs.Limits.{most_forwards};
ghost use Rattle.xv_model.specs.account.Legal.{answer_by};
ghost use Rattle.xv_model.specs.account.Outcomes.{IsWellFormed};
ghost use Rattle.xv_model.specs.board.Validity.{has_op};
ghost use Rattle.esb_pq.specs.Applied.{cell_at, stored_by, by_table, word_in};

use crate::rows::{cell_of, flag_after};
use crate::word::SourceWord;
use xv_base::limits::MOST_FORWARDS;
use xv_model::operations::PqOp;
use xv_model::outcomes::Outcome;

/// What an operation makes of a source's word.
#[derive(Clone, Copy)]
pub enum Applied {
    /// The word stays as it is, and nothing is forwarded.
    Same,
    /// The pair or the flag changes, and nothing is forwarded.
    Changed { new: SourceWord },
    /// The source forwards: this is its forward number `k`, from 1 on.
    Forward { new: SourceWord, k: u64 },
    /// The source would forward, but its count is at its end. The word stays as it is.
    Spent,
}

/// Applies an operation to the word of a source, which is a level source or a message source.
pub fn apply(word: SourceWord, level: bool, op: PqOp) -> Applied
    requires op { IsTrue (has_op level op) }
    ensures value { result ≡ by_table word level op }
    ensures spent { (result ≡ Applied.Spent)
        ↔ (IsTrue (cell_at word level op).forwards × (word.count ≡ most_forwards)) }
    ensures same { (result ≡ Applied.Same)
        ↔ (IsFalse (cell_at word level op).forwards × (stored_by word level op ≡ word)) }
{
    let cell = cell_of(op, level, word.asserted(), word.pq());
    let asserted = flag_after(op, word.asserted());
    let count = word.count();
    if cell.forwards {
        if count == MOST_FORWARDS {
            return Applied::Spent;
        }
        let k = count + 1;
        return Applied::Forward {
            new: SourceWord::from_parts(cell.pq, asserted, k),
            k,
        };
    }
    if cell.pq == word.pq() && asserted == word.asserted() {
        return Applied::Same;
    }
    Applied::Changed {
        new: SourceWord::from_parts(cell.pq, asserted, count),
    }
}

/// The word after an operation, by the word before it and what the operation made of that.
pub fn word_after(old: SourceWord, applied: &Applied) -> SourceWord
    ensures { result ≡ word_in old applied.now }
{
    match *applied {
        Applied::Same => old,
        Applied::Changed { new } => new,
        Applied::Forward { new, k: _ } => new,
        Applied::Spent => old,
    }
}

/// What an operation answers, by the word before it and what the operation made of that.
pub fn outcome_of(old: SourceWord, applied: &Applied) -> Outcome
    ensures value { (level : Bool) (op : APqOp) → applied.now ≡ by_table old level op
        → result ≡ answer_by (cell_at old level op) old.pq old.count }
    ensures well_formed { IsWellFormed result }
{
    let pair = old.pq();
    match *applied {
        Applied::Same => Outcome::Pq {
            old: pair,
            new: pair,
            forward: 0,
        },
        Applied::Changed { new } => Outcome::Pq {
            old: pair,
            new: new.pq(),
            forward: 0,
        },
        Applied::Forward { new, k } => Outcome::Pq {
            old: pair,
            new: new.pq(),
            forward: k,
        },
        Applied::Spent => Outcome::Spent,
    }
}
