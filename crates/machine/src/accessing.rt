//! Operations on the words of sources.

ghost use Rattle.std.specs.Prelude.{◌≡◌, ◌<◌, Some, None, length, IsTrue, IfSome, true};
ghost use Rattle.xv_model.specs.board.Boards.{is_level};
ghost use Rattle.xv_model.specs.board.Validity.{has_op, valid};
ghost use Rattle.xv_model.specs.account.Kinds.{access_of};
ghost use Rattle.xv_model.specs.account.Legal.{answer_by};
ghost use Rattle.xv_model.specs.declared.outcomes.Outcome.TheVariants.{Spent};
ghost use Rattle.xv_model.specs.account.Outcomes.{IsWellFormed};
ghost use Rattle.esb_pq.specs.Applied.{cell_at, by_table, word_in};
ghost use Rattle.machine.specs.Answering.{kind_on, as_access, old_after};
ghost use Rattle.machine.specs.Machine.{AreLevels};

use crate::pairs::Pair;
use esb_mmio::{EsbOp, SourceKind, decode};
use esb_pq::{SourceWord, apply, outcome_of, word_after};
use xv_model::board::Board;
use xv_model::operations::{Op, PqOp};
use xv_model::outcomes::Outcome;

/// An operation on the word of a source.
#[derive(Clone, Copy)]
pub(crate) struct WordAccess {
    pub s: u32,
    pub op: PqOp,
}

/// What decides how a source of a board answers accesses to its pages.
fn kind_of(board: &Board, level: bool) -> SourceKind
    ensures { result ≡ kind_on board.now level }
{
    SourceKind {
        level,
        two_pages: board.two_pages,
        store_eoi: board.store_eoi,
    }
}

/// The operation on the word of a source that an operation of a board is, if it is one. An access to a page
/// is one where its offset says so.
pub(crate) fn word_access(board: &Board, levels: &[bool], op: &Op) -> Option<WordAccess>
    requires op { IsTrue (valid board.now op.now) }
    requires sources { length levels.now ≡ board.now.limits.sources }
    requires levels { AreLevels board.now levels.now }
    ensures value { access_of board.now op.now ≡ as_access result }
    ensures source { IfSome result (λ a. a.s < board.now.limits.sources) }
    ensures has_op { IfSome result (λ a. has_op (is_level board.now a.s) a.op ≡ true) }
{
    match op {
        Op::Pq { s, op } => Some(WordAccess { s: *s, op: *op }),
        Op::Esb {
            s,
            page,
            offset,
            store,
        } => {
            let kind = kind_of(board, levels[*s as usize]);
            match decode(*page, *offset, *store, kind) {
                Ok(EsbOp::Pq { op }) => Some(WordAccess { s: *s, op }),
                _ => None,
            }
        }
        _ => None,
    }
}

/// Does an operation to the word of a source, which is a level source or not, and says what it answers.
pub(crate) fn touch(word: &mut SourceWord, level: bool, op: PqOp) -> Outcome
    requires { IsTrue (has_op level op) }
    ensures outcome { result ≡ answer_by (cell_at word.old level op) word.old.pq word.old.count }
    ensures word { word.new ≡ word_in word.old (by_table word.old level op) }
    ensures spent { result ≡ Spent → word.new ≡ word.old }
    ensures well_formed { IsWellFormed result }
{
    let old = *word;
    let applied = apply(old, level, op);
    *word = word_after(old, &applied);
    outcome_of(old, &applied)
}

/// Keeps the pair that a source had before a set of it, which answered so.
pub(crate) fn remember(old_pair: &mut Pair, op: PqOp, outcome: &Outcome)
    requires { IsWellFormed outcome.now }
    ensures { old_pair.new ≡ old_after op outcome.now old_pair.old }
{
    if let PqOp::Set { .. } = op {
        if let Outcome::Pq { old, .. } = outcome {
            *old_pair = Pair::of(*old);
        }
    }
}
