//! The line of an entry.

ghost use Rattle.std.specs.Prelude.{◌≡◌, ◌+◌, ◌≤◌, ◌++◌, IsTrue};
ghost use Rattle.arrayvec.specs.ArrayVec.{array_vec_len};
ghost use Rattle.account.specs.text.Entry.{entry_line};
ghost use Rattle.account.specs.text.Operations.{has_text};
ghost use Rattle.xv_model.specs.account.Outcomes.{IsWellFormed};

use crate::LONGEST_ENTRY;
use crate::numbers::{add, add_number, add_short_number};
use crate::operations::add_op;
use crate::outcomes::add_outcome;
use arrayvec::ArrayVec;
use xv_model::operations::Op;
use xv_model::outcomes::Outcome;

/// Appends the line of an entry, with its newline: the operation is one that a board may have. It is handed the
/// entry's parts, so that no caller has to copy an operation into an entry.
pub fn add_entry<const CAP: usize>(
    text: &mut ArrayVec<u8, CAP>,
    index: u64,
    actor: u32,
    op: &Op,
    outcome: &Outcome,
)
    requires room { array_vec_len text.old + LONGEST_ENTRY ≤ CAP }
    requires op { IsTrue (has_text op.now) }
    requires outcome { IsWellFormed outcome.now }
    ensures items { text.new.items ≡ text.old.items
        ++ entry_line index (record { actor = actor; op = op.now; outcome = outcome.now }) }
    ensures len { array_vec_len text.new ≤ array_vec_len text.old + LONGEST_ENTRY }
{
    add_number(text, index);
    text.push(b' ');
    add_short_number(text, actor);
    text.push(b' ');
    add_op(text, op);
    add(text, b" -> ");
    add_outcome(text, outcome);
    text.push(b'\n');
}
