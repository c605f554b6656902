//! The lines that a run ends with where it stops early.

ghost use Rattle.std.specs.Prelude.{◌≡◌, ◌+◌, ◌≤◌, ◌++◌, length};
ghost use Rattle.arrayvec.specs.ArrayVec.{array_vec_len};
ghost use Rattle.account.specs.text.Refusal.{place_text, refusal_line, too_long_line};

use crate::numbers::{add, add_number};
use crate::{LONGEST_CAUSE, LONGEST_REPORT_LINE};
use arrayvec::ArrayVec;

/// The room that a place in a script wants, in bytes.
const LONGEST_PLACE: usize = 51;

/// A place in a script: lines and bytes count from 1.
fn add_place<const CAP: usize>(text: &mut ArrayVec<u8, CAP>, line: u64, byte: u64)
    requires { array_vec_len text.old + LONGEST_PLACE ≤ CAP }
    ensures items { text.new.items ≡ text.old.items ++ place_text line byte }
    ensures len { array_vec_len text.new ≤ array_vec_len text.old + LONGEST_PLACE }
{
    add(text, b"line ");
    add_number(text, line);
    add(text, b" byte ");
    add_number(text, byte);
}

/// Appends the line that a run ends with where a line of its script is refused: lines and bytes count from 1,
/// and `cause` is the cause's name.
pub fn add_refusal<const CAP: usize>(
    text: &mut ArrayVec<u8, CAP>,
    line: u64,
    byte: u64,
    cause: &[u8],
)
    requires room { array_vec_len text.old + LONGEST_REPORT_LINE ≤ CAP }
    requires cause { length cause.now ≤ LONGEST_CAUSE }
    ensures items { text.new.items ≡ text.old.items ++ refusal_line line byte cause.now }
    ensures len { array_vec_len text.new ≤ array_vec_len text.old + LONGEST_REPORT_LINE }
{
    add(text, b"refused ");
    add_place(text, line, byte);
    text.push(b' ');
    add(text, cause);
    text.push(b'\n');
}

/// Appends the line that a run ends with where its script's lines have too many bytes.
pub fn add_too_long<const CAP: usize>(text: &mut ArrayVec<u8, CAP>)
    requires { array_vec_len text.old + LONGEST_REPORT_LINE ≤ CAP }
    ensures items { text.new.items ≡ text.old.items ++ too_long_line }
    ensures len { array_vec_len text.new ≤ array_vec_len text.old + LONGEST_REPORT_LINE }
{
    add(text, b"too-long\n");
}
