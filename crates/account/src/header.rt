//! The header of an account.

ghost use Rattle.std.specs.Prelude.{◌≡◌, ◌+◌, ◌*◌, ◌≤◌, ◌++◌, length};
ghost use Rattle.arrayvec.specs.ArrayVec.{array_vec_len};
ghost use Rattle.xv_model.specs.board.Boards.{IsBoard};
ghost use Rattle.account.specs.text.Header.{counts_text, esb_line, range_line, spans_text, board_ranges_text, header_text};

use crate::LONGEST_HEADER;
use crate::numbers::{add, add_number_line, add_short_number};
use arrayvec::ArrayVec;
use xv_base::limits::MOST_RANGES;
use xv_model::board::{Board, Span, Spans};

/// The room that the counts of a board want, in bytes.
const LONGEST_COUNTS: usize = 143;

/// The room that the line of a range wants, in bytes, of which its word has at most [`LONGEST_WORD`].
const LONGEST_RANGE: usize = 34;

/// The longest word of a range, with its space.
const LONGEST_WORD: usize = 12;

/// How many of each thing a board has, and its memory.
fn add_counts<const CAP: usize>(text: &mut ArrayVec<u8, CAP>, board: &Board)
    requires { array_vec_len text.old + LONGEST_COUNTS ≤ CAP }
    ensures items { text.new.items ≡ text.old.items ++ counts_text board.now }
    ensures len { array_vec_len text.new ≤ array_vec_len text.old + LONGEST_COUNTS }
{
    add_number_line(text, b"sources ", board.limits.sources as u64);
    add_number_line(text, b"processors ", board.limits.processors as u64);
    add_number_line(text, b"threads ", board.limits.threads as u64);
    add_number_line(text, b"ram ", board.ram_mib as u64);
    add_number_line(text, b"actors ", board.limits.actors as u64);
}

/// How many pages a source has, and whether a store is an EOI.
fn esb(board: &Board) -> &'static [u8; 8]
    ensures { result.now ≡ esb_line board.now }
{
    if board.two_pages {
        if board.store_eoi {
            b"esb 2 1\n"
        } else {
            b"esb 2 0\n"
        }
    } else {
        if board.store_eoi {
            b"esb 1 1\n"
        } else {
            b"esb 1 0\n"
        }
    }
}

/// The line of a range.
fn add_range<const CAP: usize>(text: &mut ArrayVec<u8, CAP>, word: &[u8], span: &Span)
    requires room { array_vec_len text.old + LONGEST_RANGE ≤ CAP }
    requires word { length word.now ≤ LONGEST_WORD }
    ensures items { text.new.items ≡ text.old.items ++ range_line word.now span.now }
    ensures len { array_vec_len text.new ≤ array_vec_len text.old + LONGEST_RANGE }
{
    add(text, word);
    add_short_number(text, span.first);
    text.push(b' ');
    add_short_number(text, span.last);
    text.push(b'\n');
}

/// A line for each of some ranges.
fn add_ranges<const CAP: usize>(text: &mut ArrayVec<u8, CAP>, word: &[u8], spans: &Spans)
    requires room { array_vec_len text.old + LONGEST_RANGE * MOST_RANGES ≤ CAP }
    requires word { length word.now ≤ LONGEST_WORD }
    requires few { spans.now.count ≤ MOST_RANGES }
    ensures items { text.new.items ≡ text.old.items ++ spans_text word.now spans.now }
    ensures len { array_vec_len text.new ≤ array_vec_len text.old + LONGEST_RANGE * MOST_RANGES }
{
    for span in &spans.spans[..spans.count as usize] {
        add_range(text, word, span);
    }
}

/// The lines of the ranges of a board.
fn add_board_ranges<const CAP: usize>(text: &mut ArrayVec<u8, CAP>, board: &Board)
    requires room { array_vec_len text.old + 3 * LONGEST_RANGE * MOST_RANGES ≤ CAP }
    requires board { IsBoard board.now }
    ensures items { text.new.items ≡ text.old.items ++ board_ranges_text board.now }
    ensures len { array_vec_len text.new
        ≤ array_vec_len text.old + 3 * LONGEST_RANGE * MOST_RANGES }
{
    add_ranges(text, b"level ", &board.level);
    add_ranges(text, b"unclaimed ", &board.unclaimed);
    add_ranges(text, b"unconnected ", &board.unconnected);
}

/// Appends the header of an account, from `xive-account` to `go`.
pub fn add_header<const CAP: usize>(text: &mut ArrayVec<u8, CAP>, board: &Board)
    requires room { array_vec_len text.old + LONGEST_HEADER ≤ CAP }
    requires board { IsBoard board.now }
    ensures items { text.new.items ≡ text.old.items ++ header_text board.now }
    ensures len { array_vec_len text.new ≤ array_vec_len text.old + LONGEST_HEADER }
{
    add(text, b"xive-account 1\n");
    add_counts(text, board);
    add(text, esb(board));
    add_board_ranges(text, board);
    add(text, b"go\n");
}
