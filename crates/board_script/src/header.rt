//! Lines of the header.

ghost use Rattle.std.specs.Prelude.{◌≡◌, ◌<◌, ℕ, [], ◌∷◌, List, length};
ghost use Rattle.board_script.specs.Words.{word_of, rest_of};
ghost use Rattle.board_script.specs.Grammar.{walk};
ghost use Rattle.board_script.specs.Header.{first_at, go_row, has_room, header_by, header_of, last_rows, level_rows, number_row, number_words, pages_row, pages_words, range_at, row_of, unclaimed_rows, unconnected_rows};

use crate::faults::{Cause, Misread};
use crate::first_words::out_of_turn;
use crate::lines::Said;
use crate::stage::Turn;
use crate::words::{Words, same};
use xv_base::limits::{
    MOST_ACTORS, MOST_PROCESSORS, MOST_RAM_MIB, MOST_RANGES, MOST_SOURCES, MOST_THREADS,
};
use xv_model::board::{Board, Span, Spans};

/// Reads the first word of a line, which has to be this one.
fn first(name: &[u8], words: &mut Words) -> Result<(), Misread>
    ensures value { result ≡ first_at name.now words.old }
    ensures rest { words.new ≡ rest_of words.old }
{
    let left = words.left();
    let word = words.next();
    if same(word, name) {
        return Ok(());
    }
    Err(Misread {
        cause: out_of_turn(word),
        left,
    })
}

/// A number from `low` to `most`, the last word of a line.
fn number(low: u32, most: u32, words: &mut Words) -> Result<Said, Misread>
    requires { most < 65536 }
    ensures { (at : List ℕ) → result ≡ walk at (number_words low most) words.old }
{
    let n = words.bounded(low, most as u64 + 1)?;
    words.done()?;
    Ok(Said::Number { n })
}

/// A line of a name and a number from `low` to `most`.
fn number_line(name: &[u8], low: u32, most: u32, words: &mut Words) -> Result<Said, Misread>
    requires { most < 65536 }
    ensures { result ≡ header_by words.old (row_of (number_row name.now low most ∷ []) (word_of words.old)) }
{
    first(name, words)?;
    number(low, most, words)
}

/// How many pages a source has, and whether a store is an EOI, the last two words of a line.
fn pages(words: &mut Words) -> Result<Said, Misread>
    ensures { (at : List ℕ) → result ≡ walk at pages_words words.old }
{
    let pages = words.bounded(1, 3)?;
    let eoi = words.bounded(0, 2)?;
    words.done()?;
    Ok(Said::Pages {
        two_pages: pages == 2,
        store_eoi: eoi == 1,
    })
}

/// The line of the pages of a source.
fn pages_line(words: &mut Words) -> Result<Said, Misread>
    ensures { result ≡ header_by words.old (row_of (pages_row ∷ []) (word_of words.old)) }
{
    first(b"esb", words)?;
    pages(words)
}

/// Whether there is room for one more range of a kind.
fn has_room_for(spans: &Spans) -> bool
    ensures { result ≡ has_room spans.now }
{
    (spans.count as u32) < MOST_RANGES
}

/// A range of numbers below a limit, the last two words of a line, beside those of its kind; where there is no room for
/// it the line is refused at its name, where so many bytes are left.
fn range(left: usize, spans: &Spans, limit: u32, words: &mut Words) -> Result<Span, Misread>
    ensures { (at : List ℕ) → length at ≡ left → result ≡ range_at at spans.now limit words.old }
{
    if !has_room_for(spans) {
        return Err(Misread {
            cause: Cause::OutOfRange,
            left,
        });
    }
    let first = words.bounded(0, limit as u64)?;
    let last = words.bounded(first, limit as u64)?;
    words.done()?;
    Ok(Span { first, last })
}

/// The end of the header, by the first word of a line, where so many bytes are left; another word is refused there.
fn go_line(left: usize, name: &[u8], words: &mut Words) -> Result<Said, Misread>
    ensures { (at : List ℕ) → length at ≡ left → word_of at ≡ name.now → rest_of at ≡ words.old
        → result ≡ header_by at (row_of (go_row ∷ []) name.now) }
{
    if same(name, b"go") {
        words.done()?;
        return Ok(Said::Go);
    }
    Err(Misread {
        cause: out_of_turn(name),
        left,
    })
}

/// A range of unconnected processors, or what may come behind such ranges.
fn unconnected_line(
    board: &Board,
    left: usize,
    name: &[u8],
    words: &mut Words,
) -> Result<Said, Misread>
    ensures { (at : List ℕ) → length at ≡ left → word_of at ≡ name.now → rest_of at ≡ words.old
        → result ≡ header_by at (row_of (unconnected_rows board.now) name.now) }
{
    if same(name, b"unconnected") {
        let span = range(left, &board.unconnected, board.limits.processors, words)?;
        return Ok(Said::Unconnected { span });
    }
    go_line(left, name, words)
}

/// A range of unclaimed sources, or what may come behind such ranges.
fn unclaimed_line(
    board: &Board,
    left: usize,
    name: &[u8],
    words: &mut Words,
) -> Result<Said, Misread>
    ensures { (at : List ℕ) → length at ≡ left → word_of at ≡ name.now → rest_of at ≡ words.old
        → result ≡ header_by at (row_of (unclaimed_rows board.now) name.now) }
{
    if same(name, b"unclaimed") {
        let span = range(left, &board.unclaimed, board.limits.sources, words)?;
        return Ok(Said::Unclaimed { span });
    }
    unconnected_line(board, left, name, words)
}

/// A range of level sources, or what may come behind such ranges.
fn level_line(board: &Board, left: usize, name: &[u8], words: &mut Words) -> Result<Said, Misread>
    ensures { (at : List ℕ) → length at ≡ left → word_of at ≡ name.now → rest_of at ≡ words.old
        → result ≡ header_by at (row_of (level_rows board.now) name.now) }
{
    if same(name, b"level") {
        let span = range(left, &board.level, board.limits.sources, words)?;
        return Ok(Said::Level { span });
    }
    unclaimed_line(board, left, name, words)
}

/// A line at the end of the header: a range, where one of its kind may come, or the end.
fn last_line(turn: Turn, board: &Board, words: &mut Words) -> Result<Said, Misread>
    ensures { result ≡ header_by words.old (row_of (last_rows turn board.now) (word_of words.old)) }
{
    let left = words.left();
    let name = words.next();
    match turn {
        Turn::Level => level_line(board, left, name, words),
        Turn::Unconnected => unconnected_line(board, left, name, words),
        _ => unclaimed_line(board, left, name, words),
    }
}

/// A line of the header.
#[inline(never)]
pub fn header_line(turn: Turn, board: &Board, words: &mut Words) -> Result<Said, Misread>
    ensures { result ≡ header_of turn board.now words.old }
{
    match turn {
        Turn::Board => number_line(b"board", 1, 1, words),
        Turn::Sources => number_line(b"sources", 1, MOST_SOURCES, words),
        Turn::Processors => number_line(b"processors", 1, MOST_PROCESSORS, words),
        Turn::Threads => number_line(b"threads", 1, MOST_THREADS, words),
        Turn::Ram => number_line(b"ram", 0, MOST_RAM_MIB, words),
        Turn::Actors => number_line(b"actors", 1, MOST_ACTORS, words),
        Turn::Esb => pages_line(words),
        Turn::Level | Turn::Unclaimed | Turn::Unconnected => last_line(turn, board, words),
    }
}
