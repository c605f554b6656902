//! The PQ table row by row, as it is written, and the layout of a word.

ghost use Rattle.std.specs.Prelude.{IsTrue};
ghost use Rattle.xv_model.specs.board.Validity.{has_op};

use crate::{Applied, SourceWord, apply, outcome_of, word_after};
use xv_base::limits::MOST_FORWARDS;
use xv_model::operations::PqOp;
use xv_model::outcomes::Outcome;

/// A cell as the table writes it: the new pair, and F where the operation forwards.
fn written(pq: u8, forwards: bool) -> &'static str {
    match (pq, forwards) {
        (0, false) => "00",
        (1, false) => "01",
        (2, false) => "10",
        (3, false) => "11",
        (2, true) => "10 F",
        _ => "no cell",
    }
}

/// Whether the operation makes this of a word with 7 forwards, and keeps or gives this flag.
fn cell_agrees(op: PqOp, level: bool, word: SourceWord, cell: &str, flag: bool) -> bool
    requires { IsTrue (has_op level op) }
{
    let applied = apply(word, level, op);
    let new = word_after(word, &applied);
    match outcome_of(word, &applied) {
        Outcome::Pq {
            old,
            new: pq,
            forward,
        } => {
            let forwards = forward != 0;
            written(pq, forwards) == cell
                && old == word.pq()
                && new.pq() == pq
                && new.asserted() == flag
                && forward == (if forwards { 8 } else { 0 })
                && new.count() == (if forwards { 8 } else { 7 })
        }
        _ => false,
    }
}

/// Whether a row of the table agrees: its columns are the pairs 00, 01, 10 and 11.
fn row_agrees(op: PqOp, level: bool, asserted: bool, cells: [&str; 4], flag: bool) -> bool
    requires { IsTrue (has_op level op) }
{
    let at = |pq: u8| SourceWord::from_parts(pq % 4, asserted, 7);
    cell_agrees(op, level, at(0), cells[0], flag)
        && cell_agrees(op, level, at(1), cells[1], flag)
        && cell_agrees(op, level, at(2), cells[2], flag)
        && cell_agrees(op, level, at(3), cells[3], flag)
}

#[test]
fn rows_of_triggers(rt: HostRuntime) {
    let message = ["10 F", "01", "11", "11"];
    let level = ["10 F", "01", "10", "11"];
    assert!(rt; row_agrees(PqOp::Trigger, false, false, message, false));
    assert!(rt; row_agrees(PqOp::Trigger, true, false, level, false));
    assert!(rt; row_agrees(PqOp::Trigger, true, true, level, true));
}

#[test]
fn rows_of_eois(rt: HostRuntime) {
    let off = ["00", "01", "00", "10 F"];
    let on = ["10 F", "01", "10 F", "10 F"];
    assert!(rt; row_agrees(PqOp::Eoi, false, false, off, false));
    assert!(rt; row_agrees(PqOp::Eoi, true, false, off, false));
    assert!(rt; row_agrees(PqOp::Eoi, true, true, on, true));
}

#[test]
fn rows_of_gets_and_sets(rt: HostRuntime) {
    let same = ["00", "01", "10", "11"];
    assert!(rt; row_agrees(PqOp::Get, false, false, same, false));
    assert!(rt; row_agrees(PqOp::Get, true, true, same, true));
    assert!(rt; row_agrees(PqOp::Set { pq: 0 }, false, false, ["00"; 4], false));
    assert!(rt; row_agrees(PqOp::Set { pq: 1 }, true, true, ["01"; 4], true));
    assert!(rt; row_agrees(PqOp::Set { pq: 2 }, true, false, ["10"; 4], false));
    assert!(rt; row_agrees(PqOp::Set { pq: 3 }, true, true, ["11"; 4], true));
}

#[test]
fn rows_of_lines(rt: HostRuntime) {
    let up = ["10 F", "01", "10", "11"];
    let down = ["00", "01", "10", "11"];
    assert!(rt; row_agrees(PqOp::Raise, true, false, up, true));
    assert!(rt; row_agrees(PqOp::Raise, true, true, up, true));
    assert!(rt; row_agrees(PqOp::Lower, true, false, down, false));
    assert!(rt; row_agrees(PqOp::Lower, true, true, down, false));
}

#[test]
fn rows_of_inits(rt: HostRuntime) {
    assert!(rt;
        row_agrees(
            PqOp::Init { asserted: false },
            false,
            false,
            ["01"; 4],
            false
        )
    );
    assert!(rt; row_agrees(PqOp::Init { asserted: false }, true, true, ["01"; 4], false));
    assert!(rt; row_agrees(PqOp::Init { asserted: true }, true, false, ["01"; 4], true));
}

#[test]
fn spent(rt: HostRuntime) {
    let last = SourceWord::from_parts(0, false, MOST_FORWARDS - 1);
    let applied = apply(last, false, PqOp::Trigger);
    let word = word_after(last, &applied);
    assert_eq!(rt; word.count(), 0x1fff_ffff_ffff_ffff);
    let word = word_after(word, &apply(word, false, PqOp::Set { pq: 0 }));
    let applied = apply(word, false, PqOp::Trigger);
    assert!(rt; matches!(applied, Applied::Spent));
    assert!(rt; matches!(outcome_of(word, &applied), Outcome::Spent));
    assert_eq!(rt; word_after(word, &applied).bits(), word.bits());
}

#[test]
fn layout(rt: HostRuntime) {
    assert_eq!(rt; SourceWord::off().bits(), 0x4000_0000_0000_0000);
    assert_eq!(rt;
        SourceWord::from_parts(2, true, 5).bits(),
        0xa000_0000_0000_0005
    );
    let full = SourceWord::from_bits(u64::MAX);
    assert_eq!(rt; full.pq(), 3);
    assert!(rt; full.asserted());
    assert_eq!(rt; full.count(), MOST_FORWARDS);
}
