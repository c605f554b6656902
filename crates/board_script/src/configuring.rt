//! Work lines that configure an END, by what stands after the name of the operation.

ghost use Rattle.std.specs.Prelude.{◌≡◌, ℕ, List, length};
ghost use Rattle.xv_model.specs.board.Boards.{IsBoard};
ghost use Rattle.board_script.specs.Grammar.{read_at, walk};
ghost use Rattle.board_script.specs.Operations.{configuration, configures, escalation as escalation_words, queue as queue_words, target as target_words};

use crate::faults::{Cause, Misread};
use crate::flags::with_bits;
use crate::words::Words;
use crate::work::Work;
use xv_model::board::Board;
use xv_model::operations::{EndConfig, Op};
use xv_model::validity::valid;

/// An END is configured; where the board doesn't allow the configuration the line is refused at the name of the
/// operation, where so many bytes are left.
fn configure(board: &Board, left: usize, e: u32, config: EndConfig) -> Result<Work, Misread>
    ensures { (at : List ℕ) → length at ≡ left → result ≡ read_at at (configures board.now e config) }
{
    let op = Op::EndSet { e, config };
    if valid(board, &op) {
        return Ok(Work::once(op));
    }
    Err(Misread {
        cause: Cause::BadEnd,
        left,
    })
}

/// A configuration with its escalation END and what that writes, the last two words of a line.
fn escalation(
    board: &Board,
    left: usize,
    e: u32,
    config: EndConfig,
    words: &mut Words,
) -> Result<Work, Misread>
    requires { IsBoard board.now }
    ensures { (at : List ℕ) → length at ≡ left → result ≡ walk at (escalation_words board.now e config) words.old }
{
    let esc = words.end_number(board)?;
    let esc_eisn = words.bounded(0, 1 << 32)?;
    words.done()?;
    let config = EndConfig {
        esc,
        esc_eisn,
        ..config
    };
    configure(board, left, e, config)
}

/// A configuration with the address and the size of its queue, and what the words after them say.
fn queue(
    board: &Board,
    left: usize,
    e: u32,
    config: EndConfig,
    words: &mut Words,
) -> Result<Work, Misread>
    requires { IsBoard board.now }
    ensures { (at : List ℕ) → length at ≡ left → result ≡ walk at (queue_words board.now e config) words.old }
{
    let qaddr = words.number()?;
    let qshift = words.bounded(0, 1 << 32)?;
    let config = EndConfig {
        qaddr,
        qshift,
        ..config
    };
    escalation(board, left, e, config, words)
}

/// A configuration of these flags: whom it notifies, and what the words after that say.
fn target(board: &Board, left: usize, e: u32, flags: u8, words: &mut Words) -> Result<Work, Misread>
    requires { IsBoard board.now }
    ensures { (at : List ℕ) → length at ≡ left → result ≡ walk at (target_words board.now e flags) words.old }
{
    let vp = words.bounded(0, board.limits.processors as u64)?;
    let priority = words.bounded(0, 1 << 8)?;
    let config = EndConfig {
        flags: with_bits(flags),
        vp,
        priority: priority as u8,
        ..EndConfig::OFF
    };
    queue(board, left, e, config, words)
}

/// The work that configures an END.
pub fn endset(board: &Board, left: usize, words: &mut Words) -> Result<Work, Misread>
    requires { IsBoard board.now }
    ensures { (at : List ℕ) → length at ≡ left → result ≡ walk at (configuration board.now) words.old }
{
    let e = words.end_number(board)?;
    let flags = words.flags()?;
    target(board, left, e, flags, words)
}
