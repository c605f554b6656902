//! Work lines on queues and on memory, by what stands after the name of the operation.

ghost use Rattle.std.specs.Prelude.{◌≡◌, ℕ, List};
ghost use Rattle.xv_model.specs.declared.operations.Op.TheVariants as ops;
ghost use Rattle.xv_model.specs.board.Boards.{IsBoard};
ghost use Rattle.board_script.specs.Grammar.{AnyNumber, walk};
ghost use Rattle.board_script.specs.Operations.{does, end_number, one, two};

use crate::faults::Misread;
use crate::words::Words;
use crate::work::Work;
use xv_model::board::Board;
use xv_model::operations::Op;

/// A read of the queue of an END.
pub fn read_line(board: &Board, words: &mut Words) -> Result<Work, Misread>
    requires { IsBoard board.now }
    ensures { (at : List ℕ) → result ≡ walk at (one (end_number board.now) (λ e. does (ops.Read e))) words.old }
{
    let e = words.end_number(board)?;
    words.done()?;
    Ok(Work::once(Op::Read { e }))
}

/// A look at the word at an address.
pub fn peek_line(words: &mut Words) -> Result<Work, Misread>
    ensures { (at : List ℕ) → result ≡ walk at (one AnyNumber (λ addr. does (ops.Peek addr))) words.old }
{
    let addr = words.number()?;
    words.done()?;
    Ok(Work::once(Op::Peek { addr }))
}

/// Some bytes that are made zero: an address, and how many.
pub fn zero_line(words: &mut Words) -> Result<Work, Misread>
    ensures { (at : List ℕ) → result ≡ walk at (two AnyNumber AnyNumber (λ addr len. does (ops.Zero addr len))) words.old }
{
    let addr = words.number()?;
    let len = words.number()?;
    words.done()?;
    Ok(Work::once(Op::Zero { addr, len }))
}
