//! Lines of hypercalls, by what stands after the name of the operation, and what they go on with.

ghost use Rattle.std.specs.Prelude.{◌≡◌, ℕ, List};
ghost use Rattle.xv_model.specs.board.Boards.{IsBoard};
ghost use Rattle.board_script.specs.Grammar.{walk};
ghost use Rattle.board_script.specs.Calling.{calls, esb_access, management_number, reset, then_called};
ghost use Rattle.board_script.specs.Operations.{hypercall, last_args as last_words, nothing};

use crate::faults::Misread;
use crate::steps::Then;
use crate::words::Words;
use crate::work::Work;
use xv_model::board::Board;
use xv_model::hypercalls::arguments::EsbArgs;
use xv_model::hypercalls::flags::ESB_STORE;
use xv_model::hypercalls::{Call, H_INT_RESET};
use xv_model::operations::Op;
use xv_model::pages::PAGE_SIZE;

/// The number of a source's management page.
fn management_page(board: &Board) -> u8
    ensures { result ≡ management_number board.now }
{
    board.source_pages() - 1
}

/// What a call goes on with where it is accepted.
fn then_call(board: &Board, call: &Call) -> Then
    ensures { result ≡ then_called board.now call.now }
{
    let sources = board.limits.sources;
    match call {
        Call::Esb { args } if args.lisn < sources as u64 && args.offset < PAGE_SIZE => Then::Esb {
            s: args.lisn as u32,
            page: management_page(board),
            offset: args.offset as u16,
            store: args.flags & ESB_STORE != 0,
        },
        Call::Sync { args } if args.lisn < sources as u64 => Then::Sync {
            s: args.lisn as u32,
        },
        Call::Reset { .. } => Then::Reset { from: 0, sources },
        _ => Then::Done,
    }
}

/// The line of a call.
fn call(board: &Board, number: u64, args: [u64; 5]) -> Work
    ensures { result ≡ calls board.now number args }
{
    let then = match Call::from_args(number, &args) {
        Some(call) => then_call(board, &call),
        None => Then::Done,
    };
    Work::with_then(Op::Hcall { number, args }, then)
}

/// A call, by its number, its first two arguments and what stands after them.
fn last_args(board: &Board, number: u64, a: u64, b: u64, words: &mut Words) -> Result<Work, Misread>
    ensures { (at : List ℕ) → result ≡ walk at (last_words board.now number a b) words.old }
{
    let c = words.number()?;
    let d = words.number()?;
    let e = words.number()?;
    words.done()?;
    Ok(call(board, number, [a, b, c, d, e]))
}

/// A hypercall.
pub fn hcall(board: &Board, words: &mut Words) -> Result<Work, Misread>
    ensures { (at : List ℕ) → result ≡ walk at (hypercall board.now) words.old }
{
    let number = words.number()?;
    let a = words.number()?;
    let b = words.number()?;
    last_args(board, number, a, b, words)
}

/// The call that resets.
pub fn reset_line(board: &Board, words: &mut Words) -> Result<Work, Misread>
    ensures { (at : List ℕ) → result ≡ walk at (nothing (reset board.now)) words.old }
{
    words.done()?;
    Ok(call(board, H_INT_RESET, [0; 5]))
}
