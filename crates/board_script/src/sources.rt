//! Work lines on a source, by what stands after the name of the operation.

ghost use Rattle.std.specs.Prelude.{◌≡◌, ◌==◌, ℕ, List, length, Ok};
ghost use Rattle.xv_model.specs.declared.operations.Op.TheVariants as ops;
ghost use Rattle.xv_model.specs.declared.operations.PqOp.TheVariants.{Raise, Set};
ghost use Rattle.board_script.specs.Work.{once, then_route as routed_then, sync};
ghost use Rattle.board_script.specs.Grammar.{Pair, read_at, walk};
ghost use Rattle.board_script.specs.Operations.{below, does, initialises, on_level, one, source, two};

use crate::faults::{Cause, Misread};
use crate::words::Words;
use crate::work::Work;
use xv_model::board::Board;
use xv_model::operations::{Op, PqOp};

/// One operation on the word of a source.
#[inline(always)]
pub fn access_line(board: &Board, op: PqOp, words: &mut Words) -> Result<Work, Misread>
    ensures { (at : List ℕ) → result ≡ walk at (one (source board.now) (λ s. does (ops.Pq s op))) words.old }
{
    let s = words.bounded(0, board.limits.sources as u64)?;
    words.done()?;
    Ok(Work::once(Op::Pq { s, op }))
}

/// The operation that sets the pair of a source.
#[inline(always)]
pub fn set_line(board: &Board, words: &mut Words) -> Result<Work, Misread>
    ensures { (at : List ℕ) → result ≡ walk at (two (source board.now) Pair (λ s pq. does (ops.Pq s (Set pq)))) words.old }
{
    let s = words.bounded(0, board.limits.sources as u64)?;
    let pq = words.pair()?;
    words.done()?;
    Ok(Work::once(Op::Pq {
        s,
        op: PqOp::Set { pq },
    }))
}

/// The route of a notice of a source.
pub fn route_line(board: &Board, words: &mut Words) -> Result<Work, Misread>
    ensures { (at : List ℕ) → result ≡ walk at (one (source board.now) (λ s. does (ops.Route s))) words.old }
{
    let s = words.bounded(0, board.limits.sources as u64)?;
    words.done()?;
    Ok(Work::once(Op::Route { s }))
}

/// Whether a source is quiet is asked.
pub fn quiet_line(board: &Board, words: &mut Words) -> Result<Work, Misread>
    ensures { (at : List ℕ) → result ≡ walk at (one (source board.now) (λ s. does (ops.Quiet s))) words.old }
{
    let s = words.bounded(0, board.limits.sources as u64)?;
    words.done()?;
    Ok(Work::once(Op::Quiet { s }))
}

/// A source is brought to rest.
pub fn sync_line(board: &Board, words: &mut Words) -> Result<Work, Misread>
    ensures { (at : List ℕ) → result ≡ walk at (one (source board.now) (λ s. Ok (sync s))) words.old }
{
    let s = words.bounded(0, board.limits.sources as u64)?;
    words.done()?;
    Ok(Work::sync(s))
}

/// An operation on the word of a source, and the route of what it forwards.
pub fn then_route(board: &Board, op: PqOp, words: &mut Words) -> Result<Work, Misread>
    ensures { (at : List ℕ) → result ≡ walk at (one (source board.now) (λ s. Ok (routed_then s op))) words.old }
{
    let s = words.bounded(0, board.limits.sources as u64)?;
    words.done()?;
    Ok(Work::then_route(s, op))
}

/// A line that needs a level source: a message source is refused at the name of the operation, where so many bytes
/// are left.
fn on_level_source(board: &Board, left: usize, s: u32, work: Work) -> Result<Work, Misread>
    ensures { (at : List ℕ) → length at ≡ left → result ≡ read_at at (on_level board.now s work) }
{
    if board.is_level(s) {
        return Ok(work);
    }
    Err(Misread {
        cause: Cause::NotLevel,
        left,
    })
}

/// One operation on the word of a level source.
pub fn level_line(board: &Board, left: usize, op: PqOp, words: &mut Words) -> Result<Work, Misread>
    ensures { (at : List ℕ) → length at ≡ left →
        result ≡ walk at (one (source board.now) (λ s. on_level board.now s (once (ops.Pq s op)))) words.old }
{
    let s = words.bounded(0, board.limits.sources as u64)?;
    words.done()?;
    on_level_source(board, left, s, Work::once(Op::Pq { s, op }))
}

/// The rise of the line of a level source, and the route of what it forwards.
pub fn assert_line(board: &Board, left: usize, words: &mut Words) -> Result<Work, Misread>
    ensures { (at : List ℕ) → length at ≡ left →
        result ≡ walk at (one (source board.now) (λ s. on_level board.now s (routed_then s Raise))) words.old }
{
    let s = words.bounded(0, board.limits.sources as u64)?;
    words.done()?;
    on_level_source(board, left, s, Work::then_route(s, PqOp::Raise))
}

/// The operation that initialises the word of a source, with its line asserted or not. A message source, which
/// has no line, is refused at the name of the operation, where its line is to be asserted.
pub fn init_line(board: &Board, left: usize, words: &mut Words) -> Result<Work, Misread>
    ensures { (at : List ℕ) → length at ≡ left →
        result ≡ walk at (two (source board.now) (below 2) (λ s asserted. initialises board.now s (asserted == 1))) words.old }
{
    let s = words.bounded(0, board.limits.sources as u64)?;
    let asserted = words.bounded(0, 2)? == 1;
    words.done()?;
    if board.is_level(s) || !asserted {
        return Ok(Work::once(Op::Pq {
            s,
            op: PqOp::Init { asserted },
        }));
    }
    Err(Misread {
        cause: Cause::NotLevel,
        left,
    })
}
