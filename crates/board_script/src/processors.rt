//! Work lines on processors, messages and rings, by what stands after the name of the operation.

ghost use Rattle.std.specs.Prelude.{◌≡◌, ℕ, List};
ghost use Rattle.xv_model.specs.declared.operations.Access.TheVariants.{Load, Store};
ghost use Rattle.xv_model.specs.declared.operations.Op.TheVariants as ops;
ghost use Rattle.xv_model.specs.declared.tima.TheConstants.{TM_HV_PAGE as hv_page, TM_ACKNOWLEDGE as acknowledge, TM_OS_CPPR as os_cppr, TM_PULL_CONTEXT as pull_context, TM_QW1_OS as os_ring, TM_SET_PENDING as set_pending, TM_OS_PAGE as os_page};
ghost use Rattle.board_script.specs.Work.{drain, settle};
ghost use Rattle.board_script.specs.Grammar.{walk};
ghost use Rattle.board_script.specs.Operations.{byte, cam_store, does, nothing, one, processor, thread, two, word32, tima_load as load_words, tima_store as store_words};

use crate::faults::Misread;
use crate::words::Words;
use crate::work::Work;
use xv_model::board::Board;
use xv_model::operations::{Access, Op};
use xv_model::tima::{
    CAM_FIRST, CAM_VALID, TM_ACKNOWLEDGE, TM_HV_PAGE, TM_OS_CAM, TM_OS_CPPR, TM_OS_PAGE, TM_PAGES,
    TM_PULL_CONTEXT, TM_QW1_OS, TM_SET_PENDING,
};

/// Takes of the oldest message until there is none.
pub fn settle_line(words: &mut Words) -> Result<Work, Misread>
    ensures { (at : List ℕ) → result ≡ walk at (nothing settle) words.old }
{
    words.done()?;
    Ok(Work::SETTLE)
}

/// All sources of a board are drained.
pub fn drain_line(board: &Board, words: &mut Words) -> Result<Work, Misread>
    ensures { (at : List ℕ) → result ≡ walk at (nothing (drain board.now.limits.sources)) words.old }
{
    words.done()?;
    Ok(Work::drain(board.limits.sources))
}

/// The take of one of the messages in flight.
pub fn take_line(words: &mut Words) -> Result<Work, Misread>
    ensures { (at : List ℕ) → result ≡ walk at (one word32 (λ i. does (ops.Take i))) words.old }
{
    let i = words.bounded(0, 1 << 32)?;
    words.done()?;
    Ok(Work::once(Op::Take { i }))
}

/// The connection of a processor.
pub fn connect_line(board: &Board, words: &mut Words) -> Result<Work, Misread>
    ensures { (at : List ℕ) → result ≡ walk at (one (processor board.now) (λ v. does (ops.Connect v))) words.old }
{
    let v = words.bounded(0, board.limits.processors as u64)?;
    words.done()?;
    Ok(Work::once(Op::Connect { v }))
}

/// The context of a processor goes from what is saved into the ring of a thread.
pub fn restore_line(board: &Board, words: &mut Words) -> Result<Work, Misread>
    ensures { (at : List ℕ) → result ≡ walk at (two (processor board.now) (thread board.now) (λ v t. does (ops.Restore v t))) words.old }
{
    let v = words.bounded(0, board.limits.processors as u64)?;
    let t = words.bounded(0, board.limits.threads as u64)?;
    words.done()?;
    Ok(Work::once(Op::Restore { v, t }))
}

/// The context of a processor is saved.
pub fn save_line(board: &Board, words: &mut Words) -> Result<Work, Misread>
    ensures { (at : List ℕ) → result ≡ walk at (one (processor board.now) (λ v. does (ops.Save v))) words.old }
{
    let v = words.bounded(0, board.limits.processors as u64)?;
    words.done()?;
    Ok(Work::once(Op::Save { v }))
}

/// The push of a processor on a thread: the hypervisor stores the processor's CAM word, with its valid bit.
pub fn push_line(board: &Board, words: &mut Words) -> Result<Work, Misread>
    ensures { (at : List ℕ) → result ≡ walk at (two (thread board.now) (processor board.now) (λ t v. does (cam_store t v))) words.old }
{
    let t = words.bounded(0, board.limits.threads as u64)?;
    let v = words.bounded(0, board.limits.processors as u64)?;
    words.done()?;
    let value = CAM_VALID as u64 + CAM_FIRST as u64 + v as u64;
    Ok(Work::once(Op::Tima {
        t,
        page: TM_HV_PAGE,
        offset: TM_OS_CAM,
        size: 4,
        access: Access::Store { value },
    }))
}

/// A load of a thread from a page of the TIMA, of so many bytes; the thread is the last word of a line.
fn load_of(
    board: &Board,
    page: u8,
    offset: u16,
    size: u8,
    words: &mut Words,
) -> Result<Work, Misread>
    ensures { (at : List ℕ) → result ≡ walk at (one (thread board.now) (λ t. does (ops.Tima t page offset size Load))) words.old }
{
    let t = words.bounded(0, board.limits.threads as u64)?;
    words.done()?;
    Ok(Work::once(Op::Tima {
        t,
        page,
        offset,
        size,
        access: Access::Load,
    }))
}

/// The pull of what a thread has.
pub fn pull_line(board: &Board, words: &mut Words) -> Result<Work, Misread>
    ensures { (at : List ℕ) → result ≡ walk at (one (thread board.now) (λ t. does (ops.Tima t hv_page pull_context 4 Load))) words.old }
{
    load_of(board, TM_HV_PAGE, TM_PULL_CONTEXT, 4, words)
}

/// The acknowledgement of what is presented to a thread.
pub fn ack_line(board: &Board, words: &mut Words) -> Result<Work, Misread>
    ensures { (at : List ℕ) → result ≡ walk at (one (thread board.now) (λ t. does (ops.Tima t os_page acknowledge 2 Load))) words.old }
{
    load_of(board, TM_OS_PAGE, TM_ACKNOWLEDGE, 2, words)
}

/// A look at the first 8 bytes of a thread's ring: its registers.
pub fn regs_line(board: &Board, words: &mut Words) -> Result<Work, Misread>
    ensures { (at : List ℕ) → result ≡ walk at (one (thread board.now) (λ t. does (ops.Tima t os_page os_ring 8 Load))) words.old }
{
    load_of(board, TM_OS_PAGE, TM_QW1_OS, 8, words)
}

/// A store of a thread on the page of the operating system: the thread, and a byte.
#[inline(always)]
fn byte_of(board: &Board, offset: u16, words: &mut Words) -> Result<Work, Misread>
    ensures { (at : List ℕ) → result ≡ walk at (two (thread board.now) byte (λ t value. does (ops.Tima t os_page offset 1 (Store value)))) words.old }
{
    let t = words.bounded(0, board.limits.threads as u64)?;
    let value = words.bounded(0, 1 << 8)?;
    words.done()?;
    Ok(Work::once(Op::Tima {
        t,
        page: TM_OS_PAGE,
        offset,
        size: 1,
        access: Access::Store {
            value: value as u64,
        },
    }))
}

/// CPPR of a thread's ring is set.
pub fn cppr_line(board: &Board, words: &mut Words) -> Result<Work, Misread>
    ensures { (at : List ℕ) → result ≡ walk at (two (thread board.now) byte (λ t value. does (ops.Tima t os_page os_cppr 1 (Store value)))) words.old }
{
    byte_of(board, TM_OS_CPPR, words)
}

/// A priority is made pending in a thread's ring.
pub fn inject_line(board: &Board, words: &mut Words) -> Result<Work, Misread>
    ensures { (at : List ℕ) → result ≡ walk at (two (thread board.now) byte (λ t value. does (ops.Tima t os_page set_pending 1 (Store value)))) words.old }
{
    byte_of(board, TM_SET_PENDING, words)
}

/// A load of a thread from a page of the TIMA.
pub fn tima_load_line(board: &Board, words: &mut Words) -> Result<Work, Misread>
    ensures { (at : List ℕ) → result ≡ walk at (load_words board.now) words.old }
{
    let t = words.bounded(0, board.limits.threads as u64)?;
    let page = words.page(TM_PAGES)?;
    let offset = words.offset()?;
    let size = words.size()?;
    words.done()?;
    Ok(Work::once(Op::Tima {
        t,
        page,
        offset,
        size,
        access: Access::Load,
    }))
}

/// A store of a thread on a page of the TIMA.
pub fn tima_store_line(board: &Board, words: &mut Words) -> Result<Work, Misread>
    ensures { (at : List ℕ) → result ≡ walk at (store_words board.now) words.old }
{
    let t = words.bounded(0, board.limits.threads as u64)?;
    let page = words.page(TM_PAGES)?;
    let offset = words.offset()?;
    let size = words.size()?;
    let value = words.value(size)?;
    words.done()?;
    Ok(Work::once(Op::Tima {
        t,
        page,
        offset,
        size,
        access: Access::Store { value },
    }))
}
