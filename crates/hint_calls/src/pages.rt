//! Where the pages of sources and of ENDs lie, and what they can do.

ghost use Rattle.std.specs.Prelude.{◌≡◌, ◌<◌, ◌+◌};
ghost use Rattle.xv_model.specs.board.Boards.{IsBoard};
ghost use Rattle.xv_model.specs.board.Validity.{end_count};
ghost use Rattle.xv_model.specs.call.Outputs.{source_address as source_address_of, end_address as end_address_of, source_flags as source_flags_of, management_page as management_page_of, trigger_page as trigger_page_of};

use xv_model::board::Board;
use xv_model::hypercalls::flags::{SRC_H_INT_ESB, SRC_LSI, SRC_STORE_EOI, SRC_TRIGGER};
use xv_model::pages::{END_BASE, ESB_BASE, NO_PAGE, PAGE_PAIR_SIZE, PAGE_SIZE};

/// Where the pages of a source lie.
fn source_address(s: u32) -> u64
    ensures value { result ≡ source_address_of s }
{
    ESB_BASE + s as u64 * PAGE_PAIR_SIZE
}

/// Where the pages of an END lie.
pub(crate) fn end_address(e: u32) -> u64
    ensures { result ≡ end_address_of e }
{
    END_BASE + e as u64 * PAGE_PAIR_SIZE
}

/// What the pages of a source can do.
pub(crate) fn source_flags(board: &Board, s: u32) -> u64
    ensures { result ≡ source_flags_of board.now s }
{
    let store_eoi = if board.store_eoi { SRC_STORE_EOI } else { 0 };
    let trigger = if board.two_pages { 0 } else { SRC_TRIGGER };
    let level = if board.is_level(s) {
        SRC_LSI + SRC_H_INT_ESB
    } else {
        0
    };
    store_eoi + trigger + level
}

/// Where the management page of a source lies: of two pages it is the second one. A level source has none that a
/// guest uses.
pub(crate) fn management_page(board: &Board, s: u32) -> u64
    ensures { result ≡ management_page_of board.now s }
{
    if board.is_level(s) {
        return NO_PAGE;
    }
    if board.two_pages {
        source_address(s) + PAGE_SIZE
    } else {
        source_address(s)
    }
}

/// Where the trigger page of a source lies, where it is a page of its own.
pub(crate) fn trigger_page(board: &Board, s: u32) -> u64
    ensures { result ≡ trigger_page_of board.now s }
{
    if board.is_level(s) || !board.two_pages {
        NO_PAGE
    } else {
        source_address(s)
    }
}
