//! Work lines on the pages of sources and ENDs, by what stands after the name of the operation.

ghost use Rattle.std.specs.Prelude.{◌≡◌, ℕ, List};
ghost use Rattle.xv_model.specs.declared.operations.Op.TheVariants as ops;
ghost use Rattle.xv_model.specs.declared.pages.TheConstants.{END_PAGES as pages_of_an_end};
ghost use Rattle.xv_model.specs.board.Boards.{IsBoard, source_pages};
ghost use Rattle.board_script.specs.Grammar.{walk};
ghost use Rattle.board_script.specs.Operations.{end_number, on_page, source};

use crate::faults::Misread;
use crate::words::Words;
use crate::work::Work;
use xv_model::board::Board;
use xv_model::operations::Op;
use xv_model::pages::END_PAGES;

/// The bytes of a page (QEMU's XIVE_ESB_64K).
const PAGE_BYTES: u64 = 0x10000;

impl<'a> Words<'a> {
    ghost use Rattle.board_script.specs.Words.{rest_of};
    ghost use Rattle.board_script.specs.Grammar.{read_as};
    ghost use Rattle.board_script.specs.Operations.{below, offset};

    /// Reads one of so many pages.
    pub(crate) fn page(&mut self, pages: u8) -> Result<u8, Misread>
        ensures value { result ≡ read_as (below pages) self.old }
        ensures rest { self.new ≡ rest_of self.old }
    {
        Ok(self.bounded(0, pages as u64)? as u8)
    }

    /// Reads an offset on a page, in bytes.
    pub(crate) fn offset(&mut self) -> Result<u16, Misread>
        ensures value { result ≡ read_as offset self.old }
        ensures rest { self.new ≡ rest_of self.old }
    {
        Ok(self.bounded(0, PAGE_BYTES)? as u16)
    }
}

/// A load or a store on a page of a source.
pub fn source_page_line(board: &Board, store: bool, words: &mut Words) -> Result<Work, Misread>
    ensures { (at : List ℕ) → result
        ≡ walk at (on_page (source board.now) (source_pages board.now) (λ s page offset. ops.Esb s page offset store)) words.old }
{
    let s = words.bounded(0, board.limits.sources as u64)?;
    let page = words.page(board.source_pages())?;
    let offset = words.offset()?;
    words.done()?;
    Ok(Work::once(Op::Esb {
        s,
        page,
        offset,
        store,
    }))
}

/// A load or a store on a page of an END.
pub fn end_page_line(board: &Board, store: bool, words: &mut Words) -> Result<Work, Misread>
    requires { IsBoard board.now }
    ensures { (at : List ℕ) → result
        ≡ walk at (on_page (end_number board.now) pages_of_an_end (λ e page offset. ops.EndEsb e page offset store)) words.old }
{
    let e = words.end_number(board)?;
    let page = words.page(END_PAGES)?;
    let offset = words.offset()?;
    words.done()?;
    Ok(Work::once(Op::EndEsb {
        e,
        page,
        offset,
        store,
    }))
}
