//! The checks that several hypercalls make.

ghost use Rattle.std.specs.Prelude.{◌≡◌, ◌<◌, ◌^◌, ℕ, List, IsTrue, length};
ghost use Rattle.xv_model.specs.declared.entries.Entry.{Entry};
ghost use Rattle.xv_model.specs.account.Start.{Start};
ghost use Rattle.xv_model.specs.board.Boards.{IsBoard};
ghost use Rattle.xv_model.specs.board.Validity.{end_count};
ghost use Rattle.xv_model.specs.call.Arguments.{end_of as end_of_target};
ghost use Rattle.xv_model.specs.call.Checks.{is_source as is_valid_source, is_priority as is_guest_priority};
ghost use Rattle.eas_table.specs.Table.{StandsFor as EasesStandFor};

use eas_table::EasTable;
use xv_base::limits::ENDS_PER_PROCESSOR;
use xv_model::board::Board;
use xv_model::hypercalls::flags::PRIORITY_RESERVED;

/// Whether a LISN is that of a source with a valid EAS.
pub(crate) fn is_source(board: &Board, eas: &EasTable, lisn: u64) -> bool
    requires sources { length eas.now ≡ board.now.limits.sources }
    ensures value { (z : Start) (h : List Entry) → board.now ≡ z.board → EasesStandFor eas.now z h
        → result ≡ is_valid_source z h lisn }
    ensures source { IsTrue result → lisn < board.now.limits.sources }
    ensures narrow { IsTrue result → lisn < 2 ^ 32 }
{
    lisn < board.limits.sources as u64 && eas.get(lisn as u32).valid
}

/// Whether a guest can have a priority: 0 to 6.
pub(crate) fn is_priority(priority: u64) -> bool
    ensures { result ≡ is_guest_priority priority }
{
    priority < PRIORITY_RESERVED
}

/// The END of a processor and a priority.
pub(crate) fn end_of(board: &Board, target: u64, priority: u64) -> u32
    requires board { IsBoard board.now }
    requires target { target < board.now.limits.processors }
    requires priority { IsTrue (is_guest_priority priority) }
    ensures value { result ≡ end_of_target target priority }
    ensures end { result < end_count board.now }
{
    ENDS_PER_PROCESSOR * target as u32 + priority as u32
}
