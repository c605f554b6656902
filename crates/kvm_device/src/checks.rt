//! The checks that several attributes make.

ghost use Rattle.std.specs.Prelude.{◌≡◌, ◌<◌, ◌^◌, ℕ, List, IsTrue, length};
ghost use Rattle.xv_base.specs.Limits.{most_processors};
ghost use Rattle.xv_model.specs.declared.entries.Entry.{Entry};
ghost use Rattle.xv_model.specs.account.Start.{Start};
ghost use Rattle.xv_model.specs.call.Arguments.{end_of as end_of_server};
ghost use Rattle.xv_model.specs.call.Checks.{is_priority as is_guest_priority};
ghost use Rattle.xv_model.specs.device.Checks.{has_source as has_such_source};
ghost use Rattle.xv_model.specs.source.Eas.{initialised};
ghost use Rattle.eas_table.specs.Table.{StandsFor as EasesStandFor};

use eas_table::EasTable;
use xv_base::limits::ENDS_PER_PROCESSOR;
use xv_model::board::Board;
use xv_model::hypercalls::flags::PRIORITY_RESERVED;

/// Whether a number is that of a source.
pub(crate) fn has_source(board: &Board, source: u64) -> bool
    ensures value { result ≡ has_such_source board.now source }
    ensures source { IsTrue result → source < board.now.limits.sources }
    ensures narrow { IsTrue result → source < 2 ^ 32 }
{
    source < board.limits.sources as u64
}

/// Whether a source is initialised: its EAS is valid.
pub(crate) fn is_initialised(eas: &EasTable, source: u64) -> bool
    requires source { source < length eas.now }
    requires narrow { source < 2 ^ 32 }
    ensures { (z : Start) (h : List Entry) → EasesStandFor eas.now z h → source < z.board.limits.sources
        → result ≡ initialised z h source }
{
    eas.get(source as u32).valid
}

/// Whether a guest can have a priority: 0 to 6.
pub(crate) fn is_priority(priority: u8) -> bool
    ensures { result ≡ is_guest_priority priority }
{
    (priority as u64) < PRIORITY_RESERVED
}

/// The END of a server and a priority.
pub(crate) fn end_of(server: u32, priority: u8) -> u32
    requires server { server < most_processors }
    requires priority { IsTrue (is_guest_priority priority) }
    ensures { result ≡ end_of_server server priority }
{
    ENDS_PER_PROCESSOR * server + priority as u32
}
