//! The number of an END, as a line has it.

ghost use Rattle.std.specs.Prelude.{◌≡◌, IfOk};
ghost use Rattle.xv_model.specs.board.Boards.{IsBoard};

use crate::faults::Misread;
use crate::words::Words;
use xv_base::limits::ENDS_PER_PROCESSOR;
use xv_model::board::Board;

impl<'a> Words<'a> {
    ghost use Rattle.board_script.specs.Words.{rest_of};
    ghost use Rattle.board_script.specs.Grammar.{read_as};
    ghost use Rattle.board_script.specs.Operations.{end_number};

    /// Reads the number of an END of a board.
    pub fn end_number(&mut self, board: &Board) -> Result<u32, Misread>
        requires { IsBoard board.now }
        ensures value { result ≡ read_as (end_number board.now) self.old }
        ensures rest { self.new ≡ rest_of self.old }
    {
        self.bounded(
            0,
            ENDS_PER_PROCESSOR as u64 * board.limits.processors as u64,
        )
    }
}
