//! The parser of a script, which is fed a line at a time.

ghost use Rattle.std.specs.Prelude.{◌≡◌, ◌<◌, ℕ, List, length, false, Err, OnOk, OnErr};
ghost use Rattle.xv_base.specs.Limits.{longest_line};
ghost use Rattle.xv_model.specs.board.Boards.{IsBoard};
ghost use Rattle.board_script.specs.Stage.{first_board, IsOpen};
ghost use Rattle.board_script.specs.Parser.{no_go};

use crate::faults::{Cause, ScriptFault};
use crate::lines::{Line, Said, read, whole_line};
use crate::stage::{Stage, Turn, advance};
use std::marker::Model;
use xv_base::Limits;
use xv_base::limits::LONGEST_LINE;
use xv_model::board::{Board, Spans};

/// A parser. A contract sees how far it has read, the board so far, how many lines it was fed, and the fault
/// that is sticky.
#[derive(Drop)]
pub struct Parser {
    stage: Stage,
    board: Board,
    lines: u32,
    fault: Option<ScriptFault>,
}

impl Model for Parser {
    ghost use Rattle.board_script.specs.Parser.{Parsing};
    ghost use Rattle.board_script.specs.Stage.{IsBoardAt};

    ghost Value = { Parsing };

    ghost view = { λ p.
        record { stage = p.stage; board = p.board; lines = p.lines; fault = p.fault } };

    ghost invariant = { λ p. IsBoardAt p.stage p.board };
}

/// The board before the first line.
fn least_board() -> Board
    ensures { result ≡ first_board }
{
    Board {
        limits: Limits {
            sources: 1,
            processors: 1,
            threads: 1,
            actors: 1,
        },
        ram_mib: 0,
        two_pages: false,
        store_eoi: false,
        level: Spans::NONE,
        unclaimed: Spans::NONE,
        unconnected: Spans::NONE,
    }
}

/// The fault of a script that is over before its `go`, in the line after the last.
fn missing_go(line: u32) -> ScriptFault
    ensures { result ≡ no_go line }
{
    ScriptFault {
        line,
        byte: 1,
        cause: Cause::NoGo,
    }
}

impl Parser {
    ghost use Rattle.board_script.specs.Words.{answer_with};
    ghost use Rattle.board_script.specs.Lines.{IsSaidAt};
    ghost use Rattle.board_script.specs.Parser.{new_parsing, parsing_behind, read_of, fed, parsing_after, finished, parsing_at_end};

    /// A parser before the first line. No live script is in the language yet.
    pub fn new(live: bool) -> Parser
        requires { live ≡ false }
        ensures { result ≡ new_parsing }
    {
        prove!(!live);
        Parser {
            stage: Stage::Header { turn: Turn::Board },
            board: least_board(),
            lines: 0,
            fault: None,
        }
    }

    /// A parser behind the `go` line of this board, which counts its next line as 1.
    pub fn after_go(board: &Board) -> Parser
        requires { IsBoard board.now }
        ensures { result ≡ parsing_behind board.now }
    {
        Parser {
            stage: Stage::Work,
            board: *board,
            lines: 0,
            fault: None,
        }
    }

    /// Reads one line, without its newline, and puts what it says into `said`, as that is too large to be
    /// copied from call to call. A line that is refused is a fault, which is sticky, and leaves `said` as it is.
    pub fn read(&mut self, line: &[u8], said: &mut Said) -> Result<(), ScriptFault>
        ensures value { answer_with result said.new ≡ read_of self.old line.now }
        ensures after { self.new ≡ parsing_after self.old line.now }
        ensures fits { OnOk result (IsSaidAt self.old.stage self.old.board said.new) }
        ensures unchanged { OnErr result (said.new ≡ said.old) }
    {
        if let Some(fault) = self.fault {
            return Err(fault);
        }
        self.lines = self.lines.saturating_add(1);
        match read(self.stage, &self.board, line, said) {
            Ok(()) => {
                advance(&mut self.stage, &mut self.board, said);
                Ok(())
            }
            Err(misread) => {
                let fault = misread.fault(self.lines, line);
                self.fault = Some(fault);
                Err(fault)
            }
        }
    }

    /// Refuses a line that is too long, whatever it has besides, as `read` does. The script isn't over.
    #[inline(never)]
    pub fn refuse_long(&mut self) -> ScriptFault
        requires { IsOpen self.old.stage }
        ensures value { (line : List ℕ) →
            longest_line < length line → read_of self.old line ≡ Err result }
        ensures after { (line : List ℕ) →
            longest_line < length line → self.new ≡ parsing_after self.old line }
    {
        if let Some(fault) = self.fault {
            return fault;
        }
        self.lines = self.lines.saturating_add(1);
        let fault = ScriptFault {
            line: self.lines,
            byte: LONGEST_LINE as u32 + 1,
            cause: Cause::LongLine,
        };
        self.fault = Some(fault);
        fault
    }

    /// The board so far: that of the script once its header is whole.
    pub fn board(&self) -> &Board
        ensures value { result.now ≡ self.now.board }
        ensures is_board { IsBoard result.now }
    {
        &self.board
    }

    /// Reads one line, as `read` does, and hands out a copy of the board where the header is whole.
    pub fn feed(&mut self, line: &[u8]) -> Result<Line, ScriptFault>
        ensures value { result ≡ fed self.old line.now }
        ensures after { self.new ≡ parsing_after self.old line.now }
    {
        let mut said = Said::Nothing;
        self.read(line, &mut said)?;
        Ok(whole_line(&self.board, said))
    }

    /// Ends the input: an error where a fault is sticky, or where no `go` line was fed. An error is sticky.
    #[inline(never)]
    pub fn finish(&mut self) -> Result<(), ScriptFault>
        ensures value { result ≡ finished self.old }
        ensures after { self.new ≡ parsing_at_end self.old }
    {
        if let Some(fault) = self.fault {
            return Err(fault);
        }
        if let Stage::Header { .. } = self.stage {
            let missing = missing_go(self.lines.saturating_add(1));
            self.fault = Some(missing);
            return Err(missing);
        }
        Ok(())
    }
}
