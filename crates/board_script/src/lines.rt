//! What the lines of a script say.

ghost use Rattle.std.specs.Prelude.{◌≡◌, ◌≤◌, ◌+◌, length, IfErr, OnOk, OnErr};
ghost use Rattle.xv_base.specs.Limits.{longest_line};
ghost use Rattle.xv_model.specs.board.Boards.{IsBoard};
ghost use Rattle.board_script.specs.Faults.{place};
ghost use Rattle.board_script.specs.Words.{answer_with};
ghost use Rattle.board_script.specs.Lines.{check_of, said_of, line_by};

use crate::faults::{Cause, Misread};
use crate::header::header_line;
use crate::stage::Stage;
use crate::words::{Words, unprintable};
use crate::work::Work;
use crate::working::work_line;
use xv_base::limits::LONGEST_LINE;
use xv_model::board::{Board, Span};

/// What a line says to who runs the script.
#[derive(Clone, Copy)]
pub enum Line {
    /// The line is blank or a comment, or comes after the end.
    Nothing,
    /// A line of the header before `go`.
    Header,
    /// The header is whole, and this is its board.
    Go { board: Board },
    /// The first half of the script is over. It makes no entry.
    Start,
    /// The script is over.
    End,
    /// An actor has this work.
    Work { actor: u32, work: Work },
}

/// What a line says, without the board: it is small, and so is read at little cost.
#[derive(Clone, Copy)]
pub enum Said {
    /// The line is blank or a comment, or comes after the end.
    Nothing,
    /// A number of the header; which line of the header was next says of what.
    Number { n: u32 },
    /// How many pages a source has, and whether a store is an EOI.
    Pages { two_pages: bool, store_eoi: bool },
    /// Level sources.
    Level { span: Span },
    /// Sources that start without a valid EAS.
    Unclaimed { span: Span },
    /// Processors that start unconnected.
    Unconnected { span: Span },
    /// The header is whole.
    Go,
    /// The first half of the script is over.
    Start,
    /// The script is over.
    End,
    /// An actor has this work.
    Work { actor: u32, work: Work },
}

/// Refuses a line that is long, or has a byte that may not stand in it.
fn check(line: &[u8]) -> Result<(), Misread>
    ensures value { result ≡ check_of line.now }
    ensures short { OnOk result (length line.now ≤ longest_line) }
    ensures place { IfErr result (λ m. place line.now m ≤ longest_line + 1) }
{
    if line.len() > LONGEST_LINE {
        return Err(Misread {
            cause: Cause::LongLine,
            left: line.len() - LONGEST_LINE,
        });
    }
    let bad = unprintable(line);
    if bad.is_empty() {
        return Ok(());
    }
    Err(Misread {
        cause: Cause::BadByte,
        left: bad.len(),
    })
}

/// Puts what a line says at a stage into `said`, which stays as it is where the line is refused.
pub(crate) fn read(stage: Stage, board: &Board, line: &[u8], said: &mut Said) -> Result<(), Misread>
    requires { IsBoard board.now }
    ensures value { answer_with result said.new ≡ said_of stage board.now line.now }
    ensures unchanged { OnErr result (said.new ≡ said.old) }
    ensures place { IfErr result (λ m. place line.now m ≤ longest_line + 1) }
{
    if let Stage::Ended = stage {
        *said = Said::Nothing;
        return Ok(());
    }
    check(line)?;
    let mut words = Words::new(line);
    if words.says_nothing() {
        *said = Said::Nothing;
        return Ok(());
    }
    match stage {
        Stage::Header { turn } => *said = header_line(turn, board, &mut words)?,
        Stage::Work => work_line(board, false, &mut words, said)?,
        Stage::Started => work_line(board, true, &mut words, said)?,
        Stage::Ended => *said = Said::Nothing,
    }
    Ok(())
}

/// What a line says to who runs the script, on the board that is read so far.
pub(crate) fn whole_line(board: &Board, said: Said) -> Line
    ensures { result ≡ line_by board.now said }
{
    match said {
        Said::Nothing => Line::Nothing,
        Said::Go => Line::Go { board: *board },
        Said::Start => Line::Start,
        Said::End => Line::End,
        Said::Work { actor, work } => Line::Work { actor, work },
        _ => Line::Header,
    }
}
