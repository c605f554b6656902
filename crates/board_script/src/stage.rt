//! How far a script is read: the stage and the board after a line.

ghost use Rattle.std.specs.Prelude.{◌≡◌, ◌<◌};
ghost use Rattle.xv_base.specs.Limits.{most_ranges};
ghost use Rattle.board_script.specs.Lines.{IsSaidAt};
ghost use Rattle.board_script.specs.declared.stage.Stage.TheVariants.{Header};
ghost use Rattle.board_script.specs.Stage.{next_turn, header_after, stage_after, spans_with, board_with, board_after};

use crate::lines::Said;
use xv_model::board::{Board, Span, Spans};

/// Which line of the header is next.
#[derive(Clone, Copy)]
pub enum Turn {
    Board,
    Sources,
    Processors,
    Threads,
    Ram,
    Actors,
    Esb,
    /// A range of any kind, or `go`.
    Level,
    /// A range of unclaimed sources or of unconnected processors, or `go`.
    Unclaimed,
    /// A range of unconnected processors, or `go`.
    Unconnected,
}

/// What may come next: a line of the header, a line of work, or nothing that counts.
#[derive(Clone, Copy)]
pub enum Stage {
    Header { turn: Turn },
    Work,
    /// A line of work, but no further `start`.
    Started,
    Ended,
}

/// Which line of the header follows.
fn turn_after(turn: Turn) -> Turn
    ensures { result ≡ next_turn turn }
{
    match turn {
        Turn::Board => Turn::Sources,
        Turn::Sources => Turn::Processors,
        Turn::Processors => Turn::Threads,
        Turn::Threads => Turn::Ram,
        Turn::Ram => Turn::Actors,
        Turn::Actors => Turn::Esb,
        Turn::Esb => Turn::Level,
        Turn::Level => Turn::Level,
        Turn::Unclaimed => Turn::Unclaimed,
        Turn::Unconnected => Turn::Unconnected,
    }
}

/// The stage after a line of the header.
fn after_header_line(turn: Turn, said: &Said) -> Stage
    ensures { result ≡ header_after turn said.now }
{
    match said {
        Said::Nothing => Stage::Header { turn },
        Said::Unclaimed { .. } => Stage::Header {
            turn: Turn::Unclaimed,
        },
        Said::Unconnected { .. } => Stage::Header {
            turn: Turn::Unconnected,
        },
        Said::Go => Stage::Work,
        _ => Stage::Header {
            turn: turn_after(turn),
        },
    }
}

/// Puts one more span behind the others.
fn add_span(spans: &mut Spans, span: Span)
    requires { spans.old.count < most_ranges }
    ensures { spans.new ≡ spans_with span spans.old }
{
    spans.spans[spans.count as usize] = span;
    spans.count += 1;
}

/// Puts what a line of the header says into the board.
fn extend(board: &mut Board, turn: Turn, said: &Said)
    requires { IsSaidAt (Header turn) board.old said.now }
    ensures { board.new ≡ board_with turn said.now board.old }
{
    match (turn, *said) {
        (Turn::Sources, Said::Number { n }) => board.limits.sources = n,
        (Turn::Processors, Said::Number { n }) => board.limits.processors = n,
        (Turn::Threads, Said::Number { n }) => board.limits.threads = n,
        (Turn::Ram, Said::Number { n }) => board.ram_mib = n,
        (Turn::Actors, Said::Number { n }) => board.limits.actors = n,
        (
            Turn::Esb,
            Said::Pages {
                two_pages,
                store_eoi,
            },
        ) => {
            board.two_pages = two_pages;
            board.store_eoi = store_eoi;
        }
        (Turn::Level, Said::Level { span }) => add_span(&mut board.level, span),
        (Turn::Level, Said::Unclaimed { span }) => add_span(&mut board.unclaimed, span),
        (Turn::Unclaimed, Said::Unclaimed { span }) => add_span(&mut board.unclaimed, span),
        (Turn::Level, Said::Unconnected { span }) => add_span(&mut board.unconnected, span),
        (Turn::Unclaimed, Said::Unconnected { span }) => add_span(&mut board.unconnected, span),
        (Turn::Unconnected, Said::Unconnected { span }) => add_span(&mut board.unconnected, span),
        _ => {}
    }
}

/// Goes on to the stage after a line, and puts what the line says into the board.
pub(crate) fn advance(stage: &mut Stage, board: &mut Board, said: &Said)
    requires { IsSaidAt stage.old board.old said.now }
    ensures stage { stage.new ≡ stage_after stage.old said.now }
    ensures board { board.new ≡ board_after stage.old said.now board.old }
{
    match *stage {
        Stage::Work | Stage::Started => match said {
            Said::Start => *stage = Stage::Started,
            Said::End => *stage = Stage::Ended,
            _ => {}
        },
        Stage::Header { turn } => {
            extend(board, turn, said);
            *stage = after_header_line(turn, said);
        }
        Stage::Ended => {}
    }
}
