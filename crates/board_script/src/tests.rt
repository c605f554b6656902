//! Scripts, spellings and refusals, by what the lines are about.

mod attributes;
mod calls;
mod causes;
mod configuring;
mod memory;
mod migrating;
mod pages;
mod processors;
mod ranges;
mod scripts;
mod sources;
mod spellings;

ghost use Rattle.std.specs.Prelude.{◌≡◌, true};
ghost use Rattle.board_script.specs.Work.{AsksBelow};
ghost use Rattle.xv_model.specs.board.Boards.{IsBoard};

use crate::faults::ScriptFault;
use crate::lines::{Line, Said, read};
use crate::migrating::Migration;
use crate::parser::Parser;
use crate::stage::Stage;
use crate::steps::Then;
use crate::work::Work;
use std::process::Abort;
use xv_model::board::Board;
use xv_model::known::Known;
use xv_model::operations::Op;
use xv_model::outcomes::Outcome;

/// Knows of the sources of the largest board, of no account: one notice of this source is outstanding, and no
/// other one; the sources 2, 7 and 8191 are initialised; and the pair of source 7 was 11 before it was set last, that of
/// each other one 10.
#[derive(Clone, Copy)]
pub struct Blind {
    pub busy: u32,
}

impl Known for Blind {
    ghost knows = { λ it z h. ⊥ };

    ghost sources = { λ it. 8192 };

    fn out(&self, s: u32) -> u64 {
        if s == self.busy { 1 } else { 0 }
    }

    fn initialised(&self, s: u32) -> bool {
        s == 2 || s == 7 || s == 8191
    }

    fn old_pair(&self, s: u32) -> u8 {
        if s == 7 { 3 } else { 2 }
    }
}

/// Whether a line asks for sources of the largest board alone.
fn asks_known(work: &Work) -> bool
    ensures { result ≡ true → AsksBelow 8192 work.now }
{
    match work {
        Work::Simple { steps } => match steps.then {
            Then::Sync { s } => s < 8192,
            Then::Drain { sources, .. } => sources <= 8192,
            Then::Reset { sources, .. } => sources <= 8192,
            _ => true,
        },
        Work::Migrate { migration } => match *migration {
            Migration::Masks { sources, .. } => sources <= 8192,
            Migration::Drains { sources, .. } => sources <= 8192,
            Migration::Restores { sources, .. } => sources <= 8192,
        },
    }
}

/// The next operation of a line, where a notice of one source is outstanding; none of a line that asks for
/// sources that the largest board hasn't.
pub fn next_while(work: &mut Work, last: Option<&Outcome>, busy: u32) -> Option<Op> {
    if !asks_known(work) {
        return None;
    }
    work.next(last, &Blind { busy })
}

/// The next operation of a line, where no notice of a source of the largest board is outstanding.
pub fn next_of(work: &mut Work, last: Option<&Outcome>) -> Option<Op> {
    next_while(work, last, 8192)
}

/// Feeds lines until one is refused, and says which.
pub fn first_fault(parser: &mut Parser, lines: &[&[u8]]) -> Option<ScriptFault> {
    for line in lines {
        if let Err(fault) = parser.feed(line) {
            return Some(fault);
        }
    }
    None
}

/// A parser of the largest board, before the end of its header.
pub fn before_go(rt: &impl Abort) -> Parser {
    let mut parser = Parser::new(false);
    let header = [
        b"# the largest board".as_slice(),
        b"board 1",
        b"sources 8192",
        b"",
        b"processors 64",
        b"threads 32",
        b"ram 64",
        b"actors 16",
        b"esb 2 1",
    ];
    assert!(rt; first_fault(&mut parser, &header).is_none());
    parser
}

/// A parser after the header of the largest board, whose sources 4 to 6 are level sources.
pub fn after_header(rt: &impl Abort) -> Parser {
    let mut parser = before_go(rt);
    assert!(rt; parser.feed(b"level 4 6").is_ok());
    assert!(rt; matches!(parser.feed(b"go"), Ok(Line::Go { .. })));
    parser
}

/// The work of a line on the largest board.
pub fn work_of(rt: &impl Abort, line: &[u8]) -> Work {
    match after_header(rt).feed(line) {
        Ok(Line::Work { work, .. }) => work,
        _ => panic!(rt; "no work"),
    }
}

/// Asserts that each line is read after the header of the largest board, or that none is.
pub fn assert_read(rt: &impl Abort, lines: &[&[u8]], good: bool) {
    for line in lines {
        assert_eq!(rt; after_header(rt).feed(line).is_ok(), good);
    }
}

/// Where a line is refused at a stage on a board, from byte 1 on; 0 where it is read.
pub fn place_at(stage: Stage, board: &Board, line: &[u8]) -> usize
    requires { IsBoard board.now }
{
    match read(stage, board, line, &mut Said::Nothing) {
        Ok(_) => 0,
        Err(misread) => line.len().saturating_sub(misread.left) + 1,
    }
}

/// Asserts where each line is refused after the header of the largest board, from byte 1 on; 0 where it is read.
pub fn assert_places(rt: &impl Abort, lines: &[(&[u8], usize)]) {
    let parser = after_header(rt);
    for (line, byte) in lines {
        assert_eq!(rt; place_at(Stage::Work, parser.board(), line), *byte);
    }
}
