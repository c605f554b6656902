//! What a run reads: the lines of a source, and the parser that they are fed to.

ghost use Rattle.std.specs.Prelude.{ℕ, ◌≡◌, ◌≤◌, List, [], Some, IsFalse, IsTrue};
ghost use Rattle.xv_base.specs.declared.limits.TheConstants.{BYTE_LIMIT};
ghost use Rattle.board_script.specs.Parser.{new_parsing};

use board_script::parser::Parser;
use xv_io::{LineReader, Source};

/// A source, the reader of its lines, and the parser that they are fed to.
#[derive(Drop)]
pub struct Input<'a, S: Source> {
    pub source: &'a mut S,
    pub reader: LineReader,
    pub parser: Parser,
    ghost given: { reader.given ≤ BYTE_LIMIT },
    ghost ended: { (bytes : List ℕ) → IsTrue reader.ended →
        S.left source.now ≡ Some bytes → bytes ≡ [] },
}

impl<'a, S: Source> Input<'a, S> {
    pub fn new(source: &'a mut S) -> Input<'a, S>
        ensures same { result.source.ghost_name ≡ source.entry.ghost_name }
        ensures now { result.source.now ≡ source.old }
        ensures ahead { result.reader.ahead ≡ [] }
        ensures given { result.reader.given ≡ 0 }
        ensures open_yet { IsFalse result.reader.ended }
        ensures parser { result.parser ≡ new_parsing }
    {
        Input {
            source,
            reader: LineReader::new(),
            parser: Parser::new(false),
        }
    }
}
