//! The words that may begin a line, each in its turn.

ghost use Rattle.std.specs.Prelude.{◌≡◌, ◌||◌};
ghost use Rattle.board_script.specs.FirstWords.{first_words, is_among, out_of_turn as cause_of};

use crate::faults::Cause;
use crate::numbers::number;
use crate::words::same;

/// Whether a word is one that may begin a line, and no number.
fn is_first(word: &[u8]) -> bool
    ensures { result ≡ is_among first_words word.now }
{
    same(word, b"board")
        || same(word, b"sources")
        || same(word, b"processors")
        || same(word, b"threads")
        || same(word, b"ram")
        || same(word, b"actors")
        || same(word, b"esb")
        || same(word, b"level")
        || same(word, b"unclaimed")
        || same(word, b"unconnected")
        || same(word, b"go")
        || same(word, b"start")
        || same(word, b"end")
}

/// Why a line is refused at a first word whose turn it isn't.
pub fn out_of_turn(word: &[u8]) -> Cause
    ensures { result ≡ cause_of word.now }
{
    if is_first(word) || number(word).is_some() {
        Cause::WrongPlace
    } else {
        Cause::UnknownWord
    }
}
