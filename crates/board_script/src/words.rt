//! The words of a line, read from the left.

ghost use Rattle.std.specs.Prelude.{◌≡◌, ◌≤◌, length};
ghost use Rattle.std.specs.List.{list_all};
ghost use Rattle.board_script.specs.Words.{may_stand, from_unprintable, skip, word_len, is_word};

use crate::faults::{Cause, Misread};
use std::marker::Model;

/// The words of a line that are not read yet. A contract sees the bytes from the next word on.
#[derive(Drop)]
pub struct Words<'a> {
    rest: &'a [u8],
}

impl<'a> Model for Words<'a> {
    ghost use Rattle.std.specs.Prelude.{ℕ, List};

    ghost Value = { List ℕ };

    ghost view = { λ w. w.rest.now };
}

/// Whether a byte may stand in a line.
fn is_printable(b: u8) -> bool
    ensures { result ≡ may_stand b }
{
    0x20 <= b && b <= 0x7e
}

/// Whether each of eight bytes may stand in a line. They are looked at together, without a branch.
fn are_printable(eight: &[u8]) -> bool
    requires { length eight.now ≡ 8 }
    ensures { result ≡ list_all may_stand eight.now }
{
    match eight {
        [a, b, c, d, e, f, g, h] => {
            (is_printable(*a) & is_printable(*b) & is_printable(*c) & is_printable(*d))
                & (is_printable(*e) & is_printable(*f) & is_printable(*g) & is_printable(*h))
        }
        _ => unreachable!(),
    }
}

/// What is left of a line behind bytes that may stand in it, eight by eight.
fn behind_eights(line: &[u8]) -> &[u8]
    ensures { from_unprintable result.now ≡ from_unprintable line.now }
{
    let mut rest = line;
    while rest.len() >= 8 {
        let (eight, more) = rest.split_at(8);
        if !are_printable(eight) {
            return rest;
        }
        rest = more;
    }
    rest
}

/// What stands from the first byte on that may not stand in a line.
pub fn unprintable(line: &[u8]) -> &[u8]
    ensures { result.now ≡ from_unprintable line.now }
{
    let mut rest = behind_eights(line);
    while let [first, more @ ..] = rest {
        if !is_printable(*first) {
            return rest;
        }
        rest = more;
    }
    rest
}

/// The line without the spaces at its front.
fn without_spaces(line: &[u8]) -> &[u8]
    ensures { result.now ≡ skip line.now }
{
    let mut rest = line;
    while let [first, more @ ..] = rest {
        if *first != b' ' {
            return rest;
        }
        rest = more;
    }
    rest
}

/// How many bytes stand before the first space.
fn first_len(line: &[u8]) -> usize
    ensures value { result ≡ word_len line.now }
    ensures within { result ≤ length line.now }
{
    for (i, b) in line.iter().enumerate() {
        if *b == b' ' {
            return i;
        }
    }
    line.len()
}

/// Whether a word is this one.
pub fn same(word: &[u8], name: &[u8]) -> bool
    ensures { result ≡ is_word name.now word.now }
{
    word == name
}

impl<'a> Words<'a> {
    ghost use Rattle.board_script.specs.Words.{says_nothing as nothing_said, word_of, rest_of};
    ghost use Rattle.board_script.specs.Grammar.{done_at};

    /// The words of a line.
    pub fn new(line: &'a [u8]) -> Words<'a>
        ensures { result ≡ skip line.now }
    {
        Words {
            rest: without_spaces(line),
        }
    }

    /// Whether no word is left, or a comment.
    pub fn says_nothing(&self) -> bool
        ensures { result ≡ nothing_said self.now }
    {
        match self.rest {
            [] => true,
            [first, ..] => *first == b'#',
        }
    }

    /// How many bytes of the line are left, from the next word on.
    pub fn left(&self) -> usize
        ensures { result ≡ length self.now }
    {
        self.rest.len()
    }

    /// Reads the next word, empty where there is none.
    pub fn next(&mut self) -> &'a [u8]
        ensures word { result.now ≡ word_of self.old }
        ensures rest { self.new ≡ rest_of self.old }
    {
        let at = first_len(self.rest);
        let word = &self.rest[..at];
        self.rest = without_spaces(&self.rest[at..]);
        word
    }

    /// Refuses a further word.
    pub fn done(&self) -> Result<(), Misread>
        ensures { result ≡ done_at self.now }
    {
        if self.rest.is_empty() {
            return Ok(());
        }
        Err(Misread {
            cause: Cause::ExtraWord,
            left: self.rest.len(),
        })
    }
}
