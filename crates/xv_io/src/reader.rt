//! A reader of lines, which reads ahead in large pieces.

ghost use Rattle.std.specs.Prelude.{◌≡◌, ◌≢◌, ◌<◌, ◌≤◌, ◌+◌, ◌*◌, ◌⊎◌, [], true, false, IsTrue, IsFalse, OnOk, OnErr, length, slice_range};
ghost use Rattle.std.specs.Io.KnownBytes.{IsAtEnd, Keeps};
ghost use Rattle.xv_io.specs.Faults.{HasRisen};
ghost use Rattle.xv_io.specs.Reader.{Reading, Reads, rest, GivesLine, GivesWholeLine, HasLongLine, HasNoLine, IsInOrder, IsMoved, line_length, is_inside as is_inside_line};
ghost use Rattle.std.specs.List.{list_all};

use crate::{Failed, Source};
use std::marker::Model;
use xv_base::limits::{BYTE_LIMIT, LONGEST_LINE};

/// The least room that a read is given, in bytes.
const LEAST_READ: usize = 16384;

/// How many bytes a reader holds.
const ROOM: usize = 2 * LEAST_READ;

/// Gives the lines of a source. It holds 32 KiB and allocates nothing.
#[derive(Drop)]
pub struct LineReader {
    piece: [u8; ROOM],
    start: usize,
    end: usize,
    at: usize,
    len: usize,
    given: u64,
    ended: bool,
}

impl Model for LineReader {
    ghost Value = { Reading };

    ghost view = { λ r. record {
      line = slice_range r.piece r.start r.end;
      ahead = slice_range r.piece r.at r.len;
      given = r.given;
      ended = r.ended;
    } };

    ghost invariant = { λ r. IsInOrder r.start r.end r.at r.len r.given };
}

/// What comes next.
#[derive(Clone, Copy, Debug)]
pub enum Next {
    /// A line, which `line` gives.
    Line,
    /// A line that is longer than a line may be.
    Long,
    /// The end of what may be given, with no line before it.
    TooMany,
    /// The end of the source.
    End,
    /// More has to be read before that is known.
    More,
}

impl LineReader {
    pub fn new() -> LineReader
        ensures line { result.line ≡ [] }
        ensures ahead { result.ahead ≡ [] }
        ensures given { result.given ≡ 0 }
        ensures ended { result.ended ≡ false }
    {
        LineReader {
            piece: [0; ROOM],
            start: 0,
            end: 0,
            at: 0,
            len: 0,
            given: 0,
            ended: false,
        }
    }

    /// The line that was given last, without its newline. It is empty before the first.
    pub fn line(&self) -> &[u8]
        ensures { result.now ≡ self.now.line }
    {
        &self.piece[self.start..self.end]
    }

    /// Gives the next line out of what is read ahead, or says why there is none.
    pub fn next(&mut self) -> Next
        ensures line { result ≡ Next.Line → GivesLine self.old self.new }
        ensures whole { result ≡ Next.Line → IsFalse self.old.ended →
            GivesWholeLine self.old self.new }
        ensures long { result ≡ Next.Long → HasLongLine self.old }
        ensures too_many { result ≡ Next.TooMany → HasNoLine self.old true }
        ensures end { result ≡ Next.End → HasNoLine self.old false }
        ensures more { result ≡ Next.More →
            (self.new ≡ self.old) × IsFalse self.old.ended
            × (length self.old.ahead ≤ LONGEST_LINE) }
        ensures waits { result ≡ Next.More → line_length self.old.ahead ≡ length self.old.ahead }
        ensures below { result ≡ Next.More → self.old.given + length self.old.ahead < BYTE_LIMIT }
        ensures short { result ≡ Next.Line → length self.new.line ≤ LONGEST_LINE }
        ensures stays { result ≢ Next.Line → self.new ≡ self.old }
        ensures ended { self.new.ended ≡ self.old.ended }
        ensures rises { result ≡ Next.Line → self.old.given < self.new.given }
        ensures given { self.old.given ≤ self.new.given }
        ensures bounded { self.new.given ≤ BYTE_LIMIT }
        ensures counts { result ≡ Next.Line →
            self.new.given + length self.new.ahead ≡ self.old.given + length self.old.ahead }
        ensures shrinks { length self.new.ahead ≤ length self.old.ahead }
    {
        let found = newline_or_len(&self.piece[self.at..self.len]);
        let room = BYTE_LIMIT - self.given;
        if found > LONGEST_LINE || found as u64 >= room {
            if room > LONGEST_LINE as u64 {
                return Next::Long;
            }
            return Next::TooMany;
        }
        let end = self.at + found;
        let next = if end < self.len {
            end + 1
        } else if !self.ended {
            return Next::More;
        } else if found == 0 {
            return Next::End;
        } else {
            end
        };
        self.start = self.at;
        self.end = end;
        self.given += (next - self.at) as u64;
        self.at = next;
        Next::Line
    }

    /// Reads once, with room for 16 KiB or more. What is ahead moves to the front first, where less room is
    /// behind it. At `Err` it may be called again: nothing has changed.
    pub fn fill<S: Source>(&mut self, source: &mut S) -> Result<(), Failed>
        requires short { length self.old.ahead ≤ LONGEST_LINE }
        requires open_yet { IsFalse self.old.ended }
        ensures reads { OnOk result
            (Reads self.old (S.left source.old) self.new (S.left source.new)) }
        ensures bytes { OnOk result
            (Keeps (rest self.old (S.left source.old)) (rest self.new (S.left source.new))) }
        ensures end { OnOk result (IsTrue self.new.ended → IsAtEnd (S.left source.new)) }
        ensures progress { OnOk result
            ((length self.old.ahead < length self.new.ahead) ⊎ IsTrue self.new.ended) }
        ensures line { self.new.line ≡ self.old.line }
        ensures given { self.new.given ≡ self.old.given }
        ensures err { OnErr result (HasRisen (S.faults source.old) (S.faults source.new)) }
        ensures unchanged { OnErr result (self.new ≡ self.old) }
        ensures keeps { OnErr result (Keeps (S.left source.old) (S.left source.new)) }
        ensures count { S.faults source.old ≤ S.faults source.new }
    {
        let by = make_room(&mut self.piece, self.start, self.len);
        self.start -= by;
        self.end -= by;
        self.at -= by;
        self.len -= by;
        let n = source.read(&mut self.piece[self.len..])?;
        self.len += n;
        self.ended = n == 0;
        Ok(())
    }
}

/// Moves the bytes from `start` to `len` to the front, where less than 16 KiB of room are behind them, and
/// gives how far.
fn make_room(piece: &mut [u8; ROOM], start: usize, len: usize) -> usize
    requires ordered { start ≤ len }
    requires short { len ≤ start + (2 * LONGEST_LINE + 1) }
    requires fits { len ≤ ROOM }
    ensures moved { IsMoved result len piece.old piece.new }
    ensures within { result ≤ start }
    ensures room { len ≤ result + LEAST_READ }
{
    if len <= ROOM - LEAST_READ {
        return 0;
    }
    piece.copy_within(start..len, 0);
    start
}

/// Whether a byte stands inside of a line, and doesn't end it.
fn is_inside(b: u8) -> bool
    ensures { result ≡ is_inside_line b }
{
    b != b'\n'
}

/// Whether each of eight bytes stands inside of a line. They are looked at together, without a branch.
fn are_inside(eight: &[u8]) -> bool
    requires { length eight.now ≡ 8 }
    ensures { result ≡ list_all is_inside_line eight.now }
{
    match eight {
        [a, b, c, d, e, f, g, h] => {
            (is_inside(*a) & is_inside(*b) & is_inside(*c) & is_inside(*d))
                & (is_inside(*e) & is_inside(*f) & is_inside(*g) & is_inside(*h))
        }
        _ => unreachable!(),
    }
}

/// What is left of bytes behind some that stand inside of the first line, eight by eight.
fn behind_eights(bytes: &[u8]) -> &[u8]
    ensures line { line_length bytes.now + length result.now
        ≡ length bytes.now + line_length result.now }
    ensures few { length result.now ≤ length bytes.now }
{
    let mut rest = bytes;
    while rest.len() >= 8 {
        let (eight, more) = rest.split_at(8);
        if !are_inside(eight) {
            return rest;
        }
        rest = more;
    }
    rest
}

/// Where the first newline is, or the length where there is none, one byte after the other.
fn first_newline(bytes: &[u8]) -> usize
    ensures value { result ≡ line_length bytes.now }
    ensures within { result ≤ length bytes.now }
{
    bytes
        .iter()
        .position(|&b| b == b'\n')
        .unwrap_or(bytes.len())
}

/// Where the first newline is, or the length where there is none.
fn newline_or_len(bytes: &[u8]) -> usize
    ensures { result ≡ line_length bytes.now }
{
    let rest = behind_eights(bytes);
    bytes.len() - rest.len() + first_newline(rest)
}
