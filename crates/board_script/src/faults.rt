//! Why and where a script is refused.

ghost use Rattle.std.specs.Prelude.{◌≡◌, ◌≤◌, ◌+◌, length};
ghost use Rattle.xv_base.specs.Limits.{longest_line};
ghost use Rattle.board_script.specs.Faults.{cause_text, place, fault_of};

/// What is wrong with a line.
#[derive(Clone, Copy, Debug, PartialEq, Eq)]
pub enum Cause {
    /// The line has more than 256 bytes.
    LongLine,
    /// A byte isn't from 0x20 to 0x7e.
    BadByte,
    /// A header's word, `start`, `end` or a number stands as first word out of its turn.
    WrongPlace,
    /// No line begins with the word, or no operation has the name.
    UnknownWord,
    /// A word is missing.
    MissingWord,
    /// A word stands after the last.
    ExtraWord,
    /// A word hasn't the form of its number, pair or flags.
    BadNumber,
    /// A number is outside its range, or a seventeenth range line of a kind is.
    OutOfRange,
    /// The source isn't a level source.
    NotLevel,
    /// The board doesn't allow the configuration of an END.
    BadEnd,
    /// The script ends before its `go`.
    NoGo,
    /// A live script may not have the line.
    NotInLive,
    /// A live script has too many lines.
    TooManyLines,
    /// A live script has too many forwards.
    TooManyForwards,
}

impl Cause {
    /// The name of the cause.
    pub fn name(self) -> &'static [u8]
        ensures name { result.now ≡ cause_text self }
        ensures short { length result.now ≤ 17 }
    {
        match self {
            Cause::LongLine => b"long-line",
            Cause::BadByte => b"bad-byte",
            Cause::WrongPlace => b"wrong-place",
            Cause::UnknownWord => b"unknown-word",
            Cause::MissingWord => b"missing-word",
            Cause::ExtraWord => b"extra-word",
            Cause::BadNumber => b"bad-number",
            Cause::OutOfRange => b"out-of-range",
            Cause::NotLevel => b"not-level",
            Cause::BadEnd => b"bad-end",
            Cause::NoGo => b"no-go",
            Cause::NotInLive => b"not-in-live",
            Cause::TooManyLines => b"too-many-lines",
            Cause::TooManyForwards => b"too-many-forwards",
        }
    }
}

/// Where a script is refused, and why. Lines and bytes count from 1.
#[derive(Clone, Copy, Debug, PartialEq, Eq)]
pub struct ScriptFault {
    pub line: u32,
    pub byte: u32,
    pub cause: Cause,
}

/// Where a line is refused, and why: so many of its bytes are left there.
#[derive(Clone, Copy, Debug, PartialEq, Eq)]
pub struct Misread {
    pub cause: Cause,
    pub left: usize,
}

impl Misread {
    /// The fault of the line of this number. No line is read beyond its byte 257.
    #[inline(never)]
    pub fn fault(self, number: u32, line: &[u8]) -> ScriptFault
        requires { place line.now self ≤ longest_line + 1 }
        ensures { result ≡ fault_of number line.now self }
    {
        ScriptFault {
            line: number,
            byte: (line.len().saturating_sub(self.left) + 1) as u32,
            cause: self.cause,
        }
    }
}
