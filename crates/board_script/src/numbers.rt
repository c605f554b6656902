//! The numbers and pairs of a line.

ghost use Rattle.std.specs.Prelude.{ℕ, ◌≡◌, ◌<◌, ◌≤◌, ◌*◌, ◌^◌, List, length, IfSome, IfOk, IsTrue};
ghost use Rattle.xv_model.specs.processor.RingOps.{is_size};
ghost use Rattle.board_script.specs.Numbers.{decimal_of, hexadecimal_of, digit_of, number_of, pair_of};
ghost use Rattle.board_script.specs.Grammar.{read_at, in_range as range_of, in_sizes, some_at};

use crate::faults::{Cause, Misread};
use crate::words::{Words, same};

/// The number of 1 to 20 decimal digits.
fn decimal(word: &[u8]) -> Option<u64>
    ensures { result ≡ decimal_of word.now }
{
    if word.is_empty() || word.len() > 20 {
        return None;
    }
    let mut value: u64 = 0;
    for b in word {
        if *b < b'0' || *b > b'9' {
            return None;
        }
        let digit = (*b - b'0') as u64;
        // Only a number near 2 ^ 64 needs the exact test, which divides.
        if value >= u64::MAX / 10 && value > (u64::MAX - digit) / 10 {
            return None;
        }
        value = 10 * value + digit;
    }
    Some(value)
}

/// The value of a hexadecimal digit, of either case.
fn digit(b: u8) -> Option<u64>
    ensures value { result ≡ digit_of b }
    ensures below { IfSome result (λ n. n < 16) }
{
    if b >= b'0' && b <= b'9' {
        return Some((b - b'0') as u64);
    }
    if b >= b'a' && b <= b'f' {
        return Some((b - b'a' + 10) as u64);
    }
    if b >= b'A' && b <= b'F' {
        return Some((b - b'A' + 10) as u64);
    }
    None
}

/// The number of 1 to 16 hexadecimal digits.
fn hexadecimal(word: &[u8]) -> Option<u64>
    ensures { result ≡ hexadecimal_of word.now }
{
    if word.is_empty() || word.len() > 16 {
        return None;
    }
    let mut value: u64 = 0;
    for b in word {
        match digit(*b) {
            Some(digit) => {
                if value > u64::MAX / 16 {
                    return None;
                }
                value = 16 * value + digit;
            }
            None => return None,
        }
    }
    Some(value)
}

/// The number that a word is.
pub fn number(word: &[u8]) -> Option<u64>
    ensures { result ≡ number_of word.now }
{
    match word {
        [zero, x, digits @ ..] => {
            if *zero == b'0' && (*x == b'x' || *x == b'X') {
                hexadecimal(digits)
            } else {
                decimal(word)
            }
        }
        _ => decimal(word),
    }
}

/// The pair that a word is: its P, and then its Q.
fn pair(word: &[u8]) -> Option<u8>
    ensures { result ≡ pair_of word.now }
{
    if same(word, b"00") {
        return Some(0);
    }
    if same(word, b"01") {
        return Some(1);
    }
    if same(word, b"10") {
        return Some(2);
    }
    if same(word, b"11") {
        return Some(3);
    }
    None
}

/// A number from `low` on and below `high`, or what is wrong with it.
fn in_range(n: Option<u64>, low: u32, high: u64) -> Result<u32, Cause>
    requires { high ≤ 2 ^ 32 }
    ensures value { result ≡ range_of low high n }
    ensures bounds { IfOk result (λ n. (low ≤ n) × (n < high)) }
{
    let n = n.ok_or(Cause::BadNumber)?;
    if low as u64 <= n && n < high {
        Ok(n as u32)
    } else {
        Err(Cause::OutOfRange)
    }
}

/// How many bytes an access has, or what is wrong with it.
fn size(n: Option<u64>) -> Result<u8, Cause>
    ensures value { result ≡ in_sizes n }
    ensures sizes { IfOk result (λ n. IsTrue (is_size n)) }
{
    let n = n.ok_or(Cause::BadNumber)?;
    if n == 1 || n == 2 || n == 4 || n == 8 {
        Ok(n as u8)
    } else {
        Err(Cause::OutOfRange)
    }
}

/// A value of so many bytes, or what is wrong with it.
fn value(n: Option<u64>, size: u8) -> Result<u64, Cause>
    requires { IsTrue (is_size size) }
    ensures { result ≡ range_of 0 (2 ^ (8 * size)) n }
{
    let n = n.ok_or(Cause::BadNumber)?;
    if size == 8 || n >> (8 * size) == 0 {
        Ok(n)
    } else {
        Err(Cause::OutOfRange)
    }
}

/// A word that was read, or the line is refused where so many of its bytes are left.
pub fn at_word<T>(left: usize, read: Result<T, Cause>) -> Result<T, Misread>
    ensures { (rest : List ℕ) → length rest ≡ left → result ≡ read_at rest read }
{
    match read {
        Ok(value) => Ok(value),
        Err(cause) => Err(Misread { cause, left }),
    }
}

impl<'a> Words<'a> {
    ghost use Rattle.board_script.specs.Words.{rest_of};
    ghost use Rattle.board_script.specs.Grammar.{Number, AnyNumber, Size, Pair, read_as};

    /// Refuses the line where no word is left.
    pub(crate) fn some(&self) -> Result<(), Misread>
        ensures { result ≡ some_at self.now }
    {
        if self.left() == 0 {
            return Err(Misread {
                cause: Cause::MissingWord,
                left: 0,
            });
        }
        Ok(())
    }

    /// Reads a number below 2^64.
    pub fn number(&mut self) -> Result<u64, Misread>
        ensures value { result ≡ read_as AnyNumber self.old }
        ensures rest { self.new ≡ rest_of self.old }
    {
        let left = self.left();
        self.some()?;
        at_word(left, number(self.next()).ok_or(Cause::BadNumber))
    }

    /// Reads a number from `low` on and below `high`, which is at most 2^32.
    pub fn bounded(&mut self, low: u32, high: u64) -> Result<u32, Misread>
        requires { high ≤ 2 ^ 32 }
        ensures value { result ≡ read_as (Number low high) self.old }
        ensures bounds { IfOk result (λ n. (low ≤ n) × (n < high)) }
        ensures rest { self.new ≡ rest_of self.old }
    {
        let left = self.left();
        self.some()?;
        at_word(left, in_range(number(self.next()), low, high))
    }

    /// Reads how many bytes an access has: 1, 2, 4 or 8.
    pub fn size(&mut self) -> Result<u8, Misread>
        ensures value { result ≡ read_as Size self.old }
        ensures sizes { IfOk result (λ n. IsTrue (is_size n)) }
        ensures rest { self.new ≡ rest_of self.old }
    {
        let left = self.left();
        self.some()?;
        at_word(left, size(number(self.next())))
    }

    /// Reads a value of so many bytes.
    pub fn value(&mut self, size: u8) -> Result<u64, Misread>
        requires { IsTrue (is_size size) }
        ensures value { result ≡ read_as (Number 0 (2 ^ (8 * size))) self.old }
        ensures rest { self.new ≡ rest_of self.old }
    {
        let left = self.left();
        self.some()?;
        at_word(left, value(number(self.next()), size))
    }

    /// Reads a pair.
    pub fn pair(&mut self) -> Result<u8, Misread>
        ensures value { result ≡ read_as Pair self.old }
        ensures rest { self.new ≡ rest_of self.old }
    {
        let left = self.left();
        self.some()?;
        at_word(left, pair(self.next()).ok_or(Cause::BadNumber))
    }
}
