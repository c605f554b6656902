//! The flags of an END, as a line has them.

ghost use Rattle.std.specs.Prelude.{◌≡◌, ◌≤◌, IfSome};
ghost use Rattle.board_script.specs.Flags.{bit_of, of_bits, flags_of};

use crate::faults::{Cause, Misread};
use crate::numbers::at_word;
use crate::words::{Words, same};
use bitflags::Flags;
use xv_model::operations::EndFlags;

/// The bit of a letter: v, q, n, b, e, u or s.
fn bit(letter: u8) -> Option<u8>
    ensures value { result ≡ bit_of letter }
    ensures few { IfSome result (λ n. n ≤ 64) }
{
    match letter {
        b'v' => Some(1),
        b'q' => Some(2),
        b'n' => Some(4),
        b'b' => Some(8),
        b'e' => Some(16),
        b'u' => Some(32),
        b's' => Some(64),
        _ => None,
    }
}

/// The flags of an END with these bits.
pub fn with_bits(bits: u8) -> EndFlags
    ensures { result ≡ of_bits bits }
{
    EndFlags::from_bits_retain(bits)
}

/// The flags that a word is: `-` is none; else letters, each at most once and in the order v, q, n, b, e, u, s.
fn flags(word: &[u8]) -> Option<u8>
    ensures { result ≡ flags_of word.now }
{
    if same(word, b"-") {
        return Some(0);
    }
    if word.is_empty() {
        return None;
    }
    let mut value: u8 = 0;
    for b in word {
        match bit(*b) {
            Some(bit) => {
                if value >= bit {
                    return None;
                }
                value += bit;
            }
            None => return None,
        }
    }
    Some(value)
}

impl<'a> Words<'a> {
    ghost use Rattle.board_script.specs.Words.{rest_of};
    ghost use Rattle.board_script.specs.Grammar.{Flags, read_as};

    /// Reads flags.
    pub fn flags(&mut self) -> Result<u8, Misread>
        ensures value { result ≡ read_as Flags self.old }
        ensures rest { self.new ≡ rest_of self.old }
    {
        let left = self.left();
        self.some()?;
        at_word(left, flags(self.next()).ok_or(Cause::BadNumber))
    }
}
