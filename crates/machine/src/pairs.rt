//! The pair of a source that is kept.

ghost use Rattle.std.specs.Prelude.{◌≡◌, ◌<◌};

use std::marker::Model;

/// The pair of P and Q that a source had: 00 is 0, 01 is 1, 10 is 2, 11 is 3.
#[derive(Clone, Copy)]
pub(crate) struct Pair {
    bits: u8,
}

impl Model for Pair {
    ghost use Rattle.std.specs.Prelude.{ℕ, ◌<◌};

    ghost Value = { ℕ };

    ghost view = { λ p. p.bits };

    ghost inverse = { λ n. record { bits = n } };

    ghost invariant = { λ p. p.bits < 4 };
}

impl Pair {
    /// The pair of a source that is off, 01.
    pub fn off() -> Pair
        ensures { result ≡ 1 }
    {
        Pair { bits: 1 }
    }

    /// The pair of these bits.
    pub fn of(bits: u8) -> Pair
        requires { bits < 4 }
        ensures { result ≡ bits }
    {
        Pair { bits }
    }

    /// Its bits.
    pub fn bits(self) -> u8
        ensures value { result ≡ self }
        ensures in_range { result < 4 }
    {
        self.bits
    }
}
