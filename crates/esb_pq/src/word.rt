//! The packed word of a source.

ghost use Rattle.std.specs.Prelude.{◌≡◌, ◌<◌, ◌≤◌, false};
ghost use Rattle.xv_base.specs.Limits.{most_forwards};
ghost use Rattle.esb_pq.specs.Word.{packed, unpacked};

use std::marker::Model;

/// The bit of the assertion flag. The count of forwards lies below it, and has room for the most.
const FLAG: u64 = 1 << 61;

/// The unit of the pair: its bits are 62 and 63.
const PAIR: u64 = 1 << 62;

/// The word of a source, packed so that threads may exchange it whole: bits 63 and 62 are P and Q,
/// bit 61 is the assertion flag of a level source, and bits 60 to 0 count its forwards.
#[derive(Clone, Copy)]
pub struct SourceWord {
    bits: u64,
}

impl Model for SourceWord {
    ghost use Rattle.std.specs.Prelude.{◌≡◌};
    ghost use Rattle.std.proofs.Common.{ap};
    ghost use Rattle.esb_pq.specs.Word.{SourceParts, packed, unpacked};
    ghost use Rattle.esb_pq.specs.Packing.{packed-unpacked};

    ghost Value = { SourceParts };

    ghost view = { λ w. unpacked w.bits };

    ghost inverse = { λ parts. record { bits = packed parts } };

    ghost inverse_ok = { λ w h. ap (λ n. record { bits = n }) (packed-unpacked w.bits) };
}

impl SourceWord {
    /// How a source starts: the pair is 01, which is off, and it has forwarded nothing.
    pub fn off() -> SourceWord
        ensures { result ≡ record { pq = 1; asserted = false; count = 0 } }
    {
        SourceWord { bits: PAIR }
    }

    /// The word of these parts.
    pub fn from_parts(pq: u8, asserted: bool, count: u64) -> SourceWord
        requires pq { pq < 4 }
        requires count { count ≤ most_forwards }
        ensures { result ≡ record { pq = pq; asserted = asserted; count = count } }
    {
        let flag = if asserted { FLAG } else { 0 };
        SourceWord {
            bits: pq as u64 * PAIR + flag + count,
        }
    }

    /// The pair: 00 is 0, 01 is 1, 10 is 2, 11 is 3.
    pub fn pq(self) -> u8
        ensures value { result ≡ self.pq }
        ensures in_range { result < 4 }
    {
        (self.bits / PAIR) as u8
    }

    /// Whether the line of a level source is up.
    pub fn asserted(self) -> bool
        ensures { result ≡ self.asserted }
    {
        self.bits / FLAG % 2 == 1
    }

    /// How often the source forwarded.
    pub fn count(self) -> u64
        ensures value { result ≡ self.count }
        ensures in_range { result ≤ most_forwards }
    {
        self.bits % FLAG
    }

    /// The packed word.
    pub fn bits(self) -> u64
        ensures { result ≡ packed self }
    {
        self.bits
    }

    /// The word that is packed so. Every number is one.
    pub fn from_bits(bits: u64) -> SourceWord
        ensures { result ≡ unpacked bits }
    {
        SourceWord { bits }
    }
}
