//! Where bytes come from, as a trait.

ghost use Rattle.std.specs.Prelude.{ℕ, ◌≤◌, List, Option, length, IfOk, OnErr};
ghost use Rattle.std.specs.Io.KnownBytes.{ReadConsumes};
ghost use Rattle.xv_io.specs.Faults.{HasRisen};

use crate::Failed;

/// Where bytes come from.
pub trait Source {
    /// The bytes that are left, where they are known.
    ghost left: { Self → Option (List ℕ) };

    /// How often it failed.
    ghost faults: { Self → ℕ };

    /// Moves the next bytes into the front of a piece, and gives how many: 0 at the end, or with no room.
    /// What is behind them in the piece may change too.
    fn read(&mut self, into: &mut [u8]) -> Result<usize, Failed>
        ensures bound { IfOk result (λ n. n ≤ length into.new) }
        ensures bytes { ReadConsumes (left self.old) (left self.new) result into.new }
        ensures failed { OnErr result (HasRisen (faults self.old) (faults self.new)) }
        ensures count { faults self.old ≤ faults self.new };
}
