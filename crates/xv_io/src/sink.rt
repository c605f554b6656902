//! Where bytes go, as a trait, and the writing of all of a piece.

ghost use Rattle.std.specs.Prelude.{◌≡◌, ℕ, ◌<◌, ◌≤◌, List, Option, length, IfOk, OnOk, OnErr};
ghost use Rattle.std.specs.Io.KnownBytes.{Appends, WriteAppends};
ghost use Rattle.xv_io.specs.Faults.{HasRisen, AppendsPart};

use crate::Failed;

/// Where bytes go.
pub trait Sink {
    /// The bytes that it holds, where they are known.
    ghost held: { Self → Option (List ℕ) };

    /// How often it failed.
    ghost faults: { Self → ℕ };

    /// Appends the first bytes of a piece, and gives how many. To take nothing of a piece that isn't empty
    /// is a fault too.
    fn write(&mut self, from: &[u8]) -> Result<usize, Failed>
        ensures bound { IfOk result (λ n. n ≤ length from.now) }
        ensures bytes { WriteAppends (held self.old) (held self.new) result from.now }
        ensures failed { OnErr result (HasRisen (faults self.old) (faults self.new)) }
        ensures full { IfOk result (λ n. n ≡ 0 → 0 < length from.now →
            HasRisen (faults self.old) (faults self.new)) }
        ensures count { faults self.old ≤ faults self.new };
}

/// Writes all of it, in as many calls as the sink wants, up to the first that fails or takes
/// nothing.
pub fn write_whole<K: Sink>(sink: &mut K, from: &[u8]) -> Result<(), Failed>
    ensures ok { OnOk result (Appends (K.held sink.old) (K.held sink.new) from.now) }
    ensures err { OnErr result (AppendsPart (K.held sink.old) (K.held sink.new) from.now) }
    ensures failed { OnErr result (HasRisen (K.faults sink.old) (K.faults sink.new)) }
    ensures count { K.faults sink.old ≤ K.faults sink.new }
{
    let mut at = 0;
    while at < from.len() {
        match sink.write(&from[at..]) {
            Ok(0) => return Err(Failed),
            Ok(n) => at += n,
            Err(failed) => return Err(failed),
        }
    }
    Ok(())
}
