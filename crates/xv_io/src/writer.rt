//! A writer, which gathers what is printed and writes it in large pieces.

ghost use Rattle.std.specs.Prelude.{◌≡◌, ◌<◌, ◌≤◌, [], OnOk, OnErr};
ghost use Rattle.std.specs.Io.KnownBytes.{Appends};
ghost use Rattle.arrayvec.specs.ArrayVec.{array_vec_len};
ghost use Rattle.xv_io.specs.Faults.{HasRisen, AppendsPart};
ghost use Rattle.xv_io.specs.Writer.{Puts};

use crate::{Failed, Sink, write_whole};
use arrayvec::ArrayVec;

/// How many gathered bytes are enough to be written.
pub const PIECE: usize = 16384;

/// The most bytes that may be printed between two calls of `settle`.
pub const LONGEST_PUT: usize = 2048;

/// How many bytes a writer holds.
pub const ROOM: usize = PIECE + LONGEST_PUT;

/// Gathers bytes for a sink, and allocates nothing. Text is printed straight into `gathered`, and `settle`
/// follows, behind which there is room for LONGEST_PUT bytes more.
#[derive(Drop)]
pub struct Writer {
    pub gathered: ArrayVec<u8, ROOM>,
}

impl Writer {
    pub fn new() -> Writer
        ensures { result.gathered.items ≡ [] }
    {
        Writer {
            gathered: ArrayVec::new(),
        }
    }

    /// Writes all that is gathered where that is 16 KiB or more. What an `Err` leaves unwritten is lost.
    #[inline]
    pub fn settle<K: Sink>(&mut self, sink: &mut K) -> Result<(), Failed>
        ensures ok { OnOk result (Puts self.old.gathered.items (K.held sink.old)
            self.new.gathered.items (K.held sink.new) []) }
        ensures room { OnOk result (array_vec_len self.new.gathered < PIECE) }
        ensures few { array_vec_len self.old.gathered < PIECE →
            (self.new ≡ self.old) × (sink.new ≡ sink.old) }
        ensures err { OnErr result
            (AppendsPart (K.held sink.old) (K.held sink.new) self.old.gathered.items) }
        ensures lost { OnErr result (self.new.gathered.items ≡ []) }
        ensures failed { OnErr result (HasRisen (K.faults sink.old) (K.faults sink.new)) }
        ensures count { K.faults sink.old ≤ K.faults sink.new }
    {
        if self.gathered.len() < PIECE {
            return Ok(());
        }
        self.flush(sink)
    }

    /// Writes all that is gathered. What an `Err` leaves unwritten is lost.
    pub fn flush<K: Sink>(&mut self, sink: &mut K) -> Result<(), Failed>
        ensures ok { OnOk result
            (Appends (K.held sink.old) (K.held sink.new) self.old.gathered.items) }
        ensures empty { self.new.gathered.items ≡ [] }
        ensures err { OnErr result
            (AppendsPart (K.held sink.old) (K.held sink.new) self.old.gathered.items) }
        ensures failed { OnErr result (HasRisen (K.faults sink.old) (K.faults sink.new)) }
        ensures count { K.faults sink.old ≤ K.faults sink.new }
    {
        let written = write_whole(sink, self.gathered.as_slice());
        self.gathered.clear();
        written
    }
}
