//! A guest's reader of an event queue.

ghost use Rattle.std.specs.Prelude.{◌≡◌, ◌<◌, ◌-◌, ◌^◌, ◌/◌, ◌%◌, ◌↔◌, ℕ, IfSome, IsTrue, None, length, slice_index_or};
ghost use Rattle.xv_model.specs.declared.operations.EndConfig.{EndConfig};
ghost use Rattle.xv_model.specs.board.Validity.{is_queue_shift};
ghost use Rattle.xv_model.specs.end.Memory.{place};
ghost use Rattle.xv_model.specs.end.Reading.{read_by, top_bit};
ghost use Rattle.end_queue.specs.Reader.{IsAt, IsInMemory, after_take, next_word, number_after, one_on, outcome_of};

use guest_ram::Ram;
use std::marker::Model;

/// A guest's reader of an event queue, as Linux has it (arch/powerpc/sysdev/xive/common.c, xive_read_eq). It
/// knows where the queue is, and nothing of the END.
#[derive(Drop)]
pub struct Reader {
    pub(crate) qaddr: u64,
    pub(crate) entries: u64,
    /// Which entry of the page is next.
    index: u64,
    /// The top bit of a word that isn't that entry yet.
    toggle: u32,
}

impl Model for Reader {
    ghost use Rattle.end_queue.specs.Reader.{Position, IsPosition};

    ghost Value = { Position };

    ghost view = { λ r.
        record { qaddr = r.qaddr; entries = r.entries; index = r.index; toggle = r.toggle } };

    ghost invariant = { λ r. IsPosition (record {
      qaddr = r.qaddr;
      entries = r.entries;
      index = r.index;
      toggle = r.toggle;
    }) };
}

impl Reader {
    /// The reader of a queue at an address, of 2 to the power of `qshift` bytes, that begins at the entry of a
    /// number. A word isn't that entry yet while its top bit is the toggle: 0 the first time through, and then
    /// it flips at each wrap.
    pub fn start(qaddr: u64, qshift: u32, start: u64) -> Reader
        requires narrow { qaddr < 2 ^ 63 }
        requires size { IsTrue (is_queue_shift qshift) }
        ensures place { result.qaddr ≡ qaddr }
        ensures entries { result.entries ≡ 2 ^ (qshift - 2) }
        ensures at { (c : EndConfig) → c.qaddr ≡ qaddr → c.qshift ≡ qshift → IsAt result c start }
    {
        let entries = 1 << (qshift - 2);
        Reader {
            qaddr,
            entries,
            index: start % entries,
            toggle: (start / entries % 2) as u32,
        }
    }

    /// Takes the next entry: its payload of 31 bits. `None` exactly where it isn't there yet, which the top bit
    /// of the word at its place says, and then nothing changes. Where the reader is that of an END's queue at
    /// the entry of a number, this is what a read of the END answers there.
    pub fn take(&mut self, ram: &Ram) -> Option<u32>
        requires page { IsInMemory (length ram.now) self.old }
        ensures empty { (result ≡ None) ↔ (top_bit (next_word self.old ram.now) ≡ self.old.toggle) }
        ensures payload { IfSome result (λ payload. payload ≡ next_word self.old ram.now % 2 ^ 31) }
        ensures reader { self.new ≡ after_take self.old result }
        ensures outcome { (c : EndConfig) (j : ℕ) → IsAt self.old c j →
            outcome_of result ≡ read_by c j (slice_index_or ram.now (place c j / 4) 0) }
        ensures goes_on { (c : EndConfig) (j : ℕ) → IsAt self.old c j → IsAt self.new c (number_after j result) }
    {
        let word = ram.word(self.qaddr + 4 * self.index);
        if word >> 31 == self.toggle {
            return None;
        }
        self.step();
        Some(word % (1 << 31))
    }

    /// Goes on by one entry.
    fn step(&mut self)
        ensures { self.new ≡ one_on self.old }
    {
        self.index += 1;
        if self.index == self.entries {
            self.index = 0;
            self.toggle = 1 - self.toggle;
        }
    }
}
