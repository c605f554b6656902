//! The event queues of ENDs: what is written into them, and what is read.

ghost use Rattle.std.specs.Prelude.{◌≡◌, ◌*◌, ◌/◌, ◌%◌, ◌^◌, ◌<◌, ◌↔◌, IsTrue, length, slice_set, false};
ghost use Rattle.xv_model.specs.declared.outcomes.Outcome.TheVariants.{NoQueue};
ghost use Rattle.xv_model.specs.end.Memory.{entries as entries_of, generation as generation_of, wrote_at};
ghost use Rattle.xv_model.specs.end.Flags.{enqueues};
ghost use Rattle.xv_model.specs.board.Validity.{fits};
ghost use Rattle.end_queue.specs.Ends.{HasPage, HasRoom, end_in, has_queue};
ghost use Rattle.end_queue.specs.Queues.{entered, next_number, read_in, after_read};

use crate::ends::Ends;
use crate::places::{entries, generation, place};
use bitflags::Flags;
use guest_ram::Ram;
use xv_model::operations::{EndConfig, EndFlags};
use xv_model::outcomes::{Outcome, Wrote};

/// Whether an END has a queue: it is valid, and writes into one.
pub(crate) fn is_queued(config: &EndConfig) -> bool
    ensures { result ≡ has_queue config.now }
{
    config.flags.contains(EndFlags::VALID) && config.flags.contains(EndFlags::ENQUEUE)
}

/// An entry of a queue: its generation, and its index from the start of the page.
#[derive(Clone, Copy)]
pub struct QueueEntry {
    pub generation: u32,
    pub index: u64,
}

impl Ends {
    /// Whether an END has a queue: it is valid, and writes into one.
    pub fn has_queue(&self, e: u32) -> bool
        requires { e < length self.now }
        ensures { result ≡ has_queue (end_in self.now e).config }
    {
        is_queued(&self.records[e as usize].config)
    }

    /// The entry that is written next into the queue of an END.
    pub fn next_entry(&self, e: u32) -> QueueEntry
        requires end { e < length self.now }
        requires queue { IsTrue (enqueues (end_in self.now e).config) }
        requires room { HasRoom (end_in self.now e) }
        ensures generation { result.generation ≡ generation_of (end_in self.now e).config (next_number (end_in self.now e)) }
        ensures bit { result.generation < 2 }
        ensures index { result.index ≡ next_number (end_in self.now e) % entries_of (end_in self.now e).config }
        ensures within { result.index < 2 ^ 22 }
    {
        let end = &self.records[e as usize];
        let number = end.config.start + end.written;
        QueueEntry {
            generation: generation(&end.config, number),
            index: number % entries(&end.config),
        }
    }

    /// Writes a payload of 31 bits into the queue of an END, as its next entry, and says which word was written
    /// where (QEMU's hw/intc/xive.c, xive_end_enqueue). The generation is the word's top bit.
    pub fn enqueue(&mut self, ram: &mut Ram, e: u32, eisn: u32) -> Wrote
        requires end { e < length self.old }
        requires queue { IsTrue (has_queue (end_in self.old e).config) }
        requires page { HasPage (length ram.old) (end_in self.old e).config }
        requires room { HasRoom (end_in self.old e) }
        requires payload { eisn < 2 ^ 31 }
        ensures wrote { result ≡ wrote_at (end_in self.old e).config (next_number (end_in self.old e)) eisn }
        ensures ends { self.new ≡ slice_set self.old e (entered (end_in self.old e)) }
        ensures ram { ram.new ≡ slice_set ram.old (result.addr / 4) result.word }
        ensures fits { IsTrue (fits (4 * length ram.old) result.addr 4) }
    {
        let end = &mut self.records[e as usize];
        let number = end.config.start + end.written;
        let addr = place(&end.config, number);
        let word = generation(&end.config, number) * (1 << 31) + eisn;
        ram.put(addr, word);
        end.written += 1;
        Wrote { addr, word }
    }

    /// Reads the queue of an END as a guest does (Linux's arch/powerpc/sysdev/xive/common.c, xive_read_eq): the
    /// next entry is there where the top bit of the word at its place is its generation. `NoQueue` where the END
    /// isn't valid or has no queue, and `Empty` where the entry isn't there; both change nothing.
    pub fn read(&mut self, ram: &Ram, e: u32) -> Outcome
        requires end { e < length self.old }
        requires page { IsTrue (has_queue (end_in self.old e).config) →
            HasPage (length ram.now) (end_in self.old e).config }
        requires room { HasRoom (end_in self.old e) }
        ensures outcome { result ≡ read_in (end_in self.old e) ram.now }
        ensures no_queue { (result ≡ NoQueue) ↔ (has_queue (end_in self.old e).config ≡ false) }
        ensures ends { self.new ≡ after_read self.old e result }
    {
        let end = &mut self.records[e as usize];
        if !is_queued(&end.config) {
            return Outcome::NoQueue;
        }
        let number = end.config.start + end.taken;
        let word = ram.word(place(&end.config, number));
        if word >> 31 != generation(&end.config, number) {
            return Outcome::Empty;
        }
        end.taken += 1;
        Outcome::Item {
            payload: word % (1 << 31),
        }
    }
}
