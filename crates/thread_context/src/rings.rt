//! The rings of a board's threads, and what changes them.

ghost use Rattle.std.specs.Prelude.{◌≡◌, ◌+◌, ◌*◌, ◌<◌, ◌≤◌, ◌==◌, ◌&&◌, ◌||◌, ◌↔◌, ℕ, IfOk, length, not, replicate, slice_set};
ghost use Rattle.xv_model.specs.processor.Priorities.{has_priority};
ghost use Rattle.thread_context.specs.Priorities.{IsLeast, NonePending};
ghost use Rattle.thread_context.specs.Ring.{IsInRange, IsRing, big_endian as number_at, notified, ring_bytes, ring_of};
ghost use Rattle.thread_context.specs.Rings.{accepted, free_ring, loaded, pending_added, pulled, pushed, ring_in, with_cppr};

use crate::priorities::{least_pending, with_pending, without_pending};
use crate::ring::{NOTIFIED, Ring, RingRecord, big_endian};
use std::alloc::Global;
use std::marker::Model;
use xv_base::NoMemory;
use xv_model::board::Board;
use xv_model::tima::CAM_VALID;

/// The greatest priority, which is the least urgent.
const MOST_PRIORITY: u8 = 7;

/// CPPR where a value that is no priority was stored: each priority is less.
const OPEN: u8 = 0xff;

/// The OS rings of a board's threads (QEMU's hw/intc/xive.c). NSR and PIPR aren't kept, since they follow from
/// the rest. Each call leaves the rings of all other threads as they were.
#[derive(Drop)]
pub struct Rings {
    pub(crate) records: Vec<RingRecord>,
}

impl Model for Rings {
    ghost use Rattle.std.specs.Prelude.{List, All};
    ghost use Rattle.thread_context.specs.declared.ring.RingRecord.{RingRecord};
    ghost use Rattle.thread_context.specs.Ring.{IsInRange};

    ghost Value = { List RingRecord };

    ghost view = { λ r. r.records.items };

    ghost invariant = { λ r. All IsInRange r.records.items };
}

impl Rings {
    /// The rings of a board on which nothing has happened: each is free. May return `NoMemory`; no clause says
    /// when.
    pub fn build(alloc: Global, board: &Board) -> Result<Rings, NoMemory>
        ensures { IfOk result (λ rings. rings ≡ replicate board.now.limits.threads free_ring) }
    {
        Ok(Rings {
            records: vec![in alloc; RingRecord::FREE; board.limits.threads as usize]?,
        })
    }

    /// The ring of a thread.
    pub fn get(&self, t: u32) -> Ring
        requires { t < length self.now }
        ensures value { result ≡ ring_of (ring_in self.now t) }
        ensures follows { IsRing result }
        ensures least { (p : ℕ) → p < 8 → (result.pipr ≡ p) ↔ IsLeast result.ipb p }
        ensures none { (result.pipr ≡ 0xff) ↔ NonePending result.ipb }
    {
        self.records[t as usize].shown()
    }

    /// The acknowledgement (QEMU's hw/intc/xive.c, xive_tctx_accept): where NSR says so the processor takes the
    /// least pending priority, which is CPPR then and is no longer pending; else nothing changes. Answers NSR as
    /// it was in the high byte, and CPPR as it is in the low one.
    pub fn accept(&mut self, t: u32) -> u16
        requires { t < length self.old }
        ensures value { result ≡ (ring_of (ring_in self.old t)).nsr * 256 + (ring_in self.new t).cppr }
        ensures in_range { IsInRange (ring_in self.old t) }
        ensures ring { self.new ≡ slice_set self.old t (accepted (ring_in self.old t)) }
        ensures pending { (q : ℕ) → q < 8 → has_priority (ring_in self.new t).ipb q ≡
            (has_priority (ring_in self.old t).ipb q
            && not (notified (ring_in self.old t) && (q == (ring_of (ring_in self.old t)).pipr))) }
    {
        let record = &mut self.records[t as usize];
        let ring = record.shown();
        if ring.nsr == NOTIFIED {
            record.cppr = ring.pipr;
            record.ipb = without_pending(ring.ipb, ring.pipr);
        }
        ring.nsr as u16 * 256 + record.cppr as u16
    }

    /// Stores CPPR: a value above 7 becomes 0xff (QEMU's hw/intc/xive.c, xive_tctx_set_cppr).
    pub fn set_cppr(&mut self, t: u32, value: u8)
        requires { t < length self.old }
        ensures { self.new ≡ slice_set self.old t (with_cppr value (ring_in self.old t)) }
    {
        self.records[t as usize].cppr = if value > MOST_PRIORITY { OPEN } else { value };
    }

    /// Makes a priority pending, if it is at most 7; else nothing changes.
    pub fn add_pending(&mut self, t: u32, priority: u8)
        requires { t < length self.old }
        ensures ring { self.new ≡ slice_set self.old t (pending_added priority (ring_in self.old t)) }
        ensures pending { (q : ℕ) → q < 8 → has_priority (ring_in self.new t).ipb q ≡
            (has_priority (ring_in self.old t).ipb q || (q == priority)) }
    {
        let record = &mut self.records[t as usize];
        if priority <= MOST_PRIORITY {
            record.ipb = with_pending(record.ipb, priority);
        }
    }

    /// Gives a ring the CPPR and the IPB of a processor that comes to the thread. The CAM word is 0 then.
    pub fn load(&mut self, t: u32, cppr: u8, ipb: u8)
        requires { t < length self.old }
        ensures { self.new ≡ slice_set self.old t (loaded cppr ipb) }
    {
        self.records[t as usize] = RingRecord { cppr, ipb, cam: 0 };
    }

    /// Makes a ring free.
    pub fn clear(&mut self, t: u32)
        requires { t < length self.old }
        ensures { self.new ≡ slice_set self.old t free_ring }
    {
        self.records[t as usize] = RingRecord::FREE;
    }

    /// Gives a ring its CAM word, and takes the priorities that were backlogged into IPB.
    pub fn push(&mut self, t: u32, cam: u32, backlog: u8)
        requires { t < length self.old }
        ensures ring { self.new ≡ slice_set self.old t (pushed cam backlog (ring_in self.old t)) }
        ensures pending { (q : ℕ) → q < 8 → has_priority (ring_in self.new t).ipb q ≡
            (has_priority (ring_in self.old t).ipb q || has_priority backlog q) }
    {
        let record = &mut self.records[t as usize];
        record.cam = cam;
        record.ipb |= backlog;
    }

    /// Answers the CAM word, and takes its valid bit away (QEMU's hw/intc/xive.c, xive_tm_pull_os_ctx). CPPR and
    /// IPB stay.
    pub fn pull(&mut self, t: u32) -> u32
        requires { t < length self.old }
        ensures cam { result ≡ (ring_in self.old t).cam }
        ensures ring { self.new ≡ slice_set self.old t (pulled (ring_in self.old t)) }
    {
        let record = &mut self.records[t as usize];
        let cam = record.cam;
        record.cam = cam % CAM_VALID;
        cam
    }

    /// The number that some bytes of a ring are, the highest byte first. `at` counts from the first byte of the
    /// ring, and `size` is in bytes. A load of the TIMA has a size of 1, 2, 4 or 8, and begins at a multiple of
    /// it.
    pub fn bytes(&self, t: u32, at: u8, size: u8) -> u64
        requires thread { t < length self.now }
        requires size { size ≤ 8 }
        requires inside { at + size ≤ 16 }
        ensures value { result ≡ number_at (ring_bytes (ring_of (ring_in self.now t))) at size }
        ensures in_range { IsInRange (ring_in self.now t) }
    {
        let bytes = self.records[t as usize].shown().bytes();
        big_endian(&bytes, at as usize, size as usize)
    }
}
