//! The OS ring of a thread: what is kept of it, what is shown, and its sixteen bytes.

ghost use Rattle.std.specs.Prelude.{◌≡◌, ◌+◌, ◌<◌, ◌≤◌, length};
ghost use Rattle.thread_context.specs.Ring.{big_endian as number_at, ring_bytes, ring_of};

use crate::priorities::least_pending;
use xv_model::tima::CAM_VALID;

/// What NSR is where the thread is notified.
pub(crate) const NOTIFIED: u8 = 0x80;

/// What is shown of a ring (QEMU's docs/specs/ppc-xive, "TIMA"). NSR and PIPR follow from the rest.
#[derive(Clone, Copy)]
pub struct Ring {
    /// 0x80 exactly where the CAM word is valid and PIPR is less than CPPR, else 0.
    pub nsr: u8,
    /// The priority that the processor is at: only a lesser one interrupts it.
    pub cppr: u8,
    /// The pending priorities: the bit of priority p is that of 2 to the power of 7 - p.
    pub ipb: u8,
    /// The least pending priority, or 0xff where none is pending.
    pub pipr: u8,
    /// The CAM word: its top bit says whether it is valid, and the rest names the processor.
    pub cam: u32,
}

/// What is kept of a ring.
#[derive(Clone, Copy)]
pub struct RingRecord {
    pub cppr: u8,
    pub ipb: u8,
    pub cam: u32,
}

impl RingRecord {
    /// The ring of a thread that no processor uses.
    pub(crate) const FREE: RingRecord = RingRecord {
        cppr: 0,
        ipb: 0,
        cam: 0,
    };

    /// What is shown of it.
    pub(crate) fn shown(&self) -> Ring
        ensures { result ≡ ring_of self.now }
    {
        let pipr = least_pending(self.ipb);
        let notified = self.cam >= CAM_VALID && pipr < self.cppr;
        Ring {
            nsr: if notified { NOTIFIED } else { 0 },
            cppr: self.cppr,
            ipb: self.ipb,
            pipr,
            cam: self.cam,
        }
    }
}

impl Ring {
    /// The bytes of the ring, as loads of the TIMA find them.
    pub(crate) fn bytes(&self) -> [u8; 16]
        ensures { result ≡ ring_bytes self.now }
    {
        [
            self.nsr,
            self.cppr,
            self.ipb,
            0xff,
            0xff,
            0,
            0xff,
            self.pipr,
            (self.cam / (1 << 24)) as u8,
            (self.cam / (1 << 16) % 256) as u8,
            (self.cam / (1 << 8) % 256) as u8,
            (self.cam % 256) as u8,
            0,
            0,
            0,
            0,
        ]
    }
}

/// The number that some bytes are, at most 8 of them from one place on, the highest byte first.
pub(crate) fn big_endian(bytes: &[u8], at: usize, size: usize) -> u64
    requires size { size ≤ 8 }
    requires inside { at + size ≤ length bytes.now }
    ensures { result ≡ number_at bytes.now at size }
{
    let mut value = 0;
    for done in 0..size {
        value = value * 256 + bytes[at + done] as u64;
    }
    value
}
