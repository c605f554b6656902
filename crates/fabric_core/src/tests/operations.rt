//! Operations, by what the tests say of them.

use bitflags::Flags;
use xv_model::hypercalls::H_INT_SET_SOURCE_CONFIG;
use xv_model::operations::{Access, EndConfig, EndFlags, Op};

/// An END with these flags that notifies a processor, and with a queue of 4 KiB at 0x1000 where it has q.
pub fn config(flags: u8, vp: u32, priority: u8) -> EndConfig {
    let queue = flags & 2 == 2;
    EndConfig {
        flags: EndFlags::from_bits_retain(flags),
        vp,
        priority,
        qaddr: if queue { 0x1000 } else { 0 },
        qshift: if queue { 12 } else { 0 },
        start: 0,
        esc: 0,
        esc_eisn: 0,
    }
}

/// H_INT_SET_SOURCE_CONFIG with a payload.
pub fn target(s: u64, server: u64, priority: u64, eisn: u64) -> Op {
    Op::Hcall {
        number: H_INT_SET_SOURCE_CONFIG,
        args: [2, s, server, priority, eisn],
    }
}

pub fn restore(v: u32, t: u32) -> Op {
    Op::Restore { v, t }
}

pub fn save(v: u32) -> Op {
    Op::Save { v }
}

/// A load from a page of the TIMA.
fn load(t: u32, page: u8, offset: u16, size: u8) -> Op {
    Op::Tima {
        t,
        page,
        offset,
        size,
        access: Access::Load,
    }
}

/// A store to a page of the TIMA.
fn store(t: u32, page: u8, offset: u16, size: u8, value: u64) -> Op {
    Op::Tima {
        t,
        page,
        offset,
        size,
        access: Access::Store { value },
    }
}

/// Pushes the context of a processor onto a thread.
pub fn push(t: u32, v: u32) -> Op {
    store(t, 1, 0x18, 4, 0x8000_0400 + v as u64)
}

pub fn pull(t: u32) -> Op {
    load(t, 1, 0x818, 4)
}

/// Loads the first eight bytes of the OS ring.
pub fn load_ring(t: u32) -> Op {
    load(t, 2, 0x10, 8)
}

pub fn set_cppr(t: u32, value: u8) -> Op {
    store(t, 2, 0x11, 1, value as u64)
}

pub fn acknowledge(t: u32) -> Op {
    load(t, 2, 0x810, 2)
}

/// Makes a priority pending.
pub fn inject(t: u32, priority: u8) -> Op {
    store(t, 2, 0x812, 1, priority as u64)
}
