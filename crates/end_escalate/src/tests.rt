//! The states of an END and its decisions, row by row.

use crate::{EndStep, after_present, decide, escalate_state, notify_state, page_load};
use bitflags::Flags;
use xv_model::operations::EndFlags;
use xv_model::outcomes::Presented;

/// The pairs after a load at an offset, of 00, 01, 10 and 11.
fn after(offset: u16) -> [u8; 4] {
    [
        page_load(0, offset),
        page_load(1, offset),
        page_load(2, offset),
        page_load(3, offset),
    ]
}

#[test]
fn triggers(rt: HostRuntime) {
    assert_eq!(rt; notify_state(0), (2, true));
    assert_eq!(rt; notify_state(1), (1, false));
    assert_eq!(rt; notify_state(2), (3, false));
    assert_eq!(rt; notify_state(3), (3, false));
}

#[test]
fn loads(rt: HostRuntime) {
    assert_eq!(rt; after(0x000), [0, 1, 0, 2]);
    assert_eq!(rt; after(0x7ff), [0, 1, 0, 2]);
    assert_eq!(rt; after(0x800), [0, 1, 2, 3]);
    assert_eq!(rt; after(0xbff), [0, 1, 2, 3]);
    assert_eq!(rt; after(0xc00), [0, 0, 0, 0]);
    assert_eq!(rt; after(0xd00), [1, 1, 1, 1]);
    assert_eq!(rt; after(0xe00), [2, 2, 2, 2]);
    assert_eq!(rt; after(0xfff), [3, 3, 3, 3]);
    assert_eq!(rt; after(0x1000), [0, 1, 0, 2]);
    assert_eq!(rt; after(0x1d00), [1, 1, 1, 1]);
}

/// Flags with these bits: v is 1, q 2, n 4, b 8, e 16, u 32 and s 64.
fn flags(bits: u8) -> EndFlags {
    EndFlags::from_bits_retain(bits)
}

/// A step as three numbers: which one it is, whether it has a state, and that state.
fn numbers(step: EndStep) -> (u8, bool, u8) {
    match step {
        EndStep::Invalid => (0, false, 0),
        EndStep::Coalesced { esn } => (1, true, esn),
        EndStep::Silent => (2, false, 0),
        EndStep::Escalate => (3, false, 0),
        EndStep::Present { esn } => (4, true, esn),
    }
}

#[test]
fn steps(rt: HostRuntime) {
    assert_eq!(rt; numbers(decide(flags(0), 1)), (0, false, 0));
    assert_eq!(rt; numbers(decide(flags(0x7e), 0)), (0, false, 0));
    assert_eq!(rt; numbers(decide(flags(1), 0)), (4, true, 2));
    assert_eq!(rt; numbers(decide(flags(1), 1)), (1, true, 1));
    assert_eq!(rt; numbers(decide(flags(1), 2)), (1, true, 3));
    assert_eq!(rt; numbers(decide(flags(1), 3)), (1, true, 3));
    assert_eq!(rt; numbers(decide(flags(5), 2)), (4, true, 2));
    assert_eq!(rt; numbers(decide(flags(0x41), 0)), (2, false, 0));
    assert_eq!(rt; numbers(decide(flags(0x45), 0)), (2, false, 0));
    assert_eq!(rt; numbers(decide(flags(0x51), 0)), (3, false, 0));
    assert_eq!(rt; numbers(decide(flags(0x55), 3)), (3, false, 0));
}

#[test]
fn presentations(rt: HostRuntime) {
    assert!(rt; after_present(flags(0x11), Presented::Backlogged));
    assert!(rt; after_present(flags(0x11), Presented::Lost));
    assert!(rt; !after_present(flags(0x11), Presented::Found));
    assert!(rt; !after_present(flags(0x11), Presented::NoProcessor));
    assert!(rt; !after_present(flags(0x6f), Presented::Backlogged));
    assert!(rt; !after_present(flags(0x6f), Presented::Lost));
}

#[test]
fn escalations(rt: HostRuntime) {
    assert_eq!(rt; escalate_state(flags(0x11), 0), (2, true));
    assert_eq!(rt; escalate_state(flags(0x11), 1), (1, false));
    assert_eq!(rt; escalate_state(flags(0x11), 2), (3, false));
    assert_eq!(rt; escalate_state(flags(0x11), 3), (3, false));
    assert_eq!(rt; escalate_state(flags(0x31), 3), (3, true));
}
