//! The calls that numbers name, with their arguments; and the numbers themselves, which PAPR and QEMU's
//! include/hw/ppc/spapr.h and spapr_xive.h have.

use crate::hypercalls::Call;
use crate::hypercalls::codes::{H_FUNCTION, H_P2, H_P3, H_P4, H_P5, H_PARAMETER, H_SUCCESS};
use crate::hypercalls::flags::{
    END_ALWAYS_NOTIFY, END_DEBUG, END_GENERATION, ESB_STORE, PRIORITY_MASKED, PRIORITY_RESERVED,
    SRC_FLAGS, SRC_H_INT_ESB, SRC_LSI, SRC_MASK, SRC_SET_EISN, SRC_STORE_EOI, SRC_TRIGGER,
};
use crate::pages::{END_BASE, ESB_BASE, NO_PAGE, PAGE_PAIR_SIZE, PAGE_SHIFT, PAGE_SIZE};

/// The name of the call of a number, and its arguments, where the argument registers have 1 to 5. An argument that the
/// call doesn't name is 0.
fn call(number: u64) -> (&'static str, [u64; 5]) {
    match Call::from_args(number, &[1, 2, 3, 4, 5]) {
        Some(Call::GetSourceInfo { args }) => ("get source info", [args.flags, args.lisn, 0, 0, 0]),
        Some(Call::SetSourceConfig { args }) => (
            "set source config",
            [args.flags, args.lisn, args.target, args.priority, args.eisn],
        ),
        Some(Call::GetSourceConfig { args }) => (
            "get source config",
            [args.flags, args.lisn, 0, 0, 0],
        ),
        Some(Call::GetQueueInfo { args }) => (
            "get queue info",
            [args.flags, args.target, args.priority, 0, 0],
        ),
        Some(Call::SetQueueConfig { args }) => (
            "set queue config",
            [
                args.flags,
                args.target,
                args.priority,
                args.address,
                args.size,
            ],
        ),
        Some(Call::GetQueueConfig { args }) => (
            "get queue config",
            [args.flags, args.target, args.priority, 0, 0],
        ),
        Some(Call::Esb { args }) => ("esb", [args.flags, args.lisn, args.offset, 0, 0]),
        Some(Call::Sync { args }) => ("sync", [args.flags, args.lisn, 0, 0, 0]),
        Some(Call::Reset { args }) => ("reset", [args.flags, 0, 0, 0, 0]),
        None => ("none", [0, 0, 0, 0, 0]),
    }
}

#[test]
fn calls_by_number(rt: HostRuntime) {
    assert!(rt; call(0x3a8) == ("get source info", [1, 2, 0, 0, 0]));
    assert!(rt; call(0x3ac) == ("set source config", [1, 2, 3, 4, 5]));
    assert!(rt; call(0x3b0) == ("get source config", [1, 2, 0, 0, 0]));
    assert!(rt; call(0x3b4) == ("get queue info", [1, 2, 3, 0, 0]));
    assert!(rt; call(0x3b8) == ("set queue config", [1, 2, 3, 4, 5]));
    assert!(rt; call(0x3bc) == ("get queue config", [1, 2, 3, 0, 0]));
    assert!(rt; call(0x3c8) == ("esb", [1, 2, 3, 0, 0]));
    assert!(rt; call(0x3cc) == ("sync", [1, 2, 0, 0, 0]));
    assert!(rt; call(0x3d0) == ("reset", [1, 0, 0, 0, 0]));
}

#[test]
fn no_calls(rt: HostRuntime) {
    for number in [
        0,
        0x3a4,
        0x3c0,
        0x3c4,
        0x3d4,
        0x999,
        0x1_0000_03ac,
        u64::MAX,
    ] {
        assert!(rt; call(number).0 == "none");
    }
}

#[test]
fn codes(rt: HostRuntime) {
    assert_eq!(rt; H_SUCCESS, 0);
    assert_eq!(rt; H_FUNCTION, -2);
    assert_eq!(rt; H_PARAMETER, -4);
    assert_eq!(rt; H_P2, -55);
    assert_eq!(rt; H_P3, -56);
    assert_eq!(rt; H_P4, -57);
    assert_eq!(rt; H_P5, -58);
}

#[test]
fn flags_and_priorities(rt: HostRuntime) {
    assert_eq!(rt; [SRC_MASK, SRC_SET_EISN, SRC_FLAGS], [1, 2, 3]);
    assert_eq!(rt;
        [SRC_STORE_EOI, SRC_TRIGGER, SRC_LSI, SRC_H_INT_ESB],
        [1, 2, 4, 8]
    );
    assert_eq!(rt; [END_ALWAYS_NOTIFY, END_DEBUG, ESB_STORE], [1, 1, 1]);
    assert_eq!(rt; END_GENERATION, 0x4000_0000_0000_0000);
    assert_eq!(rt; [PRIORITY_RESERVED, PRIORITY_MASKED], [7, 0xff]);
}

#[test]
fn pages(rt: HostRuntime) {
    assert_eq!(rt; ESB_BASE, 0x6_0100_0000_0000);
    assert_eq!(rt; END_BASE, 0x6_0200_0000_0000);
    assert_eq!(rt;
        [PAGE_SHIFT, PAGE_SIZE, PAGE_PAIR_SIZE],
        [0x10, 0x1_0000, 0x2_0000]
    );
    assert_eq!(rt; NO_PAGE, 0xffff_ffff_ffff_ffff);
}
