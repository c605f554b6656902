//! What accepted settings set, and what is got of queues.

use crate::tests::device::{Device, board, busy_device, number, queue};
use bitflags::Flags;
use std::test::Fail;
use xv_model::operations::{EndConfig, EndFlags};

/// An END that isn't valid.
const OFF: (u8, (u32, u8), (u64, u32, u64), u64, (u8, u8)) = (0, (0, 0), (0, 0, 0), 0, (1, 1));

#[test]
fn a_busy_device(rt: HostRuntime) -> Result<(), Fail> {
    let device = busy_device(&rt, rt.alloc())?;
    assert_eq!(rt; device.source(&rt, 0), (true, false, 6, 0x21));
    assert_eq!(rt; device.source(&rt, 1), (true, true, 11, 5));
    assert_eq!(rt; device.source(&rt, 2), (true, true, 0, 0));
    assert_eq!(rt; device.source(&rt, 3), (false, false, 0, 0));
    assert_eq!(rt; device.source(&rt, 4), (true, false, 6, 0x7fff_ffff));
    assert_eq!(rt;
        device.end(&rt, 6),
        (15, (0, 6), (0x4000, 12, 5), 2, (0, 0))
    );
    // toggle 0 is the second time through: 16,384 entries and two
    assert_eq!(rt;
        device.end(&rt, 11),
        (15, (1, 3), (0x1_0000, 16, 16386), 1, (0, 0))
    );
    assert_eq!(rt; device.end(&rt, 22), OFF);
    assert_eq!(rt; device.processors(), (3, [true, true, false]));
    Ok(())
}

#[test]
fn sources_that_are_initialised(rt: HostRuntime) -> Result<(), Fail> {
    let mut device = busy_device(&rt, rt.alloc())?;
    assert_eq!(rt; device.set(2, 3, number(0)), 0);
    assert_eq!(rt; device.source(&rt, 3), (true, true, 0, 0));
    // the line of a message source isn't looked at, nor are other bits
    assert_eq!(rt; device.set(2, 0, number(0xffff_ffff_ffff_fffe)), 0);
    assert_eq!(rt; device.source(&rt, 0), (true, true, 0, 0));
    assert_eq!(rt; device.source(&rt, 1), (true, true, 11, 5));
    for value in [1, 3] {
        assert_eq!(rt; device.set(3, 4, number(6)), 0);
        assert_eq!(rt; device.source(&rt, 4), (true, false, 6, 0));
        assert_eq!(rt; device.set(2, 4, number(value)), 0);
        assert_eq!(rt; device.source(&rt, 4), (true, true, 0, 0));
    }
    Ok(())
}

#[test]
fn sources_that_are_masked(rt: HostRuntime) -> Result<(), Fail> {
    let mut device = busy_device(&rt, rt.alloc())?;
    // neither the server, which isn't connected, nor the EISN is looked at
    assert_eq!(rt; device.set(3, 0, number(0xffff_ffff_0000_0010)), 0);
    assert_eq!(rt; device.source(&rt, 0), (true, true, 6, 0x21));
    assert_eq!(rt; device.set(3, 1, number(0x0a_0000_000b)), 0);
    assert_eq!(rt; device.source(&rt, 1), (true, false, 11, 5));
    assert_eq!(rt; device.source(&rt, 2), (true, true, 0, 0));
    Ok(())
}

#[test]
fn queues_that_are_set(rt: HostRuntime) -> Result<(), Fail> {
    let mut device = busy_device(&rt, rt.alloc())?;
    // bits above the server don't count; the counts begin anew
    assert_eq!(rt;
        device.set(4, 0xffff_ffff_0000_0006, queue(1, 12, 0xf_f000, 0, 1023)),
        0
    );
    assert_eq!(rt;
        device.end(&rt, 6),
        (15, (0, 6), (0xf_f000, 12, 2047), 0, (0, 0))
    );
    assert_eq!(rt;
        device.end(&rt, 11),
        (15, (1, 3), (0x1_0000, 16, 16386), 1, (0, 0))
    );
    // size 0 resets, whatever the other fields are
    assert_eq!(rt; device.set(4, 6, queue(9, 0, 3, 7, u32::MAX)), 0);
    assert_eq!(rt; device.end(&rt, 6), OFF);
    assert_eq!(rt; device.source(&rt, 0), (true, false, 6, 0x21));
    Ok(())
}

#[test]
fn queues_that_are_got(rt: HostRuntime) -> Result<(), Fail> {
    let mut device = busy_device(&rt, rt.alloc())?;
    assert_eq!(rt; device.get(4, 6), (0, [1, 12, 0x4000, 1, 7]));
    assert_eq!(rt; device.get(4, 0x1_0000_000b), (0, [1, 16, 0x1_0000, 0, 3]));
    assert_eq!(rt; device.get(4, 5), (0, [0; 5]));
    // the toggle flips where the queue wraps
    assert_eq!(rt; device.set(4, 6, queue(1, 12, 0x4000, 1, 1023)), 0);
    assert_eq!(rt; device.get(4, 6), (0, [1, 12, 0x4000, 1, 1023]));
    assert_eq!(rt; device.enqueue(&rt, 6, 5), 0x8000_0005);
    assert_eq!(rt; device.get(4, 6), (0, [1, 12, 0x4000, 0, 0]));
    assert_eq!(rt; device.enqueue(&rt, 6, 5), 5);
    assert_eq!(rt; device.get(4, 6), (0, [1, 12, 0x4000, 0, 1]));
    assert_eq!(rt; device.set(4, 6, queue(1, 12, 0x4000, 0, 1023)), 0);
    assert_eq!(rt; device.enqueue(&rt, 6, 5), 5);
    assert_eq!(rt; device.get(4, 6), (0, [1, 12, 0x4000, 1, 0]));
    Ok(())
}

#[test]
fn queues_of_other_flags(rt: HostRuntime) -> Result<(), Fail> {
    let mut device = busy_device(&rt, rt.alloc())?;
    // v, q and b: it asks its state before it notifies
    let queue = EndConfig {
        flags: EndFlags::from_bits_retain(11),
        vp: 0,
        priority: 4,
        qaddr: 0x8000,
        qshift: 12,
        ..EndConfig::OFF
    };
    device.configure(&rt, 4, &queue);
    assert_eq!(rt; device.get(4, 4), (0, [0, 12, 0x8000, 1, 0]));
    assert_eq!(rt; device.set(3, 2, number(4)), 0);
    assert_eq!(rt; device.source(&rt, 2), (true, false, 4, 0));
    // v and n: it has no queue
    let silent = EndConfig {
        flags: EndFlags::from_bits_retain(5),
        priority: 4,
        ..EndConfig::OFF
    };
    device.configure(&rt, 4, &silent);
    assert_eq!(rt; device.get(4, 4), (0, [0; 5]));
    assert_eq!(rt; device.set(3, 2, number(0x02_0000_0004)), -6);
    assert_eq!(rt; device.source(&rt, 2), (true, false, 4, 0));
    Ok(())
}

#[test]
fn a_reset(rt: HostRuntime) -> Result<(), Fail> {
    let mut device = busy_device(&rt, rt.alloc())?;
    assert_eq!(rt; device.set(1, 1, number(u64::MAX)), 0);
    for s in [0, 1, 2, 4] {
        assert_eq!(rt; device.source(&rt, s), (true, true, 0, 0), "source {s}");
    }
    assert_eq!(rt; device.source(&rt, 3), (false, false, 0, 0));
    for e in 0..24 {
        assert_eq!(rt; device.end(&rt, e), OFF, "END {e}");
    }
    assert_eq!(rt; device.processors(), (3, [true, true, false]));
    Ok(())
}

#[test]
fn syncs_change_nothing(rt: HostRuntime) -> Result<(), Fail> {
    let mut device = busy_device(&rt, rt.alloc())?;
    let untouched = busy_device(&rt, rt.alloc())?;
    for (group, attr) in [(1, 2), (5, 0), (5, 1), (5, 4)] {
        assert_eq!(rt; device.set(group, attr, number(u64::MAX)), 0);
        assert!(rt; device.is_like(&rt, &untouched), "{group} {attr}");
    }
    Ok(())
}

#[test]
fn servers_that_are_set(rt: HostRuntime) -> Result<(), Fail> {
    let mut device = Device::build(rt.alloc(), &board(0))?;
    assert_eq!(rt; device.processors(), (3, [false; 3]));
    for n in [2, 1, 3] {
        assert_eq!(rt; device.set(1, 3, number(n as u64)), 0);
        assert_eq!(rt; device.processors(), (n, [false; 3]));
    }
    assert_eq!(rt; device.set(1, 3, number(4)), -22);
    assert_eq!(rt; device.set(1, 3, number(0)), -22);
    assert_eq!(rt; device.processors(), (3, [false; 3]));
    Ok(())
}
