//! Refused calls of a busy device: the error of each, and that it changes nothing. The memory is only read.

use crate::tests::device::{busy_device, number, queue};
use std::alloc::Global;
use std::process::Abort;
use std::test::Fail;
use xv_base::NoMemory;
use xv_model::operations::AttrValue;

/// Sets attributes on a busy device, which refuses each with this error and stays as it is.
fn refuse(
    rt: &impl Abort,
    alloc: Global,
    sets: &[(u32, u64, AttrValue, i32)],
) -> Result<(), NoMemory> {
    let mut device = busy_device(rt, alloc)?;
    let untouched = busy_device(rt, alloc)?;
    for &(group, attr, value, code) in sets {
        assert_eq!(rt;
            device.set(group, attr, value),
            code,
            "{group} {attr} is refused with {code}"
        );
        assert!(rt;
            device.is_like(rt, &untouched),
            "{group} {attr}, refused with {code}, changes nothing"
        );
    }
    Ok(())
}

#[test]
fn no_such_attributes(rt: HostRuntime) -> Result<(), Fail> {
    let sets = [
        (0, 0, number(0), -6),
        (6, 0, number(0), -6),
        (9, 0, number(0), -6),
        (u32::MAX, 0, number(0), -6),
        (1, 0, number(0), -6),
        (1, 4, number(1), -6),
        (1, (1 << 32) + 1, number(0), -6),
        // where there is no attribute, its form isn't looked at
        (1, 4, queue(1, 12, 0x4000, 1, 0), -6),
        (9, 6, queue(1, 12, 0x4000, 1, 0), -6),
        // the form is looked at before all else
        (4, 0x17, number(0), -22),
        (4, 6, number(1), -22),
        (1, 1, queue(1, 12, 0x4000, 1, 0), -22),
        (1, 2, queue(1, 12, 0x4000, 1, 0), -22),
        (1, 3, queue(1, 12, 0x4000, 1, 0), -22),
        (2, 5, queue(1, 12, 0x4000, 1, 0), -22),
        (3, 5, queue(1, 12, 0x4000, 1, 0), -22),
        (5, 5, queue(1, 12, 0x4000, 1, 0), -22),
    ];
    refuse(&rt, rt.alloc(), &sets)?;
    Ok(())
}

#[test]
fn refused_servers(rt: HostRuntime) -> Result<(), Fail> {
    let sets = [
        (1, 3, number(0), -22),
        (1, 3, number(4), -22),
        (1, 3, number((1 << 32) + 1), -22),
        (1, 3, number(u64::MAX), -22),
        (1, 3, number(1), -16),
        (1, 3, number(3), -16),
    ];
    refuse(&rt, rt.alloc(), &sets)?;
    Ok(())
}

#[test]
fn refused_sources(rt: HostRuntime) -> Result<(), Fail> {
    let sets = [
        (2, 5, number(0), -7),
        (2, 5, number(1), -7),
        (2, 1 << 32, number(0), -7),
        (2, u64::MAX, number(0), -7),
        (2, 0, number(1), -22),
        (2, 3, number(3), -22),
        (2, 4, number(0), -22),
        (2, 4, number(2), -22),
        (3, 5, number(0x17), -2),
        (3, 1 << 32, number(6), -2),
        (3, 3, number(0x17), -22),
        (3, 3, number(6), -22),
        (3, 3, number(0x1_0000_0006), -22),
        (3, 0, number(7), -22),
        (3, 0, number(0x1_0000_0007), -22),
        (3, 0, number(0xf), -22),
        // the server is looked at before its END
        (3, 0, number(0x16), -22),
        (3, 0, number(0x18), -22),
        (3, 0, number(0xffff_fff8), -22),
        (3, 0, number(5), -6),
        (3, 4, number(0x0e), -6),
        (5, 5, number(0), -2),
        (5, 1 << 32, number(0), -2),
        (5, 3, number(0), -22),
    ];
    refuse(&rt, rt.alloc(), &sets)?;
    Ok(())
}

#[test]
fn refused_queues(rt: HostRuntime) -> Result<(), Fail> {
    let sets = [
        (4, 0x10, queue(0, 13, 1, 2, 9), -2),
        (4, 0x17, queue(0, 0, 0, 0, 0), -2),
        (4, 0x18, queue(1, 12, 0x4000, 1, 0), -2),
        (4, 0xffff_fff8, queue(1, 12, 0x4000, 1, 0), -2),
        (4, 0x7, queue(0, 0, 0, 0, 0), -22),
        (4, 0xf, queue(1, 12, 0x4000, 1, 0), -22),
        (4, 0x6, queue(0, 12, 0x4000, 1, 0), -22),
        (4, 0x6, queue(2, 12, 0x4000, 1, 0), -22),
        (4, 0x6, queue(3, 12, 0x4000, 1, 0), -22),
        (4, 0x6, queue(1, 1, 0x4000, 1, 0), -22),
        (4, 0x6, queue(1, 11, 0x4000, 1, 0), -22),
        (4, 0x6, queue(1, 13, 0x4000, 1, 0), -22),
        (4, 0x6, queue(1, 25, 0, 1, 0), -22),
        (4, 0x6, queue(1, u32::MAX, 0, 1, 0), -22),
        (4, 0x6, queue(1, 12, 0x4004, 1, 0), -22),
        (4, 0x6, queue(1, 16, 0x8000, 1, 0), -22),
        (4, 0x6, queue(1, 12, 0x10_0000, 1, 0), -22),
        (4, 0x6, queue(1, 21, 0, 1, 0), -22),
        (4, 0x6, queue(1, 24, 0, 1, 0), -22),
        (4, 0x6, queue(1, 12, 1 << 32, 1, 0), -22),
        (4, 0x6, queue(1, 12, u64::MAX - 0xfff, 1, 0), -22),
        (4, 0x6, queue(1, 12, 0x4000, 2, 0), -22),
        (4, 0x6, queue(1, 12, 0x4000, u32::MAX, 0), -22),
        (4, 0x6, queue(1, 12, 0x4000, 1, 1024), -22),
        (4, 0x6, queue(1, 12, 0x4000, 0, u32::MAX), -22),
    ];
    refuse(&rt, rt.alloc(), &sets)?;
    Ok(())
}

#[test]
fn refused_gets(rt: HostRuntime) -> Result<(), Fail> {
    let device = busy_device(&rt, rt.alloc())?;
    for (group, attr, code) in [
        (0, 0, -6),
        (1, 1, -6),
        (1, 2, -6),
        (1, 3, -6),
        (1, 4, -6),
        (2, 0, -6),
        (3, 0, -6),
        (5, 0, -6),
        (6, 6, -6),
        (4, 0x10, -2),
        (4, 0x17, -2),
        (4, 0x18, -2),
        (4, 0x7, -22),
        (4, 0xf, -22),
    ] {
        assert_eq!(rt; device.get(group, attr), (code, [0; 5]), "{group} {attr}");
    }
    Ok(())
}
