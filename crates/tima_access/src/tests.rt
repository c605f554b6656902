//! The table of accesses, row by row, with the bad accesses beside each.

use crate::{BadAccess, decode};
use xv_model::operations::Access;
use xv_model::tima::RingOp;

/// What an access is, in the words of the table.
fn name(access: &Result<RingOp, BadAccess>) -> &'static str {
    match access {
        Ok(RingOp::Load { .. }) => "registers",
        Ok(RingOp::SetCppr { .. }) => "cppr",
        Ok(RingOp::Accept) => "acknowledge",
        Ok(RingOp::Inject { .. }) => "inject",
        Ok(RingOp::Push { .. }) => "push",
        Ok(RingOp::Pull) => "pull",
        Err(BadAccess) => "bad-access",
    }
}

fn load(page: u8, offset: u16, size: u8) -> &'static str {
    name(&decode(page, offset, size, Access::Load))
}

fn store(page: u8, offset: u16, size: u8, value: u64) -> &'static str {
    name(&decode(page, offset, size, Access::Store { value }))
}

/// Whether a load of registers of the OS page starts at this byte of the ring, and has its size.
fn starts_at(offset: u16, bytes: u8, start: u8) -> bool {
    match decode(2, offset, bytes, Access::Load) {
        Ok(RingOp::Load { at, size }) => at == start && size == bytes,
        _ => false,
    }
}

#[test]
fn loads_of_registers(rt: HostRuntime) {
    assert!(rt; starts_at(0x10, 1, 0) && starts_at(0x1f, 1, 15));
    assert!(rt; starts_at(0x10, 2, 0) && starts_at(0x1e, 2, 14));
    assert!(rt; starts_at(0x10, 4, 0) && starts_at(0x1c, 4, 12));
    assert!(rt; starts_at(0x10, 8, 0) && starts_at(0x18, 8, 8));
    assert!(rt; load(0, 0x10, 8) == "registers" && load(1, 0x18, 4) == "registers");
    assert!(rt; load(3, 0x10, 8) == "bad-access" && load(255, 0x10, 1) == "bad-access");
    assert!(rt; load(2, 0x0f, 1) == "bad-access" && load(2, 0x20, 1) == "bad-access");
    assert!(rt; load(2, 0x08, 8) == "bad-access" && load(2, 0x20, 8) == "bad-access");
    assert!(rt; load(2, 0x11, 2) == "bad-access" && load(2, 0x12, 4) == "bad-access");
    assert!(rt; load(2, 0x14, 8) == "bad-access" && load(2, 0x1c, 8) == "bad-access");
    assert!(rt; load(2, 0x10, 0) == "bad-access" && load(2, 0x12, 3) == "bad-access");
    assert!(rt; load(2, 0x10, 16) == "bad-access");
}

#[test]
fn acknowledgements(rt: HostRuntime) {
    assert!(rt; load(2, 0x810, 2) == "acknowledge");
    assert!(rt; load(2, 0x810, 1) == "bad-access" && load(2, 0x810, 4) == "bad-access");
    assert!(rt; load(2, 0x80f, 2) == "bad-access" && load(2, 0x811, 2) == "bad-access");
    assert!(rt; load(1, 0x810, 2) == "bad-access" && load(3, 0x810, 2) == "bad-access");
    assert!(rt; store(2, 0x810, 2, 0) == "bad-access");
}

#[test]
fn pulls(rt: HostRuntime) {
    assert!(rt; load(1, 0x818, 4) == "pull" && load(1, 0x818, 8) == "pull");
    assert!(rt; load(1, 0x818, 2) == "bad-access" && load(1, 0x818, 16) == "bad-access");
    assert!(rt; load(1, 0x817, 4) == "bad-access" && load(1, 0x81c, 4) == "bad-access");
    assert!(rt; load(0, 0x818, 4) == "bad-access" && load(2, 0x818, 4) == "bad-access");
    assert!(rt; store(1, 0x818, 4, 0) == "bad-access");
}

#[test]
fn stores_of_a_byte(rt: HostRuntime) {
    for value in [0, 7, 0xff] {
        assert!(rt; store(2, 0x11, 1, value) == "cppr");
        assert!(rt; store(2, 0x812, 1, value) == "inject");
    }
    for offset in [0x11, 0x812] {
        assert!(rt;
            store(1, offset, 1, 0) == "bad-access" && store(3, offset, 1, 0) == "bad-access"
        );
        assert!(rt; store(2, offset - 1, 1, 0) == "bad-access");
        assert!(rt; store(2, offset + 1, 1, 0) == "bad-access");
        assert!(rt;
            store(2, offset, 2, 0) == "bad-access" && store(2, offset, 0, 0) == "bad-access"
        );
        assert!(rt; store(2, offset, 1, 0x100) == "bad-access");
    }
    assert!(rt; load(2, 0x812, 1) == "bad-access");
}

#[test]
fn pushes(rt: HostRuntime) {
    assert!(rt;
        store(1, 0x18, 4, 0x80000400) == "push" && store(1, 0x18, 4, 0xffff_ffff) == "push"
    );
    assert!(rt; store(1, 0x18, 4, 0x1_0000_0000) == "bad-access");
    assert!(rt; store(1, 0x18, 2, 0) == "bad-access" && store(1, 0x18, 8, 0) == "bad-access");
    assert!(rt; store(1, 0x17, 4, 0) == "bad-access" && store(1, 0x1c, 4, 0) == "bad-access");
    assert!(rt; store(0, 0x18, 4, 0) == "bad-access" && store(2, 0x18, 4, 0) == "bad-access");
}

/// What is stored is what the ring is given.
#[test]
fn values_that_are_stored(rt: HostRuntime) {
    assert!(rt;
        matches!(
            decode(2, 0x11, 1, Access::Store { value: 0xfe }),
            Ok(RingOp::SetCppr { value: 0xfe })
        )
    );
    assert!(rt;
        matches!(
            decode(2, 0x812, 1, Access::Store { value: 6 }),
            Ok(RingOp::Inject { priority: 6 })
        )
    );
    assert!(rt;
        matches!(
            decode(1, 0x18, 4, Access::Store { value: 0x80000403 }),
            Ok(RingOp::Push { cam: 0x80000403 })
        )
    );
}
