//! Which accesses to the TIMA are valid: those on its four pages, of 1, 2, 4 or 8 bytes, wherever they are; and the
//! value of a store has no more bytes than the store.

use crate::board::Board;
use crate::operations::{Access, Op};
use crate::tests::small_board;
use crate::validity::valid;
use xv_base::Limits;

/// Whether a load from the TIMA is valid on thread 0 of the small board.
fn loads(page: u8, offset: u16, size: u8) -> bool {
    on_thread(&small_board(), 0, page, offset, size, Access::Load)
}

/// Whether a store to the TIMA is valid on thread 0 of the small board.
fn stores(page: u8, offset: u16, size: u8, value: u64) -> bool {
    on_thread(
        &small_board(),
        0,
        page,
        offset,
        size,
        Access::Store { value },
    )
}

fn on_thread(board: &Board, t: u32, page: u8, offset: u16, size: u8, access: Access) -> bool {
    valid(
        board,
        &Op::Tima {
            t,
            page,
            offset,
            size,
            access,
        },
    )
}

#[test]
fn accesses_by_page(rt: HostRuntime) {
    assert!(rt; loads(0, 0x10, 8));
    assert!(rt; loads(2, 0x10, 8));
    assert!(rt; loads(3, 0x10, 8));
    assert!(rt; stores(3, 0x11, 1, 7));
    assert!(rt; !loads(4, 0x10, 8));
    assert!(rt; !stores(4, 0x11, 1, 7));
    assert!(rt; !loads(u8::MAX, 0x10, 8));
}

#[test]
fn accesses_by_offset(rt: HostRuntime) {
    assert!(rt; loads(1, 0, 1));
    assert!(rt; loads(1, 0x0f, 8));
    assert!(rt; stores(1, 0x819, 4, 0));
    assert!(rt; stores(1, u16::MAX, 1, 0));
}

#[test]
fn accesses_by_size(rt: HostRuntime) {
    for size in [1u8, 2, 4, 8] {
        assert!(rt; loads(2, 0x10, size));
        assert!(rt; stores(2, 0x10, size, 0xff));
    }
    for size in [0u8, 3, 5, 6, 7, 9, 16, u8::MAX] {
        assert!(rt; !loads(2, 0x10, size));
        assert!(rt; !stores(2, 0x10, size, 0));
    }
}

#[test]
fn stores_by_value(rt: HostRuntime) {
    assert!(rt; !stores(2, 0x11, 1, 0x100));
    assert!(rt; !stores(2, 0x11, 1, u64::MAX));
    assert!(rt; stores(2, 0x11, 2, 0xffff));
    assert!(rt; !stores(2, 0x11, 2, 0x1_0000));
    assert!(rt; stores(1, 0x18, 4, 0xffff_ffff));
    assert!(rt; !stores(1, 0x18, 4, 0x1_8000_0400));
    assert!(rt; stores(2, 0x11, 8, u64::MAX));
}

#[test]
fn accesses_by_thread(rt: HostRuntime) {
    let board = Board {
        limits: Limits {
            sources: 2,
            processors: 64,
            threads: 32,
            actors: 1,
        },
        ..small_board()
    };
    let load = |t: u32| on_thread(&board, t, 2, 0x10, 8, Access::Load);
    let store = |t: u32| on_thread(&board, t, 1, 0x18, 4, Access::Store { value: 0 });
    assert!(rt; load(31));
    assert!(rt; store(31));
    assert!(rt; !load(32));
    assert!(rt; !store(32));
    assert!(rt; !load(u32::MAX));
}
