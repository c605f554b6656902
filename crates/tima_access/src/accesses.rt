//! Loads and stores at the offsets of pages (QEMU's hw/intc/xive.c, xive_tm_operations).

ghost use Rattle.std.specs.Prelude.{◌≡◌, ◌↔◌, Ok, Err, Some, None, IfOk, IfSome};
ghost use Rattle.xv_model.specs.declared.tima.RingOp.{RingOp};
ghost use Rattle.xv_model.specs.processor.RingOps.{is_size, is_register, load_of, store_of, ring_op};
ghost use Rattle.tima_access.specs.Accesses.{decoded, IsInRing};

use xv_model::operations::Access;
use xv_model::tima::{
    RingOp, TM_ACKNOWLEDGE, TM_HV_PAGE, TM_OS_CAM, TM_OS_CPPR, TM_OS_PAGE, TM_PULL_CONTEXT,
    TM_QW1_OS, TM_RING_SIZE, TM_SET_PENDING,
};

/// The TIMA has no access of this size at this offset of this page.
#[derive(Clone, Copy)]
pub struct BadAccess;

/// Whether an access may have this many bytes.
fn may_have(size: u8) -> bool
    ensures { result ≡ is_size size }
{
    size == 1 || size == 2 || size == 4 || size == 8
}

/// Whether registers can be loaded so.
fn has_register(page: u8, offset: u16, size: u8) -> bool
    ensures { result ≡ is_register page offset size }
{
    may_have(size)
        && page <= TM_OS_PAGE
        && TM_QW1_OS <= offset
        && offset < TM_QW1_OS + TM_RING_SIZE
        && offset % size as u16 == 0
}

/// What a load does, if anything.
fn load(page: u8, offset: u16, size: u8) -> Option<RingOp>
    ensures op { result ≡ load_of page offset size }
    ensures inside { IfSome result IsInRing }
{
    if has_register(page, offset, size) {
        let at = (offset - TM_QW1_OS) as u8;
        Some(RingOp::Load { at, size })
    } else if page == TM_OS_PAGE && offset == TM_ACKNOWLEDGE && size == 2 {
        Some(RingOp::Accept)
    } else if page == TM_HV_PAGE && offset == TM_PULL_CONTEXT && (size == 4 || size == 8) {
        Some(RingOp::Pull)
    } else {
        None
    }
}

/// What a store does, if anything.
fn store(page: u8, offset: u16, size: u8, value: u64) -> Option<RingOp>
    ensures op { result ≡ store_of page offset size value }
    ensures inside { IfSome result IsInRing }
{
    if page == TM_OS_PAGE && offset == TM_OS_CPPR && size == 1 && value < 1 << 8 {
        Some(RingOp::SetCppr { value: value as u8 })
    } else if page == TM_OS_PAGE && offset == TM_SET_PENDING && size == 1 && value < 1 << 8 {
        Some(RingOp::Inject {
            priority: value as u8,
        })
    } else if page == TM_HV_PAGE && offset == TM_OS_CAM && size == 4 && value < 1 << 32 {
        Some(RingOp::Push { cam: value as u32 })
    } else {
        None
    }
}

/// What a load or a store of `size` bytes is, on a page of the TIMA, at an offset in bytes.
///
/// | page | offset | size | access | |
/// |---|---|---|---|---|
/// | 0, 1, 2 | 0x10 to 0x1f, a multiple of the size | 1, 2, 4, 8 | load | loads registers |
/// | 2 | 0x11 | 1 | store | stores CPPR |
/// | 2 | 0x810 | 2 | load | acknowledges |
/// | 2 | 0x812 | 1 | store | makes a priority pending |
/// | 1 | 0x18 | 4 | store | pushes a context |
/// | 1 | 0x818 | 4 or 8 | load | pulls the context |
///
/// Every other access is bad, and so is a store of a value that has more bytes than are stored.
pub fn decode(page: u8, offset: u16, size: u8, access: Access) -> Result<RingOp, BadAccess>
    ensures table { result ≡ decoded (ring_op page offset size access) }
    ensures op { (o : RingOp) → (result ≡ Ok o) ↔ (ring_op page offset size access ≡ Some o) }
    ensures bad_access { (result ≡ Err (record {})) ↔ (ring_op page offset size access ≡ None) }
    ensures inside { IfOk result IsInRing }
{
    let op = match access {
        Access::Load => load(page, offset, size),
        Access::Store { value } => store(page, offset, size, value),
    };
    op.ok_or(BadAccess)
}
