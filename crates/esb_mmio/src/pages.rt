//! Loads and stores at the offsets of pages (QEMU's docs/specs/ppc-xive, "event state buffer").

ghost use Rattle.std.specs.Prelude.{◌≡◌, ◌<◌, ◌≤◌, ◌%◌, ◌↔◌, Bool, true, false, Ok, Err, None, IfOk, IfSome};
ghost use Rattle.xv_model.specs.source.Pages.{load_op, store_op, management_op, pair_at};
ghost use Rattle.xv_model.specs.board.Validity.{has_op};
ghost use Rattle.esb_mmio.specs.Pages.{op_at, decoded, IsOfEach};

use xv_model::operations::PqOp;
use xv_model::pages::{ESB_GET, ESB_OFFSETS, ESB_SET_PQ, ESB_SET_STEP, ESB_STORE_EOI};

/// What decides how a source answers accesses to its pages, and triggers.
#[derive(Clone, Copy)]
pub struct SourceKind {
    /// It is a level source. Each kind of source has the same pages.
    pub level: bool,
    /// It has a trigger page, page 0, and a management page, page 1; else page 0 is the management page.
    pub two_pages: bool,
    /// A store at 0x400 to 0x7ff of the management page is an EOI.
    pub store_eoi: bool,
}

/// What an access is.
#[derive(Clone, Copy)]
pub enum EsbOp {
    /// An operation on the source's word.
    Pq { op: PqOp },
    /// A load of the trigger page, which gives all ones.
    Ones,
}

/// The management page has no store at this offset.
#[derive(Clone, Copy)]
pub struct BadOffset;

/// Where an offset lies on a page: offsets count modulo [`ESB_OFFSETS`].
fn on_page(offset: u16) -> u64
    ensures value { result ≡ offset % ESB_OFFSETS }
    ensures below { result < ESB_OFFSETS }
{
    offset as u64 % ESB_OFFSETS
}

/// The operation that sets a pair by an offset from [`ESB_SET_PQ`] on: each pair has its quarter, in the order
/// 00, 01, 10 and 11.
fn set(offset: u64) -> PqOp
    requires from { ESB_SET_PQ ≤ offset }
    requires below { offset < ESB_OFFSETS }
    ensures op { result ≡ PqOp.Set (pair_at offset) }
    ensures of_each { (level : Bool) → has_op level result ≡ true }
{
    PqOp::Set {
        pq: ((offset - ESB_SET_PQ) / ESB_SET_STEP) as u8,
    }
}

/// The operation of a load of a management page, at an offset in bytes, which counts modulo 4,096: an EOI, a
/// get or a set. A page of an END has the same loads.
pub fn load(offset: u16) -> PqOp
    ensures op { result ≡ load_op (offset % ESB_OFFSETS) }
    ensures of_each { (level : Bool) → has_op level result ≡ true }
{
    let offset = on_page(offset);
    if offset < ESB_GET {
        PqOp::Eoi
    } else if offset < ESB_SET_PQ {
        PqOp::Get
    } else {
        set(offset)
    }
}

/// The operation of a store to a management page, at an offset in bytes, which counts modulo 4,096; none where
/// the page has no such store.
fn store_at(offset: u16, store_eoi: bool) -> Option<PqOp>
    ensures op { result ≡ store_op store_eoi (offset % ESB_OFFSETS) }
    ensures of_each { IfSome result (λ o. (level : Bool) → has_op level o ≡ true) }
{
    let offset = on_page(offset);
    if offset < ESB_STORE_EOI {
        Some(PqOp::Trigger)
    } else if offset < ESB_GET {
        if store_eoi { Some(PqOp::Eoi) } else { None }
    } else if offset < ESB_SET_PQ {
        None
    } else {
        Some(set(offset))
    }
}

/// What a load or a store is, on a page of a source of a kind, at an offset in bytes.
///
/// | management page | load | store |
/// |---|---|---|
/// | 0x000 to 0x3ff | EOI | trigger |
/// | 0x400 to 0x7ff | EOI | EOI where the board has store EOI, else `BadOffset` |
/// | 0x800 to 0xbff | get | `BadOffset` |
/// | 0xc00 to 0xfff | sets the pair that bits 8 and 9 of the offset are | the same |
///
/// Offsets count modulo 4,096. A store anywhere on the trigger page is a trigger, and a load of it gives all
/// ones.
pub fn decode(page: u8, offset: u16, store: bool, kind: SourceKind) -> Result<EsbOp, BadOffset>
    ensures table { result ≡ decoded kind page offset store }
    ensures bad_offset { (result ≡ Err (record {}))
        ↔ ((op_at kind page offset store ≡ None) × (store ≡ true)) }
    ensures ones { (result ≡ Ok EsbOp.Ones)
        ↔ ((op_at kind page offset store ≡ None) × (store ≡ false)) }
    ensures of_each { IfOk result IsOfEach }
{
    if kind.two_pages && page == 0 {
        return Ok(if store {
            EsbOp::Pq { op: PqOp::Trigger }
        } else {
            EsbOp::Ones
        });
    }
    if !store {
        return Ok(EsbOp::Pq { op: load(offset) });
    }
    match store_at(offset, kind.store_eoi) {
        Some(op) => Ok(EsbOp::Pq { op }),
        None => Err(BadOffset),
    }
}
