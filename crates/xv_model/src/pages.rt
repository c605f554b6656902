//! The pages by which a source or an END is reached (QEMU's docs/specs/ppc-xive, "event state buffer";
//! include/hw/ppc/xive.h). Offsets are in bytes.

/// Where the pages of source 0 lie; those of the next source follow (QEMU's SPAPR_XIVE_BASE).
pub const ESB_BASE: u64 = 0x6010000000000;

/// Where the pages of END 0 lie; those of the next END follow.
pub const END_BASE: u64 = 0x6020000000000;

/// A page has 2 to the power of this many bytes.
pub const PAGE_SHIFT: u64 = 16;

/// The bytes of a page. Where a source has two pages, its trigger page comes first and its management page follows.
pub const PAGE_SIZE: u64 = 0x10000;

/// The bytes that the pages of a source take, or those of an END: there is room for two.
pub const PAGE_PAIR_SIZE: u64 = 0x20000;

/// What is answered in place of a page's address where a guest has no such page.
pub const NO_PAGE: u64 = u64::MAX;

/// How many pages an END has: page 0 is its state of notifications (ESn), page 1 that of escalations (ESe).
pub const END_PAGES: u8 = 2;

/// An offset on a page counts modulo this.
pub const ESB_OFFSETS: u64 = 0x1000;

/// Loads below the offset [`ESB_GET`] are EOIs. On a board with store EOI so are stores from this offset on,
/// up to there (QEMU's XIVE_ESB_STORE_EOI). Stores below it are triggers.
pub const ESB_STORE_EOI: u64 = 0x400;

/// Loads from this offset on, up to [`ESB_SET_PQ`], only look (QEMU's XIVE_ESB_GET).
pub const ESB_GET: u64 = 0x800;

/// Accesses from this offset on set the pair (QEMU's XIVE_ESB_SET_PQ_00).
pub const ESB_SET_PQ: u64 = 0xc00;

/// Each pair is set by this many offsets, in the order 00, 01, 10 and 11 (QEMU's XIVE_ESB_SET_PQ_01).
pub const ESB_SET_STEP: u64 = 0x100;
