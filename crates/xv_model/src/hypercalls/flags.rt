//! The flags of hypercalls (QEMU's hw/intc/spapr_xive.c, by whose names without SPAPR_XIVE_ they go), and the
//! priorities that these calls tell apart.

/// The flag of H_INT_SET_SOURCE_CONFIG that masks the EAS.
pub const SRC_MASK: u64 = 1;

/// The flag of H_INT_SET_SOURCE_CONFIG that sets the EISN.
pub const SRC_SET_EISN: u64 = 2;

/// All flags of H_INT_SET_SOURCE_CONFIG.
pub const SRC_FLAGS: u64 = SRC_MASK | SRC_SET_EISN;

/// H_INT_GET_SOURCE_INFO answers that a store to the management page can be an EOI.
pub const SRC_STORE_EOI: u64 = 1;

/// H_INT_GET_SOURCE_INFO answers that the source has one page, by which it is also triggered.
pub const SRC_TRIGGER: u64 = 2;

/// H_INT_GET_SOURCE_INFO answers that the source is a level source.
pub const SRC_LSI: u64 = 4;

/// H_INT_GET_SOURCE_INFO answers that the source is accessed by H_INT_ESB, and not by its pages.
pub const SRC_H_INT_ESB: u64 = 8;

/// The flag of H_INT_SET_QUEUE_CONFIG that makes the END notify whatever its state is. H_INT_GET_QUEUE_CONFIG answers
/// it where the END does so.
pub const END_ALWAYS_NOTIFY: u64 = 1;

/// The flag of H_INT_GET_QUEUE_CONFIG that asks for the generation and the index of the entry that is written next.
pub const END_DEBUG: u64 = 1;

/// The bit that H_INT_GET_QUEUE_CONFIG answers with [`END_DEBUG`] where the generation is 1.
pub const END_GENERATION: u64 = 1 << 62;

/// The flag of H_INT_ESB that makes the access a store.
pub const ESB_STORE: u64 = 1;

/// The priority by which H_INT_SET_SOURCE_CONFIG masks a source and forgets its END, and that
/// H_INT_GET_SOURCE_CONFIG answers of a masked one.
pub const PRIORITY_MASKED: u64 = 0xff;

/// The first priority that a guest can't have: 7 is the hypervisor's (spapr_xive_priority_is_reserved).
pub const PRIORITY_RESERVED: u64 = 7;
