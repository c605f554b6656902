//! The fields in the numbers and values of attributes (Linux's arch/powerpc/include/uapi/asm/kvm.h).

/// The bit of a source's value that says that it is a level source (KVM_XIVE_LEVEL_SENSITIVE).
pub const LEVEL_SENSITIVE: u64 = 1;

/// The bit of a source's value that says that the line of a level source is up (KVM_XIVE_LEVEL_ASSERTED).
pub const LEVEL_ASSERTED: u64 = 2;

/// The bits of a queue's identifier, or of a source's configuration, that are the priority
/// (KVM_XIVE_EQ_PRIORITY_MASK, KVM_XIVE_SOURCE_PRIORITY_MASK).
pub const PRIORITY_MASK: u64 = 7;

/// Above the priority stands the server, which is the processor (KVM_XIVE_EQ_SERVER_SHIFT,
/// KVM_XIVE_SOURCE_SERVER_SHIFT).
pub const SERVER_SHIFT: u32 = 3;

/// The bits that the priority and the server take together.
pub const TARGET_MASK: u64 = 0xffff_ffff;

/// The bit of a source's configuration that masks its EAS (KVM_XIVE_SOURCE_MASKED_MASK).
pub const SOURCE_MASKED: u64 = 1 << 32;

/// From this bit on stands the EISN in a source's configuration (KVM_XIVE_SOURCE_EISN_SHIFT).
pub const SOURCE_EISN_SHIFT: u32 = 33;

/// The flag of a queue that makes its END notify whatever its state is; there is no other, and it has to be set
/// (KVM_XIVE_EQ_ALWAYS_NOTIFY).
pub const EQ_ALWAYS_NOTIFY: u32 = 1;
