//! The codes that hypercalls return (PAPR; Linux's arch/powerpc/include/asm/hvcall.h).

/// The call is accepted.
pub const H_SUCCESS: i64 = 0;

/// There is no such call.
pub const H_FUNCTION: i64 = -2;

/// The call doesn't have one of the flags.
pub const H_PARAMETER: i64 = -4;

/// The second argument is refused: a LISN, which is no source with a valid EAS, or the target of a queue, which is
/// no connected processor.
pub const H_P2: i64 = -55;

/// The third argument is refused: the target of a source, the priority of a queue, or the offset of an access.
pub const H_P3: i64 = -56;

/// The fourth argument is refused: the priority of a source, or the address of a queue.
pub const H_P4: i64 = -57;

/// The fifth argument is refused: the size of a queue.
pub const H_P5: i64 = -58;
