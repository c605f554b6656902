//! The error numbers of calls to the KVM device, with the sign that the kernel answers them with (Linux's
//! include/uapi/asm-generic/errno-base.h). A call that is accepted answers 0.

/// There is no such source, or no such connected processor for a queue.
pub const ENOENT: i32 = -2;

/// There is no such attribute, or the END that a source is to notify has no queue.
pub const ENXIO: i32 = -6;

/// The number is too large for a source that is to be initialised.
pub const E2BIG: i32 = -7;

/// What is set can't be any more, or not yet: a processor is connected, or its context isn't saved.
pub const EBUSY: i32 = -16;

/// A value isn't valid, or what it is for isn't: the source isn't initialised, or the processor isn't connected.
pub const EINVAL: i32 = -22;
