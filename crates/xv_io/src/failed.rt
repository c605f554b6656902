//! The one error of reads and writes.

/// A read or a write failed.
#[derive(Clone, Copy, Debug)]
pub struct Failed;
