//! The EAS (event assignment structure) of a source.

/// The EAS of a source: what its notices are routed to (POWER9's XIVE; QEMU's include/hw/ppc/xive_regs.h).
#[derive(Clone, Copy)]
pub struct Eas {
    /// The source is there for the operating system: one that isn't has its notices dropped.
    pub valid: bool,
    /// The notices of the source are dropped.
    pub masked: bool,
    /// The END that its notices are routed to.
    pub end: u32,
    /// What is written for each notice: the EISN, 31 bits.
    pub eisn: u32,
}
