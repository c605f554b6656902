//! What a fabric shows of its parts.

use xv_model::operations::EndConfig;

/// What a fabric shows of an END.
#[derive(Clone, Copy)]
pub struct QueueView {
    pub config: EndConfig,
    /// How many entries were written into its queue since it was configured.
    pub written: u64,
    /// How many entries were taken from its queue since it was configured.
    pub taken: u64,
    /// The state that coalesces its notifications (ESn), a pair.
    pub esn: u8,
    /// The state that coalesces its escalations (ESe), a pair.
    pub ese: u8,
}
