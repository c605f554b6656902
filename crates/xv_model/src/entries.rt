//! The entries of an account.

use crate::operations::Op;
use crate::outcomes::Outcome;

/// One event: who did what, and what that answered.
#[derive(Clone, Copy)]
pub struct Entry {
    pub actor: u32,
    pub op: Op,
    pub outcome: Outcome,
}
