//! What decides for an END: how its states coalesce what it sends. A state is a pair as a source's, and goes
//! by the same rows of the PQ table.
#![tactic(auto)]

mod decisions;
mod states;
#[cfg(test)]
mod tests;

pub use decisions::{EndStep, after_present, decide, escalate_state};
pub use states::{notify_state, page_load};
