//! The PQ table (QEMU's ppc-xive, "event state buffer") on packed source words. One word is what a
//! source has of its own: its pair, its assertion flag and how often it forwarded. What becomes of a
//! forward is the router's.
#![tactic(auto)]

mod applied;
mod rows;
#[cfg(test)]
mod tests;
mod word;

pub use applied::{Applied, apply, outcome_of, word_after};
pub use rows::{Cell, cell_of, trigger};
pub use word::SourceWord;
