//! Presentations to processors, and the moves of their contexts between what is saved and the rings of threads.
//!
//! Each call asks that the processors and the rings that it is handed fit together, and leaves them so, also where it
//! refuses. For a caller this means: processors and rings that are built for the same board fit, and they still do as
//! long as the phases of the processors and the CAM words of the rings are changed by these calls alone.
#![tactic(auto)]

mod moves;
mod presenting;
#[cfg(test)]
mod tests;

pub use moves::{pull, push, restore, save};
pub use presenting::present;
