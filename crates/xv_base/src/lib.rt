//! What every crate stands on: limits, numbers in range, how a run ends, and the words of a command line.
#![tactic(auto)]

pub mod limits;
pub mod memory;
pub mod numbers;
pub mod status;
#[cfg(test)]
mod tests;
pub mod word;

pub use limits::Limits;
pub use memory::NoMemory;
pub use numbers::{ActorNo, EndNo, SourceNo, ThreadNo, VpNo};
pub use status::Status;
pub use word::Word;
