//! The memory of a board, in which event queues lie.
#![tactic(auto)]

mod ram;
#[cfg(test)]
mod tests;

pub use ram::Ram;
