//! The OS rings of a board's threads: each holds the context of the processor that its thread runs. Which
//! processor that is, and what its context is while no thread runs it, is kept elsewhere.
#![tactic(auto)]

mod priorities;
mod ring;
mod rings;
#[cfg(test)]
mod tests;

pub use ring::Ring;
pub use rings::Rings;
