//! Accesses to the pages of the TIMA: what a load or a store does to a thread's OS ring.
#![tactic(auto)]

mod accesses;
#[cfg(test)]
mod tests;

pub use accesses::{BadAccess, decode};
