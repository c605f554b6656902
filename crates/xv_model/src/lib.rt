//! The words of the interrupt controller: boards, operations, outcomes, entries and messages, and the
//! definitions of what they mean. Nothing here runs a board.
#![tactic(auto)]

pub mod board;
pub mod eas;
pub mod entries;
pub mod hypercalls;
pub mod known;
pub mod kvm;
pub mod laws;
pub mod messages;
pub mod operations;
pub mod outcomes;
pub mod pages;
#[cfg(test)]
mod tests;
pub mod tima;
pub mod validity;
