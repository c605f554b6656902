//! The fabric of a board: all of it but the words of its sources. It keeps the router's tables, the memory, the
//! processors and the rings of threads, and makes one legal entry a step. It keeps neither pairs nor forwards, so
//! it can stand behind a lock that no trigger takes.
#![tactic(auto)]

mod accesses;
mod answering;
mod attributes;
mod fabric;
mod hypercalls;
mod memory;
mod moves;
mod presenting;
mod processors;
mod states;
#[cfg(test)]
mod tests;
mod views;

pub use fabric::Fabric;
pub use views::QueueView;
