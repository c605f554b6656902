//! The H_INT hypercalls of a board (PAPR; QEMU's hw/intc/spapr_xive.c): what each replies, and what it does to EASes
//! and ENDs. What a guest does after one of them is decided elsewhere.
#![tactic(auto)]

mod calls;
mod checks;
mod pages;
mod queues;
mod replies;
mod reset;
mod sources;
#[cfg(test)]
mod tests;

pub use calls::call;
