//! Where the notices of sources go: EASes, ENDs whose queues lie in the memory that is handed in, and
//! the messages in flight.
#![tactic(auto)]

mod configuring;
mod escalating;
mod pages;
mod passes;
mod presenting;
mod quiet;
mod reading;
mod routing;
pub mod tables;
#[cfg(test)]
mod tests;
