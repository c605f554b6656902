//! Board scripts: what each line of one says. Nothing here runs a board.
#![tactic(auto)]

mod attributes;
mod calling;
mod configuring;
mod ends;
pub mod faults;
mod first_words;
mod flags;
mod header;
pub mod laws;
pub mod lines;
mod memory;
pub mod migrating;
mod numbers;
mod pages;
pub mod parser;
mod processors;
mod resetting;
mod sources;
pub mod stage;
pub mod steps;
#[cfg(test)]
mod tests;
mod words;
pub mod work;
mod working;
