//! A machine: the state of a whole board, which makes one legal entry a step.
//!
//! A machine needs neither a script nor a printer. It is built of a board, is given one operation after
//! another, and answers each with the entry that this adds to the account. The account itself is kept
//! nowhere: the contracts say, of each account that a machine represents, what a step answers, and that
//! the machine then represents the account with that entry. Its owner asks `xv_model::validity::valid`
//! whether the board has an operation, and may ask a machine for any of its parts between two steps.
#![tactic(auto)]

mod accessing;
mod answering;
mod known;
mod levels;
mod machine;
mod pairs;
#[cfg(test)]
mod tests;
mod views;

pub use machine::Machine;
pub use views::SourceView;
