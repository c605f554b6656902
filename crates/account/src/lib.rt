//! The texts of an account: each function appends one to a text of the caller's.
#![tactic(auto)]

pub mod entry;
pub mod header;
pub mod numbers;
pub mod operations;
pub mod outcomes;
pub mod refusal;
pub mod report;
#[cfg(test)]
mod tests;

/// The room that the line of an entry wants, in bytes.
pub const LONGEST_ENTRY: usize = 258;

/// The room that a header wants, in bytes.
pub const LONGEST_HEADER: usize = 2048;

/// The room that a line of the report wants, in bytes.
pub const LONGEST_REPORT_LINE: usize = 128;

/// The longest name of a cause that a refusal may show, in bytes.
pub const LONGEST_CAUSE: usize = 32;
