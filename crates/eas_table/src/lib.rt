//! The EASes of a board's sources: where the notices of each go. What they are set to is decided elsewhere.
#![tactic(auto)]

mod table;
#[cfg(test)]
mod tests;

pub use table::EasTable;
pub use xv_model::eas::Eas;
