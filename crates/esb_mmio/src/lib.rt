//! Accesses to the pages of a source: which operation on the source's word a load or a store is. What the
//! operation does there is said by the PQ table.
#![tactic(auto)]

mod pages;
#[cfg(test)]
mod tests;

pub use pages::{BadOffset, EsbOp, SourceKind, decode, load};
