//! The virtual processors of a board (POWER9's NVT): whether each is connected, where its context is, and
//! what is saved of it.
#![tactic(auto)]

#[cfg(test)]
mod tests;
mod vp;
mod vps;

pub use vp::Vp;
pub use vps::Vps;
