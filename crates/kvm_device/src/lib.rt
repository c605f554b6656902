//! The KVM device of a board (Linux's Documentation/virt/kvm/devices/xive.rst; arch/powerpc/kvm/book3s_xive_native.c):
//! what each call answers, and what it does to EASes, ENDs and processors. What a hypervisor does after one of them is
//! decided elsewhere.
#![tactic(auto)]

mod attributes;
mod checks;
mod controls;
mod queues;
mod sources;
mod states;
#[cfg(test)]
mod tests;

pub use attributes::{get_attr, set_attr};
pub use states::{set_vp_state, vp_state};
