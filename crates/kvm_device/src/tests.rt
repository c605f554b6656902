//! Calls to the KVM device, one by one: each error, and what each accepted one sets.

mod device;
mod effects;
mod refusals;
mod states;
