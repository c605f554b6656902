//! The ENDs of a board: how each is configured, its event queue, and the states that coalesce what it sends.
//! Also a guest's reader of a queue, which knows nothing of the END.
#![tactic(auto)]

mod ends;
mod places;
mod queues;
mod reader;
#[cfg(test)]
mod tests;

pub use ends::Ends;
pub use queues::QueueEntry;
pub use reader::Reader;
