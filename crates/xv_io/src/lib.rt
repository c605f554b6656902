//! Sources and sinks of bytes, a reader of lines and a writer that gathers.
#![tactic(auto)]

mod failed;
mod memory;
mod reader;
mod sink;
mod source;
mod standard;
mod writer;

pub use failed::Failed;
pub use memory::{MemSink, MemSource};
pub use reader::{LineReader, Next};
pub use sink::{Sink, write_whole};
pub use source::Source;
pub use standard::{StdSink, StdSource};
pub use writer::{LONGEST_PUT, PIECE, ROOM, Writer};

#[cfg(test)]
mod tests;
