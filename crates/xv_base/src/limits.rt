//! How many of each thing a board has, and the bounds of every board, script and account.

/// The most sources of a board.
pub const MOST_SOURCES: u32 = 8192;

/// The most processors of a board.
pub const MOST_PROCESSORS: u32 = 64;

/// The most threads of a board.
pub const MOST_THREADS: u32 = 32;

/// The most actors of a board.
pub const MOST_ACTORS: u32 = 16;

/// The most RAM of a board, in MiB.
pub const MOST_RAM_MIB: u32 = 64;

/// How many ENDs a processor has: one for each of the priorities 0 to 7.
pub const ENDS_PER_PROCESSOR: u32 = 8;

/// The most ranges of one kind that a board names.
pub const MOST_RANGES: u32 = 16;

/// The most messages that are in flight at once.
pub const MOST_MESSAGES: usize = 4096;

/// The most bytes of a line, without its newline.
pub const LONGEST_LINE: usize = 256;

/// This many bytes of lines, with their newlines, are too many: input has to be shorter.
pub const BYTE_LIMIT: u64 = 16_777_216;

/// The most forwards of a source: 2^61 - 1.
pub const MOST_FORWARDS: u64 = (1 << 61) - 1;

/// The most entries of an account: 2^62 - 1.
pub const MOST_ENTRIES: u64 = (1 << 62) - 1;

/// How many sources, processors, threads and actors a board has. Their numbers begin at 0.
#[derive(Clone, Copy, Debug, PartialEq, Eq)]
pub struct Limits {
    pub sources: u32,
    pub processors: u32,
    pub threads: u32,
    pub actors: u32,
}
