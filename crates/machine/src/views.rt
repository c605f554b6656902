//! What a machine shows of its parts.

/// What a machine shows of a source.
#[derive(Clone, Copy)]
pub struct SourceView {
    /// The pair: 00 is 0, 01 is 1, 10 is 2, 11 is 3.
    pub pq: u8,
    /// Whether the line of a level source is up.
    pub asserted: bool,
    /// How often it forwarded.
    pub forwards: u64,
    /// How many of its notices were routed. The others are outstanding.
    pub routes: u64,
}
