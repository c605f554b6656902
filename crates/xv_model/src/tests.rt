//! What the tests share: the board that they try.

mod attributes;
mod configurations;
mod flags;
mod hypercalls;
mod operations;
mod processors;
mod ranges;
mod tima;

use crate::board::{Board, Spans};
use xv_base::Limits;

/// A board with two sources, two processors and 4 MiB of memory.
pub fn small_board() -> Board {
    Board {
        limits: Limits {
            sources: 2,
            processors: 2,
            threads: 1,
            actors: 1,
        },
        ram_mib: 4,
        two_pages: true,
        store_eoi: false,
        level: Spans::NONE,
        unclaimed: Spans::NONE,
        unconnected: Spans::NONE,
    }
}
