//! Sizes, places and pages at the ends of their ranges. The calls that are accepted are tested where they stand in a
//! fabric.

mod refusals;

ghost use Rattle.std.specs.Prelude.{◌+◌, IsTrue};
ghost use Rattle.xv_model.specs.board.Boards.{AreBelow};
ghost use Rattle.xv_model.specs.board.Validity.{is_queue_shift};

use crate::checks::is_priority;
use crate::pages::{end_address, management_page, source_flags, trigger_page};
use crate::queues::{is_queue, is_queue_size};
use guest_ram::Ram;
use std::process::Abort;
use std::test::Fail;
use xv_base::Limits;
use xv_model::board::{Board, Span, Spans};

/// One number.
pub fn only(n: u32) -> Spans
    ensures { AreBelow result (n + 1) }
{
    let mut spans = [Span { first: 0, last: 0 }; 16];
    spans[0] = Span { first: n, last: n };
    Spans { count: 1, spans }
}

/// A board of 8,192 sources with so many pages, of which source 1 is a level source.
fn board(two_pages: bool, store_eoi: bool) -> Board {
    Board {
        limits: Limits {
            sources: 8192,
            processors: 64,
            threads: 1,
            actors: 1,
        },
        ram_mib: 1,
        two_pages,
        store_eoi,
        level: only(1),
        unclaimed: Spans::NONE,
        unconnected: Spans::NONE,
    }
}

#[test]
fn pages_of_sources_and_ends(rt: HostRuntime) {
    let shown = |board: &Board, s: u32| {
        (
            source_flags(board, s),
            management_page(board, s),
            trigger_page(board, s),
        )
    };
    let two = board(true, true);
    assert_eq!(rt; shown(&two, 0), (1, 0x6010000010000, 0x6010000000000));
    assert_eq!(rt; shown(&two, 1), (13, u64::MAX, u64::MAX));
    assert_eq!(rt; shown(&two, 8191), (1, 0x601003fff0000, 0x601003ffe0000));
    let one = board(false, false);
    assert_eq!(rt; shown(&one, 0), (2, 0x6010000000000, u64::MAX));
    assert_eq!(rt; shown(&one, 1), (14, u64::MAX, u64::MAX));
    assert_eq!(rt; end_address(0), 0x6020000000000);
    assert_eq!(rt; end_address(510), 0x6020003fc0000);
}

#[test]
fn queues_in_memory(rt: HostRuntime) -> Result<(), Fail> {
    let ram = Ram::new(rt.alloc(), 1 << 24)?;
    for (address, size, fits) in [
        (0, 24, true),
        (0xf0_0000, 21, false),
        (0xe0_0000, 21, true),
        (0xff_0000, 16, true),
        (0xff_f000, 12, true),
        (0x100_0000, 12, false),
        (0x800, 12, false),
        (u64::MAX - 0xfff, 12, false),
    ] {
        assert!(rt; is_queue_size(size));
        assert_eq!(rt; is_queue(&ram, address, size), fits, "{address}");
    }
    for size in [0, 11, 13, 25, 1 << 32] {
        assert!(rt; !is_queue_size(size));
    }
    assert!(rt; is_priority(6));
    assert!(rt; !is_priority(7));
    assert!(rt; !is_priority(1 << 32));
    Ok(())
}
