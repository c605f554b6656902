//! EASes at the ends of their ranges, and their neighbours.

ghost use Rattle.std.specs.Prelude.{◌≡◌, IfOk, length};

use crate::{Eas, EasTable};
use std::alloc::Global;
use std::process::Abort;
use std::test::Fail;
use xv_base::{Limits, NoMemory};
use xv_model::board::{Board, Span, Spans};

/// The EASes of a board of which these sources are unclaimed.
fn eases(alloc: Global, sources: u32, unclaimed: Span) -> Result<EasTable, NoMemory>
    ensures { IfOk result (λ t. length t ≡ sources) }
{
    let mut spans = Spans::NONE;
    spans.count = 1;
    spans.spans[0] = unclaimed;
    let limits = Limits {
        sources,
        processors: 1,
        threads: 1,
        actors: 1,
    };
    let board = Board {
        limits,
        ram_mib: 0,
        two_pages: true,
        store_eoi: false,
        level: Spans::NONE,
        unclaimed: spans,
        unconnected: Spans::NONE,
    };
    EasTable::build(alloc, &board)
}

/// What an EAS has: whether it is valid, whether it is masked, its END and its EISN.
fn show(eas: Eas) -> (bool, bool, u32, u32) {
    (eas.valid, eas.masked, eas.end, eas.eisn)
}

#[test]
fn eases_at_the_start(rt: HostRuntime) -> Result<(), Fail> {
    let eases = eases(
        rt.alloc(),
        8192,
        Span {
            first: 1,
            last: 8190,
        },
    )?;
    for (s, claimed) in [(0, true), (1, false), (8190, false), (8191, true)] {
        assert_eq!(rt; show(eases.get(s)), (claimed, claimed, 0, 0), "source {s}");
    }
    Ok(())
}

#[test]
fn eases_that_are_set(rt: HostRuntime) -> Result<(), Fail> {
    let mut eases = eases(rt.alloc(), 3, Span { first: 2, last: 2 })?;
    let last = Eas {
        valid: true,
        masked: false,
        end: u16::MAX as u32,
        eisn: (1 << 31) - 1,
    };
    eases.set(1, last);
    assert_eq!(rt; show(eases.get(0)), (true, true, 0, 0));
    assert_eq!(rt; show(eases.get(1)), (true, false, 0xffff, 0x7fff_ffff));
    assert_eq!(rt; show(eases.get(2)), (false, false, 0, 0));
    eases.mask(1);
    eases.mask(2);
    assert_eq!(rt; show(eases.get(1)), (true, true, 0xffff, 0x7fff_ffff));
    assert_eq!(rt; show(eases.get(2)), (false, true, 0, 0));
    eases.clear(1);
    eases.clear(2);
    assert_eq!(rt; show(eases.get(1)), (true, true, 0, 0));
    assert_eq!(rt; show(eases.get(2)), (true, true, 0, 0));
    Ok(())
}
