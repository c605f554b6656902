//! A board: how many of each thing it has, and of which kind.

ghost use Rattle.std.specs.Prelude.{◌≡◌};
ghost use Rattle.xv_model.specs.board.Boards.{is_in, is_level, source_pages};

use xv_base::Limits;
use xv_base::limits::MOST_RANGES;

/// The numbers from `first` to `last`, both among them; `first` is at most `last`.
#[derive(Clone, Copy)]
pub struct Span {
    pub first: u32,
    pub last: u32,
}

/// Some numbers: those in the first `count` ranges, which are at most [`MOST_RANGES`]. The spans beyond are 0 and 0.
#[derive(Clone, Copy)]
pub struct Spans {
    pub count: u8,
    pub spans: [Span; MOST_RANGES as usize],
}

impl Spans {
    /// No numbers.
    pub const NONE: Spans = Spans {
        count: 0,
        spans: [Span { first: 0, last: 0 }; MOST_RANGES as usize],
    };

    /// Whether a number is in one of the ranges.
    pub fn has(&self, n: u32) -> bool
        ensures { result ≡ is_in self.now n }
    {
        self.spans
            .iter()
            .take(self.count as usize)
            .any(|span| span.first <= n && n <= span.last)
    }
}

/// A board: 1 to 8,192 sources, 1 to 64 processors, 1 to 32 threads, 1 to 16 actors.
#[derive(Clone, Copy)]
pub struct Board {
    pub limits: Limits,
    /// The size of memory in MiB, at most 64.
    pub ram_mib: u32,
    /// Each source has a trigger page and a management page, and not one page for both.
    pub two_pages: bool,
    /// A store at the second quarter of a management page is an EOI.
    pub store_eoi: bool,
    /// The level sources; all others are message sources.
    pub level: Spans,
    /// The sources that start without a valid EAS.
    pub unclaimed: Spans,
    /// The processors that start unconnected.
    pub unconnected: Spans,
}

impl Board {
    /// Whether a source is a level source.
    pub fn is_level(&self, s: u32) -> bool
        ensures { result ≡ is_level self.now s }
    {
        self.level.has(s)
    }

    /// How many pages a source has.
    pub fn source_pages(&self) -> u8
        ensures { result ≡ source_pages self.now }
    {
        if self.two_pages { 2 } else { 1 }
    }
}
