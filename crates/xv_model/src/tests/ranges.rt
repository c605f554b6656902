//! Which numbers are in ranges.

use crate::board::{Span, Spans};

#[test]
fn numbers_in_ranges(rt: HostRuntime) {
    let mut spans = [Span { first: 0, last: 0 }; 16];
    spans[0] = Span { first: 3, last: 5 };
    spans[1] = Span { first: 9, last: 9 };
    let two = Spans { count: 2, spans };
    assert!(rt; !two.has(2));
    assert!(rt; two.has(3));
    assert!(rt; two.has(4));
    assert!(rt; two.has(5));
    assert!(rt; !two.has(6));
    assert!(rt; two.has(9));
    assert!(rt; !two.has(10));
    // a span beyond the count is no range
    assert!(rt; !two.has(0));
    let one = Spans { count: 1, spans };
    assert!(rt; !one.has(9));
    assert!(rt; !Spans::NONE.has(0));
}
