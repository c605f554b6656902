//! Spellings of words and numbers, and where a line is refused.

use crate::stage::Stage;
use crate::tests::{after_header, assert_places, place_at};

#[test]
fn reads_and_refuses_spellings(rt: HostRuntime) {
    let lines = [
        (b"  0x0F   trigger 0X1fFF ".as_slice(), true),
        (b"00000000000000000015 eoi 0x0000000000000000", true),
        (b"0 get 8191", true),
        (b"0 set 0 11", true),
        (b"   ", true),
        (b" #15 eoi", true),
        (b"16 get 0", false),
        (b"0 get 8192", false),
        (b"0 get 18446744073709551616", false),
        (b"0 get 0x00000000000000000", false),
        (b"0 get 000000000000000000000", false),
        (b"0 get 0x", false),
        (b"0 get 1a", false),
        (b"0\tget 0", false),
        (b"# a\ttab", false),
        (b"0 get 0 0", false),
        (b"0 get", false),
        (b"0 set 0 2", false),
        (b"0 set 0 011", false),
        (b"0 Get 0", false),
        (b"end 0", false),
        (b"start", true),
        (b"start 0", false),
        (b"go", false),
    ];
    for (line, good) in lines {
        let mut parser = after_header(&rt);
        assert_eq!(rt; parser.feed(line).is_ok(), good);
    }
    assert!(rt; after_header(&rt).feed(&[b' '; 256]).is_ok());
    assert!(rt; after_header(&rt).feed(&[b' '; 257]).is_err());
}

#[test]
fn names_the_place_of_a_refusal(rt: HostRuntime) {
    let lines = [
        (b"0 get 0".as_slice(), 0),
        (b"  16 get 0", 3),
        (b"0  got 0", 4),
        (b"0 get 8192", 7),
        (b"0 get  ", 8),
        (b"0 get 0  1 2", 10),
        (b"0 set 0 2", 9),
        (b"0 endset 0 - 0 1 0 0 0 0", 3),
        (b"0 endset 0 vv 0 0 0 0 0 0", 12),
        (b"0 hcall 0 0 0 0 0 0", 0),
        (b"0 hcall 0 0 0 0 0 0 0", 21),
        (b"end 0", 5),
        (b"0 get\t0", 6),
    ];
    assert_places(&rt, &lines);
    let parser = after_header(&rt);
    assert_eq!(rt; place_at(Stage::Work, parser.board(), &[b'\t'; 300]), 257);
}
