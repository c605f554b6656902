//! The texts of replies with outputs.

ghost use Rattle.std.specs.Prelude.{◌≤◌};

use crate::tests::prints;
use xv_model::operations::Op;
use xv_model::outcomes::{HReply, Outcome};

/// Whether a reply with so many outputs is printed so.
fn prints_reply(code: i64, outs: u8, line: &[u8]) -> bool
    requires { outs ≤ 4 }
{
    let op = Op::Hcall {
        number: 0x3a8,
        args: [0, 5, 0, 0, 0],
    };
    let reply = HReply {
        code,
        outs,
        out: [0x6010000020000, u64::MAX, 0, 0x10],
    };
    prints(8, 1, op, Outcome::Reply { reply }, line)
}

#[test]
fn outputs_of_a_reply(rt: HostRuntime) {
    let bare = b"8 1 hcall 0x3a8 0x0 0x5 0x0 0x0 0x0 -> code 0\n";
    assert!(rt; prints_reply(0, 0, bare));
    let one = b"8 1 hcall 0x3a8 0x0 0x5 0x0 0x0 0x0 -> code 0 0x6010000020000\n";
    assert!(rt; prints_reply(0, 1, one));
    let three =
        b"8 1 hcall 0x3a8 0x0 0x5 0x0 0x0 0x0 -> code 0 0x6010000020000 0xffffffffffffffff 0x0\n";
    assert!(rt; prints_reply(0, 3, three));
    let four =
        b"8 1 hcall 0x3a8 0x0 0x5 0x0 0x0 0x0 -> code 0 0x6010000020000 0xffffffffffffffff 0x0 0x10\n";
    assert!(rt; prints_reply(0, 4, four));
    let refused = b"8 1 hcall 0x3a8 0x0 0x5 0x0 0x0 0x0 -> code -58\n";
    assert!(rt; prints_reply(-58, 0, refused));
    let least =
        b"8 1 hcall 0x3a8 0x0 0x5 0x0 0x0 0x0 -> code -9223372036854775808 0x6010000020000\n";
    assert!(rt; prints_reply(i64::MIN, 1, least));
}

/// The longest line: each number is the longest of its field.
#[test]
fn longest_line(rt: HostRuntime) {
    let op = Op::Hcall {
        number: u64::MAX,
        args: [u64::MAX; 5],
    };
    let reply = HReply {
        code: i64::MIN,
        outs: 4,
        out: [u64::MAX; 4],
    };
    let line =
        b"18446744073709551615 15 hcall 0xffffffffffffffff 0xffffffffffffffff 0xffffffffffffffff 0xffffffffffffffff 0xffffffffffffffff 0xffffffffffffffff -> code -9223372036854775808 0xffffffffffffffff 0xffffffffffffffff 0xffffffffffffffff 0xffffffffffffffff\n";
    assert!(rt; prints(u64::MAX, 15, op, Outcome::Reply { reply }, line));
    assert_eq!(rt; line.len(), 249);
}
