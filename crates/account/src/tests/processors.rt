//! Takes, moves and accesses to the TIMA.

ghost use Rattle.std.specs.Prelude.{IsTrue};
ghost use Rattle.account.specs.text.Operations.{has_text};
ghost use Rattle.xv_model.specs.account.Outcomes.{IsWellFormed};

use crate::tests::prints;
use xv_model::operations::{Access, Op};
use xv_model::outcomes::{MoveRefused, Outcome, Phase, Presented};

/// A load from the TIMA.
fn load(t: u32, page: u8, offset: u16, size: u8) -> Op
    ensures { IsTrue (has_text result) }
{
    Op::Tima {
        t,
        page,
        offset,
        size,
        access: Access::Load,
    }
}

/// A store to the TIMA.
fn store(t: u32, page: u8, offset: u16, size: u8, value: u64) -> Op
    ensures { IsTrue (has_text result) }
{
    Op::Tima {
        t,
        page,
        offset,
        size,
        access: Access::Store { value },
    }
}

/// Whether an entry of actor 0 is printed so.
fn says(index: u64, op: Op, outcome: Outcome, line: &[u8]) -> bool
    requires op { IsTrue (has_text op) }
    requires outcome { IsWellFormed outcome }
{
    prints(index, 0, op, outcome, line)
}

fn refused(why: MoveRefused) -> Outcome
    ensures { IsWellFormed result }
{
    Outcome::Refused { why }
}

fn value(value: u64) -> Outcome
    ensures { IsWellFormed result }
{
    Outcome::Value { value }
}

/// What a presentation of a priority to a processor answers.
fn presented(v: u32, p: u8, presented: Presented, escalates: bool) -> Outcome
    ensures { IsWellFormed result }
{
    Outcome::Present {
        v,
        p,
        presented,
        escalates,
    }
}

#[test]
fn moves(rt: HostRuntime) {
    let restore = Op::Restore { v: 0, t: 0 };
    assert!(rt; says(0, restore, Outcome::Fine, b"0 0 restore 0 0 -> ok\n"));
    let push = store(0, 1, 0x18, 4, 0x80000400);
    assert!(rt;
        says(
            1,
            push,
            Outcome::Fine,
            b"1 0 tstore 0 1 0x18 4 0x80000400 -> ok\n"
        )
    );
    let pull = load(0, 1, 0x818, 4);
    assert!(rt;
        says(
            2,
            pull,
            value(0x80000400),
            b"2 0 tload 0 1 0x818 4 -> value 0x80000400\n"
        )
    );
    let save = Op::Save { v: 0 };
    assert!(rt; says(12, save, Outcome::Fine, b"12 0 save 0 -> ok\n"));
}

#[test]
fn moves_that_are_refused(rt: HostRuntime) {
    let pulled = Phase::Pulled { t: 0 };
    let busy = refused(MoveRefused::VpBusy { phase: pulled });
    let op = Op::Restore { v: 0, t: 1 };
    assert!(rt;
        says(
            3,
            op,
            busy,
            b"3 0 restore 0 1 -> refused vp-busy pulled 0\n"
        )
    );
    let elsewhere = refused(MoveRefused::NotRestored { phase: pulled });
    let line = b"4 0 tstore 1 1 0x18 4 0x80000400 -> refused not-restored pulled 0\n";
    assert!(rt; says(4, store(1, 1, 0x18, 4, 0x80000400), elsewhere, line));
    let unknown = refused(MoveRefused::NotValid);
    let line = b"5 0 tstore 1 1 0x18 4 0x80000401 -> refused not-valid\n";
    assert!(rt; says(5, store(1, 1, 0x18, 4, 0x80000401), unknown, line));
    let nobody = refused(MoveRefused::NoContext);
    let pull = load(0, 1, 0x818, 4);
    assert!(rt;
        says(
            6,
            pull,
            nobody,
            b"6 0 tload 0 1 0x818 4 -> refused no-context\n"
        )
    );
    let used = refused(MoveRefused::RingBusy { vp: 0 });
    let op = Op::Restore { v: 1, t: 0 };
    assert!(rt; says(9, op, used, b"9 0 restore 1 0 -> refused ring-busy 0\n"));
    let saved = refused(MoveRefused::NotPulled {
        phase: Phase::Saved,
    });
    let op = Op::Save { v: 1 };
    assert!(rt; says(10, op, saved, b"10 0 save 1 -> refused not-pulled saved\n"));
}

/// Whether a restore of a processor that is busy is printed so.
fn says_busy(phase: Phase, line: &[u8]) -> bool {
    says(
        7,
        Op::Restore { v: 63, t: 31 },
        refused(MoveRefused::VpBusy { phase }),
        line,
    )
}

#[test]
fn phases(rt: HostRuntime) {
    let line = b"7 0 restore 63 31 -> refused vp-busy saved\n";
    assert!(rt; says_busy(Phase::Saved, line));
    let line = b"7 0 restore 63 31 -> refused vp-busy restored 1\n";
    assert!(rt; says_busy(Phase::Restored { t: 1 }, line));
    let line = b"7 0 restore 63 31 -> refused vp-busy on 12\n";
    assert!(rt; says_busy(Phase::On { t: 12 }, line));
    let line = b"7 0 restore 63 31 -> refused vp-busy pulled 31\n";
    assert!(rt; says_busy(Phase::Pulled { t: 31 }, line));
}

#[test]
fn connections(rt: HostRuntime) {
    let connect = Op::Connect { v: 1 };
    assert!(rt;
        says(
            8,
            connect,
            Outcome::Code { code: 0 },
            b"8 0 connect 1 -> code 0\n"
        )
    );
    let last = Op::Connect { v: 63 };
    assert!(rt;
        says(
            9,
            last,
            Outcome::Code { code: -22 },
            b"9 0 connect 63 -> code -22\n"
        )
    );
    let least = Outcome::Code { code: -2147483648 };
    assert!(rt; says(9, last, least, b"9 0 connect 63 -> code -2147483648\n"));
}

/// Whether a take of message 0 is printed so.
fn says_take(index: u64, outcome: Outcome, line: &[u8]) -> bool
    requires { IsWellFormed outcome }
{
    says(index, Op::Take { i: 0 }, outcome, line)
}

#[test]
fn takes(rt: HostRuntime) {
    let kept = presented(0, 0, Presented::Backlogged, false);
    assert!(rt; says_take(17, kept, b"17 0 take 0 -> present 0 0 backlogged\n"));
    assert!(rt; says_take(18, Outcome::NoMessage, b"18 0 take 0 -> no-message\n"));
    let kept = presented(0, 1, Presented::Backlogged, false);
    assert!(rt; says_take(22, kept, b"22 0 take 0 -> present 0 1 backlogged\n"));
    let kept = presented(0, 2, Presented::Backlogged, false);
    assert!(rt; says_take(27, kept, b"27 0 take 0 -> present 0 2 backlogged\n"));
    let found = presented(0, 3, Presented::Found, false);
    assert!(rt; says_take(32, found, b"32 0 take 0 -> present 0 3 found\n"));
    let lost = presented(0, 2, Presented::Lost, true);
    assert!(rt; says_take(33, lost, b"33 0 take 0 -> present 0 2 lost escalate\n"));
    let kept = presented(0, 4, Presented::Backlogged, true);
    assert!(rt;
        says_take(
            34,
            kept,
            b"34 0 take 0 -> present 0 4 backlogged escalate\n"
        )
    );
    let nobody = presented(63, 7, Presented::NoProcessor, false);
    assert!(rt; says_take(35, nobody, b"35 0 take 0 -> present 63 7 no-processor\n"));
    let last = Op::Take { i: 4294967295 };
    assert!(rt;
        says(
            36,
            last,
            Outcome::NoMessage,
            b"36 0 take 4294967295 -> no-message\n"
        )
    );
}

#[test]
fn acknowledgements(rt: HostRuntime) {
    let mask = store(0, 2, 0x11, 1, 4);
    assert!(rt;
        says(
            2,
            mask,
            Outcome::Stored,
            b"2 0 tstore 0 2 0x11 1 0x4 -> stored\n"
        )
    );
    let inject = store(0, 2, 0x812, 1, 6);
    assert!(rt;
        says(
            3,
            inject,
            Outcome::Stored,
            b"3 0 tstore 0 2 0x812 1 0x6 -> stored\n"
        )
    );
    let inject = store(0, 2, 0x812, 1, 2);
    assert!(rt;
        says(
            4,
            inject,
            Outcome::Stored,
            b"4 0 tstore 0 2 0x812 1 0x2 -> stored\n"
        )
    );
    let inject = store(0, 2, 0x812, 1, 5);
    assert!(rt;
        says(
            6,
            inject,
            Outcome::Stored,
            b"6 0 tstore 0 2 0x812 1 0x5 -> stored\n"
        )
    );
    let ack = load(0, 2, 0x810, 2);
    assert!(rt;
        says(
            7,
            ack,
            value(0x8002),
            b"7 0 tload 0 2 0x810 2 -> value 0x8002\n"
        )
    );
    assert!(rt; says(8, ack, value(0x2), b"8 0 tload 0 2 0x810 2 -> value 0x2\n"));
    let open = store(0, 2, 0x11, 1, 0xff);
    assert!(rt;
        says(
            9,
            open,
            Outcome::Stored,
            b"9 0 tstore 0 2 0x11 1 0xff -> stored\n"
        )
    );
    assert!(rt;
        says(
            10,
            ack,
            value(0x8005),
            b"10 0 tload 0 2 0x810 2 -> value 0x8005\n"
        )
    );
    assert!(rt;
        says(
            11,
            ack,
            value(0x5),
            b"11 0 tload 0 2 0x810 2 -> value 0x5\n"
        )
    );
}

#[test]
fn registers(rt: HostRuntime) {
    let load_all = load(0, 2, 0x10, 8);
    let line = b"4 0 tload 0 2 0x10 8 -> value 0x800710ffff00ff03\n";
    assert!(rt; says(4, load_all, value(0x800710ffff00ff03), line));
    let line = b"6 0 tload 0 2 0x10 8 -> value 0x210ffff00ff03\n";
    assert!(rt; says(6, load_all, value(0x210ffff00ff03), line));
    let line = b"34 0 tload 0 2 0x10 8 -> value 0xf0ffff00ff00\n";
    assert!(rt; says(34, load_all, value(0xf0ffff00ff00), line));
    let bad = load(0, 3, 0x10, 1);
    assert!(rt;
        says(
            13,
            bad,
            Outcome::BadAccess,
            b"13 0 tload 0 3 0x10 1 -> bad-access\n"
        )
    );
}

#[test]
fn the_longest_ones(rt: HostRuntime) {
    let op = store(4294967295, 255, 0xffff, 255, 0xffffffffffffffff);
    let phase = Phase::Restored { t: 4294967295 };
    assert!(rt;
        prints(
            18446744073709551615,
            4294967295,
            op,
            refused(MoveRefused::NotRestored { phase }),
            b"18446744073709551615 4294967295 tstore 4294967295 255 0xffff 255 0xffffffffffffffff -> refused not-restored restored 4294967295\n"
        )
    );
    let op = Op::Restore {
        v: 4294967295,
        t: 4294967295,
    };
    assert!(rt;
        says(
            0,
            op,
            presented(4294967295, 255, Presented::NoProcessor, true),
            b"0 0 restore 4294967295 4294967295 -> present 4294967295 255 no-processor escalate\n"
        )
    );
}
