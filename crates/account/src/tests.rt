//! Each text that is built, against bytes that are written out by hand.

ghost use Rattle.std.specs.Prelude.{ℕ, ◌<◌, ◌≤◌, IsTrue};
ghost use Rattle.xv_model.specs.board.Boards.{AreBelow, IsBoard};
ghost use Rattle.account.specs.text.Operations.{has_text};
ghost use Rattle.xv_model.specs.account.Outcomes.{IsWellFormed};

mod device;
mod escalations;
mod processors;
mod replies;

use crate::entry::add_entry;
use crate::header::add_header;
use crate::refusal::{add_refusal, add_too_long};
use crate::report::{
    add_done, add_end, add_flight, add_notices, add_processor, add_queue, add_ring, add_source,
};
use arrayvec::ArrayVec;
use bitflags::Flags;
use xv_base::Limits;
use xv_model::board::{Board, Span, Spans};
use xv_model::operations::{EndConfig, EndFlags, Op, PqOp};
use xv_model::outcomes::{EndRun, HReply, Outcome, Phase, Routed, Then, Wrote};

type Text = ArrayVec<u8, 4096>;

/// Whether an entry is printed so.
pub fn prints(index: u64, actor: u32, op: Op, outcome: Outcome, line: &[u8]) -> bool
    requires op { IsTrue (has_text op) }
    requires outcome { IsWellFormed outcome }
{
    let mut text = Text::new();
    add_entry(&mut text, index, actor, &op, &outcome);
    text.as_slice() == line
}

/// The pairs before and after, and the number of a forward.
fn pairs(old: u8, new: u8, forward: u64) -> Outcome
    requires old { old < 4 }
    requires new { new < 4 }
    ensures { IsWellFormed result }
{
    Outcome::Pq { old, new, forward }
}

/// A pass that writes nothing.
fn unwritten(then: Then) -> Outcome
    ensures { IsWellFormed result }
{
    let run = EndRun::Ran {
        e: 0,
        wrote: None,
        then,
    };
    Outcome::Routed {
        k: 1,
        routed: Routed::Run { run },
    }
}

#[test]
fn pairs_of_a_source(rt: HostRuntime) {
    let forwarded = Outcome::Pq {
        old: 0,
        new: 2,
        forward: 12345678901234567890,
    };
    let quiet = Outcome::Pq {
        old: 3,
        new: 1,
        forward: 0,
    };
    assert!(rt;
        prints(
            0,
            15,
            Op::Pq {
                s: 8191,
                op: PqOp::Trigger
            },
            forwarded,
            b"0 15 trigger 8191 -> 00 10 forward 12345678901234567890\n"
        )
    );
    assert!(rt;
        prints(
            9,
            0,
            Op::Pq {
                s: 8191,
                op: PqOp::Eoi
            },
            quiet,
            b"9 0 eoi 8191 -> 11 01\n"
        )
    );
    assert!(rt;
        prints(
            10,
            1,
            Op::Pq {
                s: 8191,
                op: PqOp::Get
            },
            Outcome::Pq {
                old: 2,
                new: 2,
                forward: 0
            },
            b"10 1 get 8191 -> 10 10\n"
        )
    );
    assert!(rt;
        prints(
            99,
            2,
            Op::Pq {
                s: 8191,
                op: PqOp::Set { pq: 1 }
            },
            Outcome::Pq {
                old: 0,
                new: 1,
                forward: 0
            },
            b"99 2 set 8191 01 -> 00 01\n"
        )
    );
    assert!(rt;
        prints(
            100,
            2,
            Op::Pq {
                s: 7,
                op: PqOp::Trigger
            },
            Outcome::Spent,
            b"100 2 trigger 7 -> spent\n"
        )
    );
}

#[test]
fn lines_of_level_sources(rt: HostRuntime) {
    let s = 0;
    let up = Op::Pq { s, op: PqOp::Raise };
    let down = Op::Pq { s, op: PqOp::Lower };
    assert!(rt;
        prints(
            1,
            0,
            up,
            pairs(0, 2, 1),
            b"1 0 raise 0 -> 00 10 forward 1\n"
        )
    );
    assert!(rt; prints(2, 1, down, pairs(2, 2, 0), b"2 1 lower 0 -> 10 10\n"));
    let asserted = Op::Pq {
        s,
        op: PqOp::Init { asserted: true },
    };
    let idle = Op::Pq {
        s: 8191,
        op: PqOp::Init { asserted: false },
    };
    assert!(rt; prints(3, 0, asserted, pairs(3, 1, 0), b"3 0 init 0 1 -> 11 01\n"));
    assert!(rt; prints(4, 0, idle, pairs(1, 1, 0), b"4 0 init 8191 0 -> 01 01\n"));
}

/// An access to a page of source 0.
fn source_access(page: u8, offset: u16, store: bool) -> Op
    ensures { IsTrue (has_text result) }
{
    Op::Esb {
        s: 0,
        page,
        offset,
        store,
    }
}

#[test]
fn accesses_to_pages_of_sources(rt: HostRuntime) {
    let op = source_access(0, 0x123, true);
    assert!(rt; prints(0, 0, op, pairs(1, 1, 0), b"0 0 store 0 0 0x123 -> 01 01\n"));
    let op = source_access(0, 0, false);
    assert!(rt; prints(1, 0, op, Outcome::Ones, b"1 0 load 0 0 0x0 -> ones\n"));
    let op = source_access(1, 0x7ff, false);
    assert!(rt;
        prints(
            6,
            0,
            op,
            pairs(3, 2, 1),
            b"6 0 load 0 1 0x7ff -> 11 10 forward 1\n"
        )
    );
    let op = source_access(1, 0x400, true);
    assert!(rt;
        prints(
            5,
            0,
            op,
            Outcome::BadOffset,
            b"5 0 store 0 1 0x400 -> bad-offset\n"
        )
    );
    let op = source_access(0, 0xffff, true);
    assert!(rt; prints(9, 0, op, Outcome::Spent, b"9 0 store 0 0 0xffff -> spent\n"));
}

/// A load at a page of an END.
fn end_load(e: u32, page: u8, offset: u16) -> Op
    ensures { IsTrue (has_text result) }
{
    Op::EndEsb {
        e,
        page,
        offset,
        store: false,
    }
}

#[test]
fn accesses_to_pages_of_ends(rt: HostRuntime) {
    let op = end_load(0, 0, 0);
    let loaded = Outcome::EndPq { old: 3, new: 2 };
    assert!(rt; prints(0, 0, op, loaded, b"0 0 endload 0 0 0x0 -> 11 10\n"));
    let op = end_load(511, 1, 0xd00);
    let loaded = Outcome::EndPq { old: 0, new: 1 };
    assert!(rt; prints(1, 0, op, loaded, b"1 0 endload 511 1 0xd00 -> 00 01\n"));
    let op = end_load(1, 0, 0x10);
    assert!(rt;
        prints(
            2,
            0,
            op,
            Outcome::NoEnd,
            b"2 0 endload 1 0 0x10 -> no-end\n"
        )
    );
    let op = Op::EndEsb {
        e: 0,
        page: 0,
        offset: 0,
        store: true,
    };
    assert!(rt;
        prints(
            3,
            0,
            op,
            Outcome::BadOffset,
            b"3 0 endstore 0 0 0x0 -> bad-offset\n"
        )
    );
}

#[test]
fn routes(rt: HostRuntime) {
    let route = Op::Route { s: 40 };
    assert!(rt;
        prints(
            9999,
            3,
            route,
            Outcome::NoNotice,
            b"9999 3 route 40 -> no-notice\n"
        )
    );
    assert!(rt;
        prints(
            10000,
            3,
            route,
            Outcome::BusFull,
            b"10000 3 route 40 -> bus-full\n"
        )
    );
    assert!(rt;
        prints(
            99999999,
            3,
            route,
            Outcome::Routed {
                k: 1,
                routed: Routed::NoSource
            },
            b"99999999 3 route 40 -> 1 no-source\n"
        )
    );
    assert!(rt;
        prints(
            100000000,
            3,
            route,
            Outcome::Routed {
                k: 2,
                routed: Routed::Masked
            },
            b"100000000 3 route 40 -> 2 masked\n"
        )
    );
    let run = EndRun::NoEnd { e: 511 };
    assert!(rt;
        prints(
            1000001,
            3,
            route,
            Outcome::Routed {
                k: 3,
                routed: Routed::Run { run }
            },
            b"1000001 3 route 40 -> 3 end 511 no-end\n"
        )
    );
    let wrote = Some(Wrote {
        addr: 0x10ffc,
        word: 0x8000002a,
    });
    let run = EndRun::Ran {
        e: 6,
        wrote,
        then: Then::Present,
    };
    assert!(rt;
        prints(
            20304,
            3,
            route,
            Outcome::Routed {
                k: 4,
                routed: Routed::Run { run }
            },
            b"20304 3 route 40 -> 4 end 6 wrote 0x10ffc 0x8000002a present\n"
        )
    );
}

#[test]
fn passes_that_write_nothing(rt: HostRuntime) {
    assert!(rt;
        prints(
            1,
            0,
            Op::Route { s: 0 },
            unwritten(Then::Coalesced),
            b"1 0 route 0 -> 1 end 0 unwritten coalesced\n"
        )
    );
    assert!(rt;
        prints(
            1,
            0,
            Op::Route { s: 0 },
            unwritten(Then::Silent),
            b"1 0 route 0 -> 1 end 0 unwritten silent\n"
        )
    );
    assert!(rt;
        prints(
            1,
            0,
            Op::Route { s: 0 },
            unwritten(Then::Escalate),
            b"1 0 route 0 -> 1 end 0 unwritten escalate\n"
        )
    );
}

#[test]
fn configurations(rt: HostRuntime) {
    let flags = EndFlags::from_bits_retain(127);
    let config = EndConfig {
        flags,
        vp: 63,
        priority: 6,
        qaddr: 0x200000,
        qshift: 16,
        start: 0,
        esc: 7,
        esc_eisn: 0x7fffffff,
    };
    assert!(rt;
        prints(
            5,
            1,
            Op::EndSet { e: 510, config },
            Outcome::Fine,
            b"5 1 endset 510 vqnbeus 63 6 0x200000 16 7 0x7fffffff -> ok\n"
        )
    );
    assert!(rt;
        prints(
            6,
            1,
            Op::EndSet {
                e: 0,
                config: EndConfig::OFF
            },
            Outcome::Fine,
            b"6 1 endset 0 - 0 0 0x0 0 0 0x0 -> ok\n"
        )
    );
    let args = [0x2, 0x1f, 0x10, 0xff, 0xffffffffffffffff];
    let reply = HReply {
        code: -55,
        outs: 0,
        out: [0; 4],
    };
    assert!(rt;
        prints(
            7,
            1,
            Op::Hcall {
                number: 0x3ac,
                args
            },
            Outcome::Reply { reply },
            b"7 1 hcall 0x3ac 0x2 0x1f 0x10 0xff 0xffffffffffffffff -> code -55\n"
        )
    );
    let reply = HReply {
        code: 0,
        outs: 0,
        out: [0; 4],
    };
    assert!(rt;
        prints(
            8,
            1,
            Op::Hcall {
                number: 0x3ac,
                args: [0; 5]
            },
            Outcome::Reply { reply },
            b"8 1 hcall 0x3ac 0x0 0x0 0x0 0x0 0x0 -> code 0\n"
        )
    );
}

/// What a read that finds an entry answers.
fn item(payload: u32) -> Outcome
    ensures { IsWellFormed result }
{
    Outcome::Item { payload }
}

#[test]
fn reads_of_queues(rt: HostRuntime) {
    let read = Op::Read { e: 0 };
    assert!(rt; prints(0, 0, read, item(0x10), b"0 0 read 0 -> item 0x10\n"));
    assert!(rt; prints(1, 0, read, item(0), b"1 0 read 0 -> item 0x0\n"));
    assert!(rt; prints(2, 0, read, Outcome::Empty, b"2 0 read 0 -> empty\n"));
    assert!(rt; prints(3, 0, read, Outcome::NoQueue, b"3 0 read 0 -> no-queue\n"));
    let last = Op::Read { e: 511 };
    assert!(rt;
        prints(
            4,
            15,
            last,
            item(0x7fffffff),
            b"4 15 read 511 -> item 0x7fffffff\n"
        )
    );
}

/// Whether a look at the word at an address is printed so.
fn prints_peek(addr: u64, outcome: Outcome, line: &[u8]) -> bool
    requires { IsWellFormed outcome }
{
    prints(0, 0, Op::Peek { addr }, outcome, line)
}

#[test]
fn words_of_memory(rt: HostRuntime) {
    let entry = Outcome::Cell { word: 0x80000010 };
    assert!(rt; prints_peek(0x1000, entry, b"0 0 peek 0x1000 -> word 0x80000010\n"));
    let most = Outcome::Cell { word: 0xffffffff };
    assert!(rt; prints_peek(0x3fffffc, most, b"0 0 peek 0x3fffffc -> word 0xffffffff\n"));
    let nothing = Outcome::Cell { word: 0 };
    assert!(rt; prints_peek(0, nothing, b"0 0 peek 0x0 -> word 0x0\n"));
    assert!(rt; prints_peek(0x2, Outcome::BadRange, b"0 0 peek 0x2 -> bad-range\n"));
}

/// Whether the zeroing of some bytes is printed so.
fn prints_zero(index: u64, addr: u64, len: u64, outcome: Outcome, line: &[u8]) -> bool
    requires { IsWellFormed outcome }
{
    prints(index, 15, Op::Zero { addr, len }, outcome, line)
}

#[test]
fn stretches_of_memory(rt: HostRuntime) {
    assert!(rt;
        prints_zero(
            0,
            0x1000,
            0x40,
            Outcome::Fine,
            b"0 15 zero 0x1000 0x40 -> ok\n"
        )
    );
    assert!(rt; prints_zero(1, 0, 0, Outcome::Fine, b"1 15 zero 0x0 0x0 -> ok\n"));
    assert!(rt;
        prints_zero(
            2,
            2,
            4,
            Outcome::BadRange,
            b"2 15 zero 0x2 0x4 -> bad-range\n"
        )
    );
    assert!(rt;
        prints_zero(
            18446744073709551615,
            0xffffffffffffffff,
            0xfffffffffffffffc,
            Outcome::BadRange,
            b"18446744073709551615 15 zero 0xffffffffffffffff 0xfffffffffffffffc -> bad-range\n"
        )
    );
}

/// The numbers from `first` to `last`.
fn one_range(first: u32, last: u32) -> Spans
    requires { first ≤ last }
    ensures { (limit : ℕ) → last < limit → AreBelow result limit }
{
    let mut spans = [Span { first: 0, last: 0 }; 16];
    spans[0] = Span { first, last };
    Spans { count: 1, spans }
}

/// A board with the most sources, processors, threads and actors, and one range of each kind.
fn ranged_board(two_pages: bool, store_eoi: bool) -> Board
    ensures { IsBoard result }
{
    Board {
        limits: Limits {
            sources: 8192,
            processors: 64,
            threads: 32,
            actors: 16,
        },
        ram_mib: 2,
        two_pages,
        store_eoi,
        level: one_range(8191, 8191),
        unclaimed: one_range(1, 100),
        unconnected: one_range(9, 63),
    }
}

/// Whether the header of such a board is printed with this line of its pages.
fn prints_pages(two_pages: bool, store_eoi: bool, line: &[u8]) -> bool {
    let mut text = Text::new();
    add_header(&mut text, &ranged_board(two_pages, store_eoi));
    let mut expected = Text::new();
    let _fits = expected.try_extend_from_slice(
        b"xive-account 1\nsources 8192\nprocessors 64\nthreads 32\nram 2\nactors 16\n",
    );
    let _fits = expected.try_extend_from_slice(line);
    let _fits = expected.try_extend_from_slice(
        b"level 8191 8191\nunclaimed 1 100\nunconnected 9 63\ngo\n",
    );
    text.as_slice() == expected.as_slice()
}

#[test]
fn headers(rt: HostRuntime) {
    assert!(rt; prints_pages(false, false, b"esb 1 0\n"));
    assert!(rt; prints_pages(false, true, b"esb 1 1\n"));
    assert!(rt; prints_pages(true, false, b"esb 2 0\n"));
    assert!(rt; prints_pages(true, true, b"esb 2 1\n"));
}

#[test]
fn sources_of_a_report(rt: HostRuntime) {
    let mut text = Text::new();
    add_source(&mut text, 0, 1, false, 0, 0);
    add_source(&mut text, 1, 1, true, 0, 0);
    add_source(&mut text, 2, 1, false, 3, 2);
    add_source(&mut text, 3, 0, false, 0, 0);
    add_source(&mut text, 8191, 2, true, 18446744073709551615, 1);
    let mut expected = Text::new();
    let _fits = expected.try_extend_from_slice(b"source 1 01 0 0 asserted\nsource 2 01 3 2\n");
    let _fits = expected.try_extend_from_slice(b"source 3 00 0 0\n");
    let _fits = expected.try_extend_from_slice(b"source 8191 10 18446744073709551615 1 asserted\n");
    assert!(rt; text.as_slice() == expected.as_slice());
}

#[test]
fn reports(rt: HostRuntime) {
    let mut text = Text::new();
    add_end(&mut text, 18446744073709551615);
    add_source(&mut text, 2, 0, false, 12, 11);
    add_queue(&mut text, 8, EndFlags::from_bits_retain(126), 4, 3, 1, 1);
    add_queue(&mut text, 9, EndFlags::from_bits_retain(5), 4, 3, 2, 0);
    add_processor(&mut text, 63, Phase::Saved, 0, 0, 0x80);
    add_processor(&mut text, 2, Phase::On { t: 31 }, 0xff, 0x10, 0);
    add_processor(&mut text, 1, Phase::Restored { t: 0 }, 0, 0, 0xc0);
    add_processor(&mut text, 0, Phase::Pulled { t: 1 }, 0, 0, 0);
    add_ring(&mut text, 31, 0, 0xff, 0x8, 0xff, 0x8000043f);
    add_ring(&mut text, 0, 0x80, 7, 0x10, 3, 0x80000400);
    add_flight(&mut text, 4096);
    add_notices(&mut text, 0);
    add_done(&mut text);
    let mut expected = Text::new();
    let _fits = expected.try_extend_from_slice(b"end 18446744073709551615\nsource 2 00 12 11\n");
    let _fits = expected.try_extend_from_slice(b"queue 9 vn 4 3 10 00\n");
    let _fits = expected.try_extend_from_slice(
        b"processor 63 saved 0x0 0x0 0x80\nprocessor 2 on 31 0xff 0x10 0x0\n",
    );
    let _fits = expected.try_extend_from_slice(
        b"processor 1 restored 0 0x0 0x0 0xc0\nprocessor 0 pulled 1 0x0 0x0 0x0\n",
    );
    let _fits = expected.try_extend_from_slice(
        b"ring 31 0x0 0xff 0x8 0xff 0x8000043f\nring 0 0x80 0x7 0x10 0x3 0x80000400\n",
    );
    let _fits = expected.try_extend_from_slice(b"flight 4096\nnotices 0\ndone\n");
    assert!(rt; text.as_slice() == expected.as_slice());
}

#[test]
fn refusals(rt: HostRuntime) {
    let mut text = Text::new();
    add_refusal(&mut text, 12, 257, b"long-line");
    add_too_long(&mut text);
    assert!(rt; text.as_slice() == b"refused line 12 byte 257 long-line\ntoo-long\n".as_slice());
}
