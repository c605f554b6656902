//! How an END may be configured.

use crate::board::Board;
use crate::operations::{EndConfig, EndFlags, Op};
use crate::tests::small_board;
use crate::validity::{may_configure, valid, valid_config};
use bitflags::Flags;

/// An END with a queue of 64 KiB, the last one that lies in the memory of the small board.
fn with_queue() -> EndConfig {
    EndConfig {
        flags: EndFlags::VALID | EndFlags::ENQUEUE,
        vp: 1,
        priority: 7,
        qaddr: 0x3f0000,
        qshift: 16,
        start: 0,
        esc: 0,
        esc_eisn: 0,
    }
}

#[test]
fn valid_ends(rt: HostRuntime) {
    let board = small_board();
    let config = with_queue();
    assert!(rt; valid(&board, &Op::EndSet { e: 15, config }));
    assert!(rt; !valid(&board, &Op::EndSet { e: 16, config }));
    let config = EndConfig {
        vp: 2,
        ..with_queue()
    };
    assert!(rt; !valid(&board, &Op::EndSet { e: 0, config }));
    let config = EndConfig {
        priority: 8,
        ..with_queue()
    };
    assert!(rt; !valid(&board, &Op::EndSet { e: 0, config }));
    let config = EndConfig {
        start: 1,
        ..with_queue()
    };
    assert!(rt; !valid(&board, &Op::EndSet { e: 0, config }));
    let config = EndConfig {
        esc: 1,
        ..with_queue()
    };
    assert!(rt; !valid(&board, &Op::EndSet { e: 0, config }));
    let config = EndConfig {
        esc_eisn: 1,
        ..with_queue()
    };
    assert!(rt; !valid(&board, &Op::EndSet { e: 0, config }));
}

#[test]
fn valid_flags(rt: HostRuntime) {
    let board = small_board();
    let fifteen = EndConfig {
        flags: EndFlags::from_bits_retain(15),
        ..with_queue()
    };
    assert!(rt; valid_config(&board, &fifteen));
    let silent = EndConfig {
        flags: EndFlags::from_bits_retain(0x6f),
        ..with_queue()
    };
    assert!(rt; valid_config(&board, &silent));
    let eighth = EndConfig {
        flags: EndFlags::from_bits_retain(0x83),
        ..with_queue()
    };
    assert!(rt; !valid_config(&board, &eighth));
    let alone = EndConfig {
        flags: EndFlags::from_bits_retain(16),
        ..EndConfig::OFF
    };
    assert!(rt; !valid_config(&board, &alone));
}

#[test]
fn valid_queues(rt: HostRuntime) {
    let board = small_board();
    assert!(rt; valid_config(&board, &with_queue()));
    let small = EndConfig {
        qaddr: 0x3ff000,
        qshift: 12,
        ..with_queue()
    };
    assert!(rt; valid_config(&board, &small));
    let large = EndConfig {
        qaddr: 0x200000,
        qshift: 21,
        ..with_queue()
    };
    assert!(rt; valid_config(&board, &large));
    // 16 MiB are more than there are, at any address
    let largest = EndConfig {
        qaddr: 0,
        qshift: 24,
        ..with_queue()
    };
    assert!(rt; !valid_config(&board, &largest));
    let more_memory = Board {
        ram_mib: 16,
        ..board
    };
    assert!(rt; valid_config(&more_memory, &largest));
    let odd_size = EndConfig {
        qaddr: 0,
        qshift: 13,
        ..with_queue()
    };
    assert!(rt; !valid_config(&board, &odd_size));
    let no_size = EndConfig {
        qaddr: 0,
        qshift: 0,
        ..with_queue()
    };
    assert!(rt; !valid_config(&board, &no_size));
    let unaligned = EndConfig {
        qaddr: 0x1000,
        ..with_queue()
    };
    assert!(rt; !valid_config(&board, &unaligned));
    let beyond = EndConfig {
        qaddr: 0x400000,
        ..with_queue()
    };
    assert!(rt; !valid_config(&board, &beyond));
    let at_the_top = EndConfig {
        qaddr: 0xffffffffffff0000,
        ..with_queue()
    };
    assert!(rt; !valid_config(&board, &at_the_top));
}

/// The END with a queue of 64 KiB, which has 16,384 entries, beginning with an entry.
fn beginning(start: u64) -> EndConfig {
    EndConfig {
        start,
        ..with_queue()
    }
}

#[test]
fn valid_first_entries(rt: HostRuntime) {
    // one of the first two times through the queue
    let board = small_board();
    for start in [0, 1, 0x3fff, 0x4000, 0x7fff] {
        assert!(rt; may_configure(&board, 0, &beginning(start)));
    }
    for start in [0x8000, 0x1_0000_0000, u64::MAX] {
        assert!(rt; !may_configure(&board, 0, &beginning(start)));
    }
    // and the first one where it is told by the operation on the END
    let config = beginning(0x4000);
    assert!(rt; !valid(&board, &Op::EndSet { e: 0, config }));
    let config = beginning(0);
    assert!(rt; valid(&board, &Op::EndSet { e: 0, config }));
}

#[test]
fn valid_without_queue(rt: HostRuntime) {
    let board = small_board();
    let no_queue = EndConfig {
        flags: EndFlags::VALID,
        qaddr: 0,
        qshift: 0,
        ..with_queue()
    };
    assert!(rt; valid_config(&board, &no_queue));
    let has_address = EndConfig {
        qaddr: 0x10000,
        ..no_queue
    };
    assert!(rt; !valid_config(&board, &has_address));
    let has_size = EndConfig {
        qshift: 16,
        ..no_queue
    };
    assert!(rt; !valid_config(&board, &has_size));
    let has_start = EndConfig {
        start: 1,
        ..no_queue
    };
    assert!(rt; !valid_config(&board, &has_start));
    let off_with_start = EndConfig {
        start: 1,
        ..EndConfig::OFF
    };
    assert!(rt; !valid_config(&board, &off_with_start));
}

/// An END that escalates to another one.
fn escalating(esc: u32) -> EndConfig {
    EndConfig {
        flags: EndFlags::VALID | EndFlags::ENQUEUE | EndFlags::ESCALATE,
        esc,
        esc_eisn: 0x7fff_ffff,
        ..with_queue()
    }
}

#[test]
fn valid_escalations(rt: HostRuntime) {
    let board = small_board();
    assert!(rt; may_configure(&board, 0, &escalating(7)));
    assert!(rt; may_configure(&board, 14, &escalating(15)));
    assert!(rt; !may_configure(&board, 0, &escalating(6)));
    assert!(rt; !may_configure(&board, 0, &escalating(23)));
    assert!(rt; !may_configure(&board, 7, &escalating(15)));
    assert!(rt; may_configure(&board, 7, &with_queue()));
    let long = EndConfig {
        esc_eisn: 0x8000_0000,
        ..escalating(7)
    };
    assert!(rt; !may_configure(&board, 0, &long));
    let config = escalating(15);
    assert!(rt; valid(&board, &Op::EndSet { e: 3, config }));
    assert!(rt; !valid(&board, &Op::EndSet { e: 7, config }));
}

#[test]
fn valid_without_v(rt: HostRuntime) {
    let board = small_board();
    assert!(rt; valid_config(&board, &EndConfig::OFF));
    let has_flag = EndConfig {
        flags: EndFlags::NOTIFY_ALWAYS,
        ..EndConfig::OFF
    };
    assert!(rt; !valid_config(&board, &has_flag));
    let has_target = EndConfig {
        vp: 1,
        ..EndConfig::OFF
    };
    assert!(rt; !valid_config(&board, &has_target));
    let has_priority = EndConfig {
        priority: 1,
        ..EndConfig::OFF
    };
    assert!(rt; !valid_config(&board, &has_priority));
    let has_queue = EndConfig {
        flags: EndFlags::ENQUEUE,
        vp: 0,
        priority: 0,
        ..with_queue()
    };
    assert!(rt; !valid_config(&board, &has_queue));
}
