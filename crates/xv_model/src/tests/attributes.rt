//! The attributes of the KVM device that numbers name, and what values set them to; and the numbers themselves, which
//! Linux's arch/powerpc/include/uapi/asm/kvm.h and include/uapi/asm-generic/errno-base.h have.

use crate::kvm::arguments::{EqId, SourceArgs, SourceConfigArgs};
use crate::kvm::errors::{E2BIG, EBUSY, EINVAL, ENOENT, ENXIO};
use crate::kvm::fields::{
    EQ_ALWAYS_NOTIFY, LEVEL_ASSERTED, LEVEL_SENSITIVE, PRIORITY_MASK, SERVER_SHIFT,
    SOURCE_EISN_SHIFT, SOURCE_MASKED, TARGET_MASK,
};
use crate::kvm::{
    Attribute, CTRL_EQ_SYNC, CTRL_NR_SERVERS, CTRL_RESET, GRP_CTRL, GRP_EQ_CONFIG, GRP_SOURCE,
    GRP_SOURCE_CONFIG, GRP_SOURCE_SYNC, Setting,
};
use crate::operations::{AttrValue, EqFields, Op};
use crate::tests::small_board;
use crate::validity::valid;

/// The name of the attribute that a group and a number name, and the source, or the server and the priority.
fn attribute(group: u32, attr: u64) -> (&'static str, u64, u64) {
    match Attribute::from_number(group, attr) {
        Some(Attribute::Reset) => ("reset", 0, 0),
        Some(Attribute::EqSync) => ("eq sync", 0, 0),
        Some(Attribute::NrServers) => ("nr servers", 0, 0),
        Some(Attribute::Source { source }) => ("source", source, 0),
        Some(Attribute::SourceConfig { source }) => ("source config", source, 0),
        Some(Attribute::EqConfig { id }) => ("eq config", id.server as u64, id.priority as u64),
        Some(Attribute::SourceSync { source }) => ("source sync", source, 0),
        None => ("none", 0, 0),
    }
}

#[test]
fn attributes_by_number(rt: HostRuntime) {
    assert!(rt; attribute(1, 1) == ("reset", 0, 0));
    assert!(rt; attribute(1, 2) == ("eq sync", 0, 0));
    assert!(rt; attribute(1, 3) == ("nr servers", 0, 0));
    assert!(rt; attribute(2, 0x12) == ("source", 0x12, 0));
    assert!(rt; attribute(3, 0x12) == ("source config", 0x12, 0));
    assert!(rt; attribute(4, 0x12) == ("eq config", 2, 2));
    assert!(rt; attribute(5, 0x12) == ("source sync", 0x12, 0));
    // a source's number is taken whole, and a queue's identifier isn't
    assert!(rt; attribute(2, u64::MAX) == ("source", u64::MAX, 0));
    assert!(rt; attribute(4, u64::MAX) == ("eq config", 0x1fff_ffff, 7));
    assert!(rt; attribute(4, 0x1_0000_0000) == ("eq config", 0, 0));
    assert!(rt; attribute(4, 0x8000_0001) == ("eq config", 0x1000_0000, 1));
}

#[test]
fn no_attributes(rt: HostRuntime) {
    for group in [0, 6, 9, u32::MAX] {
        assert!(rt; attribute(group, 1).0 == "none");
    }
    for attr in [0, 4, 0x1_0000_0001, u64::MAX] {
        assert!(rt; attribute(1, attr).0 == "none");
    }
}

/// A queue of 4 KiB.
const QUEUE: EqFields = EqFields {
    flags: 1,
    qshift: 12,
    qaddr: 0x1000,
    qtoggle: 1,
    qindex: 3,
};

/// Whether the attribute that a group and a number name can be set to a number, and to the fields of a queue.
fn forms(group: u32, attr: u64) -> (bool, bool) {
    match Attribute::from_number(group, attr) {
        Some(attribute) => (
            Setting::from_value(attribute, AttrValue::Number { value: 1 }).is_some(),
            Setting::from_value(attribute, AttrValue::Queue { eq: QUEUE }).is_some(),
        ),
        None => (false, false),
    }
}

#[test]
fn forms_of_values(rt: HostRuntime) {
    for (group, attr) in [(1, 1), (1, 2), (1, 3), (2, 0), (3, 0), (5, 0)] {
        assert!(rt; forms(group, attr) == (true, false));
    }
    assert!(rt; forms(4, 0) == (false, true));
}

#[test]
fn fields_of_queues(rt: HostRuntime) {
    let id = EqId::from_number(0x2d);
    assert!(rt; (id.server, id.priority) == (5, 5));
    match Setting::from_value(Attribute::EqConfig { id }, AttrValue::Queue { eq: QUEUE }) {
        Some(Setting::EqConfig { args }) => {
            assert!(rt; (args.id.server, args.id.priority) == (5, 5));
            assert!(rt; (args.eq.flags, args.eq.qshift, args.eq.qaddr) == (1, 12, 0x1000));
            assert!(rt; (args.eq.qtoggle, args.eq.qindex) == (1, 3));
        }
        _ => assert!(rt; false),
    }
}

/// The source, the kind, and the line in a value of a source.
fn kind(value: u64) -> (u64, bool, bool) {
    let args = SourceArgs::from_value(7, value);
    (args.source, args.level, args.asserted)
}

#[test]
fn fields_of_sources(rt: HostRuntime) {
    assert!(rt; kind(0) == (7, false, false));
    assert!(rt; kind(1) == (7, true, false));
    assert!(rt; kind(2) == (7, false, true));
    assert!(rt; kind(3) == (7, true, true));
    assert!(rt; kind(0xffff_ffff_ffff_fffc) == (7, false, false));
}

/// The priority, the server, whether it masks, and the EISN in a value of a source's configuration.
fn fields(value: u64) -> (u8, u32, bool, u32) {
    let args = SourceConfigArgs::from_value(7, value);
    (args.priority, args.server, args.masked, args.eisn)
}

#[test]
fn fields_of_configurations(rt: HostRuntime) {
    assert!(rt; fields(0) == (0, 0, false, 0));
    assert!(rt; fields(0x7) == (7, 0, false, 0));
    assert!(rt; fields(0x8) == (0, 1, false, 0));
    assert!(rt; fields(0xffff_fff8) == (0, 0x1fff_ffff, false, 0));
    assert!(rt; fields(0x1_0000_0000) == (0, 0, true, 0));
    assert!(rt; fields(0x2a_0000_0000) == (0, 0, false, 0x15));
    assert!(rt; fields(0xffff_fffe_0000_0000) == (0, 0, false, 0x7fff_ffff));
    assert!(rt; SourceConfigArgs::from_value(7, 0).source == 7);
}

#[test]
fn errors(rt: HostRuntime) {
    assert_eq!(rt;
        [ENOENT, ENXIO, E2BIG, EBUSY, EINVAL],
        [-2, -6, -7, -16, -22]
    );
}

#[test]
fn numbers(rt: HostRuntime) {
    assert_eq!(rt;
        [
            GRP_CTRL,
            GRP_SOURCE,
            GRP_SOURCE_CONFIG,
            GRP_EQ_CONFIG,
            GRP_SOURCE_SYNC
        ],
        [1, 2, 3, 4, 5]
    );
    assert_eq!(rt; [CTRL_RESET, CTRL_EQ_SYNC, CTRL_NR_SERVERS], [1, 2, 3]);
    assert_eq!(rt; [LEVEL_SENSITIVE, LEVEL_ASSERTED, PRIORITY_MASK], [1, 2, 7]);
    assert_eq!(rt; [TARGET_MASK, SOURCE_MASKED], [0xffff_ffff, 0x1_0000_0000]);
    assert_eq!(rt;
        [SERVER_SHIFT, SOURCE_EISN_SHIFT, EQ_ALWAYS_NOTIFY],
        [3, 33, 1]
    );
}

#[test]
fn valid_attributes(rt: HostRuntime) {
    // whether there is such an attribute or source is for the outcome to say
    let board = small_board();
    for group in [0, 1, 2, 3, 4, 5, u32::MAX] {
        for attr in [0, 1, u64::MAX] {
            let value = AttrValue::Number { value: u64::MAX };
            assert!(rt; valid(&board, &Op::AttrSet { group, attr, value }));
            assert!(rt; valid(&board, &Op::AttrGet { group, attr }));
        }
    }
}

#[test]
fn valid_fields(rt: HostRuntime) {
    // the fields of a queue are for a queue alone, whatever they are
    let board = small_board();
    let eq = EqFields {
        flags: u32::MAX,
        qshift: u32::MAX,
        qaddr: u64::MAX,
        qtoggle: u32::MAX,
        qindex: u32::MAX,
    };
    let set = |group: u32| Op::AttrSet {
        group,
        attr: u64::MAX,
        value: AttrValue::Queue { eq },
    };
    assert!(rt; valid(&board, &set(4)));
    for group in [0, 1, 2, 3, 5, 6, u32::MAX] {
        assert!(rt; !valid(&board, &set(group)));
    }
}
