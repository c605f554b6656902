//! The table of accesses, at the first and last offset of each quarter of a page.

use crate::{BadOffset, EsbOp, SourceKind, decode};
use xv_model::operations::PqOp;

/// What an access is, in the words of the table.
fn name(access: &Result<EsbOp, BadOffset>) -> &'static str {
    match access {
        Ok(EsbOp::Ones) => "ones",
        Ok(EsbOp::Pq { op }) => match op {
            PqOp::Trigger => "trigger",
            PqOp::Eoi => "eoi",
            PqOp::Get => "get",
            PqOp::Set { pq: 0 } => "set 00",
            PqOp::Set { pq: 1 } => "set 01",
            PqOp::Set { pq: 2 } => "set 10",
            PqOp::Set { pq: 3 } => "set 11",
            _ => "no access",
        },
        Err(BadOffset) => "bad-offset",
    }
}

/// The edges of the rows of the table, and offsets that count modulo 4,096.
const OFFSETS: [u16; 14] = [
    0x000, 0x3ff, 0x400, 0x7ff, 0x800, 0xbff, 0xc00, 0xcff, 0xd00, 0xeff, 0xfff, 0x1000, 0x1800,
    0xfd00,
];

/// Whether a page has these accesses at [`OFFSETS`].
fn page_agrees(kind: SourceKind, page: u8, store: bool, row: [&str; 14]) -> bool {
    OFFSETS.iter().zip(row.iter()).all(|(offset, access)| name(&decode(page, *offset, store, kind))
        == *access)
}

const LOADS: [&str; 14] = [
    "eoi", "eoi", "eoi", "eoi", "get", "get", "set 00", "set 00", "set 01", "set 10", "set 11",
    "eoi", "get", "set 01",
];

const STORES: [&str; 14] = [
    "trigger",
    "trigger",
    "bad-offset",
    "bad-offset",
    "bad-offset",
    "bad-offset",
    "set 00",
    "set 00",
    "set 01",
    "set 10",
    "set 11",
    "trigger",
    "bad-offset",
    "set 01",
];

const STORES_WITH_EOI: [&str; 14] = [
    "trigger",
    "trigger",
    "eoi",
    "eoi",
    "bad-offset",
    "bad-offset",
    "set 00",
    "set 00",
    "set 01",
    "set 10",
    "set 11",
    "trigger",
    "bad-offset",
    "set 01",
];

/// A message source, or a level source.
fn kind(two_pages: bool, store_eoi: bool) -> SourceKind {
    SourceKind {
        level: store_eoi,
        two_pages,
        store_eoi,
    }
}

#[test]
fn a_trigger_page_and_a_management_page(rt: HostRuntime) {
    let kind = kind(true, false);
    assert!(rt; page_agrees(kind, 0, false, ["ones"; 14]));
    assert!(rt; page_agrees(kind, 0, true, ["trigger"; 14]));
    assert!(rt; page_agrees(kind, 1, false, LOADS));
    assert!(rt; page_agrees(kind, 1, true, STORES));
}

#[test]
fn one_page(rt: HostRuntime) {
    assert!(rt; page_agrees(kind(false, false), 0, false, LOADS));
    assert!(rt; page_agrees(kind(false, false), 0, true, STORES));
}

#[test]
fn stores_that_are_eois(rt: HostRuntime) {
    assert!(rt; page_agrees(kind(true, true), 0, true, ["trigger"; 14]));
    assert!(rt; page_agrees(kind(true, true), 1, false, LOADS));
    assert!(rt; page_agrees(kind(true, true), 1, true, STORES_WITH_EOI));
    assert!(rt; page_agrees(kind(false, true), 0, true, STORES_WITH_EOI));
}
