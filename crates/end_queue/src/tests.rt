//! Queues of each size, written and read in step, and what becomes of counts and states.

ghost use Rattle.std.specs.Prelude.{◌≡◌, ◌<◌, ◌≤◌, ◌^◌, IsTrue, false, length};
ghost use Rattle.xv_model.specs.board.Validity.{is_queue_shift};
ghost use Rattle.end_queue.specs.Ends.{HasPage, HasRoom, IsNarrow, end_in, has_queue};

use crate::places::entries;
use crate::queues::is_queued;
use crate::{Ends, Reader};
use bitflags::Flags;
use guest_ram::Ram;
use std::alloc::Global;
use std::process::Abort;
use std::test::Fail;
use xv_base::{Limits, NoMemory};
use xv_model::board::{Board, Spans};
use xv_model::operations::{EndConfig, EndFlags};
use xv_model::outcomes::Outcome;

/// The ENDs of a board of one processor.
fn eight_ends(alloc: Global) -> Result<Ends, NoMemory> {
    let limits = Limits {
        sources: 1,
        processors: 1,
        threads: 1,
        actors: 1,
    };
    let board = Board {
        limits,
        ram_mib: 32,
        two_pages: true,
        store_eoi: false,
        level: Spans::NONE,
        unclaimed: Spans::NONE,
        unconnected: Spans::NONE,
    };
    Ends::build(alloc, &board)
}

/// A queue of 2 to the power of `qshift` bytes, whose first entry has this number.
fn queue_of(qshift: u32, start: u64) -> EndConfig {
    EndConfig {
        flags: EndFlags::from_bits_retain(3),
        qaddr: if qshift == 24 { 0x100_0000 } else { 0x20_0000 },
        qshift,
        start,
        ..EndConfig::OFF
    }
}

/// Whether a configuration is far from the widths of numbers.
fn is_narrow(config: &EndConfig) -> bool
    ensures { IsTrue result → IsNarrow config.now }
{
    config.start < 1 << 62 && config.qshift >= 2 && config.qshift <= 24 && config.qaddr <= 1 << 26
}

/// Whether there is such an END.
fn has_end(ends: &Ends, e: u32) -> bool
    ensures { IsTrue result → e < length ends.now }
{
    (e as usize) < ends.records.len()
}

/// Whether an END can be written and read: its queue lies in this memory, and its counts are in range.
fn is_ready(ends: &Ends, ram: &Ram, e: u32) -> bool
    ensures end { IsTrue result → e < length ends.now }
    ensures queue { IsTrue result → IsTrue (has_queue (end_in ends.now e).config) }
    ensures page { IsTrue result → HasPage (length ram.now) (end_in ends.now e).config }
    ensures room { IsTrue result → HasRoom (end_in ends.now e) }
{
    let records = &ends.records;
    if e as usize >= records.len() {
        return false;
    }
    let end = &records[e as usize];
    is_queued(&end.config)
        && ram.fits(end.config.qaddr, 4 * entries(&end.config))
        && end.written < 1 << 63
        && end.taken < 1 << 63
}

fn configure(rt: &impl Abort, ends: &mut Ends, e: u32, config: &EndConfig) {
    assert!(rt; has_end(ends, e));
    assert!(rt; is_narrow(config));
    ends.configure(e, config);
}

/// The counts and the states of an END: written, taken, ESn and ESe.
fn kept(rt: &impl Abort, ends: &Ends, e: u32) -> (u64, u64, u8, u8) {
    assert!(rt; has_end(ends, e));
    (ends.written(e), ends.taken(e), ends.esn(e), ends.ese(e))
}

/// ENDs of which END 5 has a queue, and a guest's reader of that.
#[derive(Drop)]
struct Bench {
    ends: Ends,
    ram: Ram,
    reader: Reader,
}

/// Begins a queue anew, with its first entry of this number. The page stays as it is.
fn begin(rt: &impl Abort, bench: &mut Bench, qshift: u32, start: u64)
    requires { IsTrue (is_queue_shift qshift) }
{
    let config = queue_of(qshift, start);
    assert!(rt; config.qaddr < 1 << 63);
    configure(rt, &mut bench.ends, 5, &config);
    bench.reader = Reader::start(config.qaddr, qshift, start);
}

fn set_up(rt: &impl Abort, alloc: Global, qshift: u32, start: u64) -> Result<Bench, NoMemory>
    requires { IsTrue (is_queue_shift qshift) }
{
    let mut bench = Bench {
        ends: eight_ends(alloc)?,
        ram: Ram::new(alloc, 32 << 20)?,
        reader: Reader::start(0, qshift, 0),
    };
    begin(rt, &mut bench, qshift, start);
    Ok(bench)
}

fn write(rt: &impl Abort, bench: &mut Bench, payload: u32) -> (u64, u32) {
    assert!(rt; is_ready(&bench.ends, &bench.ram, 5));
    assert!(rt; payload < 1 << 31);
    let wrote = bench.ends.enqueue(&mut bench.ram, 5, payload);
    (wrote.addr, wrote.word)
}

/// What the END's read answers.
fn read_end(rt: &impl Abort, bench: &mut Bench) -> Option<u32> {
    assert!(rt; is_ready(&bench.ends, &bench.ram, 5));
    match bench.ends.read(&bench.ram, 5) {
        Outcome::Item { payload } => Some(payload),
        Outcome::Empty => None,
        _ => panic!(rt),
    }
}

/// What the guest's reader takes.
fn take(rt: &impl Abort, bench: &mut Bench) -> Option<u32> {
    assert!(rt; bench.ram.fits(bench.reader.qaddr, 4 * bench.reader.entries));
    bench.reader.take(&bench.ram)
}

/// What both answer.
fn read(rt: &impl Abort, bench: &mut Bench) -> Option<u32> {
    let item = read_end(rt, bench);
    assert_eq!(rt; take(rt, bench), item);
    item
}

/// Writes so many entries, each with its number as its payload, and reads them when `behind` others are written.
fn run(rt: &impl Abort, bench: &mut Bench, count: u32, behind: u32) {
    for number in 0..count {
        write(rt, bench, number);
        if number >= behind {
            assert_eq!(rt; read(rt, bench), Some(number - behind));
        }
    }
}

/// Reads the entries that are left, the last ones of so many.
fn drain(rt: &impl Abort, bench: &mut Bench, count: u32, left: u32) {
    for number in count.saturating_sub(left)..count {
        assert_eq!(rt; read(rt, bench), Some(number));
    }
    assert!(rt; read(rt, bench).is_none());
}

/// Two wraps and a bit.
fn two_wraps(rt: &impl Abort, bench: &mut Bench, entries: u32, behind: u32)
    requires { entries ≤ 2 ^ 22 }
{
    assert!(rt; read(rt, bench).is_none());
    let count = 2 * entries + 3;
    run(rt, bench, count, behind);
    drain(rt, bench, count, behind);
}

#[test]
fn queues_of_4_and_64_kib(rt: HostRuntime) -> Result<(), Fail> {
    two_wraps(&rt, &mut set_up(&rt, rt.alloc(), 12, 0)?, 1024, 0);
    two_wraps(&rt, &mut set_up(&rt, rt.alloc(), 12, 0)?, 1024, 1023);
    two_wraps(&rt, &mut set_up(&rt, rt.alloc(), 16, 0)?, 16384, 0);
    two_wraps(&rt, &mut set_up(&rt, rt.alloc(), 16, 0)?, 16384, 16383);
    Ok(())
}

#[test]
fn a_queue_of_2_mib(rt: HostRuntime) -> Result<(), Fail> {
    two_wraps(&rt, &mut set_up(&rt, rt.alloc(), 21, 0)?, 1 << 19, 1);
    Ok(())
}

/// The wraps of the largest queue, each from two entries before it on, and each one entry less far than the one
/// before: so the next word is always what the whole way would have left there.
#[test]
fn wraps_of_16_mib(rt: HostRuntime) -> Result<(), Fail> {
    let bench = &mut set_up(&rt, rt.alloc(), 24, 0)?;
    run(&rt, bench, 5, 0);
    begin(&rt, bench, 24, (1 << 22) - 2);
    assert_eq!(rt; write(&rt, bench, 0), (0x1ff_fff8, 0x8000_0000));
    assert_eq!(rt; write(&rt, bench, 1), (0x1ff_fffc, 0x8000_0001));
    assert_eq!(rt; write(&rt, bench, 2), (0x100_0000, 2));
    assert_eq!(rt; write(&rt, bench, 3), (0x100_0004, 3));
    assert_eq!(rt; write(&rt, bench, 4), (0x100_0008, 4));
    drain(&rt, bench, 5, 5);
    begin(&rt, bench, 24, (1 << 23) - 2);
    assert_eq!(rt; write(&rt, bench, 0), (0x1ff_fff8, 0));
    assert_eq!(rt; write(&rt, bench, 1), (0x1ff_fffc, 1));
    assert_eq!(rt; write(&rt, bench, 2), (0x100_0000, 0x8000_0002));
    assert_eq!(rt; write(&rt, bench, 3), (0x100_0004, 0x8000_0003));
    drain(&rt, bench, 4, 4);
    begin(&rt, bench, 24, (3 << 22) - 2);
    run(&rt, bench, 3, 2);
    drain(&rt, bench, 3, 2);
    Ok(())
}

/// 8,388,608 entries: it is quick as it is built, and too slow for `rt try`.
#[test]
fn two_wraps_of_16_mib(rt: HostRuntime) -> Result<(), Fail> {
    two_wraps(&rt, &mut set_up(&rt, rt.alloc(), 24, 0)?, 1 << 22, 1);
    Ok(())
}

#[test]
fn words_of_two_generations(rt: HostRuntime) -> Result<(), Fail> {
    let bench = &mut set_up(&rt, rt.alloc(), 12, 0)?;
    assert_eq!(rt; write(&rt, bench, 0x7fff_ffff), (0x20_0000, 0xffff_ffff));
    assert_eq!(rt; read(&rt, bench), Some(0x7fff_ffff));
    run(&rt, bench, 1022, 0);
    assert_eq!(rt; write(&rt, bench, 7), (0x20_0ffc, 0x8000_0007));
    assert_eq!(rt; write(&rt, bench, 8), (0x20_0000, 8));
    assert_eq!(rt; kept(&rt, &bench.ends, 5), (1025, 1023, 0, 0));
    Ok(())
}

#[test]
fn a_whole_queue_behind(rt: HostRuntime) -> Result<(), Fail> {
    let bench = &mut set_up(&rt, rt.alloc(), 12, 0)?;
    run(&rt, bench, 1024, 1024);
    assert_eq!(rt; write(&rt, bench, 7), (0x20_0000, 7));
    assert!(rt; read(&rt, bench).is_none());
    assert_eq!(rt; kept(&rt, &bench.ends, 5), (1025, 0, 0, 0));
    Ok(())
}

/// Makes the top bit of each word of the page 1, from this one on.
fn mark(rt: &impl Abort, ram: &mut Ram, from: u64) {
    for index in from..1024 {
        let addr = 0x20_0000 + 4 * index;
        assert!(rt; ram.fits(addr, 4));
        ram.put(addr, 1 << 31);
    }
}

#[test]
fn a_start_in_the_other_generation(rt: HostRuntime) -> Result<(), Fail> {
    let bench = &mut set_up(&rt, rt.alloc(), 12, 5 + 1024)?;
    mark(&rt, &mut bench.ram, 5);
    assert!(rt; read(&rt, bench).is_none());
    assert_eq!(rt; write(&rt, bench, 9), (0x20_0014, 9));
    assert_eq!(rt; read(&rt, bench), Some(9));
    two_wraps(&rt, bench, 1024, 0);
    Ok(())
}

#[test]
fn ghosts_of_a_stale_page(rt: HostRuntime) -> Result<(), Fail> {
    let stale = &mut set_up(&rt, rt.alloc(), 12, 0)?;
    write(&rt, stale, 7);
    begin(&rt, stale, 12, 0);
    assert_eq!(rt; read(&rt, stale), Some(7));
    assert_eq!(rt; kept(&rt, &stale.ends, 5), (0, 1, 0, 0));
    assert!(rt; read(&rt, stale).is_none());
    let zeros = &mut set_up(&rt, rt.alloc(), 12, 1024)?;
    assert_eq!(rt; read(&rt, zeros), Some(0));
    Ok(())
}

fn set_states(rt: &impl Abort, ends: &mut Ends, esn: u8, ese: u8) {
    assert!(rt; has_end(ends, 5) && esn < 4 && ese < 4);
    ends.set_esn(5, esn);
    ends.set_ese(5, ese);
}

fn reset(rt: &impl Abort, ends: &mut Ends) {
    assert!(rt; has_end(ends, 5));
    ends.reset(5);
}

fn flags(rt: &impl Abort, ends: &Ends) -> u8 {
    assert!(rt; has_end(ends, 5));
    ends.config(5).flags.bits()
}

#[test]
fn counts_and_states(rt: HostRuntime) -> Result<(), Fail> {
    let bench = &mut set_up(&rt, rt.alloc(), 12, 0)?;
    run(&rt, bench, 3, 1);
    set_states(&rt, &mut bench.ends, 3, 2);
    assert_eq!(rt; kept(&rt, &bench.ends, 5), (3, 2, 3, 2));
    assert_eq!(rt; kept(&rt, &bench.ends, 4), (0, 0, 1, 1));
    assert_eq!(rt; flags(&rt, &bench.ends), 3);
    let unqueued = EndConfig {
        flags: EndFlags::VALID,
        ..queue_of(12, 0)
    };
    configure(&rt, &mut bench.ends, 5, &unqueued);
    assert_eq!(rt; kept(&rt, &bench.ends, 5), (0, 0, 0, 0));
    assert_eq!(rt; flags(&rt, &bench.ends), 1);
    configure(
        &rt,
        &mut bench.ends,
        5,
        &EndConfig {
            qshift: 2,
            ..EndConfig::OFF
        },
    );
    assert_eq!(rt; kept(&rt, &bench.ends, 5), (0, 0, 1, 1));
    set_states(&rt, &mut bench.ends, 2, 3);
    assert_eq!(rt; kept(&rt, &bench.ends, 5), (0, 0, 2, 3));
    reset(&rt, &mut bench.ends);
    assert_eq!(rt; kept(&rt, &bench.ends, 5), (0, 0, 1, 1));
    assert_eq!(rt; flags(&rt, &bench.ends), 0);
    Ok(())
}

/// Whether there is such an END without a queue, and its counts are in range.
fn is_off(ends: &Ends, e: u32) -> bool
    ensures end { IsTrue result → e < length ends.now }
    ensures queue { IsTrue result → has_queue (end_in ends.now e).config ≡ false }
    ensures room { IsTrue result → HasRoom (end_in ends.now e) }
{
    let records = &ends.records;
    if e as usize >= records.len() {
        return false;
    }
    let end = &records[e as usize];
    !is_queued(&end.config) && end.written < 1 << 63 && end.taken < 1 << 63
}

fn reads_no_queue(rt: &impl Abort, ends: &mut Ends, ram: &Ram) -> bool {
    assert!(rt; is_off(ends, 5));
    matches!(ends.read(ram, 5), Outcome::NoQueue)
}

#[test]
fn no_queue_to_read(rt: HostRuntime) -> Result<(), Fail> {
    let mut ends = eight_ends(rt.alloc())?;
    let ram = Ram::new(rt.alloc(), 4096)?;
    assert!(rt; reads_no_queue(&rt, &mut ends, &ram));
    for bits in 0..3 {
        let flags = EndFlags::from_bits_retain(bits);
        configure(
            &rt,
            &mut ends,
            5,
            &EndConfig {
                flags,
                ..queue_of(12, 0)
            },
        );
        assert!(rt; reads_no_queue(&rt, &mut ends, &ram));
    }
    Ok(())
}
