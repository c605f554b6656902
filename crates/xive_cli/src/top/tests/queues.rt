//! Event queues in memory: what is written into them, and what is read.

use super::{NONE, compare, run_script};
use std::alloc::Global;
use std::process::Abort;
use std::test::Fail;
use xv_base::Status;

#[test]
fn a_word_and_its_reader(rt: HostRuntime) -> Result<(), Fail> {
    compare(
        &rt,
        rt.alloc(),
        b"board 1\nsources 1\nprocessors 1\nthreads 1\nram 1\nactors 2\nesb 2 0\ngo\n0 endset 0 vq 0 0 0x1000 12 0 0x0\n0 hcall 0x3ac 0x2 0x0 0x0 0x0 0x10\n0 set 0 00\n0 trigger 0\n0 route 0\n0 peek 0x1000\n1 read 0\n0 zero 0x1000 0x1000\n0 peek 0x1000\n0 read 0\n0 read 1\n0 zero 0x2 0x4\n0 peek 0x100000\n0 zero 0x100000 0\nend\n",
        Status::Done,
        &[
            b"xive-account 1\nsources 1\nprocessors 1\nthreads 1\nram 1\nactors 2\nesb 2 0\ngo\n",
            b"0 0 endset 0 vq 0 0 0x1000 12 0 0x0 -> ok\n1 0 hcall 0x3ac 0x2 0x0 0x0 0x0 0x10 -> code 0\n2 0 set 0 00 -> 01 00\n",
            b"3 0 trigger 0 -> 00 10 forward 1\n4 0 route 0 -> 1 end 0 wrote 0x1000 0x80000010 present\n",
            b"5 0 peek 0x1000 -> word 0x80000010\n6 1 read 0 -> item 0x10\n7 0 zero 0x1000 0x1000 -> ok\n8 0 peek 0x1000 -> word 0x0\n",
            b"9 0 read 0 -> empty\n10 0 read 1 -> no-queue\n11 0 zero 0x2 0x4 -> bad-range\n12 0 peek 0x100000 -> bad-range\n13 0 zero 0x100000 0x0 -> ok\n",
            b"end 14\nsource 0 10 1 1\nqueue 0 vq 1 1 10 00\nprocessor 0 saved 0x0 0x0 0x0\nring 0 0x0 0x0 0x0 0xff 0x0\nflight 1\nnotices 0\ndone\n",
        ],
    )
}

const HEADER: &str = "sources 1\nprocessors 1\nthreads 1\nram 1\nactors 2\nesb 2 0\ngo\n";

/// A line that configures a queue of 1,024 entries by itself, with its outcome.
const BY_END: (&str, &str) = ("endset 0 vqnb 0 0 0x1000 12 0 0x0", "ok");

/// The same queue, by a hypercall.
const BY_CALL: (&str, &str) = ("hcall 0x3b8 0x1 0x0 0x0 0x1000 0xc", "code 0");

/// A script of so many events of one source, which are routed into a queue, and then so many reads of it.
fn script_of(alloc: Global, config: &str, events: u32, reads: u32) -> Result<String, Fail> {
    let mut script = format!(in alloc; "board 1\n{HEADER}")?;
    script.push_str(format!(in alloc; "0 {config}\n")?.as_str())?;
    script.push_str("0 hcall 0x3ac 0x2 0x0 0x0 0x0 0x10\n0 set 0 00\n")?;
    for _ in 0..events {
        script.push_str("0 fire 0\n0 finish 0\n")?;
    }
    for _ in 0..reads {
        script.push_str("0 read 0\n")?;
    }
    Ok(script)
}

/// The entries of so many events: their words lie one behind the other, and the generation flips after 1,024.
fn entries_of(alloc: Global, config: (&str, &str), events: u32) -> Result<String, Fail> {
    let (line, outcome) = config;
    let mut text = format!(in alloc; "xive-account 1\n{HEADER}")?;
    text.push_str(format!(in alloc; "0 0 {line} -> {outcome}\n")?.as_str())?;
    text.push_str("1 0 hcall 0x3ac 0x2 0x0 0x0 0x0 0x10 -> code 0\n2 0 set 0 00 -> 01 00\n")?;
    for event in 0..events as u64 {
        let (first, number) = (3 + 3 * event, 1 + event);
        let addr = 0x1000 + 4 * (event % 1024);
        let word = if event < 1024 { 0x8000_0010u32 } else { 0x10 };
        text.push_str(format!(in alloc;
            "{} 0 trigger 0 -> 00 10 forward {number}\n",
            first
        )?.as_str())?;
        text.push_str(format!(in alloc;
            "{} 0 route 0 -> {number} end 0 wrote {addr:#x} {word:#x} present\n",
            first + 1
        )?
        .as_str())?;
        text.push_str(format!(in alloc; "{} 0 eoi 0 -> 10 00\n", first + 2)?.as_str())?;
    }
    Ok(text)
}

/// A queue that is filled once, and then read until it is empty.
fn compare_whole(rt: &impl Abort, alloc: Global, config: (&str, &str)) -> Result<(), Fail> {
    let script = script_of(alloc, config.0, 1024, 1025)?;
    let mut wanted = entries_of(alloc, config, 1024)?;
    for read in 0..1024 {
        wanted.push_str(format!(in alloc; "{} 0 read 0 -> item 0x10\n", 3075 + read)?.as_str())?;
    }
    wanted.push_str(
        "4099 0 read 0 -> empty\nend 4100\nsource 0 00 1024 1024\nqueue 0 vqnb 1024 1024 00 00\n",
    )?;
    wanted.push_str(
        "processor 0 saved 0x0 0x0 0x0\nring 0 0x0 0x0 0x0 0xff 0x0\nflight 1024\nnotices 0\ndone\n",
    )?;
    let (status, sink) = run_script(alloc, script.as_bytes(), 4096, 1 << 20, NONE, NONE)?;
    assert_eq!(rt; status, Status::Done);
    assert_eq!(rt; sink.held(), wanted.as_bytes());
    Ok(())
}

/// A queue that gets one entry more than it holds before the first read.
fn compare_run_over(rt: &impl Abort, alloc: Global, config: (&str, &str)) -> Result<(), Fail> {
    let script = script_of(alloc, config.0, 1025, 1)?;
    let mut wanted = entries_of(alloc, config, 1025)?;
    wanted.push_str(
        "3078 0 read 0 -> empty\nend 3079\nsource 0 00 1025 1025\nqueue 0 vqnb 1025 0 00 00\n",
    )?;
    wanted.push_str(
        "processor 0 saved 0x0 0x0 0x0\nring 0 0x0 0x0 0x0 0xff 0x0\nflight 1025\nnotices 0\ndone\n",
    )?;
    let (status, sink) = run_script(alloc, script.as_bytes(), 4096, 1 << 20, NONE, NONE)?;
    assert_eq!(rt; status, Status::Done);
    assert_eq!(rt; sink.held(), wanted.as_bytes());
    Ok(())
}

#[test]
fn a_whole_queue(rt: HostRuntime) -> Result<(), Fail> {
    compare_whole(&rt, rt.alloc(), BY_END)?;
    compare_whole(&rt, rt.alloc(), BY_CALL)
}

#[test]
fn a_queue_that_ran_over(rt: HostRuntime) -> Result<(), Fail> {
    compare_run_over(&rt, rt.alloc(), BY_END)?;
    compare_run_over(&rt, rt.alloc(), BY_CALL)
}

/// An END that doesn't notify on every event is written all the same, and notifies again after an EOI on its page.
#[test]
fn a_queue_that_coalesces(rt: HostRuntime) -> Result<(), Fail> {
    compare(
        &rt,
        rt.alloc(),
        b"board 1\nsources 1\nprocessors 1\nthreads 1\nram 1\nactors 2\nesb 2 0\ngo\n0 hcall 0x3b8 0x0 0x0 0x3 0x1000 0xc\n0 hcall 0x3ac 0x2 0x0 0x0 0x3 0x20\n0 set 0 00\n0 fire 0\n0 finish 0\n0 fire 0\n0 endload 3 0 0x0\n0 endload 3 0 0x0\n0 finish 0\n0 fire 0\nend\n",
        Status::Done,
        &[
            b"xive-account 1\nsources 1\nprocessors 1\nthreads 1\nram 1\nactors 2\nesb 2 0\ngo\n",
            b"0 0 hcall 0x3b8 0x0 0x0 0x3 0x1000 0xc -> code 0\n1 0 hcall 0x3ac 0x2 0x0 0x0 0x3 0x20 -> code 0\n2 0 set 0 00 -> 01 00\n",
            b"3 0 trigger 0 -> 00 10 forward 1\n4 0 route 0 -> 1 end 3 wrote 0x1000 0x80000020 present\n5 0 eoi 0 -> 10 00\n",
            b"6 0 trigger 0 -> 00 10 forward 2\n7 0 route 0 -> 2 end 3 wrote 0x1004 0x80000020 coalesced\n",
            b"8 0 endload 3 0 0x0 -> 11 10\n9 0 endload 3 0 0x0 -> 10 00\n10 0 eoi 0 -> 10 00\n",
            b"11 0 trigger 0 -> 00 10 forward 3\n12 0 route 0 -> 3 end 3 wrote 0x1008 0x80000020 present\n",
            b"end 13\nsource 0 10 3 3\nqueue 3 vqb 3 0 10 00\nprocessor 0 saved 0x0 0x0 0x0\nring 0 0x0 0x0 0x0 0xff 0x0\nflight 2\nnotices 0\ndone\n",
        ],
    )
}
