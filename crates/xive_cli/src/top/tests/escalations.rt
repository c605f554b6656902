//! What isn't delivered escalates, and a source is quiet when nothing of it is on its way.

use super::{Story, compare};
use std::alloc::Global;
use std::process::Abort;
use std::test::Fail;
use xv_base::Status;

/// A message that is in flight while its END is configured anew, by this line, escalates as it was made.
fn compare_over(rt: &impl Abort, alloc: Global, line: &str, outcome: &str) -> Result<(), Fail> {
    let header = "sources 1\nprocessors 1\nthreads 1\nram 1\nactors 2\nesb 2 0\ngo\n";
    let mut story = Story::new(alloc, header)?;
    story.steps(alloc, BEFORE)?;
    story.step(alloc, line, line, outcome)?;
    story.steps(alloc, AFTER)?;
    story.compare(
        rt,
        alloc,
        "source 0 10 2 2\nqueue 7 vnb 0 0 00 00\nprocessor 0 saved 0x0 0x0 0x9\nring 0 0x0 0x0 0x0 0xff 0x0\nflight 0\nnotices 0\ndone\n",
    )
}

const BEFORE: &[(&str, &str)] = &[
    ("endset 4 vnbe 0 4 0x0 0 7 0x55", "ok"),
    ("endset 7 vnb 0 7 0x0 0 0 0x0", "ok"),
    ("hcall 0x3ac 0x2 0x0 0x0 0x4 0x10", "code 0"),
    ("set 0 00", "01 00"),
    ("trigger 0", "00 10 forward 1"),
    ("route 0", "1 end 4 unwritten present"),
];

const AFTER: &[(&str, &str)] = &[
    ("take 0", "present 0 4 backlogged escalate"),
    ("take 0", "escalate 4 end 7 unwritten present"),
    ("take 0", "present 0 7 backlogged"),
    ("endset 4 vnbe 0 4 0x0 0 7 0x55", "ok"),
    ("eoi 0", "10 00"),
    ("trigger 0", "00 10 forward 2"),
    ("route 0", "2 end 4 unwritten present"),
    ("endset 4 - 0 0 0x0 0 0 0x0", "ok"),
    ("take 0", "present 0 4 backlogged escalate"),
    ("take 0", "escalate 4 coalesced"),
];

#[test]
fn escalation_over_a_configuration(rt: HostRuntime) -> Result<(), Fail> {
    let alloc = rt.alloc();
    compare_over(&rt, alloc, "endset 4 vqnb 0 4 0x10000 16 0 0x0", "ok")?;
    compare_over(&rt, alloc, "hcall 0x3b8 0x1 0x0 0x4 0x10000 0x10", "code 0")
}

/// Escalations of what is lost, by the state of the END, and of a silent END; and whether a source is quiet.
#[test]
fn escalations_and_quiet(rt: HostRuntime) -> Result<(), Fail> {
    compare(
        &rt,
        rt.alloc(),
        b"board 1\nsources 2\nprocessors 1\nthreads 1\nram 1\nactors 1\nesb 2 0\ngo\n0 endset 2 vne 0 2 0x0 0 7 0x9\n0 endset 3 vnes 0 3 0x0 0 7 0xa\n0 endset 7 vqnb 0 7 0x1000 12 0 0x0\n0 hcall 0x3ac 0x2 0x0 0x0 0x2 0x10\n0 hcall 0x3ac 0x2 0x1 0x0 0x3 0x11\n0 set 0 00\n0 set 1 00\n0 fire 0\n0 quiet 0\n0 settle\n0 quiet 0\n0 finish 0\n0 fire 0\n0 settle\n0 fire 1\n0 take 0\n",
        Status::Done,
        &[
            b"xive-account 1\nsources 2\nprocessors 1\nthreads 1\nram 1\nactors 1\nesb 2 0\ngo\n",
            b"0 0 endset 2 vne 0 2 0x0 0 7 0x9 -> ok\n1 0 endset 3 vnes 0 3 0x0 0 7 0xa -> ok\n2 0 endset 7 vqnb 0 7 0x1000 12 0 0x0 -> ok\n",
            b"3 0 hcall 0x3ac 0x2 0x0 0x0 0x2 0x10 -> code 0\n4 0 hcall 0x3ac 0x2 0x1 0x0 0x3 0x11 -> code 0\n5 0 set 0 00 -> 01 00\n6 0 set 1 00 -> 01 00\n",
            b"7 0 trigger 0 -> 00 10 forward 1\n8 0 route 0 -> 1 end 2 unwritten present\n9 0 quiet 0 -> busy 0 1\n",
            b"10 0 take 0 -> present 0 2 lost escalate\n11 0 take 0 -> escalate 2 end 7 wrote 0x1000 0x80000009 present\n12 0 take 0 -> present 0 7 backlogged\n13 0 take 0 -> no-message\n14 0 quiet 0 -> quiet\n",
            b"15 0 eoi 0 -> 10 00\n16 0 trigger 0 -> 00 10 forward 2\n17 0 route 0 -> 2 end 2 unwritten present\n18 0 take 0 -> present 0 2 lost escalate\n19 0 take 0 -> escalate 2 coalesced\n20 0 take 0 -> no-message\n",
            b"21 0 trigger 1 -> 00 10 forward 1\n22 0 route 1 -> 1 end 3 unwritten escalate\n23 0 take 0 -> escalate 3 end 7 wrote 0x1004 0x8000000a present\nend 24\n",
            b"source 0 10 2 2\nsource 1 10 1 1\nqueue 2 vne 0 0 00 11\nqueue 3 vnes 0 0 00 10\nqueue 7 vqnb 2 0 00 00\nprocessor 0 saved 0x0 0x0 0x1\nring 0 0x0 0x0 0x0 0xff 0x0\nflight 1\nnotices 0\ndone\n",
        ],
    )
}
