//! The hypercalls of a guest: what each answers, and how its line goes on.

use super::Story;
use std::test::Fail;

const HEADER: &str = "sources 4\nprocessors 2\nthreads 1\nram 1\nactors 2\nesb 2 0\ngo\n";

/// Calls about sources. The second half finds source 1 configured.
const SOURCES: &[(&str, &str)] = &[
    ("hcall 0x3a8 0x1 0x0 0x0 0x0 0x0", "code -4"),
    ("hcall 0x3a8 0x0 0x4 0x0 0x0 0x0", "code -55"),
    (
        "hcall 0x3a8 0x0 0x1 0x0 0x0 0x0",
        "code 0 0x0 0x6010000030000 0x6010000020000 0x10",
    ),
    ("hcall 0x3ac 0x4 0x0 0x0 0x0 0x0", "code -4"),
    ("hcall 0x3ac 0x0 0x4 0x0 0x0 0x0", "code -55"),
    ("hcall 0x3ac 0x0 0x1 0x2 0x7 0x0", "code -57"),
    ("hcall 0x3ac 0x0 0x1 0x2 0x3 0x0", "code -56"),
    ("hcall 0x3b0 0x0 0x1 0x0 0x0 0x0", "code 0 0x0 0xff 0x0"),
    ("hcall 0x3ac 0x2 0x1 0x1 0x3 0x21", "code 0"),
    ("hcall 0x3b0 0x0 0x1 0x0 0x0 0x0", "code 0 0x1 0x3 0x21"),
];

/// Calls about queues, and about the reporting line, which isn't there.
const QUEUES: &[(&str, &str)] = &[
    ("hcall 0x3b4 0x0 0x0 0x7 0x0 0x0", "code -56"),
    ("hcall 0x3b4 0x0 0x2 0x3 0x0 0x0", "code -55"),
    (
        "hcall 0x3b4 0x0 0x1 0x3 0x0 0x0",
        "code 0 0x6020000160000 0x10",
    ),
    ("hcall 0x3b8 0x2 0x0 0x0 0x0 0x0", "code -4"),
    ("hcall 0x3b8 0x1 0x1 0x3 0x1000 0xd", "code -58"),
    ("hcall 0x3b8 0x1 0x1 0x3 0x1004 0xc", "code -57"),
    ("hcall 0x3b8 0x1 0x1 0x3 0x100000 0xc", "code -57"),
    ("hcall 0x3b8 0x1 0x1 0x3 0x1000 0xc", "code 0"),
    (
        "hcall 0x3bc 0x0 0x1 0x3 0x0 0x0",
        "code 0 0x1 0x1000 0xc 0x0",
    ),
    (
        "hcall 0x3bc 0x1 0x1 0x3 0x0 0x0",
        "code 0 0x4000000000000001 0x1000 0xc 0x0",
    ),
    ("hcall 0x3c0 0x0 0x0 0x0 0x0 0x0", "code -2"),
    ("hcall 0x3c4 0x0 0x0 0x0 0x0 0x0", "code -2"),
    ("hcall 0x999 0x0 0x0 0x0 0x0 0x0", "code -2"),
];

/// Calls whose lines would go on, had they not been refused, and one whose line goes on as a load.
const PAGES: &[(&str, &str)] = &[
    ("hcall 0x3c8 0x2 0x0 0x0 0x0 0x0", "code -4"),
    ("hcall 0x3c8 0x0 0x4 0x0 0x0 0x0", "code -55"),
    ("hcall 0x3c8 0x0 0x1 0x10000 0x0 0x0", "code -56"),
    ("hcall 0x3c8 0x0 0x1 0xc00 0x0 0x0", "code 0"),
];

#[test]
fn every_call(rt: HostRuntime) -> Result<(), Fail> {
    let alloc = rt.alloc();
    let mut story = Story::new(alloc, HEADER)?;
    story.steps(alloc, SOURCES)?;
    story.steps(alloc, QUEUES)?;
    story.steps(alloc, PAGES)?;
    story.entry(alloc, "load 1 1 0xc00", "01 00")?;
    story.steps(alloc, &[("hcall 0x3cc 0x0 0x1 0x0 0x0 0x0", "code 0")])?;
    story.entry(alloc, "take 0", "no-message")?;
    story.entry(alloc, "quiet 1", "quiet")?;
    story.steps(
        alloc,
        &[
            ("hcall 0x3cc 0x0 0x4 0x0 0x0 0x0", "code -55"),
            ("hcall 0x3d0 0x1 0x0 0x0 0x0 0x0", "code -4"),
            ("hcall 0x3d0 0x0 0x0 0x0 0x0 0x0", "code 0"),
        ],
    )?;
    story.entry(alloc, "set 0 01", "01 01")?;
    story.entry(alloc, "set 1 01", "00 01")?;
    story.entry(alloc, "set 2 01", "01 01")?;
    story.entry(alloc, "set 3 01", "01 01")?;
    story.compare(
        &rt,
        alloc,
        "processor 0 saved 0x0 0x0 0x0\nprocessor 1 saved 0x0 0x0 0x0\nring 0 0x0 0x0 0x0 0xff 0x0\nflight 0\nnotices 0\ndone\n",
    )
}

/// The pages of a source by what the board offers, and none of a level source.
#[test]
fn pages_of_a_source(rt: HostRuntime) -> Result<(), Fail> {
    let alloc = rt.alloc();
    let call = "hcall 0x3a8 0x0 0x1 0x0 0x0 0x0";
    let report =
        "processor 0 saved 0x0 0x0 0x0\nprocessor 1 saved 0x0 0x0 0x0\nring 0 0x0 0x0 0x0 0xff 0x0\nflight 0\nnotices 0\ndone\n";
    let none = "0xffffffffffffffff";
    let rows = [
        ("2 0\nlevel 1 1", "0xc", none, none),
        ("1 1\nlevel 1 1", "0xf", none, none),
        ("2 1", "0x1", "0x6010000030000", "0x6010000020000"),
        ("1 0", "0x2", "0x6010000020000", none),
    ];
    for (esb, flags, management, trigger) in &rows {
        let header = format!(in alloc;
            "sources 4\nprocessors 2\nthreads 1\nram 1\nactors 2\nesb {esb}\ngo\n"
        )?;
        let outcome = format!(in alloc; "code 0 {flags} {management} {trigger} 0x10")?;
        let mut story = Story::new(alloc, header.as_str())?;
        story.step(alloc, call, call, outcome.as_str())?;
        story.compare(&rt, alloc, report)?;
    }
    Ok(())
}

/// A route whose message stays in flight, and an event that is forwarded behind it.
const TWO_EVENTS: &[(&str, &str)] = &[
    ("route 0", "1 end 0 wrote 0x1000 0x80000010 present"),
    ("trigger 0", "10 11"),
    ("eoi 0", "11 10 forward 2"),
];

/// The accesses, the presentations and the sets by which lines go on, with a source that no reset reaches.
#[test]
fn lines_that_go_on(rt: HostRuntime) -> Result<(), Fail> {
    let alloc = rt.alloc();
    let mut story = Story::new(
        alloc,
        "sources 3\nprocessors 1\nthreads 1\nram 1\nactors 1\nesb 2 0\nunclaimed 2 2\ngo\n",
    )?;
    story.steps(alloc, &[("hcall 0x3b8 0x1 0x0 0x0 0x1000 0xc", "code 0")])?;
    story.steps(alloc, &[("hcall 0x3ac 0x2 0x0 0x0 0x0 0x10", "code 0")])?;
    story.steps(alloc, &[("hcall 0x3c8 0x0 0x0 0xc00 0x0 0x0", "code 0")])?;
    story.entry(alloc, "load 0 1 0xc00", "01 00")?;
    story.steps(alloc, &[("hcall 0x3c8 0x1 0x0 0x0 0x0 0x0", "code 0")])?;
    story.entry(alloc, "store 0 1 0x0", "00 10 forward 1")?;
    story.steps(alloc, TWO_EVENTS)?;
    story.steps(alloc, &[("hcall 0x3cc 0x0 0x0 0x0 0x0 0x0", "code 0")])?;
    story.entry(alloc, "take 0", "present 0 0 backlogged")?;
    story.entry(alloc, "take 0", "no-message")?;
    story.entry(alloc, "route 0", "2 end 0 wrote 0x1004 0x80000010 present")?;
    story.entry(alloc, "take 0", "present 0 0 backlogged")?;
    story.entry(alloc, "take 0", "no-message")?;
    story.entry(alloc, "quiet 0", "quiet")?;
    story.steps(alloc, &[("set 2 00", "01 00")])?;
    story.step(alloc, "reset", "hcall 0x3d0 0x0 0x0 0x0 0x0 0x0", "code 0")?;
    story.entry(alloc, "set 0 01", "10 01")?;
    story.entry(alloc, "set 1 01", "01 01")?;
    story.steps(
        alloc,
        &[("hcall 0x3b0 0x0 0x0 0x0 0x0 0x0", "code 0 0x0 0xff 0x0")],
    )?;
    story.compare(
        &rt,
        alloc,
        "source 0 01 2 2\nsource 2 00 0 0\nprocessor 0 saved 0x0 0x0 0x80\nring 0 0x0 0x0 0x0 0xff 0x0\nflight 0\nnotices 0\ndone\n",
    )
}
