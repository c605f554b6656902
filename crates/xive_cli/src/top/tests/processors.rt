//! Processors: their contexts move on and off threads, priorities are presented to them wherever they are,
//! and they acknowledge.

use super::{Story, compare};
use std::alloc::Global;
use std::process::Abort;
use std::test::Fail;
use xv_base::Status;

#[test]
fn four_windows(rt: HostRuntime) -> Result<(), Fail> {
    compare(
        &rt,
        rt.alloc(),
        b"board 1\nsources 4\nprocessors 1\nthreads 1\nram 0\nactors 2\nesb 2 0\ngo\n0 endset 0 vnb 0 0 0x0 0 0 0x0\n0 hcall 0x3ac 0x2 0x0 0x0 0x0 0x0\n0 set 0 00\n0 endset 1 vnb 0 1 0x0 0 0 0x0\n0 hcall 0x3ac 0x2 0x1 0x0 0x1 0x1\n0 set 1 00\n0 endset 2 vnb 0 2 0x0 0 0 0x0\n0 hcall 0x3ac 0x2 0x2 0x0 0x2 0x2\n0 set 2 00\n0 endset 3 vnb 0 3 0x0 0 0 0x0\n0 hcall 0x3ac 0x2 0x3 0x0 0x3 0x3\n0 set 3 00\n0 restore 0 0\n0 push 0 0\n0 pull 0\n0 fire 0\n0 settle\n0 save 0\n0 fire 1\n0 settle\n0 restore 0 0\n0 fire 2\n0 settle\n0 push 0 0\n0 fire 3\n0 settle\n0 regs 0\n",
        Status::Done,
        &[
            b"xive-account 1\nsources 4\nprocessors 1\nthreads 1\nram 0\nactors 2\nesb 2 0\ngo\n",
            b"0 0 endset 0 vnb 0 0 0x0 0 0 0x0 -> ok\n1 0 hcall 0x3ac 0x2 0x0 0x0 0x0 0x0 -> code 0\n2 0 set 0 00 -> 01 00\n",
            b"3 0 endset 1 vnb 0 1 0x0 0 0 0x0 -> ok\n4 0 hcall 0x3ac 0x2 0x1 0x0 0x1 0x1 -> code 0\n5 0 set 1 00 -> 01 00\n",
            b"6 0 endset 2 vnb 0 2 0x0 0 0 0x0 -> ok\n7 0 hcall 0x3ac 0x2 0x2 0x0 0x2 0x2 -> code 0\n8 0 set 2 00 -> 01 00\n",
            b"9 0 endset 3 vnb 0 3 0x0 0 0 0x0 -> ok\n10 0 hcall 0x3ac 0x2 0x3 0x0 0x3 0x3 -> code 0\n11 0 set 3 00 -> 01 00\n",
            b"12 0 restore 0 0 -> ok\n13 0 tstore 0 1 0x18 4 0x80000400 -> ok\n14 0 tload 0 1 0x818 4 -> value 0x80000400\n",
            b"15 0 trigger 0 -> 00 10 forward 1\n16 0 route 0 -> 1 end 0 unwritten present\n17 0 take 0 -> present 0 0 backlogged\n18 0 take 0 -> no-message\n",
            b"19 0 save 0 -> ok\n20 0 trigger 1 -> 00 10 forward 1\n21 0 route 1 -> 1 end 1 unwritten present\n22 0 take 0 -> present 0 1 backlogged\n23 0 take 0 -> no-message\n",
            b"24 0 restore 0 0 -> ok\n25 0 trigger 2 -> 00 10 forward 1\n26 0 route 2 -> 1 end 2 unwritten present\n27 0 take 0 -> present 0 2 backlogged\n28 0 take 0 -> no-message\n",
            b"29 0 tstore 0 1 0x18 4 0x80000400 -> ok\n30 0 trigger 3 -> 00 10 forward 1\n31 0 route 3 -> 1 end 3 unwritten present\n32 0 take 0 -> present 0 3 found\n33 0 take 0 -> no-message\n",
            b"34 0 tload 0 2 0x10 8 -> value 0xf0ffff00ff00\n",
            b"end 35\nsource 0 10 1 1\nsource 1 10 1 1\nsource 2 10 1 1\nsource 3 10 1 1\nqueue 0 vnb 0 0 00 00\nqueue 1 vnb 0 0 00 00\nqueue 2 vnb 0 0 00 00\nqueue 3 vnb 0 0 00 00\n",
            b"processor 0 on 0 0x0 0x0 0x0\nring 0 0x0 0x0 0xf0 0x0 0x80000400\nflight 0\nnotices 0\ndone\n",
        ],
    )
}

#[test]
fn acknowledgements(rt: HostRuntime) -> Result<(), Fail> {
    let done = Status::Done;
    let header =
        b"xive-account 1\nsources 1\nprocessors 1\nthreads 1\nram 0\nactors 2\nesb 2 0\ngo\n";
    let pushed = b"0 0 restore 0 0 -> ok\n1 0 tstore 0 1 0x18 4 0x80000400 -> ok\n";
    compare(
        &rt,
        rt.alloc(),
        b"board 1\nsources 1\nprocessors 1\nthreads 1\nram 0\nactors 2\nesb 2 0\ngo\n0 restore 0 0\n0 push 0 0\n0 cppr 0 4\n0 inject 0 6\n0 inject 0 2\n0 inject 0 2\n0 inject 0 5\n0 ack 0\n0 ack 0\n0 cppr 0 0xff\n0 ack 0\n0 ack 0\n",
        done,
        &[
            header,
            pushed,
            b"2 0 tstore 0 2 0x11 1 0x4 -> stored\n3 0 tstore 0 2 0x812 1 0x6 -> stored\n4 0 tstore 0 2 0x812 1 0x2 -> stored\n5 0 tstore 0 2 0x812 1 0x2 -> stored\n6 0 tstore 0 2 0x812 1 0x5 -> stored\n",
            b"7 0 tload 0 2 0x810 2 -> value 0x8002\n8 0 tload 0 2 0x810 2 -> value 0x2\n9 0 tstore 0 2 0x11 1 0xff -> stored\n10 0 tload 0 2 0x810 2 -> value 0x8005\n11 0 tload 0 2 0x810 2 -> value 0x5\n",
            b"end 12\nprocessor 0 on 0 0x0 0x0 0x0\nring 0 0x0 0x5 0x2 0x6 0x80000400\nflight 0\nnotices 0\ndone\n",
        ],
    )?;
    compare(
        &rt,
        rt.alloc(),
        b"board 1\nsources 1\nprocessors 1\nthreads 1\nram 0\nactors 2\nesb 2 0\ngo\n0 restore 0 0\n0 push 0 0\n0 cppr 0 7\n0 inject 0 3\n0 regs 0\n0 cppr 0 2\n0 regs 0\n0 ack 0\n0 cppr 0 8\n",
        done,
        &[
            header,
            pushed,
            b"2 0 tstore 0 2 0x11 1 0x7 -> stored\n3 0 tstore 0 2 0x812 1 0x3 -> stored\n4 0 tload 0 2 0x10 8 -> value 0x800710ffff00ff03\n",
            b"5 0 tstore 0 2 0x11 1 0x2 -> stored\n6 0 tload 0 2 0x10 8 -> value 0x210ffff00ff03\n7 0 tload 0 2 0x810 2 -> value 0x2\n8 0 tstore 0 2 0x11 1 0x8 -> stored\n",
            b"end 9\nprocessor 0 on 0 0x0 0x0 0x0\nring 0 0x80 0xff 0x10 0x3 0x80000400\nflight 0\nnotices 0\ndone\n",
        ],
    )
}

#[test]
fn moves_out_of_turn(rt: HostRuntime) -> Result<(), Fail> {
    compare(
        &rt,
        rt.alloc(),
        b"board 1\nsources 1\nprocessors 2\nthreads 2\nram 0\nactors 2\nesb 2 0\nunconnected 1 1\ngo\n0 restore 0 0\n0 push 0 0\n0 pull 0\n0 restore 0 1\n0 push 1 0\n0 push 1 1\n0 pull 0\n0 cppr 0 5\n0 connect 1\n0 restore 1 0\n0 save 1\n",
        Status::Done,
        &[
            b"xive-account 1\nsources 1\nprocessors 2\nthreads 2\nram 0\nactors 2\nesb 2 0\nunconnected 1 1\ngo\n",
            b"0 0 restore 0 0 -> ok\n1 0 tstore 0 1 0x18 4 0x80000400 -> ok\n2 0 tload 0 1 0x818 4 -> value 0x80000400\n",
            b"3 0 restore 0 1 -> refused vp-busy pulled 0\n4 0 tstore 1 1 0x18 4 0x80000400 -> refused not-restored pulled 0\n5 0 tstore 1 1 0x18 4 0x80000401 -> refused not-valid\n",
            b"6 0 tload 0 1 0x818 4 -> refused no-context\n7 0 tstore 0 2 0x11 1 0x5 -> refused no-context\n8 0 connect 1 -> code 0\n9 0 restore 1 0 -> refused ring-busy 0\n10 0 save 1 -> refused not-pulled saved\n",
            b"end 11\nprocessor 0 pulled 0 0x0 0x0 0x0\nprocessor 1 saved 0x0 0x0 0x0\nring 0 0x0 0x0 0x0 0xff 0x400\nring 1 0x0 0x0 0x0 0xff 0x0\nflight 0\nnotices 0\ndone\n",
        ],
    )
}

/// Two sources, whose ENDs notify processor 0 with the priorities 3 and 5.
const SET_UP: &[(&str, &str)] = &[
    ("endset 3 vnb 0 3 0x0 0 0 0x0", "ok"),
    ("hcall 0x3ac 0x2 0x0 0x0 0x3 0x0", "code 0"),
    ("set 0 00", "01 00"),
    ("endset 5 vnb 0 5 0x0 0 0 0x0", "ok"),
    ("hcall 0x3ac 0x2 0x1 0x0 0x5 0x0", "code 0"),
    ("set 1 00", "01 00"),
];

const HEADER: &str = "sources 2\nprocessors 1\nthreads 2\nram 0\nactors 1\nesb 2 0\ngo\n";

impl Story {
    /// A source fires, and its priority is presented.
    fn event(&mut self, alloc: Global, s: u32, priority: u32, on: bool) -> Result<(), Fail> {
        self.script
            .push_str(format!(in alloc; "0 fire {s}\n0 take 0\n")?.as_str())?;
        self.entry(
            alloc,
            format!(in alloc; "trigger {s}")?.as_str(),
            "00 10 forward 1",
        )?;
        self.entry(
            alloc,
            format!(in alloc; "route {s}")?.as_str(),
            format!(in alloc; "1 end {priority} unwritten present")?.as_str(),
        )?;
        let found = if on { "found" } else { "backlogged" };
        self.entry(
            alloc,
            "take 0",
            format!(in alloc; "present 0 {priority} {found}")?.as_str(),
        )
    }

    /// Move `place` of six: onto thread 0, off it, and onto this thread.
    fn move_on(&mut self, alloc: Global, place: usize, t: u32) -> Result<(), Fail> {
        match place {
            0 => self.step(alloc, "restore 0 0", "restore 0 0", "ok"),
            1 => self.step(alloc, "push 0 0", "tstore 0 1 0x18 4 0x80000400", "ok"),
            2 => self.step(alloc, "pull 0", "tload 0 1 0x818 4", "value 0x80000400"),
            3 => self.step(alloc, "save 0", "save 0", "ok"),
            4 => {
                let line = format!(in alloc; "restore 0 {t}")?;
                self.step(alloc, line.as_str(), line.as_str(), "ok")
            }
            _ => self.step(
                alloc,
                format!(in alloc; "push {t} 0")?.as_str(),
                format!(in alloc; "tstore {t} 1 0x18 4 0x80000400")?.as_str(),
                "ok",
            ),
        }
    }

    /// The processor lets all priorities through, and acknowledges.
    fn acknowledge(&mut self, alloc: Global, t: u32, value: &str) -> Result<(), Fail> {
        self.step(
            alloc,
            format!(in alloc; "cppr {t} 0xff")?.as_str(),
            format!(in alloc; "tstore {t} 2 0x11 1 0xff")?.as_str(),
            "stored",
        )?;
        self.step(
            alloc,
            format!(in alloc; "ack {t}")?.as_str(),
            format!(in alloc; "tload {t} 2 0x810 2")?.as_str(),
            format!(in alloc; "value {value}")?.as_str(),
        )
    }
}

/// The report behind its first line, where one or both of the sources fired and all was acknowledged.
fn report(alloc: Global, both: bool, t: u32) -> Result<String, Fail> {
    let second = if both { "10 1 1" } else { "00 0 0" };
    let rings = if t == 0 {
        "ring 0 0x0 0xff 0x0 0xff 0x80000400\nring 1 0x0 0x0 0x0 0xff 0x0\n"
    } else {
        "ring 0 0x0 0x0 0x0 0xff 0x0\nring 1 0x0 0xff 0x0 0xff 0x80000400\n"
    };
    let mut report = format!(in alloc;
        "source 0 10 1 1\nsource 1 {second}\nqueue 3 vnb 0 0 00 00\nqueue 5 vnb 0 0 00 00\n"
    )?;
    let last = format!(in alloc;
        "processor 0 on {t} 0x0 0x0 0x0\n{rings}flight 0\nnotices 0\ndone\n"
    )?;
    report.push_str(last.as_str())?;
    Ok(report)
}

/// Puts the presentation of priority 3 before this move of the six, or behind them, and that of priority 5, if any.
/// Each is pending at the end, and is acknowledged once.
fn play(
    rt: &impl Abort,
    alloc: Global,
    first: usize,
    second: Option<usize>,
    t: u32,
) -> Result<(), Fail> {
    let mut story = Story::new(alloc, HEADER)?;
    story.steps(alloc, SET_UP)?;
    for place in 0..7 {
        let on = place == 2 || place == 6;
        if place == first {
            story.event(alloc, 0, 3, on)?;
        }
        if second == Some(place) {
            story.event(alloc, 1, 5, on)?;
        }
        if place < 6 {
            story.move_on(alloc, place, t)?;
        }
    }
    story.acknowledge(alloc, t, "0x8003")?;
    if second.is_some() {
        story.acknowledge(alloc, t, "0x8005")?;
    }
    story.acknowledge(alloc, t, "0xff")?;
    let report = report(alloc, second.is_some(), t)?;
    story.compare(rt, alloc, report.as_str())
}

#[test]
fn one_event_at_each_place(rt: HostRuntime) -> Result<(), Fail> {
    for t in 0..2 {
        for first in 0..7 {
            play(&rt, rt.alloc(), first, None, t)?;
        }
    }
    Ok(())
}

#[test]
fn two_events_at_each_two_places(rt: HostRuntime) -> Result<(), Fail> {
    for t in 0..2 {
        for first in 0..7 {
            for second in 0..7 {
                play(&rt, rt.alloc(), first, Some(second), t)?;
            }
        }
    }
    Ok(())
}
