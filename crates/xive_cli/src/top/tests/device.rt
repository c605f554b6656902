//! The KVM device: its attributes, how their lines go on, the state of processors, and migrations.

use super::Story;
use std::alloc::Global;
use std::test::Fail;

impl Story {
    /// The entries by which the last line goes on.
    fn goes_on(&mut self, alloc: Global, entries: &[(&str, &str)]) -> Result<(), Fail> {
        for (op, outcome) in entries {
            self.entry(alloc, op, outcome)?;
        }
        Ok(())
    }
}

/// Two sources with the least payload and the greatest. The queue is set again over what was written: its second round
/// begins, so what is there isn't read again.
const TWO_ROUNDS: &[(&str, &str)] = &[
    ("hcall 0x3b8 0x1 0x0 0x0 0x1000 0xc", "code 0"),
    ("hcall 0x3ac 0x2 0x0 0x0 0x0 0x0", "code 0"),
    ("hcall 0x3ac 0x2 0x1 0x0 0x0 0x7fffffff", "code 0"),
    ("set 0 00", "01 00"),
    ("set 1 00", "01 00"),
    ("trigger 0", "00 10 forward 1"),
    ("route 0", "1 end 0 wrote 0x1000 0x80000000 present"),
    ("trigger 1", "00 10 forward 1"),
    ("route 1", "1 end 0 wrote 0x1004 0xffffffff present"),
    ("read 0", "item 0x0"),
    ("read 0", "item 0x7fffffff"),
    ("read 0", "empty"),
    ("kvmeq 0x0 0x1 12 0x1000 0 0", "code 0"),
    ("read 0", "empty"),
    ("eoi 0", "10 00"),
    ("trigger 0", "00 10 forward 2"),
    ("route 0", "2 end 0 wrote 0x1000 0x0 present"),
    ("read 0", "item 0x0"),
];

#[test]
fn queue_set_again(rt: HostRuntime) -> Result<(), Fail> {
    let alloc = rt.alloc();
    let mut story = Story::new(
        alloc,
        "sources 2\nprocessors 1\nthreads 1\nram 1\nactors 2\nesb 2 0\ngo\n",
    )?;
    story.steps(alloc, TWO_ROUNDS)?;
    story.compare(
        &rt,
        alloc,
        "source 0 10 2 2\nsource 1 10 1 1\nqueue 0 vqnb 1 1 00 00\nprocessor 0 saved 0x0 0x0 0x0\nring 0 0x0 0x0 0x0 0xff 0x0\nflight 3\nnotices 0\ndone\n",
    )
}

/// Moves that are refused, a processor that is connected late, and the state of one that is pulled and then saved.
const STATES: &[(&str, &str)] = &[
    ("restore 0 0", "ok"),
    ("tstore 0 1 0x18 4 0x80000400", "ok"),
    ("tload 0 1 0x818 4", "value 0x80000400"),
    ("restore 0 1", "refused vp-busy pulled 0"),
    (
        "tstore 1 1 0x18 4 0x80000400",
        "refused not-restored pulled 0",
    ),
    ("tstore 1 1 0x18 4 0x80000401", "refused not-valid"),
    ("tload 0 1 0x818 4", "refused no-context"),
    ("tstore 0 2 0x11 1 0x5", "refused no-context"),
    ("connect 1", "code 0"),
    ("restore 1 0", "refused ring-busy 0"),
    ("save 1", "refused not-pulled saved"),
    ("vpget 0", "code -16"),
    ("save 0", "ok"),
    ("tload 0 3 0x10 1", "bad-access"),
    ("vpset 0 0x9 0x40", "code 0"),
    ("vpget 0", "context 0xff 0x40"),
];

#[test]
fn states_of_processors(rt: HostRuntime) -> Result<(), Fail> {
    let alloc = rt.alloc();
    let mut story = Story::new(
        alloc,
        "sources 1\nprocessors 2\nthreads 2\nram 0\nactors 2\nesb 2 0\nunconnected 1 1\ngo\n",
    )?;
    story.steps(alloc, STATES)?;
    story.compare(
        &rt,
        alloc,
        "processor 0 saved 0xff 0x40 0x0\nprocessor 1 saved 0x0 0x0 0x0\nring 0 0x0 0x0 0x0 0xff 0x0\nring 1 0x0 0x0 0x0 0xff 0x0\nflight 0\nnotices 0\ndone\n",
    )
}

/// Up to the attribute that initialises source 1.
const BEFORE_INIT: &[(&str, &str)] = &[
    ("kvmset 2 0x2 0x0", "code -7"),
    ("kvmset 2 0x1 0x1", "code -22"),
    ("kvmset 3 0x2 0x0", "code -2"),
    ("kvmset 3 0x1 0x0", "code -22"),
    ("kvmset 2 0x1 0x0", "code 0"),
];

/// Then source 1 gets its queue, and is synced.
const AFTER_INIT: &[(&str, &str)] = &[
    ("kvmset 3 0x1 0x7", "code -22"),
    ("kvmset 3 0x1 0x8", "code -22"),
    ("kvmset 3 0x1 0x0", "code -6"),
    ("kvmeq 0x8 0x1 12 0x1000 1 0", "code -2"),
    ("kvmeq 0x7 0x1 12 0x1000 1 0", "code -22"),
    ("kvmeq 0x0 0x0 12 0x1000 1 0", "code -22"),
    ("kvmeq 0x0 0x1 12 0x1000 1 0", "code 0"),
    ("kvmset 3 0x1 0x2a00000000", "code 0"),
    ("kvmget 4 0x0", "queue 0x1 12 0x1000 1 0"),
    ("kvmset 1 0x3 0x3", "code -22"),
    ("kvmset 1 0x3 0x2", "code -16"),
    ("kvmset 5 0x2 0x0", "code -2"),
    ("kvmset 5 0x1 0x0", "code 0"),
];

#[test]
fn attributes(rt: HostRuntime) -> Result<(), Fail> {
    let alloc = rt.alloc();
    let mut story = Story::new(
        alloc,
        "sources 2\nprocessors 2\nthreads 1\nram 1\nactors 2\nesb 2 0\nunclaimed 1 1\nunconnected 1 1\ngo\n",
    )?;
    story.steps(alloc, BEFORE_INIT)?;
    story.entry(alloc, "init 1 0", "01 01")?;
    story.steps(alloc, AFTER_INIT)?;
    story.entry(alloc, "take 0", "no-message")?;
    story.entry(alloc, "quiet 1", "quiet")?;
    story.steps(alloc, &[("kvmset 9 0x0 0x0", "code -6")])?;
    story.steps(
        alloc,
        &[("hcall 0x3b0 0x0 0x1 0x0 0x0 0x0", "code 0 0x0 0x0 0x15")],
    )?;
    story.compare(
        &rt,
        alloc,
        "queue 0 vqnb 0 0 00 00\nprocessor 0 saved 0x0 0x0 0x0\nring 0 0x0 0x0 0x0 0xff 0x0\nflight 0\nnotices 0\ndone\n",
    )
}

#[test]
fn fewer_servers(rt: HostRuntime) -> Result<(), Fail> {
    let alloc = rt.alloc();
    let mut story = Story::new(
        alloc,
        "sources 1\nprocessors 2\nthreads 1\nram 0\nactors 2\nesb 2 0\nunconnected 0 1\ngo\n",
    )?;
    story.steps(
        alloc,
        &[
            ("kvmset 1 0x3 0x1", "code 0"),
            ("connect 1", "code -22"),
            ("connect 0", "code 0"),
            ("kvmset 1 0x3 0x2", "code -16"),
            ("kvmget 3 0x0", "code -6"),
            ("vpset 1 0x0 0x0", "code -22"),
        ],
    )?;
    story.compare(
        &rt,
        alloc,
        "processor 0 saved 0x0 0x0 0x0\nring 0 0x0 0x0 0x0 0xff 0x0\nflight 0\nnotices 0\ndone\n",
    )
}

#[test]
fn migration(rt: HostRuntime) -> Result<(), Fail> {
    let alloc = rt.alloc();
    let mut story = Story::new(
        alloc,
        "sources 1\nprocessors 1\nthreads 1\nram 0\nactors 2\nesb 2 0\ngo\n",
    )?;
    story.steps(
        alloc,
        &[("set 0 00", "01 00"), ("trigger 0", "00 10 forward 1")],
    )?;
    story.step(alloc, "migrate", "set 0 01", "10 01")?;
    story.goes_on(
        alloc,
        &[
            ("take 0", "no-message"),
            ("route 0", "1 masked"),
            ("take 0", "no-message"),
            ("set 0 10", "01 10"),
        ],
    )?;
    story.compare(
        &rt,
        alloc,
        "source 0 10 1 1\nprocessor 0 saved 0x0 0x0 0x0\nring 0 0x0 0x0 0x0 0xff 0x0\nflight 0\nnotices 0\ndone\n",
    )
}

/// Source 0 has an event presented and one queued, source 1 one that isn't routed, source 2 is on, and 3 is off.
/// Source 4 isn't initialised, and has one that isn't routed either.
const TO_MIGRATE: &[(&str, &str)] = &[
    ("kvmeq 0x3 0x1 12 0x1000 1 0", "code 0"),
    ("kvmset 3 0x0 0x2000000003", "code 0"),
    ("kvmset 3 0x1 0x2200000003", "code 0"),
    ("set 0 00", "01 00"),
    ("set 1 00", "01 00"),
    ("set 2 00", "01 00"),
    ("set 4 00", "01 00"),
    ("trigger 0", "00 10 forward 1"),
    ("trigger 0", "10 11"),
    ("route 0", "1 end 3 wrote 0x1000 0x80000010 present"),
    ("trigger 1", "00 10 forward 1"),
    ("trigger 4", "00 10 forward 1"),
];

/// How a migration of it goes on after its first entry.
const MIGRATED: &[(&str, &str)] = &[
    ("set 1 01", "10 01"),
    ("set 2 01", "00 01"),
    ("set 3 01", "01 01"),
    ("take 0", "present 0 3 backlogged"),
    ("take 0", "no-message"),
    ("route 1", "1 end 3 wrote 0x1004 0x80000011 present"),
    ("take 0", "present 0 3 backlogged"),
    ("take 0", "no-message"),
    ("route 4", "1 no-source"),
    ("take 0", "no-message"),
    ("set 0 11", "01 11"),
    ("set 1 10", "01 10"),
    ("set 2 00", "01 00"),
    ("set 3 01", "01 01"),
];

/// How a second one goes on, before which source 0 was forwarded again.
const MIGRATED_AGAIN: &[(&str, &str)] = &[
    ("set 1 01", "10 01"),
    ("set 2 01", "00 01"),
    ("set 3 01", "01 01"),
    ("take 0", "no-message"),
    ("route 0", "2 end 3 wrote 0x1008 0x80000010 present"),
    ("take 0", "present 0 3 backlogged"),
    ("take 0", "no-message"),
    ("set 0 10", "01 10"),
    ("set 1 10", "01 10"),
    ("set 2 00", "01 00"),
    ("set 3 01", "01 01"),
];

/// Each migration brings back the pairs of its own time.
#[test]
fn two_migrations(rt: HostRuntime) -> Result<(), Fail> {
    let alloc = rt.alloc();
    let mut story = Story::new(
        alloc,
        "sources 5\nprocessors 1\nthreads 1\nram 1\nactors 1\nesb 2 0\nunclaimed 4 4\ngo\n",
    )?;
    story.steps(alloc, TO_MIGRATE)?;
    story.step(alloc, "migrate", "set 0 01", "11 01")?;
    story.goes_on(alloc, MIGRATED)?;
    story.steps(
        alloc,
        &[
            ("kvmget 4 0x3", "queue 0x1 12 0x1000 1 2"),
            ("vpget 0", "context 0x0 0x10"),
            ("eoi 0", "11 10 forward 2"),
        ],
    )?;
    story.step(alloc, "migrate", "set 0 01", "10 01")?;
    story.goes_on(alloc, MIGRATED_AGAIN)?;
    story.compare(
        &rt,
        alloc,
        "source 0 10 2 2\nsource 1 10 1 1\nsource 2 00 0 0\nsource 4 10 1 1\nqueue 3 vqnb 3 0 00 00\nprocessor 0 saved 0x0 0x0 0x10\nring 0 0x0 0x0 0x0 0xff 0x0\nflight 0\nnotices 0\ndone\n",
    )
}

/// A queue that begins at the last entry of its first round, and events of three sources, one of which has its line up.
const THREE_EVENTS: &[(&str, &str)] = &[
    ("kvmeq 0x2 0x1 12 0x1000 1 1023", "code 0"),
    ("kvmset 3 0x0 0x2000000002", "code 0"),
    ("kvmset 3 0x1 0x2200000002", "code 0"),
    ("set 0 00", "01 00"),
    ("set 1 00", "01 00"),
    ("set 3 00", "01 00"),
    ("eoi 1", "00 10 forward 1"),
    ("route 1", "1 end 2 wrote 0x1ffc 0x80000011 present"),
    ("trigger 0", "00 10 forward 1"),
    ("trigger 3", "00 10 forward 1"),
];

/// What a sync of source 0 takes and routes.
const SYNCED: &[(&str, &str)] = &[
    ("take 0", "present 0 2 backlogged"),
    ("take 0", "no-message"),
    ("route 0", "1 end 2 wrote 0x1000 0x10 present"),
    ("take 0", "present 0 2 backlogged"),
    ("take 0", "no-message"),
    ("quiet 0", "quiet"),
];

/// Source 3 isn't initialised: a drain routes its notice, and a reset leaves its pair.
#[test]
fn attributes_that_go_on(rt: HostRuntime) -> Result<(), Fail> {
    let alloc = rt.alloc();
    let mut story = Story::new(
        alloc,
        "sources 4\nprocessors 1\nthreads 1\nram 1\nactors 1\nesb 2 0\nlevel 1 1\nunclaimed 3 3\ngo\n",
    )?;
    story.steps(alloc, &[("kvmset 2 0x1 0x3", "code 0")])?;
    story.entry(alloc, "init 1 1", "01 01")?;
    story.steps(alloc, &[("kvmset 2 0x0 0x2", "code 0")])?;
    story.entry(alloc, "init 0 0", "01 01")?;
    story.steps(alloc, THREE_EVENTS)?;
    story.steps(alloc, &[("kvmset 5 0x0 0x7", "code 0")])?;
    story.goes_on(alloc, SYNCED)?;
    story.steps(alloc, &[("kvmset 1 0x2 0x7", "code 0")])?;
    story.entry(alloc, "take 0", "no-message")?;
    story.entry(alloc, "route 3", "1 no-source")?;
    story.entry(alloc, "take 0", "no-message")?;
    story.steps(alloc, &[("kvmget 4 0x2", "queue 0x1 12 0x1000 0 1")])?;
    story.steps(alloc, &[("kvmset 1 0x1 0x7", "code 0")])?;
    story.entry(alloc, "set 0 01", "10 01")?;
    story.entry(alloc, "set 1 01", "10 01")?;
    story.entry(alloc, "set 2 01", "01 01")?;
    story.steps(alloc, &[("kvmget 4 0x2", "queue 0x0 0 0x0 0 0")])?;
    story.steps(
        alloc,
        &[("hcall 0x3b0 0x0 0x1 0x0 0x0 0x0", "code 0 0x0 0xff 0x0")],
    )?;
    story.compare(
        &rt,
        alloc,
        "source 0 01 1 1\nsource 1 01 1 1 asserted\nsource 3 10 1 1\nprocessor 0 saved 0x0 0x0 0x20\nring 0 0x0 0x0 0x0 0xff 0x0\nflight 0\nnotices 0\ndone\n",
    )
}

/// Source 3 isn't initialised, and processor 2 isn't connected.
const HEADER: &str =
    "sources 4\nprocessors 3\nthreads 1\nram 1\nactors 1\nesb 2 0\nlevel 1 1\nunclaimed 3 3\nunconnected 2 2\ngo\n";

/// Two queues, one of them over a wrap, an END without one, a line that is up, a source that is masked, a message and
/// a notice, and something pending for a processor on a thread and for one that is saved.
const BUSY: &[(&str, &str)] = &[
    ("kvmeq 0x3 0x1 12 0x1000 1 0", "code 0"),
    ("kvmeq 0x9 0x1 16 0x10000 0 16383", "code 0"),
    ("endset 5 vnb 0 5 0x0 0 0 0x0", "ok"),
    ("kvmset 3 0x0 0x4000000003", "code 0"),
    ("kvmset 3 0x2 0xfffffffe00000009", "code 0"),
    ("raise 1", "01 01"),
    ("set 0 00", "01 00"),
    ("set 2 00", "01 00"),
    ("set 3 00", "01 00"),
    ("vpset 1 0x5 0x4", "code 0"),
    ("restore 0 0", "ok"),
    ("tstore 0 1 0x18 4 0x80000400", "ok"),
    ("tstore 0 2 0x11 1 0x5", "stored"),
    ("trigger 0", "00 10 forward 1"),
    ("route 0", "1 end 3 wrote 0x1000 0x80000020 present"),
    ("take 0", "present 0 3 found"),
    ("trigger 2", "00 10 forward 1"),
    ("route 2", "1 end 9 wrote 0x1fffc 0x7fffffff present"),
    ("take 0", "present 1 1 backlogged"),
    ("eoi 0", "10 00"),
    ("trigger 0", "00 10 forward 2"),
    ("route 0", "2 end 3 wrote 0x1004 0x80000020 present"),
    ("trigger 0", "10 11"),
    ("trigger 3", "00 10 forward 1"),
    ("read 3", "item 0x20"),
    ("kvmset 3 0x2 0x100000000", "code 0"),
];

/// What the report doesn't show of the board.
const UNSEEN: &[(&str, &str)] = &[
    ("hcall 0x3b0 0x0 0x0 0x0 0x0 0x0", "code 0 0x0 0x3 0x20"),
    ("hcall 0x3b0 0x0 0x1 0x0 0x0 0x0", "code 0 0x0 0xff 0x0"),
    (
        "hcall 0x3b0 0x0 0x2 0x0 0x0 0x0",
        "code 0 0x1 0xff 0x7fffffff",
    ),
    ("hcall 0x3b0 0x0 0x3 0x0 0x0 0x0", "code -55"),
    ("kvmget 4 0x3", "queue 0x1 12 0x1000 1 2"),
    ("kvmget 4 0x9", "queue 0x1 16 0x10000 1 0"),
    ("kvmget 4 0x5", "queue 0x0 0 0x0 0 0"),
    ("vpget 1", "context 0x5 0x44"),
    ("peek 0x1000", "word 0x80000020"),
    ("peek 0x1004", "word 0x80000020"),
    ("peek 0x1fffc", "word 0x7fffffff"),
    ("quiet 0", "busy 0 1"),
    ("quiet 3", "busy 1 0"),
];

/// The report behind its first line, once processor 2 is connected.
const REPORT: &str =
    "source 0 11 2 2\nsource 1 01 0 0 asserted\nsource 2 10 1 1\nsource 3 10 1 0\nqueue 3 vqnb 2 1 00 00\nqueue 5 vnb 0 0 00 00\nqueue 9 vqnb 1 0 00 00\nprocessor 0 on 0 0x0 0x0 0x0\nprocessor 1 saved 0x5 0x4 0x40\nprocessor 2 saved 0x0 0x0 0x0\nring 0 0x80 0x5 0x10 0x3 0x80000400\nflight 1\nnotices 1\ndone\n";

/// No such group or attribute, no queue where one is wanted, and numbers of servers.
const GROUPS: &[(&str, &str)] = &[
    ("kvmset 0 0x1 0x0", "code -6"),
    ("kvmset 6 0x0 0x0", "code -6"),
    ("kvmset 1 0x0 0x0", "code -6"),
    ("kvmset 1 0x4 0x0", "code -6"),
    ("kvmset 1 0x100000001 0x0", "code -6"),
    ("kvmset 4 0x3 0x0", "code -22"),
    ("kvmset 4 0x13 0x0", "code -22"),
    ("kvmset 1 0x3 0x0", "code -22"),
    ("kvmset 1 0x3 0x4", "code -22"),
    ("kvmset 1 0x3 0x100000003", "code -22"),
    ("kvmset 1 0x3 0x3", "code -16"),
    ("kvmget 0 0x0", "code -6"),
    ("kvmget 1 0x3", "code -6"),
    ("kvmget 2 0x0", "code -6"),
    ("kvmget 3 0x0", "code -6"),
    ("kvmget 5 0x0", "code -6"),
];

/// Attributes of sources. The checks stand in an order, and a number is looked at whole.
const SOURCES: &[(&str, &str)] = &[
    ("kvmset 2 0x4 0x1", "code -7"),
    ("kvmset 2 0x100000000 0x0", "code -7"),
    ("kvmset 2 0x0 0x1", "code -22"),
    ("kvmset 2 0x1 0x2", "code -22"),
    ("kvmset 2 0x3 0x3", "code -22"),
    ("kvmset 3 0x4 0x17", "code -2"),
    ("kvmset 3 0x100000000 0x3", "code -2"),
    ("kvmset 3 0x3 0x3", "code -22"),
    ("kvmset 3 0x3 0x100000003", "code -22"),
    ("kvmset 3 0x0 0x7", "code -22"),
    ("kvmset 3 0x0 0x100000007", "code -22"),
    ("kvmset 3 0x0 0x13", "code -22"),
    ("kvmset 3 0x0 0x1b", "code -22"),
    ("kvmset 3 0x0 0xfffffffb", "code -22"),
    ("kvmset 3 0x0 0x4", "code -6"),
    ("kvmset 3 0x0 0x5", "code -6"),
    ("kvmset 5 0x4 0x0", "code -2"),
    ("kvmset 5 0x3 0x0", "code -22"),
];

/// Attributes of queues, and the states of processors.
const QUEUES: &[(&str, &str)] = &[
    ("kvmeq 0x17 0x0 13 0x1004 2 1024", "code -2"),
    ("kvmeq 0x13 0x0 0 0x0 0 0", "code -2"),
    ("kvmeq 0x1b 0x1 12 0x1000 1 0", "code -2"),
    ("kvmeq 0x7 0x0 13 0x1004 2 1024", "code -22"),
    ("kvmeq 0x7 0x0 0 0x0 0 0", "code -22"),
    ("kvmeq 0x3 0x0 12 0x1000 1 0", "code -22"),
    ("kvmeq 0x3 0x3 12 0x1000 1 0", "code -22"),
    ("kvmeq 0x3 0x1 13 0x2000 1 0", "code -22"),
    ("kvmeq 0x3 0x1 12 0x1004 1 0", "code -22"),
    ("kvmeq 0x3 0x1 12 0x100000 1 0", "code -22"),
    ("kvmeq 0x3 0x1 12 0x100001000 1 0", "code -22"),
    ("kvmeq 0x3 0x1 12 0xfffffffffffff000 1 0", "code -22"),
    ("kvmeq 0x3 0x1 21 0x0 1 0", "code -22"),
    ("kvmeq 0x3 0x1 12 0x1000 2 0", "code -22"),
    ("kvmeq 0x3 0x1 12 0x1000 1 1024", "code -22"),
    ("kvmeq 0x3 0x1 12 0x1000 0 1024", "code -22"),
    ("kvmget 4 0x17", "code -2"),
    ("kvmget 4 0x1b", "code -2"),
    ("kvmget 4 0x7", "code -22"),
    ("vpget 2", "code -22"),
    ("vpset 2 0x0 0x0", "code -22"),
    ("vpget 0", "code -16"),
    ("vpset 0 0x0 0x0", "code -16"),
];

/// The busy board, once looked at.
fn busy(alloc: Global) -> Result<Story, Fail> {
    let mut story = Story::new(alloc, HEADER)?;
    story.steps(alloc, BUSY)?;
    story.steps(alloc, UNSEEN)?;
    Ok(story)
}

/// That the number of servers is as it was shows where the last processor is connected.
#[test]
fn refused_attributes_change_nothing(rt: HostRuntime) -> Result<(), Fail> {
    let alloc = rt.alloc();
    let mut before = busy(alloc)?;
    before.steps(alloc, &[("connect 2", "code 0")])?;
    before.compare(&rt, alloc, REPORT)?;
    let mut after = busy(alloc)?;
    after.steps(alloc, GROUPS)?;
    after.steps(alloc, SOURCES)?;
    after.steps(alloc, QUEUES)?;
    after.steps(alloc, UNSEEN)?;
    after.steps(alloc, &[("connect 2", "code 0")])?;
    after.compare(&rt, alloc, REPORT)
}
