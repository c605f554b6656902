//! The lines of a report.

ghost use Rattle.std.specs.Prelude.{◌≡◌, ◌+◌, ◌<◌, ◌≤◌, ◌++◌};
ghost use Rattle.arrayvec.specs.ArrayVec.{array_vec_len};
ghost use Rattle.account.specs.text.Report.{end_line, is_unused_source, source_line, queue_line, processor_line, ring_line, flight_line, notices_line, done_line};

use crate::LONGEST_REPORT_LINE;
use crate::numbers::{add, add_hex, add_number, add_number_line, add_pair, add_short_number};
use crate::operations::add_flags;
use crate::outcomes::add_phase;
use arrayvec::ArrayVec;
use bitflags::Flags;
use xv_model::operations::EndFlags;
use xv_model::outcomes::Phase;

/// Appends the first line: how many entries there are.
pub fn add_end<const CAP: usize>(text: &mut ArrayVec<u8, CAP>, entries: u64)
    requires { array_vec_len text.old + LONGEST_REPORT_LINE ≤ CAP }
    ensures items { text.new.items ≡ text.old.items ++ end_line entries }
    ensures len { array_vec_len text.new ≤ array_vec_len text.old + LONGEST_REPORT_LINE }
{
    add_number_line(text, b"end ", entries);
}

/// Whether a source has no line.
fn is_unused(pair: u8, asserted: bool, forwards: u64) -> bool
    ensures { result ≡ is_unused_source pair asserted forwards }
{
    pair == 1 && forwards == 0 && !asserted
}

/// Appends the line of a source; it has none where it is off, not asserted and has never forwarded.
pub fn add_source<const CAP: usize>(
    text: &mut ArrayVec<u8, CAP>,
    s: u32,
    pair: u8,
    asserted: bool,
    forwards: u64,
    routes: u64,
)
    requires room { array_vec_len text.old + LONGEST_REPORT_LINE ≤ CAP }
    requires pair { pair < 4 }
    ensures items { text.new.items ≡ text.old.items ++ source_line s pair asserted forwards routes }
    ensures len { array_vec_len text.new ≤ array_vec_len text.old + LONGEST_REPORT_LINE }
{
    if is_unused(pair, asserted, forwards) {
        return;
    }
    add(text, b"source ");
    add_short_number(text, s);
    text.push(b' ');
    add_pair(text, pair);
    text.push(b' ');
    add_number(text, forwards);
    text.push(b' ');
    add_number(text, routes);
    if asserted {
        add(text, b" asserted\n");
    } else {
        text.push(b'\n');
    }
}

/// Appends the line of an END; it has none where it isn't valid. `written` and `taken` count the entries of
/// its event queue.
pub fn add_queue<const CAP: usize>(
    text: &mut ArrayVec<u8, CAP>,
    e: u32,
    flags: EndFlags,
    written: u64,
    taken: u64,
    esn: u8,
    ese: u8,
)
    requires room { array_vec_len text.old + LONGEST_REPORT_LINE ≤ CAP }
    requires esn { esn < 4 }
    requires ese { ese < 4 }
    ensures items { text.new.items ≡ text.old.items ++ queue_line e flags.0 written taken esn ese }
    ensures len { array_vec_len text.new ≤ array_vec_len text.old + LONGEST_REPORT_LINE }
{
    if !flags.contains(EndFlags::VALID) {
        return;
    }
    add(text, b"queue ");
    add_short_number(text, e);
    text.push(b' ');
    add_flags(text, flags);
    text.push(b' ');
    add_number(text, written);
    text.push(b' ');
    add_number(text, taken);
    text.push(b' ');
    add_pair(text, esn);
    text.push(b' ');
    add_pair(text, ese);
    text.push(b'\n');
}

/// Appends the line of a processor that is connected. `cppr` and `ipb` are those that are saved, 0 where the
/// context isn't.
pub fn add_processor<const CAP: usize>(
    text: &mut ArrayVec<u8, CAP>,
    v: u32,
    phase: Phase,
    cppr: u8,
    ipb: u8,
    backlog: u8,
)
    requires { array_vec_len text.old + LONGEST_REPORT_LINE ≤ CAP }
    ensures items { text.new.items ≡ text.old.items ++ processor_line v phase cppr ipb backlog }
    ensures len { array_vec_len text.new ≤ array_vec_len text.old + LONGEST_REPORT_LINE }
{
    add(text, b"processor ");
    add_short_number(text, v);
    text.push(b' ');
    add_phase(text, phase);
    text.push(b' ');
    add_hex(text, cppr as u64);
    text.push(b' ');
    add_hex(text, ipb as u64);
    text.push(b' ');
    add_hex(text, backlog as u64);
    text.push(b'\n');
}

/// Appends the line of the ring of a thread: the bytes NSR, CPPR, IPB and PIPR, and the CAM word.
pub fn add_ring<const CAP: usize>(
    text: &mut ArrayVec<u8, CAP>,
    t: u32,
    nsr: u8,
    cppr: u8,
    ipb: u8,
    pipr: u8,
    cam: u32,
)
    requires { array_vec_len text.old + LONGEST_REPORT_LINE ≤ CAP }
    ensures items { text.new.items ≡ text.old.items ++ ring_line t nsr cppr ipb pipr cam }
    ensures len { array_vec_len text.new ≤ array_vec_len text.old + LONGEST_REPORT_LINE }
{
    add(text, b"ring ");
    add_short_number(text, t);
    text.push(b' ');
    add_hex(text, nsr as u64);
    text.push(b' ');
    add_hex(text, cppr as u64);
    text.push(b' ');
    add_hex(text, ipb as u64);
    text.push(b' ');
    add_hex(text, pipr as u64);
    text.push(b' ');
    add_hex(text, cam as u64);
    text.push(b'\n');
}

/// Appends the line of the messages in flight.
pub fn add_flight<const CAP: usize>(text: &mut ArrayVec<u8, CAP>, messages: u64)
    requires { array_vec_len text.old + LONGEST_REPORT_LINE ≤ CAP }
    ensures items { text.new.items ≡ text.old.items ++ flight_line messages }
    ensures len { array_vec_len text.new ≤ array_vec_len text.old + LONGEST_REPORT_LINE }
{
    add_number_line(text, b"flight ", messages);
}

/// Appends the line of the notices that are outstanding.
pub fn add_notices<const CAP: usize>(text: &mut ArrayVec<u8, CAP>, notices: u64)
    requires { array_vec_len text.old + LONGEST_REPORT_LINE ≤ CAP }
    ensures items { text.new.items ≡ text.old.items ++ notices_line notices }
    ensures len { array_vec_len text.new ≤ array_vec_len text.old + LONGEST_REPORT_LINE }
{
    add_number_line(text, b"notices ", notices);
}

/// Appends the last line.
pub fn add_done<const CAP: usize>(text: &mut ArrayVec<u8, CAP>)
    requires { array_vec_len text.old + LONGEST_REPORT_LINE ≤ CAP }
    ensures items { text.new.items ≡ text.old.items ++ done_line }
    ensures len { array_vec_len text.new ≤ array_vec_len text.old + LONGEST_REPORT_LINE }
{
    add(text, b"done\n");
}
