//! The texts of outcomes.

ghost use Rattle.std.specs.Prelude.{◌≡◌, ◌+◌, ◌*◌, ◌<◌, ◌≤◌, ◌++◌, length};
ghost use Rattle.arrayvec.specs.ArrayVec.{array_vec_len};
ghost use Rattle.account.specs.text.Outcomes.{pairs_text, forward_text, outcome_text, wrote_text, next_text, pass_text, routed_text, output_text, outputs_text, reply_text, phase_text, reason_text, presented_text, presentation_text, escalated_text, busy_text};
ghost use Rattle.xv_model.specs.account.Outcomes.{IsWellFormed};

use crate::numbers::{add, add_hex, add_number, add_pair, add_short_number, add_signed};
use crate::operations::add_fields;
use arrayvec::ArrayVec;
use xv_model::outcomes::{
    EndRun, HReply, MoveRefused, Outcome, Phase, Presented, Routed, Then, Wrote,
};

/// The room that the text of an outcome wants, in bytes.
pub const LONGEST_OUTCOME: usize = 102;

/// The room that a pair before and after wants, in bytes.
const LONGEST_PAIRS: usize = 5;

/// The room that the number of a forward wants, in bytes.
const LONGEST_FORWARD: usize = 29;

/// The room that the address and the word of a queue's entry want, in bytes.
const LONGEST_WROTE: usize = 43;

/// The room that the way a pass goes on wants, in bytes.
const LONGEST_NEXT: usize = 10;

/// The room that a pass wants, in bytes.
const LONGEST_PASS: usize = 68;

/// The room that an output of a reply wants, in bytes.
const LONGEST_OUTPUT: usize = 19;

/// The room that a reply with all its outputs wants, in bytes.
const LONGEST_REPLY: usize = 102;

/// The room that the phase of a processor wants, in bytes.
pub const LONGEST_PHASE: usize = 19;

/// The room that the reason of a refusal wants, in bytes.
const LONGEST_REASON: usize = 32;

/// The room that what became of a presentation wants, in bytes.
const LONGEST_PRESENTED: usize = 12;

/// The room that a presentation wants, in bytes.
const LONGEST_PRESENTATION: usize = 51;

/// The room that what became of an escalation wants, in bytes.
const LONGEST_ESCALATED: usize = 88;

/// The room that what is still on its way wants, in bytes.
const LONGEST_BUSY: usize = 36;

/// A pair before and after.
fn add_pairs<const CAP: usize>(text: &mut ArrayVec<u8, CAP>, old: u8, new: u8)
    requires room { array_vec_len text.old + LONGEST_PAIRS ≤ CAP }
    requires old { old < 4 }
    requires new { new < 4 }
    ensures items { text.new.items ≡ text.old.items ++ pairs_text old new }
    ensures len { array_vec_len text.new ≤ array_vec_len text.old + LONGEST_PAIRS }
{
    add_pair(text, old);
    text.push(b' ');
    add_pair(text, new);
}

/// The number of a forward; 0 is none.
fn add_forward<const CAP: usize>(text: &mut ArrayVec<u8, CAP>, forward: u64)
    requires { array_vec_len text.old + LONGEST_FORWARD ≤ CAP }
    ensures items { text.new.items ≡ text.old.items ++ forward_text forward }
    ensures len { array_vec_len text.new ≤ array_vec_len text.old + LONGEST_FORWARD }
{
    if forward != 0 {
        add(text, b" forward ");
        add_number(text, forward);
    }
}

fn add_wrote<const CAP: usize>(text: &mut ArrayVec<u8, CAP>, wrote: &Option<Wrote>)
    requires { array_vec_len text.old + LONGEST_WROTE ≤ CAP }
    ensures items { text.new.items ≡ text.old.items ++ wrote_text wrote.now }
    ensures len { array_vec_len text.new ≤ array_vec_len text.old + LONGEST_WROTE }
{
    match wrote {
        Some(wrote) => {
            add(text, b"wrote ");
            add_hex(text, wrote.addr);
            text.push(b' ');
            add_hex(text, wrote.word as u64);
        }
        None => add(text, b"unwritten"),
    }
}

fn add_next<const CAP: usize>(text: &mut ArrayVec<u8, CAP>, next: Then)
    requires { array_vec_len text.old + LONGEST_NEXT ≤ CAP }
    ensures items { text.new.items ≡ text.old.items ++ next_text next }
    ensures len { array_vec_len text.new ≤ array_vec_len text.old + LONGEST_NEXT }
{
    match next {
        Then::Coalesced => add(text, b" coalesced"),
        Then::Silent => add(text, b" silent"),
        Then::Present => add(text, b" present"),
        Then::Escalate => add(text, b" escalate"),
    }
}

fn add_pass<const CAP: usize>(text: &mut ArrayVec<u8, CAP>, pass: &EndRun)
    requires { array_vec_len text.old + LONGEST_PASS ≤ CAP }
    ensures items { text.new.items ≡ text.old.items ++ pass_text pass.now }
    ensures len { array_vec_len text.new ≤ array_vec_len text.old + LONGEST_PASS }
{
    match pass {
        EndRun::NoEnd { e } => {
            add(text, b"end ");
            add_short_number(text, *e);
            add(text, b" no-end");
        }
        EndRun::Ran { e, wrote, then } => {
            add(text, b"end ");
            add_short_number(text, *e);
            text.push(b' ');
            add_wrote(text, wrote);
            add_next(text, *then);
        }
    }
}

fn add_routed<const CAP: usize>(text: &mut ArrayVec<u8, CAP>, routed: &Routed)
    requires { array_vec_len text.old + LONGEST_PASS ≤ CAP }
    ensures items { text.new.items ≡ text.old.items ++ routed_text routed.now }
    ensures len { array_vec_len text.new ≤ array_vec_len text.old + LONGEST_PASS }
{
    match routed {
        Routed::NoSource => add(text, b"no-source"),
        Routed::Masked => add(text, b"masked"),
        Routed::Run { run } => add_pass(text, run),
    }
}

/// An output of a reply.
fn add_output<const CAP: usize>(text: &mut ArrayVec<u8, CAP>, n: u64)
    requires { array_vec_len text.old + LONGEST_OUTPUT ≤ CAP }
    ensures items { text.new.items ≡ text.old.items ++ output_text n }
    ensures len { array_vec_len text.new ≤ array_vec_len text.old + LONGEST_OUTPUT }
{
    text.push(b' ');
    add_hex(text, n);
}

/// The outputs of a reply.
fn add_outputs<const CAP: usize>(text: &mut ArrayVec<u8, CAP>, outputs: &[u64])
    requires { array_vec_len text.old + LONGEST_OUTPUT * length outputs.now ≤ CAP }
    ensures items { text.new.items ≡ text.old.items ++ outputs_text outputs.now }
    ensures len { array_vec_len text.new
        ≤ array_vec_len text.old + LONGEST_OUTPUT * length outputs.now }
{
    for n in outputs {
        add_output(text, *n);
    }
}

/// The text of a reply.
fn add_reply<const CAP: usize>(text: &mut ArrayVec<u8, CAP>, reply: &HReply)
    requires room { array_vec_len text.old + LONGEST_REPLY ≤ CAP }
    requires few { reply.now.outs ≤ 4 }
    ensures items { text.new.items ≡ text.old.items ++ reply_text reply.now }
    ensures len { array_vec_len text.new ≤ array_vec_len text.old + LONGEST_REPLY }
{
    add(text, b"code ");
    add_signed(text, reply.code);
    add_outputs(text, &reply.out[..reply.outs as usize]);
}

/// Appends where a processor's context is.
pub fn add_phase<const CAP: usize>(text: &mut ArrayVec<u8, CAP>, phase: Phase)
    requires { array_vec_len text.old + LONGEST_PHASE ≤ CAP }
    ensures items { text.new.items ≡ text.old.items ++ phase_text phase }
    ensures len { array_vec_len text.new ≤ array_vec_len text.old + LONGEST_PHASE }
{
    match phase {
        Phase::Saved => add(text, b"saved"),
        Phase::Restored { t } => {
            add(text, b"restored ");
            add_short_number(text, t);
        }
        Phase::On { t } => {
            add(text, b"on ");
            add_short_number(text, t);
        }
        Phase::Pulled { t } => {
            add(text, b"pulled ");
            add_short_number(text, t);
        }
    }
}

/// A word with its space, and where a processor's context is.
fn add_word_and_phase<const CAP: usize>(text: &mut ArrayVec<u8, CAP>, word: &[u8], phase: Phase)
    requires room { array_vec_len text.old + LONGEST_REASON ≤ CAP }
    requires word { length word.now + LONGEST_PHASE ≤ LONGEST_REASON }
    ensures items { text.new.items ≡ text.old.items ++ (word.now ++ phase_text phase) }
    ensures len { array_vec_len text.new ≤ array_vec_len text.old + LONGEST_REASON }
{
    add(text, word);
    add_phase(text, phase);
}

/// Why a move of a context is refused.
fn add_reason<const CAP: usize>(text: &mut ArrayVec<u8, CAP>, reason: MoveRefused)
    requires { array_vec_len text.old + LONGEST_REASON ≤ CAP }
    ensures items { text.new.items ≡ text.old.items ++ reason_text reason }
    ensures len { array_vec_len text.new ≤ array_vec_len text.old + LONGEST_REASON }
{
    match reason {
        MoveRefused::NotValid => add(text, b"not-valid"),
        MoveRefused::VpBusy { phase } => add_word_and_phase(text, b"vp-busy ", phase),
        MoveRefused::RingBusy { vp } => {
            add(text, b"ring-busy ");
            add_short_number(text, vp);
        }
        MoveRefused::NotPulled { phase } => add_word_and_phase(text, b"not-pulled ", phase),
        MoveRefused::NotRestored { phase } => add_word_and_phase(text, b"not-restored ", phase),
        MoveRefused::NoContext => add(text, b"no-context"),
    }
}

fn add_presented<const CAP: usize>(text: &mut ArrayVec<u8, CAP>, presented: Presented)
    requires { array_vec_len text.old + LONGEST_PRESENTED ≤ CAP }
    ensures items { text.new.items ≡ text.old.items ++ presented_text presented }
    ensures len { array_vec_len text.new ≤ array_vec_len text.old + LONGEST_PRESENTED }
{
    match presented {
        Presented::Found => add(text, b"found"),
        Presented::Backlogged => add(text, b"backlogged"),
        Presented::Lost => add(text, b"lost"),
        Presented::NoProcessor => add(text, b"no-processor"),
    }
}

/// The presentation of a priority to a processor.
fn add_presentation<const CAP: usize>(
    text: &mut ArrayVec<u8, CAP>,
    v: u32,
    priority: u8,
    presented: Presented,
    escalates: bool,
)
    requires { array_vec_len text.old + LONGEST_PRESENTATION ≤ CAP }
    ensures items { text.new.items
        ≡ text.old.items ++ presentation_text v priority presented escalates }
    ensures len { array_vec_len text.new ≤ array_vec_len text.old + LONGEST_PRESENTATION }
{
    add(text, b"present ");
    add_short_number(text, v);
    text.push(b' ');
    add_short_number(text, priority as u32);
    text.push(b' ');
    add_presented(text, presented);
    if escalates {
        add(text, b" escalate");
    }
}

/// What became of an escalation to an END.
fn add_escalated<const CAP: usize>(text: &mut ArrayVec<u8, CAP>, e: u32, pass: &Option<EndRun>)
    requires { array_vec_len text.old + LONGEST_ESCALATED ≤ CAP }
    ensures items { text.new.items ≡ text.old.items ++ escalated_text e pass.now }
    ensures len { array_vec_len text.new ≤ array_vec_len text.old + LONGEST_ESCALATED }
{
    add(text, b"escalate ");
    add_short_number(text, e);
    match pass {
        Some(pass) => {
            text.push(b' ');
            add_pass(text, pass);
        }
        None => add(text, b" coalesced"),
    }
}

/// How many notices and messages of a source are still on their way.
fn add_busy<const CAP: usize>(text: &mut ArrayVec<u8, CAP>, notices: u64, messages: u32)
    requires { array_vec_len text.old + LONGEST_BUSY ≤ CAP }
    ensures items { text.new.items ≡ text.old.items ++ busy_text notices messages }
    ensures len { array_vec_len text.new ≤ array_vec_len text.old + LONGEST_BUSY }
{
    add(text, b"busy ");
    add_number(text, notices);
    text.push(b' ');
    add_short_number(text, messages);
}

/// Appends the text of an outcome.
pub fn add_outcome<const CAP: usize>(text: &mut ArrayVec<u8, CAP>, outcome: &Outcome)
    requires room { array_vec_len text.old + LONGEST_OUTCOME ≤ CAP }
    requires outcome { IsWellFormed outcome.now }
    ensures items { text.new.items ≡ text.old.items ++ outcome_text outcome.now }
    ensures len { array_vec_len text.new ≤ array_vec_len text.old + LONGEST_OUTCOME }
{
    match outcome {
        Outcome::Pq { old, new, forward } => {
            add_pairs(text, *old, *new);
            add_forward(text, *forward);
        }
        Outcome::Spent => add(text, b"spent"),
        Outcome::Ones => add(text, b"ones"),
        Outcome::BadOffset => add(text, b"bad-offset"),
        Outcome::EndPq { old, new } => add_pairs(text, *old, *new),
        Outcome::NoEnd => add(text, b"no-end"),
        Outcome::NoNotice => add(text, b"no-notice"),
        Outcome::BusFull => add(text, b"bus-full"),
        Outcome::Routed { k, routed } => {
            add_number(text, *k);
            text.push(b' ');
            add_routed(text, routed);
        }
        Outcome::Fine => add(text, b"ok"),
        Outcome::Reply { reply } => add_reply(text, reply),
        Outcome::Item { payload } => {
            add(text, b"item ");
            add_hex(text, *payload as u64);
        }
        Outcome::Empty => add(text, b"empty"),
        Outcome::NoQueue => add(text, b"no-queue"),
        Outcome::Cell { word } => {
            add(text, b"word ");
            add_hex(text, *word as u64);
        }
        Outcome::BadRange => add(text, b"bad-range"),
        Outcome::NoMessage => add(text, b"no-message"),
        Outcome::Present {
            v,
            p,
            presented,
            escalates,
        } => add_presentation(text, *v, *p, *presented, *escalates),
        Outcome::Escalated { e, run } => add_escalated(text, *e, run),
        Outcome::Quiet => add(text, b"quiet"),
        Outcome::Busy { notices, messages } => add_busy(text, *notices, *messages),
        Outcome::Refused { why } => {
            add(text, b"refused ");
            add_reason(text, *why);
        }
        Outcome::Value { value } => {
            add(text, b"value ");
            add_hex(text, *value);
        }
        Outcome::Stored => add(text, b"stored"),
        Outcome::BadAccess => add(text, b"bad-access"),
        Outcome::Code { code } => {
            add(text, b"code ");
            add_signed(text, *code as i64);
        }
        Outcome::Queue { eq } => {
            add(text, b"queue ");
            add_fields(text, eq);
        }
        Outcome::Context { cppr, ipb } => {
            add(text, b"context ");
            add_hex(text, *cppr as u64);
            text.push(b' ');
            add_hex(text, *ipb as u64);
        }
    }
}
