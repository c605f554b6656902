//! Passes of ENDs: what is written into a queue, how it goes on, and the message that it makes.

ghost use Rattle.std.specs.Prelude.{◌≡◌, ◌<◌, ◌≤◌, ◌+◌, ◌*◌, ◌^◌, ◌∷◌, ◌++◌, [], IfSome, IsTrue, Some, true};
ghost use Rattle.std.specs.Prelude.{length, slice_set};
ghost use Rattle.std.specs.VecDeque.{deque_len, deque_capacity};
ghost use Rattle.xv_model.specs.board.Validity.{fits};
ghost use Rattle.xv_model.specs.end.Flags.{is_valid};
ghost use Rattle.xv_model.specs.end.Memory.{write_of};
ghost use Rattle.xv_model.specs.route.Routing.{write_by};
ghost use Rattle.end_escalate.specs.Decisions.{state_after, then_of};
ghost use Rattle.end_queue.specs.Ends.{HasPage, HasRoom, end_in, has_queue};
ghost use Rattle.router.specs.Passes.{enqueued, with_step, after_pass, pass_by, made_for, with_write};

use bitflags::Flags;
use end_escalate::{EndStep, decide};
use end_queue::Ends;
use guest_ram::Ram;
use std::collections::VecDeque;
use xv_model::messages::Message;
use xv_model::operations::{EndConfig, EndFlags};
use xv_model::outcomes::{EndRun, Then, Wrote};

/// Writes a payload of 31 bits into the queue of a valid END, where it has one.
fn write(ends: &mut Ends, ram: &mut Ram, e: u32, payload: u32) -> Option<Wrote>
    requires end { e < length ends.old }
    requires valid { is_valid (end_in ends.old e).config ≡ true }
    requires page { IsTrue (has_queue (end_in ends.old e).config) →
        HasPage (length ram.old) (end_in ends.old e).config }
    requires room { HasRoom (end_in ends.old e) }
    requires payload { payload < 2 ^ 31 }
    ensures wrote { result ≡ write_by (end_in ends.old e).config (end_in ends.old e).written payload }
    ensures ends { ends.new ≡ slice_set ends.old e (enqueued (end_in ends.old e)) }
    ensures ram { ram.new ≡ with_write result ram.old }
    ensures fits { IfSome result (λ w. IsTrue (fits (4 * length ram.old) w.addr 4)) }
{
    if ends.config(e).flags.contains(EndFlags::ENQUEUE) {
        Some(ends.enqueue(ram, e, payload))
    } else {
        None
    }
}

/// What a step makes of the state of its END, and how the pass goes on; none of an END that isn't valid.
pub(crate) fn go_on(ends: &mut Ends, e: u32, step: EndStep) -> Option<Then>
    requires end { e < length ends.old }
    requires state { state_after step (end_in ends.old e).esn < 4 }
    ensures next { result ≡ then_of step }
    ensures ends { ends.new ≡ slice_set ends.old e (with_step step (end_in ends.old e)) }
{
    match step {
        EndStep::Invalid => None,
        EndStep::Coalesced { esn } => {
            ends.set_esn(e, esn);
            Some(Then::Coalesced)
        }
        EndStep::Silent => Some(Then::Silent),
        EndStep::Escalate => Some(Then::Escalate),
        EndStep::Present { esn } => {
            ends.set_esn(e, esn);
            Some(Then::Present)
        }
    }
}

/// A pass of an END with a payload, which is written into its queue, where it has one; and the END notifies,
/// escalates or does neither (QEMU's hw/intc/xive.c, xive_router_end_notify).
fn pass(ends: &mut Ends, ram: &mut Ram, e: u32, payload: u32) -> EndRun
    requires end { e < length ends.old }
    requires page { IsTrue (has_queue (end_in ends.old e).config) →
        HasPage (length ram.old) (end_in ends.old e).config }
    requires room { HasRoom (end_in ends.old e) }
    requires payload { payload < 2 ^ 31 }
    ensures pass { result ≡ pass_by (end_in ends.old e) e payload }
    ensures ends { ends.new ≡ slice_set ends.old e (after_pass (end_in ends.old e)) }
    ensures ram { ram.new ≡ with_write (write_of (Some result)) ram.old }
    ensures fits { IfSome (write_of (Some result)) (λ w. IsTrue (fits (4 * length ram.old) w.addr 4)) }
{
    let step = decide(ends.config(e).flags, ends.esn(e));
    let Some(then) = go_on(ends, e, step) else {
        return EndRun::NoEnd { e };
    };
    let wrote = write(ends, ram, e, payload);
    EndRun::Ran { e, wrote, then }
}

/// Sends the message that a pass of an END makes for a source.
fn send(messages: &mut VecDeque<Message>, pass: &EndRun, config: &EndConfig, origin: u32)
    requires room { deque_len messages.old < deque_capacity messages.old }
    ensures items { messages.new.items ≡ messages.old.items ++ made_for origin config.now pass.now }
    ensures few { deque_len messages.new ≤ deque_len messages.old + 1 }
    ensures capacity { deque_capacity messages.old ≤ deque_capacity messages.new }
{
    match *pass {
        EndRun::Ran {
            e,
            wrote: _,
            then: Then::Present,
        } => messages.push_back_reserved(Message::Present {
            e,
            flags: config.flags,
            vp: config.vp,
            priority: config.priority,
            esc: config.esc,
            esc_eisn: config.esc_eisn,
            origin,
        }),
        EndRun::Ran {
            e,
            wrote: _,
            then: Then::Escalate,
        } => messages.push_back_reserved(Message::Escalate {
            e,
            flags: config.flags,
            esc: config.esc,
            esc_eisn: config.esc_eisn,
            origin,
        }),
        _ => {}
    }
}

/// Runs an END with a payload, for a source: its pass, and the message that this sends.
pub(crate) fn run(
    ends: &mut Ends,
    ram: &mut Ram,
    messages: &mut VecDeque<Message>,
    e: u32,
    payload: u32,
    origin: u32,
) -> EndRun
    requires end { e < length ends.old }
    requires page { IsTrue (has_queue (end_in ends.old e).config) →
        HasPage (length ram.old) (end_in ends.old e).config }
    requires room { HasRoom (end_in ends.old e) }
    requires payload { payload < 2 ^ 31 }
    requires free { deque_len messages.old < deque_capacity messages.old }
    ensures pass { result ≡ pass_by (end_in ends.old e) e payload }
    ensures ends { ends.new ≡ slice_set ends.old e (after_pass (end_in ends.old e)) }
    ensures ram { ram.new ≡ with_write (write_of (Some result)) ram.old }
    ensures fits { IfSome (write_of (Some result)) (λ w. IsTrue (fits (4 * length ram.old) w.addr 4)) }
    ensures messages { messages.new.items ≡ messages.old.items ++ made_for origin (end_in ends.old e).config result }
    ensures few { deque_len messages.new ≤ deque_len messages.old + 1 }
    ensures capacity { deque_capacity messages.old ≤ deque_capacity messages.new }
{
    let run = pass(ends, ram, e, payload);
    send(messages, &run, ends.config(e), origin);
    run
}
