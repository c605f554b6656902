//! The texts of operations.

ghost use Rattle.std.specs.Prelude.{◌≡◌, ◌+◌, ◌≤◌, ◌++◌, true, IsTrue};
ghost use Rattle.arrayvec.specs.ArrayVec.{array_vec_len};
ghost use Rattle.xv_model.specs.board.Validity.{has_op};
ghost use Rattle.account.specs.text.Operations.{pq_op_text, access_text, page_text, tima_text, tima_access_text, fields_text, attribute_text, op_text, is_processor_op, is_device_op, has_text, flag_text, flags_text, target_text, event_queue_text, escalation_text, config_text, arguments_text};

use crate::numbers::{add, add_hex, add_pair, add_short_number};
use arrayvec::ArrayVec;
use bitflags::Flags;
use xv_model::operations::{Access, AttrValue, EndConfig, EndFlags, EqFields, Op, PqOp};

/// The room that the text of an operation wants, in bytes.
pub const LONGEST_OP: usize = 119;

/// The room that the text of an operation on a pair wants, in bytes.
const LONGEST_PQ_OP: usize = 18;

/// The room that the word of an access to a page wants, in bytes.
const LONGEST_ACCESS: usize = 6;

/// The room that the number, the page and the offset of an access want, in bytes.
const LONGEST_PAGE: usize = 40;

/// The most letters of the flags of an END.
pub const MOST_FLAGS: usize = 7;

/// The room that each part of an END's configuration wants, in bytes: the target, the queue or the escalation.
const LONGEST_CONFIG_PART: usize = 29;

/// The room that the configuration of an END wants, in bytes.
const LONGEST_CONFIG: usize = 89;

/// The room that the arguments of a hypercall want, in bytes.
const LONGEST_ARGUMENTS: usize = 94;

/// The room that an access to the TIMA wants without its word and its value, in bytes.
const LONGEST_TIMA: usize = 51;

/// The room that an access to the TIMA wants, in bytes.
const LONGEST_TIMA_ACCESS: usize = 77;

/// The room that the fields of a queue of the KVM device want, in bytes.
pub const LONGEST_FIELDS: usize = 70;

/// The room that a call to the KVM device wants, in bytes.
const LONGEST_DEVICE_OP: usize = 95;

fn add_pq_op<const CAP: usize>(text: &mut ArrayVec<u8, CAP>, op: PqOp, s: u32)
    requires room { array_vec_len text.old + LONGEST_PQ_OP ≤ CAP }
    requires op { IsTrue (has_op true op) }
    ensures items { text.new.items ≡ text.old.items ++ pq_op_text op s }
    ensures len { array_vec_len text.new ≤ array_vec_len text.old + LONGEST_PQ_OP }
{
    match op {
        PqOp::Trigger => {
            add(text, b"trigger ");
            add_short_number(text, s);
        }
        PqOp::Eoi => {
            add(text, b"eoi ");
            add_short_number(text, s);
        }
        PqOp::Get => {
            add(text, b"get ");
            add_short_number(text, s);
        }
        PqOp::Set { pq } => {
            add(text, b"set ");
            add_short_number(text, s);
            text.push(b' ');
            add_pair(text, pq);
        }
        PqOp::Raise => {
            add(text, b"raise ");
            add_short_number(text, s);
        }
        PqOp::Lower => {
            add(text, b"lower ");
            add_short_number(text, s);
        }
        PqOp::Init { asserted } => {
            add(text, b"init ");
            add_short_number(text, s);
            add(text, if asserted { b" 1" } else { b" 0" });
        }
    }
}

/// Whether a page is loaded from or stored to; for a page of an END, `end` stands before it.
fn add_access<const CAP: usize>(text: &mut ArrayVec<u8, CAP>, store: bool)
    requires { array_vec_len text.old + LONGEST_ACCESS ≤ CAP }
    ensures items { text.new.items ≡ text.old.items ++ access_text store }
    ensures len { array_vec_len text.new ≤ array_vec_len text.old + LONGEST_ACCESS }
{
    if store {
        add(text, b"store ");
    } else {
        add(text, b"load ");
    }
}

/// Which page of which source or END is accessed, and where.
fn add_page<const CAP: usize>(text: &mut ArrayVec<u8, CAP>, n: u32, page: u8, offset: u16)
    requires { array_vec_len text.old + LONGEST_PAGE ≤ CAP }
    ensures items { text.new.items ≡ text.old.items ++ page_text n page offset }
    ensures len { array_vec_len text.new ≤ array_vec_len text.old + LONGEST_PAGE }
{
    add_short_number(text, n);
    text.push(b' ');
    add_short_number(text, page as u32);
    text.push(b' ');
    add_hex(text, offset as u64);
}

/// The letter of a flag, where it is set.
fn add_flag<const CAP: usize>(
    text: &mut ArrayVec<u8, CAP>,
    flags: EndFlags,
    flag: EndFlags,
    letter: &[u8; 1],
)
    requires { array_vec_len text.old + 1 ≤ CAP }
    ensures items { text.new.items ≡ text.old.items ++ flag_text flags.0 flag.0 letter.now }
    ensures len { array_vec_len text.new ≤ array_vec_len text.old + 1 }
{
    if flags.contains(flag) {
        add(text, letter);
    }
}

/// Appends the letters of the flags of an END, or a dash where there are none.
pub fn add_flags<const CAP: usize>(text: &mut ArrayVec<u8, CAP>, flags: EndFlags)
    requires { array_vec_len text.old + MOST_FLAGS ≤ CAP }
    ensures items { text.new.items ≡ text.old.items ++ flags_text flags.0 }
    ensures len { array_vec_len text.new ≤ array_vec_len text.old + MOST_FLAGS }
{
    if flags.bits() == 0 {
        return text.push(b'-');
    }
    add_flag(text, flags, EndFlags::VALID, b"v");
    add_flag(text, flags, EndFlags::ENQUEUE, b"q");
    add_flag(text, flags, EndFlags::NOTIFY_ALWAYS, b"n");
    add_flag(text, flags, EndFlags::BACKLOG, b"b");
    add_flag(text, flags, EndFlags::ESCALATE, b"e");
    add_flag(text, flags, EndFlags::ESCALATE_ALWAYS, b"u");
    add_flag(text, flags, EndFlags::SILENT, b"s");
}

fn add_target<const CAP: usize>(text: &mut ArrayVec<u8, CAP>, config: &EndConfig)
    requires { array_vec_len text.old + LONGEST_CONFIG_PART ≤ CAP }
    ensures items { text.new.items ≡ text.old.items ++ target_text config.now }
    ensures len { array_vec_len text.new ≤ array_vec_len text.old + LONGEST_CONFIG_PART }
{
    add_flags(text, config.flags);
    text.push(b' ');
    add_short_number(text, config.vp);
    text.push(b' ');
    add_short_number(text, config.priority as u32);
}

fn add_event_queue<const CAP: usize>(text: &mut ArrayVec<u8, CAP>, config: &EndConfig)
    requires { array_vec_len text.old + LONGEST_CONFIG_PART ≤ CAP }
    ensures items { text.new.items ≡ text.old.items ++ event_queue_text config.now }
    ensures len { array_vec_len text.new ≤ array_vec_len text.old + LONGEST_CONFIG_PART }
{
    add_hex(text, config.qaddr);
    text.push(b' ');
    add_short_number(text, config.qshift);
}

fn add_escalation<const CAP: usize>(text: &mut ArrayVec<u8, CAP>, config: &EndConfig)
    requires { array_vec_len text.old + LONGEST_CONFIG_PART ≤ CAP }
    ensures items { text.new.items ≡ text.old.items ++ escalation_text config.now }
    ensures len { array_vec_len text.new ≤ array_vec_len text.old + LONGEST_CONFIG_PART }
{
    add_short_number(text, config.esc);
    text.push(b' ');
    add_hex(text, config.esc_eisn as u64);
}

fn add_config<const CAP: usize>(text: &mut ArrayVec<u8, CAP>, config: &EndConfig)
    requires { array_vec_len text.old + LONGEST_CONFIG ≤ CAP }
    ensures items { text.new.items ≡ text.old.items ++ config_text config.now }
    ensures len { array_vec_len text.new ≤ array_vec_len text.old + LONGEST_CONFIG }
{
    add_target(text, config);
    text.push(b' ');
    add_event_queue(text, config);
    text.push(b' ');
    add_escalation(text, config);
}

fn add_arguments<const CAP: usize>(text: &mut ArrayVec<u8, CAP>, args: &[u64; 5])
    requires { array_vec_len text.old + LONGEST_ARGUMENTS ≤ CAP }
    ensures items { text.new.items ≡ text.old.items ++ arguments_text args.now }
    ensures len { array_vec_len text.new ≤ array_vec_len text.old + LONGEST_ARGUMENTS }
{
    add_hex(text, args[0]);
    text.push(b' ');
    add_hex(text, args[1]);
    text.push(b' ');
    add_hex(text, args[2]);
    text.push(b' ');
    add_hex(text, args[3]);
    text.push(b' ');
    add_hex(text, args[4]);
}

/// Which page of the TIMA is accessed for which thread, where, and how many bytes.
fn add_tima<const CAP: usize>(text: &mut ArrayVec<u8, CAP>, t: u32, page: u8, offset: u16, size: u8)
    requires { array_vec_len text.old + LONGEST_TIMA ≤ CAP }
    ensures items { text.new.items ≡ text.old.items ++ tima_text t page offset size }
    ensures len { array_vec_len text.new ≤ array_vec_len text.old + LONGEST_TIMA }
{
    add_page(text, t, page, offset);
    text.push(b' ');
    add_short_number(text, size as u32);
}

/// A load from the TIMA, or a store to it.
fn add_tima_access<const CAP: usize>(
    text: &mut ArrayVec<u8, CAP>,
    t: u32,
    page: u8,
    offset: u16,
    size: u8,
    access: Access,
)
    requires { array_vec_len text.old + LONGEST_TIMA_ACCESS ≤ CAP }
    ensures items { text.new.items
        ≡ text.old.items ++ tima_access_text t page offset size access }
    ensures len { array_vec_len text.new ≤ array_vec_len text.old + LONGEST_TIMA_ACCESS }
{
    match access {
        Access::Load => {
            add(text, b"tload ");
            add_tima(text, t, page, offset, size);
        }
        Access::Store { value } => {
            add(text, b"tstore ");
            add_tima(text, t, page, offset, size);
            text.push(b' ');
            add_hex(text, value);
        }
    }
}

/// A take, a move of a context or an access to the TIMA. It stays a call, which leaves more registers to the
/// operations that come more often.
#[inline(never)]
fn add_processor_op<const CAP: usize>(text: &mut ArrayVec<u8, CAP>, op: &Op)
    requires room { array_vec_len text.old + LONGEST_TIMA_ACCESS ≤ CAP }
    requires op { IsTrue (is_processor_op op.now) }
    ensures items { text.new.items ≡ text.old.items ++ op_text op.now }
    ensures len { array_vec_len text.new ≤ array_vec_len text.old + LONGEST_TIMA_ACCESS }
{
    match op {
        Op::Take { i } => {
            add(text, b"take ");
            add_short_number(text, *i);
        }
        Op::Connect { v } => {
            add(text, b"connect ");
            add_short_number(text, *v);
        }
        Op::Restore { v, t } => {
            add(text, b"restore ");
            add_short_number(text, *v);
            text.push(b' ');
            add_short_number(text, *t);
        }
        Op::Save { v } => {
            add(text, b"save ");
            add_short_number(text, *v);
        }
        Op::Tima {
            t,
            page,
            offset,
            size,
            access,
        } => add_tima_access(text, *t, *page, *offset, *size, *access),
        _ => unreachable!(),
    }
}

/// Appends the fields of a queue of the KVM device.
pub fn add_fields<const CAP: usize>(text: &mut ArrayVec<u8, CAP>, eq: &EqFields)
    requires { array_vec_len text.old + LONGEST_FIELDS ≤ CAP }
    ensures items { text.new.items ≡ text.old.items ++ fields_text eq.now }
    ensures len { array_vec_len text.new ≤ array_vec_len text.old + LONGEST_FIELDS }
{
    add_hex(text, eq.flags as u64);
    text.push(b' ');
    add_short_number(text, eq.qshift);
    text.push(b' ');
    add_hex(text, eq.qaddr);
    text.push(b' ');
    add_short_number(text, eq.qtoggle);
    text.push(b' ');
    add_short_number(text, eq.qindex);
}

/// What an attribute of the KVM device is set to.
fn add_attribute<const CAP: usize>(
    text: &mut ArrayVec<u8, CAP>,
    group: u32,
    attr: u64,
    value: &AttrValue,
)
    requires { array_vec_len text.old + LONGEST_DEVICE_OP ≤ CAP }
    ensures items { text.new.items ≡ text.old.items ++ attribute_text group attr value.now }
    ensures len { array_vec_len text.new ≤ array_vec_len text.old + LONGEST_DEVICE_OP }
{
    match value {
        AttrValue::Number { value } => {
            add(text, b"kvmset ");
            add_short_number(text, group);
            text.push(b' ');
            add_hex(text, attr);
            text.push(b' ');
            add_hex(text, *value);
        }
        AttrValue::Queue { eq } => {
            add(text, b"kvmeq ");
            add_hex(text, attr);
            text.push(b' ');
            add_fields(text, eq);
        }
    }
}

/// A call to the KVM device. It stays a call, as [`add_processor_op`] does.
#[inline(never)]
fn add_device_op<const CAP: usize>(text: &mut ArrayVec<u8, CAP>, op: &Op)
    requires room { array_vec_len text.old + LONGEST_DEVICE_OP ≤ CAP }
    requires op { IsTrue (is_device_op op.now) }
    ensures items { text.new.items ≡ text.old.items ++ op_text op.now }
    ensures len { array_vec_len text.new ≤ array_vec_len text.old + LONGEST_DEVICE_OP }
{
    match op {
        Op::AttrSet { group, attr, value } => add_attribute(text, *group, *attr, value),
        Op::AttrGet { group, attr } => {
            add(text, b"kvmget ");
            add_short_number(text, *group);
            text.push(b' ');
            add_hex(text, *attr);
        }
        Op::VpGet { v } => {
            add(text, b"vpget ");
            add_short_number(text, *v);
        }
        Op::VpSet { v, cppr, ipb } => {
            add(text, b"vpset ");
            add_short_number(text, *v);
            text.push(b' ');
            add_hex(text, *cppr as u64);
            text.push(b' ');
            add_hex(text, *ipb as u64);
        }
        _ => unreachable!(),
    }
}

/// Appends the text of an operation. One that a board has says all of it by its text.
pub fn add_op<const CAP: usize>(text: &mut ArrayVec<u8, CAP>, op: &Op)
    requires room { array_vec_len text.old + LONGEST_OP ≤ CAP }
    requires op { IsTrue (has_text op.now) }
    ensures items { text.new.items ≡ text.old.items ++ op_text op.now }
    ensures len { array_vec_len text.new ≤ array_vec_len text.old + LONGEST_OP }
{
    match op {
        Op::Pq { s, op } => add_pq_op(text, *op, *s),
        Op::Esb {
            s,
            page,
            offset,
            store,
        } => {
            add_access(text, *store);
            add_page(text, *s, *page, *offset);
        }
        Op::EndEsb {
            e,
            page,
            offset,
            store,
        } => {
            add(text, b"end");
            add_access(text, *store);
            add_page(text, *e, *page, *offset);
        }
        Op::Route { s } => {
            add(text, b"route ");
            add_short_number(text, *s);
        }
        Op::EndSet { e, config } => {
            add(text, b"endset ");
            add_short_number(text, *e);
            text.push(b' ');
            add_config(text, config);
        }
        Op::Hcall { number, args } => {
            add(text, b"hcall ");
            add_hex(text, *number);
            text.push(b' ');
            add_arguments(text, args);
        }
        Op::Quiet { s } => {
            add(text, b"quiet ");
            add_short_number(text, *s);
        }
        Op::Read { e } => {
            add(text, b"read ");
            add_short_number(text, *e);
        }
        Op::Peek { addr } => {
            add(text, b"peek ");
            add_hex(text, *addr);
        }
        Op::Zero { addr, len } => {
            add(text, b"zero ");
            add_hex(text, *addr);
            text.push(b' ');
            add_hex(text, *len);
        }
        Op::Take { .. }
        | Op::Connect { .. }
        | Op::Restore { .. }
        | Op::Save { .. }
        | Op::Tima { .. } => add_processor_op(text, op),
        Op::AttrSet { .. } | Op::AttrGet { .. } | Op::VpGet { .. } | Op::VpSet { .. } => {
            add_device_op(text, op)
        }
    }
}
