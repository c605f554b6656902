//! The attributes of event queues.

ghost use Rattle.std.specs.Prelude.{◌≡◌, ◌<◌, ◌≤◌, ◌*◌, ◌+◌, ◌^◌, ℕ, List, All, IsTrue, Some, length, slice_get, false};
ghost use Rattle.xv_base.specs.Limits.{ends_per_processor, most_processors};
ghost use Rattle.xv_model.specs.declared.board.Board.{Board as ABoard};
ghost use Rattle.xv_model.specs.declared.entries.Entry.{Entry};
ghost use Rattle.xv_model.specs.declared.kvm.Attribute.TheVariants.{EqConfig as AnEqConfig};
ghost use Rattle.xv_model.specs.declared.kvm.Setting.TheVariants.{EqConfig};
ghost use Rattle.xv_model.specs.account.Outcomes.{IsWellFormed};
ghost use Rattle.xv_model.specs.account.Start.{Start};
ghost use Rattle.xv_model.specs.board.Boards.{IsBoard};
ghost use Rattle.xv_model.specs.board.Validity.{end_count, entries_of, is_queue as is_queue_of, is_queue_shift as is_shift, ram_size, valid_config};
ghost use Rattle.xv_model.specs.call.Accepted.{is_success};
ghost use Rattle.xv_model.specs.call.Checks.{code_of, is_priority as is_guest_priority};
ghost use Rattle.xv_model.specs.device.Answers.{got_of};
ghost use Rattle.xv_model.specs.device.Checks.{eq_config_checks, eq_id_checks, is_entry as is_entry_of};
ghost use Rattle.xv_model.specs.end.Descriptors.{config_set, first_entry as first_entry_of};
ghost use Rattle.end_queue.specs.declared.ends.EndRecord.{EndRecord};
ghost use Rattle.end_queue.specs.Accounts.{IsEnd};
ghost use Rattle.end_queue.specs.Ends.{HasCountsAtMost, HasRoom, end_in};
ghost use Rattle.nvt_backlog.specs.Vps.{AreConnected};
ghost use Rattle.kvm_device.specs.Accepted.{IsQueueAccepted};
ghost use Rattle.kvm_device.specs.Changes.{accepted_by, end_by_setting, fields_in};
ghost use Rattle.kvm_device.specs.Parts.{QueuesStandFor};

use crate::checks::{end_of, is_priority};
use bitflags::Flags;
use end_queue::Ends;
use guest_ram::Ram;
use nvt_backlog::Vps;
use xv_model::board::Board;
use xv_model::kvm::arguments::{EqArgs, EqId};
use xv_model::kvm::errors::{EINVAL, ENOENT};
use xv_model::kvm::fields::EQ_ALWAYS_NOTIFY;
use xv_model::operations::{EndConfig, EndFlags, EqFields};
use xv_model::outcomes::Outcome;

/// Whether a queue may have 2 to the power of this many bytes: 4 KiB, 64 KiB, 2 MiB or 16 MiB.
fn is_queue_shift(shift: u32) -> bool
    ensures { result ≡ is_shift shift }
{
    shift == 12 || shift == 16 || shift == 21 || shift == 24
}

/// Whether a queue of one of these sizes is aligned, and lies in memory.
fn is_queue(ram: &Ram, address: u64, shift: u32) -> bool
    requires { IsTrue (is_shift shift) }
    ensures { (b : ABoard) → 4 * length ram.now ≡ ram_size b → result ≡ is_queue_of b address shift }
{
    let bytes = 1u64 << shift;
    address % bytes == 0 && ram.fits(address, bytes)
}

/// How many entries a queue of one of these sizes has.
fn entries(shift: u32) -> u64
    requires { IsTrue (is_shift shift) }
    ensures value { result ≡ entries_of shift }
    ensures most { result ≤ 2 ^ 22 }
{
    1 << (shift - 2)
}

/// Whether a toggle and an index are those of an entry of the queue.
fn is_entry(eq: &EqFields) -> bool
    requires { IsTrue (is_shift eq.now.qshift) }
    ensures { result ≡ is_entry_of eq.now }
{
    eq.qtoggle <= 1 && (eq.qindex as u64) < entries(eq.qshift)
}

/// The code of the identifier of a queue.
fn id_code(vps: &Vps, id: &EqId) -> i32
    ensures value { (z : Start) (h : List Entry) → length vps.now.vps ≡ z.board.limits.processors
        → AreConnected vps.now.vps z h → result ≡ code_of (eq_id_checks z h id.now) }
    ensures server { IsTrue (is_success result) → id.now.server < length vps.now.vps }
    ensures priority { IsTrue (is_success result) → IsTrue (is_guest_priority id.now.priority) }
{
    if !vps.is_connected(id.server as u64) {
        return ENOENT;
    }
    if !is_priority(id.priority) {
        return EINVAL;
    }
    0
}

/// The code of KVM_DEV_XIVE_GRP_EQ_CONFIG.
fn eq_config_code(board: &Board, vps: &Vps, ram: &Ram, args: &EqArgs) -> i32
    requires processors { length vps.now.vps ≡ board.now.limits.processors }
    requires memory { 4 * length ram.now ≡ ram_size board.now }
    ensures value { (z : Start) (h : List Entry) → board.now ≡ z.board → AreConnected vps.now.vps z h
        → result ≡ code_of (eq_config_checks z h args.now) }
    ensures accepted { IsTrue (is_success result) → IsQueueAccepted board.now args.now }
{
    if !vps.is_connected(args.id.server as u64) {
        return ENOENT;
    }
    if !is_priority(args.id.priority) {
        return EINVAL;
    }
    if args.eq.qshift == 0 {
        return 0;
    }
    if args.eq.flags != EQ_ALWAYS_NOTIFY {
        return EINVAL;
    }
    if !is_queue_shift(args.eq.qshift) {
        return EINVAL;
    }
    if !is_queue(ram, args.eq.qaddr, args.eq.qshift) {
        return EINVAL;
    }
    if !is_entry(&args.eq) {
        return EINVAL;
    }
    0
}

/// The number of the entry that has a toggle and an index. The toggle is the entry's generation, which is 1 the first
/// time through the queue.
fn first_entry(eq: &EqFields) -> u64
    requires { IsTrue (is_shift eq.now.qshift) }
    ensures { result ≡ first_entry_of eq.now }
{
    if eq.qtoggle == 1 {
        eq.qindex as u64
    } else {
        entries(eq.qshift) + eq.qindex as u64
    }
}

/// The flags of an END with a queue: v, q, n and b.
fn queue_flags() -> EndFlags
    ensures { result ≡ record { 0 = 1 + 2 + 4 + 8 } }
{
    let mut flags = EndFlags::VALID;
    flags.insert(EndFlags::ENQUEUE);
    flags.insert(EndFlags::NOTIFY_ALWAYS);
    flags.insert(EndFlags::BACKLOG);
    flags
}

/// The configuration that accepted arguments set the END to.
fn config_of(board: &Board, args: &EqArgs) -> EndConfig
    requires accepted { IsQueueAccepted board.now args.now }
    ensures value { result ≡ config_set args.now }
    ensures valid { IsTrue (valid_config board.now result) }
{
    if args.eq.qshift == 0 {
        return EndConfig::OFF;
    }
    EndConfig {
        flags: queue_flags(),
        vp: args.id.server,
        priority: args.id.priority,
        qaddr: args.eq.qaddr,
        qshift: args.eq.qshift,
        start: first_entry(&args.eq),
        esc: 0,
        esc_eisn: 0,
    }
}

/// Configures an END as accepted arguments have it.
fn configure_end(board: &Board, ends: &mut Ends, args: &EqArgs)
    requires board { IsBoard board.now }
    requires ends { length ends.old ≡ end_count board.now }
    requires in_range { All (IsEnd board.now) ends.old }
    requires accepted { IsQueueAccepted board.now args.now }
    ensures ends { (e : ℕ) (r : EndRecord) → slice_get ends.old e ≡ Some r
        → slice_get ends.new e ≡ Some (end_by_setting (Some (EqConfig args.now)) e r) }
    ensures in_range { All (IsEnd board.now) ends.new }
    ensures counts { (n : ℕ) → All (HasCountsAtMost n) ends.old → All (HasCountsAtMost n) ends.new }
    ensures len { length ends.new ≡ length ends.old }
{
    let e = end_of(args.id.server, args.id.priority);
    let config = config_of(board, args);
    ends.configure(e, &config);
}

/// KVM_DEV_XIVE_GRP_EQ_CONFIG, set (kvmppc_xive_native_set_queue_config): gives an END its queue, or resets it.
///
/// Arguments: server and priority of the END, and the queue's fields: flags, of which there is KVM_XIVE_EQ_ALWAYS_NOTIFY
/// alone, which has to be set; size, where the queue has 2 to the power of it bytes; address, in bytes; and toggle and
/// index of the entry that is written first. Size 0 resets the END; then the other fields aren't looked at. Errors:
/// ENOENT for a server that isn't a connected processor, and EINVAL for priority 7, for other flags, for a size other
/// than 0, 12, 16, 21 and 24, for an address that isn't a multiple of the queue's bytes, or where these don't lie in
/// memory, for a toggle above 1, and for an index beyond the queue.
pub(crate) fn set_eq_config(
    board: &Board,
    ends: &mut Ends,
    vps: &Vps,
    ram: &Ram,
    args: &EqArgs,
) -> i32
    requires board { IsBoard board.now }
    requires ends { length ends.old ≡ end_count board.now }
    requires processors { length vps.now.vps ≡ board.now.limits.processors }
    requires memory { 4 * length ram.now ≡ ram_size board.now }
    requires in_range { All (IsEnd board.now) ends.old }
    ensures code { (z : Start) (h : List Entry) → board.now ≡ z.board → AreConnected vps.now.vps z h
        → result ≡ code_of (eq_config_checks z h args.now) }
    ensures ends { (e : ℕ) (r : EndRecord) → slice_get ends.old e ≡ Some r
        → slice_get ends.new e ≡ Some (end_by_setting (accepted_by result (EqConfig args.now)) e r) }
    ensures in_range { All (IsEnd board.now) ends.new }
    ensures counts { (n : ℕ) → All (HasCountsAtMost n) ends.old → All (HasCountsAtMost n) ends.new }
    ensures len { length ends.new ≡ length ends.old }
    ensures refused { is_success result ≡ false → ends.new ≡ ends.old }
{
    let code = eq_config_code(board, vps, ram, args);
    if code == 0 {
        configure_end(board, ends, args);
    }
    code
}

/// The fields of the queue of an END, or 0 for each where it has none.
fn fields(ends: &Ends, e: u32) -> EqFields
    requires end { e < length ends.now }
    requires room { HasRoom (end_in ends.now e) }
    ensures { result ≡ fields_in (end_in ends.now e) }
{
    if !ends.has_queue(e) {
        return EqFields {
            flags: 0,
            qshift: 0,
            qaddr: 0,
            qtoggle: 0,
            qindex: 0,
        };
    }
    let config = ends.config(e);
    let next = ends.next_entry(e);
    EqFields {
        flags: if config.flags.contains(EndFlags::NOTIFY_ALWAYS) {
            EQ_ALWAYS_NOTIFY
        } else {
            0
        },
        qshift: config.qshift,
        qaddr: config.qaddr,
        qtoggle: next.generation,
        qindex: next.index as u32,
    }
}

/// KVM_DEV_XIVE_GRP_EQ_CONFIG, get (kvmppc_xive_native_get_queue_config): the queue that an END has.
///
/// Arguments: server and priority of the END. It answers flags (KVM_XIVE_EQ_ALWAYS_NOTIFY where the END notifies whatever
/// its state is), size, address, and toggle and index of the entry that is written next, all of them 0 for an END without
/// a queue. Errors: ENOENT for a server that isn't a connected processor, and EINVAL for priority 7.
pub(crate) fn get_eq_config(ends: &Ends, vps: &Vps, id: &EqId) -> Outcome
    requires few { length vps.now.vps ≤ most_processors }
    requires ends { length ends.now ≡ ends_per_processor * length vps.now.vps }
    requires room { All HasRoom ends.now }
    ensures outcome { (z : Start) (h : List Entry) → QueuesStandFor ends.now vps.now.vps z h
        → result ≡ got_of z h (Some (AnEqConfig id.now)) }
    ensures well_formed { IsWellFormed result }
{
    let code = id_code(vps, id);
    if code != 0 {
        return Outcome::Code { code };
    }
    Outcome::Queue {
        eq: fields(ends, end_of(id.server, id.priority)),
    }
}
