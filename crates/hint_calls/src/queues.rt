//! The hypercalls on the queue of an END.

ghost use Rattle.std.specs.Prelude.{◌≡◌, ◌<◌, ◌*◌, ◌&&◌, Bool, ℕ, List, All, IsTrue, Some, length, slice_get, false};
ghost use Rattle.xv_model.specs.declared.board.Board.{Board as ABoard};
ghost use Rattle.xv_model.specs.declared.entries.Entry.{Entry};
ghost use Rattle.xv_model.specs.declared.hypercalls.Call.TheVariants.{GetQueueInfo, SetQueueConfig, GetQueueConfig};
ghost use Rattle.xv_model.specs.account.Start.{Start};
ghost use Rattle.xv_model.specs.board.Boards.{IsBoard};
ghost use Rattle.xv_model.specs.board.Validity.{end_count, is_queue as is_queue_of, is_queue_shift, ram_size, valid_config};
ghost use Rattle.xv_model.specs.call.Accepted.{is_success};
ghost use Rattle.xv_model.specs.call.Checks.{code_of, set_queue_config_checks};
ghost use Rattle.xv_model.specs.call.Hypercalls.{call_reply};
ghost use Rattle.xv_model.specs.call.Outputs.{shown_queue};
ghost use Rattle.xv_model.specs.end.Descriptors.{config_told as config_told_by, flags_told as flags_told_by};
ghost use Rattle.xv_model.specs.end.Flags.{enqueues};
ghost use Rattle.end_queue.specs.declared.ends.EndRecord.{EndRecord};
ghost use Rattle.end_queue.specs.Accounts.{IsEnd, StandsFor as EndsStandFor};
ghost use Rattle.end_queue.specs.Ends.{HasCountsAtMost, HasRoom, end_in};
ghost use Rattle.end_queue.specs.Queues.{next_number};
ghost use Rattle.nvt_backlog.specs.Vps.{AreConnected};
ghost use Rattle.hint_calls.specs.Accepted.{IsQueueAccepted};
ghost use Rattle.hint_calls.specs.Changes.{accepted_by, end_by_call};
ghost use Rattle.hint_calls.specs.Replies.{IsReply};

use crate::checks::{end_of, is_priority};
use crate::pages::end_address;
use crate::replies::{accepted, reply};
use bitflags::Flags;
use end_queue::Ends;
use guest_ram::Ram;
use nvt_backlog::Vps;
use xv_model::board::Board;
use xv_model::hypercalls::arguments::{GetQueueConfigArgs, GetQueueInfoArgs, SetQueueConfigArgs};
use xv_model::hypercalls::codes::{H_P2, H_P3, H_P4, H_P5, H_PARAMETER, H_SUCCESS};
use xv_model::hypercalls::flags::{END_ALWAYS_NOTIFY, END_DEBUG, END_GENERATION};
use xv_model::operations::{EndConfig, EndFlags};
use xv_model::outcomes::HReply;
use xv_model::pages::PAGE_SHIFT;

/// H_INT_GET_QUEUE_INFO (h_int_get_queue_info): where the pages of an END lie.
///
/// Arguments: flags, of which there are none, target processor, and priority. Codes: H_PARAMETER for a flag, H_P3 for
/// a priority above 6, and H_P2 for a target that isn't a connected processor. Outputs: the address of the END's
/// pages, and 16: a page has 2^16 bytes.
pub(crate) fn get_queue_info(board: &Board, vps: &Vps, args: &GetQueueInfoArgs) -> HReply
    requires board { IsBoard board.now }
    requires processors { length vps.now.vps ≡ board.now.limits.processors }
    ensures reply { (z : Start) (h : List Entry) → board.now ≡ z.board → AreConnected vps.now.vps z h
        → result ≡ call_reply z h (GetQueueInfo args.now) }
    ensures well_formed { IsReply result }
{
    if args.flags > 0 {
        return reply(H_PARAMETER);
    }
    if !is_priority(args.priority) {
        return reply(H_P3);
    }
    if !vps.is_connected(args.target) {
        return reply(H_P2);
    }
    let e = end_of(board, args.target, args.priority);
    accepted(2, [end_address(e), PAGE_SHIFT, 0, 0])
}

/// Whether a queue may have 2 to the power of this many bytes: 4 KiB, 64 KiB, 2 MiB or 16 MiB.
pub(crate) fn is_queue_size(size: u64) -> bool
    ensures { result ≡ is_queue_shift size }
{
    size == 12 || size == 16 || size == 21 || size == 24
}

/// Whether a queue of 2 to the power of `size` bytes is aligned at an address, and lies in memory.
pub(crate) fn is_queue(ram: &Ram, address: u64, size: u64) -> bool
    requires { IsTrue (is_queue_shift size) }
    ensures { (b : ABoard) → 4 * length ram.now ≡ ram_size b → result ≡ is_queue_of b address size }
{
    let bytes = 1u64 << size as u32;
    address % bytes == 0 && ram.fits(address, bytes)
}

/// The code of H_INT_SET_QUEUE_CONFIG.
fn queue_config_code(board: &Board, vps: &Vps, ram: &Ram, args: &SetQueueConfigArgs) -> i64
    requires processors { length vps.now.vps ≡ board.now.limits.processors }
    requires memory { 4 * length ram.now ≡ ram_size board.now }
    ensures value { (z : Start) (h : List Entry) → board.now ≡ z.board → AreConnected vps.now.vps z h
        → result ≡ code_of (set_queue_config_checks z h args.now) }
    ensures accepted { IsTrue (is_success result) → IsQueueAccepted board.now args.now }
{
    if args.flags > END_ALWAYS_NOTIFY {
        return H_PARAMETER;
    }
    if !is_priority(args.priority) {
        return H_P3;
    }
    if !vps.is_connected(args.target) {
        return H_P2;
    }
    if args.size == 0 {
        return H_SUCCESS;
    }
    if !is_queue_size(args.size) {
        return H_P5;
    }
    if !is_queue(ram, args.address, args.size) {
        return H_P4;
    }
    H_SUCCESS
}

/// The flags that arguments give the END: v, q and b, and n where it notifies whatever its state is.
fn flags_told(args: &SetQueueConfigArgs) -> EndFlags
    ensures { result ≡ flags_told_by args.now }
{
    let mut flags = EndFlags::VALID;
    flags.insert(EndFlags::ENQUEUE);
    flags.insert(EndFlags::BACKLOG);
    if args.flags & END_ALWAYS_NOTIFY == END_ALWAYS_NOTIFY {
        flags.insert(EndFlags::NOTIFY_ALWAYS);
    }
    flags
}

/// The configuration that accepted arguments tell the END.
fn config_told(board: &Board, args: &SetQueueConfigArgs) -> EndConfig
    requires board { IsBoard board.now }
    requires accepted { IsQueueAccepted board.now args.now }
    ensures value { result ≡ config_told_by args.now }
    ensures valid { IsTrue (valid_config board.now result) }
{
    if args.size == 0 {
        return EndConfig::OFF;
    }
    EndConfig {
        flags: flags_told(args),
        vp: args.target as u32,
        priority: args.priority as u8,
        qaddr: args.address,
        qshift: args.size as u32,
        start: 0,
        esc: 0,
        esc_eisn: 0,
    }
}

/// H_INT_SET_QUEUE_CONFIG (h_int_set_queue_config): gives an END its queue, or resets it.
///
/// Arguments: flags (1 makes the END notify whatever its state is), target processor, priority, address of the queue
/// in bytes, and size: the queue has 2 to the power of it bytes. Size 0 resets the END; then the address isn't looked
/// at. Codes: H_PARAMETER for another flag, H_P3 for a priority above 6, H_P2 for a target that isn't a connected
/// processor, H_P5 for a size other than 0, 12, 16, 21 and 24, and H_P4 for an address that isn't a multiple of the
/// queue's bytes, or where these don't lie in memory. No outputs.
pub(crate) fn set_queue_config(
    board: &Board,
    ends: &mut Ends,
    vps: &Vps,
    ram: &Ram,
    args: &SetQueueConfigArgs,
) -> HReply
    requires board { IsBoard board.now }
    requires ends { length ends.old ≡ end_count board.now }
    requires processors { length vps.now.vps ≡ board.now.limits.processors }
    requires memory { 4 * length ram.now ≡ ram_size board.now }
    requires in_range { All (IsEnd board.now) ends.old }
    ensures reply { (z : Start) (h : List Entry) → board.now ≡ z.board → AreConnected vps.now.vps z h
        → result ≡ call_reply z h (SetQueueConfig args.now) }
    ensures ends { (e : ℕ) (r : EndRecord) → slice_get ends.old e ≡ Some r
        → slice_get ends.new e ≡ Some (end_by_call (accepted_by result.code (SetQueueConfig args.now)) e r) }
    ensures in_range { All (IsEnd board.now) ends.new }
    ensures counts { (n : ℕ) → All (HasCountsAtMost n) ends.old → All (HasCountsAtMost n) ends.new }
    ensures len { length ends.new ≡ length ends.old }
    ensures refused { is_success result.code ≡ false → ends.new ≡ ends.old }
    ensures well_formed { IsReply result }
{
    let code = queue_config_code(board, vps, ram, args);
    if code != H_SUCCESS {
        return reply(code);
    }
    let e = end_of(board, args.target, args.priority);
    let config = config_told(board, args);
    ends.configure(e, &config);
    reply(H_SUCCESS)
}

/// What is shown of the queue of an END: flags, address, size, and the index of the entry that is written next. The
/// generation of that entry, among the flags, and its index are shown where both are asked for and there is a queue.
fn queue_shown(ends: &Ends, e: u32, debug: bool) -> [u64; 4]
    requires end { e < length ends.now }
    requires room { HasRoom (end_in ends.now e) }
    ensures { result ≡ shown_queue (end_in ends.now e).config (next_number (end_in ends.now e))
        (debug && enqueues (end_in ends.now e).config) }
{
    let config = ends.config(e);
    let flags = if config.flags.contains(EndFlags::NOTIFY_ALWAYS) {
        END_ALWAYS_NOTIFY
    } else {
        0
    };
    if !debug || !config.flags.contains(EndFlags::ENQUEUE) {
        return [flags, config.qaddr, config.qshift as u64, 0];
    }
    let next = ends.next_entry(e);
    let generation = next.generation as u64 * END_GENERATION;
    [
        flags + generation,
        config.qaddr,
        config.qshift as u64,
        next.index,
    ]
}

/// H_INT_GET_QUEUE_CONFIG (h_int_get_queue_config): which queue an END has.
///
/// Arguments: flags (1 asks for the entry that is written next), target processor, and priority. Codes: H_PARAMETER for
/// another flag, H_P3 for a priority above 6, and H_P2 for a target that isn't a connected processor. Outputs: flags (1
/// where the END notifies whatever its state is, and 2^62 where the entry that was asked for has generation 1), the
/// address of the queue in bytes, its size (the queue has 2 to the power of it bytes), and the index of that entry, or
/// 0 where it wasn't asked for or there is no queue.
pub(crate) fn get_queue_config(
    board: &Board,
    ends: &Ends,
    vps: &Vps,
    args: &GetQueueConfigArgs,
) -> HReply
    requires board { IsBoard board.now }
    requires ends { length ends.now ≡ end_count board.now }
    requires processors { length vps.now.vps ≡ board.now.limits.processors }
    requires room { All HasRoom ends.now }
    ensures reply { (z : Start) (h : List Entry) → board.now ≡ z.board → EndsStandFor ends.now z h
        → AreConnected vps.now.vps z h → result ≡ call_reply z h (GetQueueConfig args.now) }
    ensures well_formed { IsReply result }
{
    if args.flags > END_DEBUG {
        return reply(H_PARAMETER);
    }
    if !is_priority(args.priority) {
        return reply(H_P3);
    }
    if !vps.is_connected(args.target) {
        return reply(H_P2);
    }
    let e = end_of(board, args.target, args.priority);
    let shown = queue_shown(ends, e, args.flags & END_DEBUG == END_DEBUG);
    accepted(4, shown)
}
