//! What a hypercall replies and does, by its number.

ghost use Rattle.std.specs.Prelude.{◌≡◌, ◌≤◌, ◌*◌, ◌∷◌, ℕ, List, All, Some, length, slice_get, false};
ghost use Rattle.xv_model.specs.declared.eas.Eas.{Eas};
ghost use Rattle.xv_model.specs.declared.entries.Entry.{Entry};
ghost use Rattle.xv_model.specs.declared.operations.Op.TheVariants.{Hcall};
ghost use Rattle.xv_model.specs.declared.outcomes.Outcome.TheVariants.{Reply};
ghost use Rattle.xv_model.specs.account.Start.{Start};
ghost use Rattle.xv_model.specs.board.Boards.{IsBoard};
ghost use Rattle.xv_model.specs.board.Validity.{end_count, ram_size};
ghost use Rattle.xv_model.specs.call.Accepted.{is_success};
ghost use Rattle.xv_model.specs.call.Hypercalls.{call_reply, hcall_reply};
ghost use Rattle.eas_table.specs.Table.{IsEas, StandsFor as EasesStandFor};
ghost use Rattle.end_queue.specs.declared.ends.EndRecord.{EndRecord};
ghost use Rattle.end_queue.specs.Accounts.{IsEnd, StandsFor as EndsStandFor};
ghost use Rattle.end_queue.specs.Ends.{HasCountsAtMost, HasRoom};
ghost use Rattle.hint_calls.specs.Changes.{accepted_by, eas_by_call, end_by_call};
ghost use Rattle.hint_calls.specs.Parts.{StandFor};
ghost use Rattle.hint_calls.specs.Replies.{IsReply};

use crate::queues::{get_queue_config, get_queue_info, set_queue_config};
use crate::replies::reply;
use crate::reset::reset;
use crate::sources::{esb, get_source_config, get_source_info, set_source_config, sync};
use eas_table::EasTable;
use end_queue::Ends;
use guest_ram::Ram;
use nvt_backlog::Vps;
use xv_model::board::Board;
use xv_model::hypercalls::Call;
use xv_model::hypercalls::codes::H_FUNCTION;
use xv_model::outcomes::HReply;

/// What a call with its arguments replies and does.
fn answer(
    board: &Board,
    eas: &mut EasTable,
    ends: &mut Ends,
    vps: &Vps,
    ram: &Ram,
    call: &Call,
) -> HReply
    requires board { IsBoard board.now }
    requires sources { length eas.old ≡ board.now.limits.sources }
    requires ends { length ends.old ≡ end_count board.now }
    requires processors { length vps.now.vps ≡ board.now.limits.processors }
    requires memory { 4 * length ram.now ≡ ram_size board.now }
    requires eases_in_range { All (IsEas board.now) eas.old }
    requires ends_in_range { All (IsEnd board.now) ends.old }
    requires room { All HasRoom ends.old }
    ensures reply { (z : Start) (h : List Entry) → StandFor board.now eas.old ends.old vps.now.vps z h
        → result ≡ call_reply z h call.now }
    ensures eases { (s : ℕ) (a : Eas) → slice_get eas.old s ≡ Some a
        → slice_get eas.new s ≡ Some (eas_by_call (accepted_by result.code call.now) s a) }
    ensures ends { (e : ℕ) (r : EndRecord) → slice_get ends.old e ≡ Some r
        → slice_get ends.new e ≡ Some (end_by_call (accepted_by result.code call.now) e r) }
    ensures eases_in_range { All (IsEas board.now) eas.new }
    ensures ends_in_range { All (IsEnd board.now) ends.new }
    ensures counts { (n : ℕ) → All (HasCountsAtMost n) ends.old → All (HasCountsAtMost n) ends.new }
    ensures sources { length eas.new ≡ length eas.old }
    ensures len { length ends.new ≡ length ends.old }
    ensures refused { is_success result.code ≡ false → (eas.new ≡ eas.old) × (ends.new ≡ ends.old) }
    ensures well_formed { IsReply result }
{
    match call {
        Call::GetSourceInfo { args } => get_source_info(board, eas, args),
        Call::SetSourceConfig { args } => set_source_config(board, eas, vps, args),
        Call::GetSourceConfig { args } => get_source_config(board, eas, args),
        Call::GetQueueInfo { args } => get_queue_info(board, vps, args),
        Call::SetQueueConfig { args } => set_queue_config(board, ends, vps, ram, args),
        Call::GetQueueConfig { args } => get_queue_config(board, ends, vps, args),
        Call::Esb { args } => esb(board, eas, args),
        Call::Sync { args } => sync(board, eas, args),
        Call::Reset { args } => reset(board, eas, ends, args),
    }
}

/// What a hypercall replies, by its number and its argument registers in order, and what it does to EASes and ENDs.
/// H_FUNCTION (-2) where the number is that of no call that is known. Each call (h_int_* of QEMU's
/// hw/intc/spapr_xive.c) says by itself which arguments it has, and which codes, in the order of its checks; it ignores
/// the registers that it has no argument for. A call that is refused changes nothing.
///
/// The parts are those of the board. No END has come to the limit of its counts (end_queue's `HasRoom`).
pub fn call(
    board: &Board,
    eas: &mut EasTable,
    ends: &mut Ends,
    vps: &Vps,
    ram: &Ram,
    number: u64,
    args: &[u64; 5],
) -> HReply
    requires board { IsBoard board.now }
    requires sources { length eas.old ≡ board.now.limits.sources }
    requires ends { length ends.old ≡ end_count board.now }
    requires processors { length vps.now.vps ≡ board.now.limits.processors }
    requires memory { 4 * length ram.now ≡ ram_size board.now }
    requires eases_in_range { All (IsEas board.now) eas.old }
    requires ends_in_range { All (IsEnd board.now) ends.old }
    requires room { All HasRoom ends.old }
    ensures reply { (z : Start) (h : List Entry) → StandFor board.now eas.old ends.old vps.now.vps z h
        → result ≡ hcall_reply z h number args.now }
    ensures eases { (z : Start) (h : List Entry) (actor : ℕ) → EasesStandFor eas.old z h
        → EasesStandFor eas.new z (record { actor = actor; op = Hcall number args.now; outcome = Reply result } ∷ h) }
    ensures ends { (z : Start) (h : List Entry) (actor : ℕ) → EndsStandFor ends.old z h
        → EndsStandFor ends.new z (record { actor = actor; op = Hcall number args.now; outcome = Reply result } ∷ h) }
    ensures refused { is_success result.code ≡ false
        → (eas.new ≡ eas.old) × (ends.new ≡ ends.old) × (result.outs ≡ 0) }
    ensures few { result.outs ≤ 4 }
    ensures eases_in_range { All (IsEas board.now) eas.new }
    ensures ends_in_range { All (IsEnd board.now) ends.new }
    ensures counts { (n : ℕ) → All (HasCountsAtMost n) ends.old → All (HasCountsAtMost n) ends.new }
    ensures sources { length eas.new ≡ length eas.old }
    ensures len { length ends.new ≡ length ends.old }
{
    match Call::from_args(number, args) {
        None => reply(H_FUNCTION),
        Some(call) => answer(board, eas, ends, vps, ram, &call),
    }
}
