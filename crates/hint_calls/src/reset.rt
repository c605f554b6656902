//! The hypercall that resets all.

ghost use Rattle.std.specs.Prelude.{◌≡◌, ◌<◌, ℕ, List, All, Some, length, slice_get, false};
ghost use Rattle.xv_model.specs.declared.eas.Eas.{Eas};
ghost use Rattle.xv_model.specs.declared.entries.Entry.{Entry};
ghost use Rattle.xv_model.specs.declared.hypercalls.Call.TheVariants.{Reset};
ghost use Rattle.xv_model.specs.account.Start.{Start};
ghost use Rattle.xv_model.specs.board.Boards.{IsBoard};
ghost use Rattle.xv_model.specs.board.Validity.{end_count};
ghost use Rattle.xv_model.specs.call.Accepted.{is_success};
ghost use Rattle.xv_model.specs.call.Hypercalls.{call_reply};
ghost use Rattle.eas_table.specs.Table.{IsEas};
ghost use Rattle.end_queue.specs.declared.ends.EndRecord.{EndRecord};
ghost use Rattle.end_queue.specs.Accounts.{IsEnd};
ghost use Rattle.end_queue.specs.Ends.{HasCountsAtMost};
ghost use Rattle.hint_calls.specs.Changes.{accepted_by, eas_by_call, end_by_call};
ghost use Rattle.hint_calls.specs.Replies.{IsReply};

use crate::replies::reply;
use eas_table::EasTable;
use end_queue::Ends;
use xv_model::board::Board;
use xv_model::hypercalls::arguments::ResetArgs;
use xv_model::hypercalls::codes::{H_PARAMETER, H_SUCCESS};
use xv_model::outcomes::HReply;

/// H_INT_RESET (h_int_reset): resets all ENDs, and masks off all sources with a valid EAS, which the guest then turns
/// off.
///
/// Argument: flags, of which there are none. Code: H_PARAMETER for a flag. No outputs.
pub(crate) fn reset(board: &Board, eas: &mut EasTable, ends: &mut Ends, args: &ResetArgs) -> HReply
    requires board { IsBoard board.now }
    requires sources { length eas.old ≡ board.now.limits.sources }
    requires ends { length ends.old ≡ end_count board.now }
    requires eases_in_range { All (IsEas board.now) eas.old }
    requires ends_in_range { All (IsEnd board.now) ends.old }
    ensures reply { (z : Start) (h : List Entry) → result ≡ call_reply z h (Reset args.now) }
    ensures eases { (s : ℕ) (a : Eas) → slice_get eas.old s ≡ Some a
        → slice_get eas.new s ≡ Some (eas_by_call (accepted_by result.code (Reset args.now)) s a) }
    ensures ends { (e : ℕ) (r : EndRecord) → slice_get ends.old e ≡ Some r
        → slice_get ends.new e ≡ Some (end_by_call (accepted_by result.code (Reset args.now)) e r) }
    ensures eases_in_range { All (IsEas board.now) eas.new }
    ensures ends_in_range { All (IsEnd board.now) ends.new }
    ensures counts { (n : ℕ) → All (HasCountsAtMost n) ends.old → All (HasCountsAtMost n) ends.new }
    ensures sources { length eas.new ≡ length eas.old }
    ensures len { length ends.new ≡ length ends.old }
    ensures refused { is_success result.code ≡ false → (eas.new ≡ eas.old) × (ends.new ≡ ends.old) }
    ensures well_formed { IsReply result }
{
    if args.flags > 0 {
        return reply(H_PARAMETER);
    }
    eas.clear_valid(board);
    ends.reset_all();
    reply(H_SUCCESS)
}
