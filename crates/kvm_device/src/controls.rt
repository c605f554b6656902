//! The attributes of the device as a whole.

ghost use Rattle.std.specs.Prelude.{◌≡◌, ℕ, List, All, Some, length, slice_get, false};
ghost use Rattle.xv_model.specs.declared.entries.Entry.{Entry};
ghost use Rattle.xv_model.specs.declared.eas.Eas.{Eas};
ghost use Rattle.xv_model.specs.declared.kvm.Setting.TheVariants.{NrServers, Reset};
ghost use Rattle.xv_model.specs.account.Start.{Start};
ghost use Rattle.xv_model.specs.board.Boards.{IsBoard};
ghost use Rattle.xv_model.specs.board.Validity.{end_count};
ghost use Rattle.xv_model.specs.call.Accepted.{is_success};
ghost use Rattle.xv_model.specs.call.Checks.{code_of};
ghost use Rattle.xv_model.specs.device.Checks.{nr_servers_checks};
ghost use Rattle.eas_table.specs.Table.{IsEas};
ghost use Rattle.end_queue.specs.declared.ends.EndRecord.{EndRecord};
ghost use Rattle.end_queue.specs.Accounts.{IsEnd};
ghost use Rattle.end_queue.specs.Ends.{HasCountsAtMost};
ghost use Rattle.nvt_backlog.specs.Vps.{AreConnected};
ghost use Rattle.kvm_device.specs.Changes.{accepted_by, eas_by_setting, end_by_setting, servers_by_setting};

use eas_table::EasTable;
use end_queue::Ends;
use nvt_backlog::Vps;
use xv_model::board::Board;
use xv_model::kvm::errors::{EBUSY, EINVAL};

/// KVM_DEV_XIVE_RESET (kvmppc_xive_reset): resets all ENDs, and masks off all sources that are initialised, which the
/// hypervisor then turns off. Processors stay as they are. It is never refused.
pub(crate) fn reset(board: &Board, eas: &mut EasTable, ends: &mut Ends)
    requires board { IsBoard board.now }
    requires sources { length eas.old ≡ board.now.limits.sources }
    requires ends { length ends.old ≡ end_count board.now }
    requires eases_in_range { All (IsEas board.now) eas.old }
    ensures eases { (s : ℕ) (a : Eas) → slice_get eas.old s ≡ Some a
        → slice_get eas.new s ≡ Some (eas_by_setting (Some Reset) s a) }
    ensures ends { (e : ℕ) (r : EndRecord) → slice_get ends.old e ≡ Some r
        → slice_get ends.new e ≡ Some (end_by_setting (Some Reset) e r) }
    ensures eases_in_range { All (IsEas board.now) eas.new }
    ensures ends_in_range { All (IsEnd board.now) ends.new }
    ensures counts { All (HasCountsAtMost 0) ends.new }
    ensures sources { length eas.new ≡ length eas.old }
    ensures len { length ends.new ≡ length ends.old }
{
    eas.clear_valid(board);
    ends.reset_all();
}

/// KVM_DEV_XIVE_NR_SERVERS (kvmppc_xive_set_nr_servers): how many processors can be connected: those with the lowest
/// numbers.
///
/// Argument: the number. Errors: EINVAL for 0 and for more than the board has, and EBUSY while some processor is
/// connected.
pub(crate) fn set_nr_servers(board: &Board, vps: &mut Vps, servers: u64) -> i32
    requires processors { length vps.old.vps ≡ board.now.limits.processors }
    ensures code { (z : Start) (h : List Entry) → board.now ≡ z.board → AreConnected vps.old.vps z h
        → result ≡ code_of (nr_servers_checks z h servers) }
    ensures servers { vps.new.servers ≡ servers_by_setting (accepted_by result (NrServers servers)) vps.old.servers }
    ensures vps { vps.new.vps ≡ vps.old.vps }
    ensures refused { is_success result ≡ false → vps.new ≡ vps.old }
{
    if servers == 0 || servers > board.limits.processors as u64 {
        return EINVAL;
    }
    if vps.some_connected() {
        return EBUSY;
    }
    vps.set_servers(servers as u32);
    0
}
