//! The attributes of sources.

ghost use Rattle.std.specs.Prelude.{◌≡◌, ◌<◌, ◌^◌, ℕ, List, All, IsTrue, Some, length, slice_get, slice_set, false};
ghost use Rattle.xv_base.specs.Limits.{most_processors};
ghost use Rattle.xv_model.specs.declared.entries.Entry.{Entry};
ghost use Rattle.xv_model.specs.declared.eas.Eas.{Eas as AnEas};
ghost use Rattle.xv_model.specs.declared.kvm.Setting.TheVariants.{Source, SourceConfig};
ghost use Rattle.xv_model.specs.account.Start.{Start};
ghost use Rattle.xv_model.specs.board.Boards.{IsBoard};
ghost use Rattle.xv_model.specs.board.Validity.{end_count};
ghost use Rattle.xv_model.specs.call.Accepted.{is_success};
ghost use Rattle.xv_model.specs.call.Checks.{code_of};
ghost use Rattle.xv_model.specs.device.Checks.{is_kind as is_of_kind, source_checks, source_config_checks, source_sync_checks};
ghost use Rattle.xv_model.specs.source.Eas.{eas_set};
ghost use Rattle.eas_table.specs.Table.{IsEas, StandsFor as EasesStandFor, eas_in};
ghost use Rattle.end_queue.specs.Accounts.{StandsFor as EndsStandFor};
ghost use Rattle.nvt_backlog.specs.Vps.{AreConnected};
ghost use Rattle.kvm_device.specs.Accepted.{IsSourceAccepted};
ghost use Rattle.kvm_device.specs.Changes.{accepted_by, eas_by_setting};
ghost use Rattle.kvm_device.specs.Parts.{StandFor};

use crate::checks::{end_of, has_source, is_initialised, is_priority};
use eas_table::EasTable;
use end_queue::Ends;
use nvt_backlog::Vps;
use xv_model::board::Board;
use xv_model::eas::Eas;
use xv_model::kvm::arguments::{SourceArgs, SourceConfigArgs};
use xv_model::kvm::errors::{E2BIG, EINVAL, ENOENT, ENXIO};

/// Whether a source is of the kind that it is initialised as.
fn is_kind(board: &Board, args: &SourceArgs) -> bool
    requires { args.now.source < 2 ^ 32 }
    ensures { result ≡ is_of_kind board.now args.now }
{
    board.is_level(args.source as u32) == args.level
}

/// KVM_DEV_XIVE_GRP_SOURCE (kvmppc_xive_native_set_source): initialises a source, also one that is initialised. Its EAS
/// is valid and masked then, and has no END.
///
/// Arguments: source, whether it is a level source, and whether its line is up, which is for the source's word. Errors:
/// E2BIG for a number that is that of no source, and EINVAL for a source of the other kind.
pub(crate) fn set_source(board: &Board, eas: &mut EasTable, args: &SourceArgs) -> i32
    requires board { IsBoard board.now }
    requires sources { length eas.old ≡ board.now.limits.sources }
    requires eases { All (IsEas board.now) eas.old }
    ensures code { result ≡ code_of (source_checks board.now args.now) }
    ensures eases { (s : ℕ) (a : AnEas) → slice_get eas.old s ≡ Some a
        → slice_get eas.new s ≡ Some (eas_by_setting (accepted_by result (Source args.now)) s a) }
    ensures in_range { All (IsEas board.now) eas.new }
    ensures len { length eas.new ≡ length eas.old }
    ensures refused { is_success result ≡ false → eas.new ≡ eas.old }
{
    if !has_source(board, args.source) {
        return E2BIG;
    }
    if !is_kind(board, args) {
        return EINVAL;
    }
    eas.clear(args.source as u32);
    0
}

/// The code of KVM_DEV_XIVE_GRP_SOURCE_CONFIG.
fn source_config_code(
    board: &Board,
    eas: &EasTable,
    ends: &Ends,
    vps: &Vps,
    args: &SourceConfigArgs,
) -> i32
    requires board { IsBoard board.now }
    requires sources { length eas.now ≡ board.now.limits.sources }
    requires ends { length ends.now ≡ end_count board.now }
    requires processors { length vps.now.vps ≡ board.now.limits.processors }
    ensures value { (z : Start) (h : List Entry) → StandFor board.now eas.now ends.now vps.now.vps z h
        → result ≡ code_of (source_config_checks z h args.now) }
    ensures accepted { IsTrue (is_success result) → IsSourceAccepted board.now args.now }
{
    if !has_source(board, args.source) {
        return ENOENT;
    }
    if !is_initialised(eas, args.source) {
        return EINVAL;
    }
    if !is_priority(args.priority) {
        return EINVAL;
    }
    if args.masked {
        return 0;
    }
    if !vps.is_connected(args.server as u64) {
        return EINVAL;
    }
    if !ends.has_queue(end_of(args.server, args.priority)) {
        return ENXIO;
    }
    0
}

/// Sets the EAS of a source as accepted arguments have it.
fn configure_source(board: &Board, eas: &mut EasTable, args: &SourceConfigArgs)
    requires board { IsBoard board.now }
    requires sources { length eas.old ≡ board.now.limits.sources }
    requires eases { All (IsEas board.now) eas.old }
    requires accepted { IsSourceAccepted board.now args.now }
    requires narrow { args.now.eisn < 2 ^ 31 }
    ensures eases { eas.new ≡ slice_set eas.old args.now.source (eas_set args.now (eas_in eas.old args.now.source)) }
    ensures in_range { All (IsEas board.now) eas.new }
{
    let s = args.source as u32;
    if args.masked {
        eas.mask(s);
        return;
    }
    let told = Eas {
        valid: true,
        masked: false,
        end: end_of(args.server, args.priority),
        eisn: args.eisn,
    };
    eas.set(s, told);
}

/// KVM_DEV_XIVE_GRP_SOURCE_CONFIG (kvmppc_xive_native_set_source_config): where the notices of a source go, or that
/// they go nowhere.
///
/// Arguments: source, priority, server, whether the source is masked, and EISN. A source that is masked keeps its END
/// and its EISN; the server isn't looked at, nor its END. Errors: ENOENT for a number that is that of no source, EINVAL
/// for a source that isn't initialised, for priority 7 and for a server that isn't a connected processor, and ENXIO
/// where the END has no queue.
pub(crate) fn set_source_config(
    board: &Board,
    eas: &mut EasTable,
    ends: &Ends,
    vps: &Vps,
    args: &SourceConfigArgs,
) -> i32
    requires board { IsBoard board.now }
    requires sources { length eas.old ≡ board.now.limits.sources }
    requires ends { length ends.now ≡ end_count board.now }
    requires processors { length vps.now.vps ≡ board.now.limits.processors }
    requires eases { All (IsEas board.now) eas.old }
    requires narrow { args.now.eisn < 2 ^ 31 }
    ensures code { (z : Start) (h : List Entry) → StandFor board.now eas.old ends.now vps.now.vps z h
        → result ≡ code_of (source_config_checks z h args.now) }
    ensures eases { (s : ℕ) (a : AnEas) → slice_get eas.old s ≡ Some a
        → slice_get eas.new s ≡ Some (eas_by_setting (accepted_by result (SourceConfig args.now)) s a) }
    ensures in_range { All (IsEas board.now) eas.new }
    ensures len { length eas.new ≡ length eas.old }
    ensures refused { is_success result ≡ false → eas.new ≡ eas.old }
{
    let code = source_config_code(board, eas, ends, vps, args);
    if code == 0 {
        configure_source(board, eas, args);
    }
    code
}

/// KVM_DEV_XIVE_GRP_SOURCE_SYNC (kvmppc_xive_native_sync_source): whether the hypervisor may wait until a source is
/// quiet, which it then does.
///
/// Argument: source. Errors: ENOENT for a number that is that of no source, and EINVAL for a source that isn't
/// initialised.
pub(crate) fn sync_source(board: &Board, eas: &EasTable, source: u64) -> i32
    requires sources { length eas.now ≡ board.now.limits.sources }
    ensures { (z : Start) (h : List Entry) → board.now ≡ z.board → EasesStandFor eas.now z h
        → result ≡ code_of (source_sync_checks z h source) }
{
    if !has_source(board, source) {
        return ENOENT;
    }
    if !is_initialised(eas, source) {
        return EINVAL;
    }
    0
}
