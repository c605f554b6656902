//! The hypercalls on a source.

ghost use Rattle.std.specs.Prelude.{◌≡◌, ◌<◌, ℕ, List, All, IsTrue, Some, length, slice_get, slice_set, false};
ghost use Rattle.xv_model.specs.declared.entries.Entry.{Entry};
ghost use Rattle.xv_model.specs.declared.eas.Eas.{Eas as AnEas};
ghost use Rattle.xv_model.specs.declared.hypercalls.Call.TheVariants.{GetSourceInfo, SetSourceConfig, GetSourceConfig, Esb, Sync};
ghost use Rattle.xv_model.specs.account.Start.{Start};
ghost use Rattle.xv_model.specs.board.Boards.{IsBoard};
ghost use Rattle.xv_model.specs.call.Accepted.{is_success};
ghost use Rattle.xv_model.specs.call.Checks.{code_of, set_source_config_checks};
ghost use Rattle.xv_model.specs.call.Hypercalls.{call_reply};
ghost use Rattle.xv_model.specs.source.Eas.{eas_by};
ghost use Rattle.eas_table.specs.Table.{IsEas, StandsFor as EasesStandFor, eas_in};
ghost use Rattle.nvt_backlog.specs.Vps.{AreConnected};
ghost use Rattle.hint_calls.specs.Changes.{accepted_by, eas_by_call};
ghost use Rattle.hint_calls.specs.Replies.{IsReply};
ghost use Rattle.hint_calls.specs.Accepted.{IsSourceAccepted};

use crate::checks::{end_of, is_priority, is_source};
use crate::pages::{management_page, source_flags, trigger_page};
use crate::replies::{accepted, reply};
use eas_table::EasTable;
use nvt_backlog::Vps;
use xv_base::limits::ENDS_PER_PROCESSOR;
use xv_model::board::Board;
use xv_model::eas::Eas;
use xv_model::hypercalls::arguments::{
    EsbArgs, GetSourceConfigArgs, GetSourceInfoArgs, SetSourceConfigArgs, SyncArgs,
};
use xv_model::hypercalls::codes::{H_P2, H_P3, H_P4, H_PARAMETER, H_SUCCESS};
use xv_model::hypercalls::flags::{ESB_STORE, PRIORITY_MASKED, SRC_FLAGS, SRC_MASK, SRC_SET_EISN};
use xv_model::outcomes::HReply;
use xv_model::pages::{PAGE_SHIFT, PAGE_SIZE};

/// H_INT_GET_SOURCE_INFO (h_int_get_source_info): where the pages of a source lie, and what they can do.
///
/// Arguments: flags, of which there are none, and LISN. Codes: H_PARAMETER for a flag, and H_P2 for a LISN that isn't
/// that of a source with a valid EAS. Outputs: flags (1 where a store to the management page can be an EOI, 2 where
/// it is the trigger page too, and for a level source 4 and 8), the address of the management page (all ones for a
/// level source), that of the trigger page (all ones for a level source, and with one page), and 16: a page has 2^16
/// bytes.
pub(crate) fn get_source_info(board: &Board, eas: &EasTable, args: &GetSourceInfoArgs) -> HReply
    requires sources { length eas.now ≡ board.now.limits.sources }
    ensures reply { (z : Start) (h : List Entry) → board.now ≡ z.board → EasesStandFor eas.now z h
        → result ≡ call_reply z h (GetSourceInfo args.now) }
    ensures well_formed { IsReply result }
{
    if args.flags > 0 {
        return reply(H_PARAMETER);
    }
    if !is_source(board, eas, args.lisn) {
        return reply(H_P2);
    }
    let s = args.lisn as u32;
    accepted(
        4,
        [
            source_flags(board, s),
            management_page(board, s),
            trigger_page(board, s),
            PAGE_SHIFT,
        ],
    )
}

/// The code of H_INT_SET_SOURCE_CONFIG.
fn source_config_code(board: &Board, eas: &EasTable, vps: &Vps, args: &SetSourceConfigArgs) -> i64
    requires sources { length eas.now ≡ board.now.limits.sources }
    requires processors { length vps.now.vps ≡ board.now.limits.processors }
    ensures value { (z : Start) (h : List Entry) → board.now ≡ z.board → EasesStandFor eas.now z h
        → AreConnected vps.now.vps z h → result ≡ code_of (set_source_config_checks z h args.now) }
    ensures accepted { IsTrue (is_success result) → IsSourceAccepted board.now args.now }
{
    if args.flags > SRC_FLAGS {
        return H_PARAMETER;
    }
    if !is_source(board, eas, args.lisn) {
        return H_P2;
    }
    if args.priority == PRIORITY_MASKED {
        return H_SUCCESS;
    }
    if !is_priority(args.priority) {
        return H_P4;
    }
    if !vps.is_connected(args.target) {
        return H_P3;
    }
    H_SUCCESS
}

/// The EAS that accepted arguments make of a source's.
fn eas_told(board: &Board, args: &SetSourceConfigArgs, before: Eas) -> Eas
    requires board { IsBoard board.now }
    requires accepted { IsSourceAccepted board.now args.now }
    requires before { IsEas board.now before }
    ensures value { result ≡ eas_by args.now before }
    ensures in_range { IsEas board.now result }
{
    if args.priority == PRIORITY_MASKED {
        return Eas {
            valid: true,
            masked: true,
            end: 0,
            eisn: 0,
        };
    }
    Eas {
        valid: true,
        masked: args.flags & SRC_MASK == SRC_MASK,
        end: end_of(board, args.target, args.priority),
        eisn: if args.flags & SRC_SET_EISN == SRC_SET_EISN {
            (args.eisn % (1 << 31)) as u32
        } else {
            before.eisn
        },
    }
}

/// H_INT_SET_SOURCE_CONFIG (h_int_set_source_config): where the notices of a source go.
///
/// Arguments: flags (1 masks, 2 sets the EISN), LISN, target processor, priority, and EISN, of which the low 31 bits
/// count. Priority 0xff masks the source and clears its END and EISN, whatever the flags, the target and the EISN are.
/// Codes: H_PARAMETER for another flag, H_P2 for a LISN that isn't that of a source with a valid EAS, H_P4 for another
/// priority above 6, and H_P3 for a target that isn't a connected processor. No outputs.
pub(crate) fn set_source_config(
    board: &Board,
    eas: &mut EasTable,
    vps: &Vps,
    args: &SetSourceConfigArgs,
) -> HReply
    requires board { IsBoard board.now }
    requires sources { length eas.old ≡ board.now.limits.sources }
    requires processors { length vps.now.vps ≡ board.now.limits.processors }
    requires eases { All (IsEas board.now) eas.old }
    ensures reply { (z : Start) (h : List Entry) → board.now ≡ z.board → EasesStandFor eas.old z h
        → AreConnected vps.now.vps z h → result ≡ call_reply z h (SetSourceConfig args.now) }
    ensures eases { (s : ℕ) (a : AnEas) → slice_get eas.old s ≡ Some a
        → slice_get eas.new s ≡ Some (eas_by_call (accepted_by result.code (SetSourceConfig args.now)) s a) }
    ensures in_range { All (IsEas board.now) eas.new }
    ensures len { length eas.new ≡ length eas.old }
    ensures refused { is_success result.code ≡ false → eas.new ≡ eas.old }
    ensures well_formed { IsReply result }
{
    let code = source_config_code(board, eas, vps, args);
    if code != H_SUCCESS {
        return reply(code);
    }
    let s = args.lisn as u32;
    let told = eas_told(board, args, eas.get(s));
    eas.set(s, told);
    reply(H_SUCCESS)
}

/// H_INT_GET_SOURCE_CONFIG (h_int_get_source_config): where the notices of a source go.
///
/// Arguments: flags, of which there are none, and LISN. Codes: H_PARAMETER for a flag, and H_P2 for a LISN that isn't
/// that of a source with a valid EAS. Outputs: the target processor, the priority (0xff where the source is masked),
/// and the EISN.
pub(crate) fn get_source_config(board: &Board, eas: &EasTable, args: &GetSourceConfigArgs) -> HReply
    requires sources { length eas.now ≡ board.now.limits.sources }
    ensures reply { (z : Start) (h : List Entry) → board.now ≡ z.board → EasesStandFor eas.now z h
        → result ≡ call_reply z h (GetSourceConfig args.now) }
    ensures well_formed { IsReply result }
{
    if args.flags > 0 {
        return reply(H_PARAMETER);
    }
    if !is_source(board, eas, args.lisn) {
        return reply(H_P2);
    }
    let source = eas.get(args.lisn as u32);
    let priority = if source.masked {
        PRIORITY_MASKED
    } else {
        (source.end % ENDS_PER_PROCESSOR) as u64
    };
    let target = (source.end / ENDS_PER_PROCESSOR) as u64;
    accepted(3, [target, priority, source.eisn as u64, 0])
}

/// H_INT_ESB (h_int_esb): whether the guest may access the management page of a source, which it then does.
///
/// Arguments: flags (1 for a store), LISN, and offset on the page, in bytes. Codes: H_PARAMETER for another flag, H_P2
/// for a LISN that isn't that of a source with a valid EAS, and H_P3 for an offset beyond the page. No outputs.
pub(crate) fn esb(board: &Board, eas: &EasTable, args: &EsbArgs) -> HReply
    requires sources { length eas.now ≡ board.now.limits.sources }
    ensures reply { (z : Start) (h : List Entry) → board.now ≡ z.board → EasesStandFor eas.now z h
        → result ≡ call_reply z h (Esb args.now) }
    ensures well_formed { IsReply result }
{
    if args.flags > ESB_STORE {
        return reply(H_PARAMETER);
    }
    if !is_source(board, eas, args.lisn) {
        return reply(H_P2);
    }
    if args.offset >= PAGE_SIZE {
        return reply(H_P3);
    }
    reply(H_SUCCESS)
}

/// H_INT_SYNC (h_int_sync): whether the guest may wait until a source is quiet, which it then does.
///
/// Arguments: flags, of which there are none, and LISN. Codes: H_PARAMETER for a flag, and H_P2 for a LISN that isn't
/// that of a source with a valid EAS. No outputs.
pub(crate) fn sync(board: &Board, eas: &EasTable, args: &SyncArgs) -> HReply
    requires sources { length eas.now ≡ board.now.limits.sources }
    ensures reply { (z : Start) (h : List Entry) → board.now ≡ z.board → EasesStandFor eas.now z h
        → result ≡ call_reply z h (Sync args.now) }
    ensures well_formed { IsReply result }
{
    if args.flags > 0 {
        return reply(H_PARAMETER);
    }
    if !is_source(board, eas, args.lisn) {
        return reply(H_P2);
    }
    reply(H_SUCCESS)
}
