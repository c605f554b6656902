//! What setting and getting an attribute answers and does, by its group and its number.

ghost use Rattle.std.specs.Prelude.{◌≡◌, ◌≤◌, ◌*◌, ◌∷◌, ℕ, List, All, Some, length, slice_get, false};
ghost use Rattle.xv_base.specs.Limits.{ends_per_processor, most_processors};
ghost use Rattle.xv_model.specs.declared.eas.Eas.{Eas};
ghost use Rattle.xv_model.specs.declared.entries.Entry.{Entry};
ghost use Rattle.xv_model.specs.declared.operations.Op.TheVariants.{AttrSet};
ghost use Rattle.xv_model.specs.declared.outcomes.Outcome.TheVariants.{Code};
ghost use Rattle.xv_model.specs.account.Outcomes.{IsWellFormed};
ghost use Rattle.xv_model.specs.account.Start.{Start};
ghost use Rattle.xv_model.specs.board.Boards.{IsBoard};
ghost use Rattle.xv_model.specs.board.Validity.{end_count, ram_size};
ghost use Rattle.xv_model.specs.call.Accepted.{is_success};
ghost use Rattle.xv_model.specs.call.Checks.{code_of};
ghost use Rattle.xv_model.specs.device.Answers.{attribute_code, attribute_outcome};
ghost use Rattle.xv_model.specs.device.Checks.{setting_checks};
ghost use Rattle.xv_model.specs.processor.Phases.{servers as servers_of};
ghost use Rattle.eas_table.specs.Table.{IsEas, StandsFor as EasesStandFor};
ghost use Rattle.end_queue.specs.declared.ends.EndRecord.{EndRecord};
ghost use Rattle.end_queue.specs.Accounts.{IsEnd, StandsFor as EndsStandFor};
ghost use Rattle.end_queue.specs.Ends.{HasCountsAtMost, HasRoom};
ghost use Rattle.nvt_backlog.specs.Vps.{AreConnected};
ghost use Rattle.kvm_device.specs.Accepted.{IsNarrow};
ghost use Rattle.kvm_device.specs.Changes.{accepted_by, eas_by_setting, end_by_setting, servers_by_setting};
ghost use Rattle.kvm_device.specs.Parts.{QueuesStandFor, StandFor};

use crate::controls::{reset, set_nr_servers};
use crate::queues::{get_eq_config, set_eq_config};
use crate::sources::{set_source, set_source_config, sync_source};
use eas_table::EasTable;
use end_queue::Ends;
use guest_ram::Ram;
use nvt_backlog::Vps;
use xv_model::board::Board;
use xv_model::kvm::errors::{EINVAL, ENXIO};
use xv_model::kvm::{Attribute, Setting};
use xv_model::operations::AttrValue;
use xv_model::outcomes::Outcome;

/// What an attribute with its value answers and does. KVM_DEV_XIVE_EQ_SYNC (kvmppc_xive_native_eq_sync) is never
/// refused; the hypervisor then waits until no event is on its way into a queue.
fn set(
    board: &Board,
    eas: &mut EasTable,
    ends: &mut Ends,
    vps: &mut Vps,
    ram: &Ram,
    setting: &Setting,
) -> i32
    requires board { IsBoard board.now }
    requires sources { length eas.old ≡ board.now.limits.sources }
    requires ends { length ends.old ≡ end_count board.now }
    requires processors { length vps.old.vps ≡ board.now.limits.processors }
    requires memory { 4 * length ram.now ≡ ram_size board.now }
    requires eases_in_range { All (IsEas board.now) eas.old }
    requires ends_in_range { All (IsEnd board.now) ends.old }
    requires narrow { IsNarrow setting.now }
    ensures code { (z : Start) (h : List Entry) → StandFor board.now eas.old ends.old vps.old.vps z h
        → result ≡ code_of (setting_checks z h setting.now) }
    ensures eases { (s : ℕ) (a : Eas) → slice_get eas.old s ≡ Some a
        → slice_get eas.new s ≡ Some (eas_by_setting (accepted_by result setting.now) s a) }
    ensures ends { (e : ℕ) (r : EndRecord) → slice_get ends.old e ≡ Some r
        → slice_get ends.new e ≡ Some (end_by_setting (accepted_by result setting.now) e r) }
    ensures servers { vps.new.servers ≡ servers_by_setting (accepted_by result setting.now) vps.old.servers }
    ensures vps { vps.new.vps ≡ vps.old.vps }
    ensures eases_in_range { All (IsEas board.now) eas.new }
    ensures ends_in_range { All (IsEnd board.now) ends.new }
    ensures counts { (n : ℕ) → All (HasCountsAtMost n) ends.old → All (HasCountsAtMost n) ends.new }
    ensures sources { length eas.new ≡ length eas.old }
    ensures len { length ends.new ≡ length ends.old }
    ensures refused { is_success result ≡ false
        → (eas.new ≡ eas.old) × (ends.new ≡ ends.old) × (vps.new ≡ vps.old) }
{
    match setting {
        Setting::Reset => {
            reset(board, eas, ends);
            0
        }
        Setting::EqSync => 0,
        Setting::NrServers { servers } => set_nr_servers(board, vps, *servers),
        Setting::Source { args } => set_source(board, eas, args),
        Setting::SourceConfig { args } => set_source_config(board, eas, ends, vps, args),
        Setting::EqConfig { args } => set_eq_config(board, ends, vps, ram, args),
        Setting::SourceSync { source } => sync_source(board, eas, *source),
    }
}

/// What setting an attribute answers, by its group, its number and the value, and what it does to EASes, ENDs and the
/// number of servers: 0, or an error, which changes nothing. ENXIO where there is no such attribute, and EINVAL where
/// the value doesn't have its form: fields for a queue, and a number for any other. Each attribute says by itself which
/// errors it has, in the order of its checks (kvmppc_xive_native_set_attr).
///
/// The parts are those of the board.
pub fn set_attr(
    board: &Board,
    eas: &mut EasTable,
    ends: &mut Ends,
    vps: &mut Vps,
    ram: &Ram,
    group: u32,
    attr: u64,
    value: AttrValue,
) -> i32
    requires board { IsBoard board.now }
    requires sources { length eas.old ≡ board.now.limits.sources }
    requires ends { length ends.old ≡ end_count board.now }
    requires processors { length vps.old.vps ≡ board.now.limits.processors }
    requires memory { 4 * length ram.now ≡ ram_size board.now }
    requires eases_in_range { All (IsEas board.now) eas.old }
    requires ends_in_range { All (IsEnd board.now) ends.old }
    ensures code { (z : Start) (h : List Entry) → StandFor board.now eas.old ends.old vps.old.vps z h
        → result ≡ attribute_code z h group attr value }
    ensures eases { (z : Start) (h : List Entry) (actor : ℕ) → EasesStandFor eas.old z h
        → EasesStandFor eas.new z (record { actor = actor; op = AttrSet group attr value; outcome = Code result } ∷ h) }
    ensures ends { (z : Start) (h : List Entry) (actor : ℕ) → EndsStandFor ends.old z h
        → EndsStandFor ends.new z (record { actor = actor; op = AttrSet group attr value; outcome = Code result } ∷ h) }
    ensures servers { (z : Start) (h : List Entry) (actor : ℕ) → vps.old.servers ≡ servers_of z h
        → vps.new.servers ≡ servers_of z (record { actor = actor; op = AttrSet group attr value; outcome = Code result } ∷ h) }
    ensures connected { (z : Start) (h : List Entry) (actor : ℕ) → AreConnected vps.old.vps z h
        → AreConnected vps.new.vps z (record { actor = actor; op = AttrSet group attr value; outcome = Code result } ∷ h) }
    ensures vps { vps.new.vps ≡ vps.old.vps }
    ensures refused { is_success result ≡ false
        → (eas.new ≡ eas.old) × (ends.new ≡ ends.old) × (vps.new ≡ vps.old) }
    ensures eases_in_range { All (IsEas board.now) eas.new }
    ensures ends_in_range { All (IsEnd board.now) ends.new }
    ensures counts { (n : ℕ) → All (HasCountsAtMost n) ends.old → All (HasCountsAtMost n) ends.new }
    ensures sources { length eas.new ≡ length eas.old }
    ensures len { length ends.new ≡ length ends.old }
{
    let Some(attribute) = Attribute::from_number(group, attr) else {
        return ENXIO;
    };
    let Some(setting) = Setting::from_value(attribute, value) else {
        return EINVAL;
    };
    set(board, eas, ends, vps, ram, &setting)
}

/// What getting an attribute answers, by its group and its number. ENXIO for any but a queue, which says by itself
/// what it answers (kvmppc_xive_native_get_attr).
///
/// The parts are of one board. No END has come to the limit of its counts (end_queue's `HasRoom`).
pub fn get_attr(ends: &Ends, vps: &Vps, group: u32, attr: u64) -> Outcome
    requires few { length vps.now.vps ≤ most_processors }
    requires ends { length ends.now ≡ ends_per_processor * length vps.now.vps }
    requires room { All HasRoom ends.now }
    ensures outcome { (z : Start) (h : List Entry) → QueuesStandFor ends.now vps.now.vps z h
        → result ≡ attribute_outcome z h group attr }
    ensures well_formed { IsWellFormed result }
{
    match Attribute::from_number(group, attr) {
        Some(Attribute::EqConfig { id }) => get_eq_config(ends, vps, &id),
        _ => Outcome::Code { code: ENXIO },
    }
}
