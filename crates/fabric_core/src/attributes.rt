//! Attributes of the KVM device on the parts of a fabric.

ghost use Rattle.std.specs.Prelude.{◌≡◌, ◌*◌, ◌∷◌, ℕ, ℤ, List, All, length, false};
ghost use Rattle.xv_model.specs.declared.entries.Entry.{Entry};
ghost use Rattle.xv_model.specs.declared.operations.Op.TheVariants.{AttrSet};
ghost use Rattle.xv_model.specs.declared.outcomes.Outcome.TheVariants.{Code};
ghost use Rattle.xv_model.specs.account.Outcomes.{IsWellFormed};
ghost use Rattle.xv_model.specs.account.Start.{Start};
ghost use Rattle.xv_model.specs.board.Validity.{ram_size};
ghost use Rattle.xv_model.specs.call.Accepted.{is_success};
ghost use Rattle.xv_model.specs.device.Answers.{attribute_code, attribute_outcome};
ghost use Rattle.end_queue.specs.Ends.{HasCountsAtMost, HasRoom};
ghost use Rattle.router.specs.Tables.{StandsFor as TablesStandFor};
ghost use Rattle.fabric_core.specs.Processors.{StandsFor as ProcessorsStandFor};

use crate::processors::Processors;
use guest_ram::Ram;
use kvm_device::{get_attr, set_attr};
use router::tables::Tables;
use xv_model::operations::AttrValue;
use xv_model::outcomes::Outcome;

/// Sets an attribute, by its group, its number and the value. Refused, it changes nothing.
pub(crate) fn set_attribute(
    tables: &mut Tables,
    ram: &Ram,
    processors: &mut Processors,
    group: u32,
    attr: u64,
    value: AttrValue,
) -> Outcome
    requires memory { 4 * length ram.now ≡ ram_size tables.old.board }
    requires vps { length processors.old.vps.vps ≡ tables.old.board.limits.processors }
    ensures outcome { (z : Start) (h : List Entry) → TablesStandFor tables.old z h
        → ProcessorsStandFor processors.old z h → result ≡ Code (attribute_code z h group attr value) }
    ensures tables { (z : Start) (h : List Entry) (actor : ℕ) → TablesStandFor tables.old z h → TablesStandFor tables.new z
        (record { actor = actor; op = AttrSet group attr value; outcome = result } ∷ h) }
    ensures processors { (z : Start) (h : List Entry) (actor : ℕ) → ProcessorsStandFor processors.old z h
        → ProcessorsStandFor processors.new z
        (record { actor = actor; op = AttrSet group attr value; outcome = result } ∷ h) }
    ensures refused { (code : ℤ) → result ≡ Code code → is_success code ≡ false
        → (tables.new ≡ tables.old) × (processors.new ≡ processors.old) }
    ensures well_formed { IsWellFormed result }
    ensures board { tables.new.board ≡ tables.old.board }
    ensures counts { (n : ℕ) → All (HasCountsAtMost n) tables.old.ends → All (HasCountsAtMost n) tables.new.ends }
    ensures vps { length processors.new.vps.vps ≡ length processors.old.vps.vps }
    ensures rings { length processors.new.rings ≡ length processors.old.rings }
{
    let code = set_attr(
        &tables.board,
        &mut tables.eas,
        &mut tables.ends,
        &mut processors.vps,
        ram,
        group,
        attr,
        value,
    );
    Outcome::Code { code }
}

/// What getting an attribute answers, by its group and its number.
pub(crate) fn get_attribute(
    tables: &Tables,
    processors: &Processors,
    group: u32,
    attr: u64,
) -> Outcome
    requires vps { length processors.now.vps.vps ≡ tables.now.board.limits.processors }
    requires room { All HasRoom tables.now.ends }
    ensures outcome { (z : Start) (h : List Entry) → TablesStandFor tables.now z h
        → ProcessorsStandFor processors.now z h → result ≡ attribute_outcome z h group attr }
    ensures well_formed { IsWellFormed result }
{
    get_attr(&tables.ends, &processors.vps, group, attr)
}
