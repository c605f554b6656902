//! Hypercalls on the parts of a fabric.

ghost use Rattle.std.specs.Prelude.{◌≡◌, ◌≤◌, ◌*◌, ◌∷◌, ℕ, List, All, length, false};
ghost use Rattle.xv_model.specs.declared.entries.Entry.{Entry};
ghost use Rattle.xv_model.specs.declared.operations.Op.TheVariants.{Hcall};
ghost use Rattle.xv_model.specs.declared.outcomes.Outcome.TheVariants.{Reply};
ghost use Rattle.xv_model.specs.account.Start.{Start};
ghost use Rattle.xv_model.specs.board.Validity.{ram_size};
ghost use Rattle.xv_model.specs.call.Accepted.{is_success};
ghost use Rattle.xv_model.specs.call.Hypercalls.{hcall_reply};
ghost use Rattle.end_queue.specs.Ends.{HasCountsAtMost, HasRoom};
ghost use Rattle.router.specs.Tables.{StandsFor as TablesStandFor};
ghost use Rattle.fabric_core.specs.Processors.{StandsFor as ProcessorsStandFor};

use crate::processors::Processors;
use guest_ram::Ram;
use hint_calls::call;
use router::tables::Tables;
use xv_model::outcomes::HReply;

/// What a hypercall replies, by its number and its arguments. Refused, it changes nothing.
pub(crate) fn call_tables(
    tables: &mut Tables,
    ram: &Ram,
    processors: &Processors,
    number: u64,
    args: &[u64; 5],
) -> HReply
    requires memory { 4 * length ram.now ≡ ram_size tables.old.board }
    requires vps { length processors.now.vps.vps ≡ tables.old.board.limits.processors }
    requires room { All HasRoom tables.old.ends }
    ensures reply { (z : Start) (h : List Entry) → TablesStandFor tables.old z h
        → ProcessorsStandFor processors.now z h → result ≡ hcall_reply z h number args.now }
    ensures tables { (z : Start) (h : List Entry) (actor : ℕ) → TablesStandFor tables.old z h → TablesStandFor tables.new z
        (record { actor = actor; op = Hcall number args.now; outcome = Reply result } ∷ h) }
    ensures refused { is_success result.code ≡ false → tables.new ≡ tables.old }
    ensures few { result.outs ≤ 4 }
    ensures board { tables.new.board ≡ tables.old.board }
    ensures counts { (n : ℕ) → All (HasCountsAtMost n) tables.old.ends → All (HasCountsAtMost n) tables.new.ends }
{
    let vps = processors.vps();
    call(
        &tables.board,
        &mut tables.eas,
        &mut tables.ends,
        vps,
        ram,
        number,
        args,
    )
}
