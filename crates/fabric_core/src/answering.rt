//! What an operation answers that is on no word of a source, and what it does to the parts of a fabric.

ghost use Rattle.std.specs.Prelude.{◌≡◌, ◌+◌, ◌*◌, ◌<◌, ◌∷◌, ℕ, All, length, List, IsTrue, None, true};
ghost use Rattle.xv_model.specs.declared.entries.Entry.{Entry};
ghost use Rattle.xv_model.specs.declared.operations.Op.TheVariants.{Take, Tima};
ghost use Rattle.xv_model.specs.declared.outcomes.MoveRefused.{MoveRefused};
ghost use Rattle.xv_model.specs.declared.outcomes.Outcome.TheVariants.{BadAccess as AnswersBadAccess, NoMessage, Refused};
ghost use Rattle.xv_model.specs.account.Kinds.{access_of};
ghost use Rattle.xv_model.specs.account.Legal.{legal};
ghost use Rattle.xv_model.specs.account.Outcomes.{IsWellFormed};
ghost use Rattle.xv_model.specs.account.Start.{Start};
ghost use Rattle.xv_model.specs.board.Validity.{ram_size, valid};
ghost use Rattle.xv_model.specs.route.Taking.{take_outcome};
ghost use Rattle.xv_model.specs.processor.Accesses.{tima_outcome};
ghost use Rattle.guest_ram.specs.Ram.{StandsFor as MemoryStandsFor};
ghost use Rattle.router.specs.Tables.{StandsFor as TablesStandFor};
ghost use Rattle.end_queue.specs.Ends.{HasRoom, HasCountsAtMost};
ghost use Rattle.fabric_core.specs.Fabric.{IsCounted, IsRefusal};
ghost use Rattle.fabric_core.specs.Processors.{StandsFor as ProcessorsStandFor};

use crate::attributes::{get_attribute, set_attribute};
use crate::hypercalls::call_tables;
use crate::memory::{peek, zero};
use crate::processors::Processors;
use bitflags::Flags;
use guest_ram::Ram;
use router::tables::Tables;
use tima_access::{BadAccess, decode};
use xv_model::messages::Message;
use xv_model::operations::{Access, EndFlags, Op};
use xv_model::outcomes::Outcome;

/// Takes message `i` of those in flight: a presentation is presented, and an escalation runs its END. Where there
/// is none, nothing changes.
fn take(tables: &mut Tables, ram: &mut Ram, processors: &mut Processors, i: u32) -> Outcome
    requires memory { 4 * length ram.old ≡ ram_size tables.old.board }
    requires count { length processors.old.vps.vps ≡ tables.old.board.limits.processors }
    requires room { All HasRoom tables.old.ends }
    ensures outcome { (z : Start) (h : List Entry) → TablesStandFor tables.old z h
        → ProcessorsStandFor processors.old z h → result ≡ take_outcome z h i }
    ensures tables { (z : Start) (h : List Entry) (actor : ℕ) → TablesStandFor tables.old z h
        → TablesStandFor tables.new z (record { actor = actor; op = Take i; outcome = result } ∷ h) }
    ensures memory { (z : Start) (h : List Entry) (actor : ℕ) → MemoryStandsFor ram.old z h
        → MemoryStandsFor ram.new z (record { actor = actor; op = Take i; outcome = result } ∷ h) }
    ensures processors { (z : Start) (h : List Entry) (actor : ℕ) → ProcessorsStandFor processors.old z h
        → ProcessorsStandFor processors.new z (record { actor = actor; op = Take i; outcome = result } ∷ h) }
    ensures refused { result ≡ NoMessage → (tables.new ≡ tables.old) × (ram.new ≡ ram.old)
        × (processors.new ≡ processors.old) }
    ensures board { tables.new.board ≡ tables.old.board }
    ensures counts { (n : ℕ) → All (HasCountsAtMost n) tables.old.ends → All (HasCountsAtMost (n + 1)) tables.new.ends }
    ensures size { length ram.new ≡ length ram.old }
    ensures vps { length processors.new.vps.vps ≡ length processors.old.vps.vps }
    ensures rings { length processors.new.rings ≡ length processors.old.rings }
    ensures well_formed { IsWellFormed result }
{
    match tables.message(i) {
        None => Outcome::NoMessage,
        Some(
            Message::Present {
                flags,
                vp,
                priority,
                ..
            },
        ) => {
            let presented = processors.present(vp, priority, flags.contains(EndFlags::BACKLOG));
            Outcome::Present {
                v: vp,
                p: priority,
                presented,
                escalates: tables.end_present(i, presented),
            }
        }
        Some(Message::Escalate { e, .. }) => Outcome::Escalated {
            e,
            run: tables.end_escalate(ram, i),
        },
    }
}

/// What an access to a page of the TIMA answers. A bad one changes nothing, nor does one that is refused.
fn access_tima(
    processors: &mut Processors,
    t: u32,
    page: u8,
    offset: u16,
    size: u8,
    access: Access,
) -> Outcome
    requires thread { t < length processors.old.rings }
    ensures outcome { (z : Start) (h : List Entry) → ProcessorsStandFor processors.old z h
        → result ≡ tima_outcome z h t page offset size access }
    ensures processors { (z : Start) (h : List Entry) (actor : ℕ) → ProcessorsStandFor processors.old z h
        → ProcessorsStandFor processors.new z
        (record { actor = actor; op = Tima t page offset size access; outcome = result } ∷ h) }
    ensures bad_access { result ≡ AnswersBadAccess → processors.new ≡ processors.old }
    ensures refused { (why : MoveRefused) → result ≡ Refused why → processors.new ≡ processors.old }
    ensures vps { length processors.new.vps.vps ≡ length processors.old.vps.vps }
    ensures rings { length processors.new.rings ≡ length processors.old.rings }
    ensures well_formed { IsWellFormed result }
{
    match decode(page, offset, size, access) {
        Ok(op) => processors.access(t, op),
        Err(BadAccess) => Outcome::BadAccess,
    }
}

/// What an operation answers. The parts then represent the account with that entry. Refused, it changes none of them.
/// `forwards` is how often the source has forwarded whose notice is routed, or that may be quiet; no other operation
/// looks at it.
#[inline(never)]
pub(crate) fn answer(
    tables: &mut Tables,
    ram: &mut Ram,
    processors: &mut Processors,
    op: &Op,
    forwards: u64,
) -> Outcome
    requires op { IsTrue (valid tables.old.board op.now) }
    requires fabric { access_of tables.old.board op.now ≡ None }
    requires memory { 4 * length ram.old ≡ ram_size tables.old.board }
    requires vps { length processors.old.vps.vps ≡ tables.old.board.limits.processors }
    requires rings { length processors.old.rings ≡ tables.old.board.limits.threads }
    requires room { All HasRoom tables.old.ends }
    ensures outcome { (z : Start) (h : List Entry) → TablesStandFor tables.old z h → MemoryStandsFor ram.old z h
        → ProcessorsStandFor processors.old z h → IsCounted op.now forwards z h → result ≡ legal z h op.now }
    ensures tables { (z : Start) (h : List Entry) (actor : ℕ) → TablesStandFor tables.old z h
        → ProcessorsStandFor processors.old z h → IsCounted op.now forwards z h
        → TablesStandFor tables.new z (record { actor = actor; op = op.now; outcome = result } ∷ h) }
    ensures memory { (z : Start) (h : List Entry) (actor : ℕ) → MemoryStandsFor ram.old z h
        → MemoryStandsFor ram.new z (record { actor = actor; op = op.now; outcome = result } ∷ h) }
    ensures processors { (z : Start) (h : List Entry) (actor : ℕ) → ProcessorsStandFor processors.old z h
        → ProcessorsStandFor processors.new z (record { actor = actor; op = op.now; outcome = result } ∷ h) }
    ensures refused { IsRefusal op.now result → (tables.new ≡ tables.old) × (ram.new ≡ ram.old)
        × (processors.new ≡ processors.old) }
    ensures well_formed { IsWellFormed result }
    ensures board { tables.new.board ≡ tables.old.board }
    ensures counts { (n : ℕ) → All (HasCountsAtMost n) tables.old.ends → All (HasCountsAtMost (n + 1)) tables.new.ends }
    ensures size { length ram.new ≡ length ram.old }
    ensures vps { length processors.new.vps.vps ≡ length processors.old.vps.vps }
    ensures rings { length processors.new.rings ≡ length processors.old.rings }
{
    match op {
        Op::Esb {
            s: _,
            page: _,
            offset: _,
            store,
        } => {
            if *store {
                Outcome::BadOffset
            } else {
                Outcome::Ones
            }
        }
        Op::EndEsb {
            e,
            page,
            offset,
            store,
        } => tables.access_end(*e, *page, *offset, *store),
        Op::Route { s } => tables.route(ram, *s, forwards),
        Op::Take { i } => take(tables, ram, processors, *i),
        Op::Quiet { s } => tables.quiet(*s, forwards),
        Op::EndSet { e, config } => {
            tables.configure(*e, config);
            Outcome::Fine
        }
        Op::Connect { v } => processors.connect(*v),
        Op::Restore { v, t } => processors.restore(*v, *t),
        Op::Save { v } => processors.save(*v),
        Op::Tima {
            t,
            page,
            offset,
            size,
            access,
        } => access_tima(processors, *t, *page, *offset, *size, *access),
        Op::Hcall { number, args } => Outcome::Reply {
            reply: call_tables(tables, ram, processors, *number, args),
        },
        Op::Read { e } => tables.read(ram, *e),
        Op::Peek { addr } => peek(ram, *addr),
        Op::Zero { addr, len } => zero(ram, *addr, *len),
        Op::AttrSet { group, attr, value } => {
            set_attribute(tables, ram, processors, *group, *attr, *value)
        }
        Op::AttrGet { group, attr } => get_attribute(tables, processors, *group, *attr),
        Op::VpGet { v } => processors.state(*v),
        Op::VpSet { v, cppr, ipb } => processors.set_state(*v, *cppr, *ipb),
        Op::Pq { .. } => unreachable!(),
    }
}
