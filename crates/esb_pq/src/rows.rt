//! The rows of the PQ table: what an operation makes of a pair. An END's states go by them too.

ghost use Rattle.std.specs.Prelude.{◌≡◌, ◌<◌, true, false, IsTrue};
ghost use Rattle.xv_model.specs.declared.operations.PqOp.TheVariants.{Trigger, Eoi, Raise};
ghost use Rattle.xv_model.specs.source.PqTable.{pq_row, trigger_row, flag_after as flag_after_op};
ghost use Rattle.xv_model.specs.board.Validity.{has_op};

use xv_model::operations::PqOp;

/// A cell of the table: the new pair, and whether the operation forwards.
#[derive(Clone, Copy)]
pub struct Cell {
    pub pq: u8,
    pub forwards: bool,
}

/// It forwards, and the pair is 10.
const NOTIFIES: Cell = Cell {
    pq: 2,
    forwards: true,
};

/// It forwards nothing, and this is the pair.
fn stays(pq: u8) -> Cell
    ensures pq { result.pq ≡ pq }
    ensures forwards { result.forwards ≡ false }
{
    Cell {
        pq,
        forwards: false,
    }
}

/// A trigger of a message source, and of a state of an END (QEMU's hw/intc/xive.c,
/// xive_esb_trigger).
pub fn trigger(pq: u8) -> Cell
    requires { pq < 4 }
    ensures pq { result.pq ≡ (trigger_row pq).pair }
    ensures forwards { result.forwards ≡ (trigger_row pq).forwards }
    ensures in_range { result.pq < 4 }
{
    match pq {
        0 => NOTIFIES,
        1 => stays(1),
        _ => stays(3),
    }
}

/// A trigger of a level source, which sets no Q.
fn level_trigger(pq: u8) -> Cell
    requires { pq < 4 }
    ensures pq { result.pq ≡ (pq_row Trigger true false pq).pair }
    ensures forwards { result.forwards ≡ (pq_row Trigger true false pq).forwards }
    ensures in_range { result.pq < 4 }
{
    match pq {
        0 => NOTIFIES,
        _ => stays(pq),
    }
}

/// An EOI of a message source, of a level source whose line is down, and of a state of an END
/// (QEMU's hw/intc/xive.c, xive_esb_eoi).
fn eoi(pq: u8) -> Cell
    requires { pq < 4 }
    ensures pq { result.pq ≡ (pq_row Eoi false false pq).pair }
    ensures forwards { result.forwards ≡ (pq_row Eoi false false pq).forwards }
    ensures in_range { result.pq < 4 }
{
    match pq {
        1 => stays(1),
        3 => NOTIFIES,
        _ => stays(0),
    }
}

/// An EOI of a level source whose line is up: it forwards again, unless the source is off.
fn asserted_eoi(pq: u8) -> Cell
    requires { pq < 4 }
    ensures pq { result.pq ≡ (pq_row Eoi true true pq).pair }
    ensures forwards { result.forwards ≡ (pq_row Eoi true true pq).forwards }
    ensures in_range { result.pq < 4 }
{
    if pq == 1 { stays(pq) } else { NOTIFIES }
}

/// The line of a level source goes up. That sets no Q, since the assertion flag remembers it.
fn raise(pq: u8) -> Cell
    requires { pq < 4 }
    ensures pq { result.pq ≡ (pq_row Raise true false pq).pair }
    ensures forwards { result.forwards ≡ (pq_row Raise true false pq).forwards }
    ensures in_range { result.pq < 4 }
{
    level_trigger(pq)
}

/// The cell of an operation, at a source's kind, flag and pair. A state of an END has the cells of a message
/// source.
pub fn cell_of(op: PqOp, level: bool, asserted: bool, pq: u8) -> Cell
    requires op { IsTrue (has_op level op) }
    requires pq { pq < 4 }
    ensures pq { result.pq ≡ (pq_row op level asserted pq).pair }
    ensures forwards { result.forwards ≡ (pq_row op level asserted pq).forwards }
    ensures in_range { result.pq < 4 }
{
    match op {
        PqOp::Trigger if level => level_trigger(pq),
        PqOp::Trigger => trigger(pq),
        PqOp::Eoi if level && asserted => asserted_eoi(pq),
        PqOp::Eoi => eoi(pq),
        PqOp::Get | PqOp::Lower => stays(pq),
        PqOp::Set { pq: new } => stays(new),
        PqOp::Raise => raise(pq),
        PqOp::Init { .. } => stays(1),
    }
}

/// The assertion flag after an operation.
pub(crate) fn flag_after(op: PqOp, asserted: bool) -> bool
    ensures { result ≡ flag_after_op op asserted }
{
    match op {
        PqOp::Raise => true,
        PqOp::Lower => false,
        PqOp::Init { asserted: new } => new,
        _ => asserted,
    }
}
