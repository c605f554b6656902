//! Which operations a board has.

ghost use Rattle.std.specs.Prelude.{◌≡◌, ◌*◌, ◌^◌, nat_lt, true};
ghost use Rattle.xv_model.specs.processor.RingOps.{is_size};
ghost use Rattle.xv_model.specs.board.Validity.{valid as is_valid, has_op, end_count, is_queue_shift, is_queue as may_be_queue, has_queue as has_its_queue, has_no_escalation as lacks_escalation, has_nothing, is_escalation_end as may_be_escalation_end, has_escalation, notifies_one, may_be_configured, may_be_set, valid_config as may_be_config, has_access as has_its_access, has_value};

use crate::board::Board;
use crate::kvm::GRP_EQ_CONFIG;
use crate::operations::{Access, AttrValue, EndConfig, EndFlags, Op, PqOp};
use crate::pages::END_PAGES;
use crate::tima::TM_PAGES;
use bitflags::Flags;
use xv_base::limits::ENDS_PER_PROCESSOR;

/// Whether a source has an operation on its word: a pair that is set is one, and only a level source has a
/// line that can go up or be up.
fn has_operation(level: bool, op: PqOp) -> bool
    ensures { result ≡ has_op level op }
{
    match op {
        PqOp::Trigger | PqOp::Eoi | PqOp::Get => true,
        PqOp::Set { pq } => pq < 4,
        PqOp::Raise | PqOp::Lower => level,
        PqOp::Init { asserted } => level || !asserted,
    }
}

/// Whether a board has an END of this number.
fn has_end(board: &Board, e: u32) -> bool
    ensures { result ≡ nat_lt e (end_count board.now) }
{
    (e as u64) < ENDS_PER_PROCESSOR as u64 * board.limits.processors as u64
}

/// Whether a queue may have 2 to the power of this many bytes.
fn queue_shift(shift: u32) -> bool
    ensures { result ≡ is_queue_shift shift }
{
    shift == 12 || shift == 16 || shift == 21 || shift == 24
}

/// Whether a board can have a queue there: it is aligned, and lies in memory.
fn is_queue(board: &Board, addr: u64, shift: u32) -> bool
    ensures { result ≡ may_be_queue board.now addr shift }
{
    if !queue_shift(shift) {
        return false;
    }
    let ram = board.ram_mib as u64 * (1 << 20);
    let size = 1u64 << shift;
    addr % size == 0 && addr <= ram && ram - addr >= size
}

/// Whether a configuration has a queue where it has q, and none where it hasn't. The first entry is one of the first
/// two times through the queue.
fn has_queue(board: &Board, config: &EndConfig) -> bool
    ensures { result ≡ has_its_queue board.now config.now }
{
    if config.flags.contains(EndFlags::ENQUEUE) {
        is_queue(board, config.qaddr, config.qshift) && config.start < 2u64 << (config.qshift - 2)
    } else {
        config.qaddr == 0 && config.qshift == 0 && config.start == 0
    }
}

/// Whether a configuration has no escalation END.
fn has_no_escalation(config: &EndConfig) -> bool
    ensures { result ≡ lacks_escalation config.now }
{
    config.esc == 0 && config.esc_eisn == 0
}

/// Whether all fields but those of the queue are 0.
fn is_empty(config: &EndConfig) -> bool
    ensures { result ≡ has_nothing config.now }
{
    config.flags.bits() == 0 && config.vp == 0 && config.priority == 0 && has_no_escalation(config)
}

/// Whether an END is one that others escalate to: the last one of a processor.
fn is_escalation_end(e: u32) -> bool
    ensures { result ≡ may_be_escalation_end e }
{
    e % ENDS_PER_PROCESSOR == ENDS_PER_PROCESSOR - 1
}

/// Whether a configuration with e has an escalation END of the board, and one without e has none.
fn escalates_well(board: &Board, config: &EndConfig) -> bool
    ensures { result ≡ has_escalation board.now config.now }
{
    if !config.flags.contains(EndFlags::ESCALATE) {
        return has_no_escalation(config);
    }
    has_end(board, config.esc) && is_escalation_end(config.esc) && config.esc_eisn < 1 << 31
}

/// Whether the flags, the target, the priority and the escalation are in range.
fn notifies(board: &Board, config: &EndConfig) -> bool
    ensures { result ≡ notifies_one board.now config.now }
{
    config.flags.bits() < 128
        && config.vp < board.limits.processors
        && (config.priority as u32) < ENDS_PER_PROCESSOR
        && escalates_well(board, config)
}

/// Whether an END of a board may be configured so.
pub fn valid_config(board: &Board, config: &EndConfig) -> bool
    ensures { result ≡ may_be_config board.now config.now }
{
    if !has_queue(board, config) {
        return false;
    }
    if config.flags.contains(EndFlags::VALID) {
        notifies(board, config)
    } else {
        is_empty(config)
    }
}

/// Whether END `e` of a board may be configured so: an escalation END doesn't escalate.
pub fn may_configure(board: &Board, e: u32, config: &EndConfig) -> bool
    ensures { result ≡ may_be_configured board.now e config.now }
{
    valid_config(board, config)
        && !(config.flags.contains(EndFlags::ESCALATE) && is_escalation_end(e))
}

/// Whether END `e` of a board may be told so by the operation on it, which has its queue begin with entry 0.
fn may_set(board: &Board, e: u32, config: &EndConfig) -> bool
    ensures { result ≡ may_be_set board.now e config.now }
{
    config.start == 0 && may_configure(board, e, config)
}

/// Whether an access may have this many bytes.
fn may_have(size: u8) -> bool
    ensures { result ≡ is_size size }
{
    size == 1 || size == 2 || size == 4 || size == 8
}

/// Whether a value has no more than so many bytes.
fn fits(value: u64, size: u8) -> bool
    requires { is_size size ≡ true }
    ensures { result ≡ nat_lt value (2 ^ (8 * size)) }
{
    size == 8 || value >> (8 * size) == 0
}

/// Whether there is an access of so many bytes to a page of the TIMA.
fn has_access(page: u8, size: u8, access: Access) -> bool
    ensures { result ≡ has_its_access page size access }
{
    if page >= TM_PAGES || !may_have(size) {
        return false;
    }
    match access {
        Access::Load => true,
        Access::Store { value } => fits(value, size),
    }
}

/// Whether an attribute of a group can be set to a value: the fields of a queue are for queues alone.
fn may_have_value(group: u32, value: &AttrValue) -> bool
    ensures { result ≡ has_value group value.now }
{
    match value {
        AttrValue::Number { .. } => true,
        AttrValue::Queue { .. } => group == GRP_EQ_CONFIG,
    }
}

/// Whether each number of an operation is in range on a board.
pub fn valid(board: &Board, op: &Op) -> bool
    ensures { result ≡ is_valid board.now op.now }
{
    match op {
        Op::Pq { s, op } => *s < board.limits.sources && has_operation(board.is_level(*s), *op),
        Op::Esb { s, page, .. } => { *s < board.limits.sources && *page < board.source_pages() }
        Op::EndEsb { e, page, .. } => has_end(board, *e) && *page < END_PAGES,
        Op::Route { s } | Op::Quiet { s } => *s < board.limits.sources,
        Op::EndSet { e, config } => has_end(board, *e) && may_set(board, *e, config),
        Op::Read { e } => has_end(board, *e),
        Op::Take { .. }
        | Op::Hcall { .. }
        | Op::AttrGet { .. }
        | Op::Peek { .. }
        | Op::Zero { .. } => true,
        Op::Connect { v } | Op::Save { v } | Op::VpGet { v } | Op::VpSet { v, .. } => {
            *v < board.limits.processors
        }
        Op::AttrSet { group, value, .. } => may_have_value(*group, value),
        Op::Restore { v, t } => *v < board.limits.processors && *t < board.limits.threads,
        Op::Tima {
            t,
            page,
            offset: _,
            size,
            access,
        } => { *t < board.limits.threads && has_access(*page, *size, *access) }
    }
}
