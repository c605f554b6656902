//! The identifiers and values of attributes by name, one record each.

ghost use Rattle.std.specs.Prelude.{◌≡◌};
ghost use Rattle.xv_model.specs.device.Arguments.{priority_in, server_in, eq_id, source_args, source_config_args};

use crate::kvm::fields::{
    LEVEL_ASSERTED, LEVEL_SENSITIVE, PRIORITY_MASK, SERVER_SHIFT, SOURCE_EISN_SHIFT, SOURCE_MASKED,
    TARGET_MASK,
};
use crate::operations::EqFields;

/// The priority in a number.
fn priority_of(number: u64) -> u8
    ensures { result ≡ priority_in number }
{
    (number & PRIORITY_MASK) as u8
}

/// The server in a number.
fn server_of(number: u64) -> u32
    ensures { result ≡ server_in number }
{
    (number & TARGET_MASK) as u32 >> SERVER_SHIFT
}

/// The identifier of an event queue.
#[derive(Clone, Copy)]
pub struct EqId {
    /// The processor of the END.
    pub server: u32,
    /// The priority of the END.
    pub priority: u8,
}

impl EqId {
    /// The identifier in an attribute's number; the bits above the server don't count.
    pub fn from_number(attr: u64) -> EqId
        ensures { result ≡ eq_id attr }
    {
        EqId {
            server: server_of(attr),
            priority: priority_of(attr),
        }
    }
}

/// What a source is initialised as.
#[derive(Clone, Copy)]
pub struct SourceArgs {
    /// The source.
    pub source: u64,
    /// It is a level source.
    pub level: bool,
    /// Its line is up; of a message source this says nothing.
    pub asserted: bool,
}

impl SourceArgs {
    /// The fields of a value; the bits above them don't count.
    pub fn from_value(source: u64, value: u64) -> SourceArgs
        ensures { result ≡ source_args source value }
    {
        SourceArgs {
            source,
            level: value & LEVEL_SENSITIVE == LEVEL_SENSITIVE,
            asserted: value & LEVEL_ASSERTED == LEVEL_ASSERTED,
        }
    }
}

/// Where the notices of a source go.
#[derive(Clone, Copy)]
pub struct SourceConfigArgs {
    /// The source.
    pub source: u64,
    /// The priority that it notifies with.
    pub priority: u8,
    /// The processor that it notifies.
    pub server: u32,
    /// The EAS is masked, and nothing else is changed.
    pub masked: bool,
    /// What is written for each notice, 31 bits.
    pub eisn: u32,
}

impl SourceConfigArgs {
    /// The fields of a value.
    pub fn from_value(source: u64, value: u64) -> SourceConfigArgs
        ensures { result ≡ source_config_args source value }
    {
        SourceConfigArgs {
            source,
            priority: priority_of(value),
            server: server_of(value),
            masked: value & SOURCE_MASKED == SOURCE_MASKED,
            eisn: (value >> SOURCE_EISN_SHIFT) as u32,
        }
    }
}

/// What an event queue is set to.
#[derive(Clone, Copy)]
pub struct EqArgs {
    /// The queue.
    pub id: EqId,
    /// With a size of 0 the END is reset and has no queue; else the entry at this toggle and index is written next.
    pub eq: EqFields,
}
