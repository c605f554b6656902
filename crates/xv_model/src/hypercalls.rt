//! Hypercalls (PAPR's H_INT calls; QEMU's hw/intc/spapr_xive.c, Linux's arch/powerpc/sysdev/xive/spapr.c): their
//! numbers, and the call that a number names, with its arguments. What they reply is computed elsewhere.

ghost use Rattle.std.specs.Prelude.{◌≡◌};
ghost use Rattle.xv_model.specs.call.Arguments.{call_of};

pub mod arguments;
pub mod codes;
pub mod flags;

use crate::hypercalls::arguments::{
    EsbArgs, GetQueueConfigArgs, GetQueueInfoArgs, GetSourceConfigArgs, GetSourceInfoArgs,
    ResetArgs, SetQueueConfigArgs, SetSourceConfigArgs, SyncArgs,
};

/// Answers where the pages of a source lie, and what they can do (h_int_get_source_info).
pub const H_INT_GET_SOURCE_INFO: u64 = 0x3a8;

/// Says where the notices of a source go (h_int_set_source_config).
pub const H_INT_SET_SOURCE_CONFIG: u64 = 0x3ac;

/// Answers where the notices of a source go (h_int_get_source_config).
pub const H_INT_GET_SOURCE_CONFIG: u64 = 0x3b0;

/// Answers where the pages of an END lie (h_int_get_queue_info).
pub const H_INT_GET_QUEUE_INFO: u64 = 0x3b4;

/// Gives an END its queue, or resets it (h_int_set_queue_config).
pub const H_INT_SET_QUEUE_CONFIG: u64 = 0x3b8;

/// Answers which queue an END has (h_int_get_queue_config).
pub const H_INT_GET_QUEUE_CONFIG: u64 = 0x3bc;

/// Accesses the management page of a source for the guest (h_int_esb).
pub const H_INT_ESB: u64 = 0x3c8;

/// Waits until a source is quiet (h_int_sync).
pub const H_INT_SYNC: u64 = 0x3cc;

/// Resets the ENDs, and turns off the sources that are initialised (h_int_reset).
pub const H_INT_RESET: u64 = 0x3d0;

/// A call that is known, with its arguments. H_INT_SET_OS_REPORTING_LINE and H_INT_GET_OS_REPORTING_LINE are not:
/// they answer H_FUNCTION, as every other number does (QEMU's h_int_set_os_reporting_line).
#[derive(Clone, Copy)]
pub enum Call {
    GetSourceInfo { args: GetSourceInfoArgs },
    SetSourceConfig { args: SetSourceConfigArgs },
    GetSourceConfig { args: GetSourceConfigArgs },
    GetQueueInfo { args: GetQueueInfoArgs },
    SetQueueConfig { args: SetQueueConfigArgs },
    GetQueueConfig { args: GetQueueConfigArgs },
    Esb { args: EsbArgs },
    Sync { args: SyncArgs },
    Reset { args: ResetArgs },
}

impl Call {
    /// The call of a number, with the arguments in the order of the argument registers.
    pub fn from_args(number: u64, args: &[u64; 5]) -> Option<Call>
        ensures { result ≡ call_of number args.now }
    {
        match number {
            H_INT_GET_SOURCE_INFO => Some(Call::GetSourceInfo {
                args: GetSourceInfoArgs::from_args(args),
            }),
            H_INT_SET_SOURCE_CONFIG => Some(Call::SetSourceConfig {
                args: SetSourceConfigArgs::from_args(args),
            }),
            H_INT_GET_SOURCE_CONFIG => Some(Call::GetSourceConfig {
                args: GetSourceConfigArgs::from_args(args),
            }),
            H_INT_GET_QUEUE_INFO => Some(Call::GetQueueInfo {
                args: GetQueueInfoArgs::from_args(args),
            }),
            H_INT_SET_QUEUE_CONFIG => Some(Call::SetQueueConfig {
                args: SetQueueConfigArgs::from_args(args),
            }),
            H_INT_GET_QUEUE_CONFIG => Some(Call::GetQueueConfig {
                args: GetQueueConfigArgs::from_args(args),
            }),
            H_INT_ESB => Some(Call::Esb {
                args: EsbArgs::from_args(args),
            }),
            H_INT_SYNC => Some(Call::Sync {
                args: SyncArgs::from_args(args),
            }),
            H_INT_RESET => Some(Call::Reset {
                args: ResetArgs::from_args(args),
            }),
            _ => None,
        }
    }
}
