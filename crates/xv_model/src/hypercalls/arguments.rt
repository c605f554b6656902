//! The arguments of hypercalls by name, one record a call. A call ignores the argument registers that it doesn't name.

ghost use Rattle.std.specs.Prelude.{◌≡◌};
ghost use Rattle.xv_model.specs.call.Arguments.{get_source_info_args, set_source_config_args, get_source_config_args, get_queue_info_args, set_queue_config_args, get_queue_config_args, esb_args, sync_args, reset_args};

/// The arguments of H_INT_GET_SOURCE_INFO.
#[derive(Clone, Copy)]
pub struct GetSourceInfoArgs {
    /// There are none.
    pub flags: u64,
    /// The source.
    pub lisn: u64,
}

impl GetSourceInfoArgs {
    /// The arguments in the order of the argument registers.
    pub fn from_args(args: &[u64; 5]) -> GetSourceInfoArgs
        ensures { result ≡ get_source_info_args args.now }
    {
        let [flags, lisn, _, _, _] = *args;
        GetSourceInfoArgs { flags, lisn }
    }
}

/// The arguments of H_INT_SET_SOURCE_CONFIG.
#[derive(Clone, Copy)]
pub struct SetSourceConfigArgs {
    /// [`SRC_MASK`] and [`SRC_SET_EISN`].
    pub flags: u64,
    /// The source.
    pub lisn: u64,
    /// The processor that it notifies.
    pub target: u64,
    /// The priority that it notifies with, or [`PRIORITY_MASKED`].
    pub priority: u64,
    /// What is written for each notice; its low 31 bits count.
    pub eisn: u64,
}

impl SetSourceConfigArgs {
    /// The arguments in the order of the argument registers.
    pub fn from_args(args: &[u64; 5]) -> SetSourceConfigArgs
        ensures { result ≡ set_source_config_args args.now }
    {
        let [flags, lisn, target, priority, eisn] = *args;
        SetSourceConfigArgs {
            flags,
            lisn,
            target,
            priority,
            eisn,
        }
    }
}

/// The arguments of H_INT_GET_SOURCE_CONFIG.
#[derive(Clone, Copy)]
pub struct GetSourceConfigArgs {
    /// There are none.
    pub flags: u64,
    /// The source.
    pub lisn: u64,
}

impl GetSourceConfigArgs {
    /// The arguments in the order of the argument registers.
    pub fn from_args(args: &[u64; 5]) -> GetSourceConfigArgs
        ensures { result ≡ get_source_config_args args.now }
    {
        let [flags, lisn, _, _, _] = *args;
        GetSourceConfigArgs { flags, lisn }
    }
}

/// The arguments of H_INT_GET_QUEUE_INFO.
#[derive(Clone, Copy)]
pub struct GetQueueInfoArgs {
    /// There are none.
    pub flags: u64,
    /// The processor of the END.
    pub target: u64,
    /// The priority of the END.
    pub priority: u64,
}

impl GetQueueInfoArgs {
    /// The arguments in the order of the argument registers.
    pub fn from_args(args: &[u64; 5]) -> GetQueueInfoArgs
        ensures { result ≡ get_queue_info_args args.now }
    {
        let [flags, target, priority, _, _] = *args;
        GetQueueInfoArgs {
            flags,
            target,
            priority,
        }
    }
}

/// The arguments of H_INT_SET_QUEUE_CONFIG.
#[derive(Clone, Copy)]
pub struct SetQueueConfigArgs {
    /// [`END_ALWAYS_NOTIFY`].
    pub flags: u64,
    /// The processor of the END.
    pub target: u64,
    /// The priority of the END.
    pub priority: u64,
    /// Where the queue lies in memory, in bytes.
    pub address: u64,
    /// The queue has 2 to the power of this many bytes; with 0 the END is reset.
    pub size: u64,
}

impl SetQueueConfigArgs {
    /// The arguments in the order of the argument registers.
    pub fn from_args(args: &[u64; 5]) -> SetQueueConfigArgs
        ensures { result ≡ set_queue_config_args args.now }
    {
        let [flags, target, priority, address, size] = *args;
        SetQueueConfigArgs {
            flags,
            target,
            priority,
            address,
            size,
        }
    }
}

/// The arguments of H_INT_GET_QUEUE_CONFIG.
#[derive(Clone, Copy)]
pub struct GetQueueConfigArgs {
    /// [`END_DEBUG`].
    pub flags: u64,
    /// The processor of the END.
    pub target: u64,
    /// The priority of the END.
    pub priority: u64,
}

impl GetQueueConfigArgs {
    /// The arguments in the order of the argument registers.
    pub fn from_args(args: &[u64; 5]) -> GetQueueConfigArgs
        ensures { result ≡ get_queue_config_args args.now }
    {
        let [flags, target, priority, _, _] = *args;
        GetQueueConfigArgs {
            flags,
            target,
            priority,
        }
    }
}

/// The arguments of H_INT_ESB.
#[derive(Clone, Copy)]
pub struct EsbArgs {
    /// [`ESB_STORE`].
    pub flags: u64,
    /// The source.
    pub lisn: u64,
    /// The offset on the management page, in bytes.
    pub offset: u64,
}

impl EsbArgs {
    /// The arguments in the order of the argument registers.
    pub fn from_args(args: &[u64; 5]) -> EsbArgs
        ensures { result ≡ esb_args args.now }
    {
        let [flags, lisn, offset, _, _] = *args;
        EsbArgs {
            flags,
            lisn,
            offset,
        }
    }
}

/// The arguments of H_INT_SYNC.
#[derive(Clone, Copy)]
pub struct SyncArgs {
    /// There are none.
    pub flags: u64,
    /// The source.
    pub lisn: u64,
}

impl SyncArgs {
    /// The arguments in the order of the argument registers.
    pub fn from_args(args: &[u64; 5]) -> SyncArgs
        ensures { result ≡ sync_args args.now }
    {
        let [flags, lisn, _, _, _] = *args;
        SyncArgs { flags, lisn }
    }
}

/// The arguments of H_INT_RESET.
#[derive(Clone, Copy)]
pub struct ResetArgs {
    /// There are none.
    pub flags: u64,
}

impl ResetArgs {
    /// The arguments in the order of the argument registers.
    pub fn from_args(args: &[u64; 5]) -> ResetArgs
        ensures { result ≡ reset_args args.now }
    {
        let [flags, _, _, _, _] = *args;
        ResetArgs { flags }
    }
}
