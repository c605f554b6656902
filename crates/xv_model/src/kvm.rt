//! The attributes of the KVM device (Linux's Documentation/virt/kvm/devices/xive.rst;
//! arch/powerpc/kvm/book3s_xive_native.c): their numbers, the attribute that a group and a number name, and what it is
//! set to. What setting or getting one answers is computed elsewhere.

ghost use Rattle.std.specs.Prelude.{◌≡◌};
ghost use Rattle.xv_model.specs.device.Attributes.{control_of, attribute_of, number_setting, queue_setting, setting_of};

pub mod arguments;
pub mod errors;
pub mod fields;

use crate::kvm::arguments::{EqArgs, EqId, SourceArgs, SourceConfigArgs};
use crate::operations::{AttrValue, EqFields};

/// KVM_DEV_XIVE_GRP_CTRL, the group of what is set of the device as a whole.
pub const GRP_CTRL: u32 = 1;

/// KVM_DEV_XIVE_RESET in [`GRP_CTRL`]: resets the ENDs, and turns off the sources that are initialised
/// (kvmppc_xive_reset).
pub const CTRL_RESET: u64 = 1;

/// KVM_DEV_XIVE_EQ_SYNC in [`GRP_CTRL`]: waits until no event is on its way into a queue (kvmppc_xive_native_eq_sync).
pub const CTRL_EQ_SYNC: u64 = 2;

/// KVM_DEV_XIVE_NR_SERVERS in [`GRP_CTRL`]: how many processors can be connected (kvmppc_xive_set_nr_servers).
pub const CTRL_NR_SERVERS: u64 = 3;

/// KVM_DEV_XIVE_GRP_SOURCE: initialises the source that the number names (kvmppc_xive_native_set_source).
pub const GRP_SOURCE: u32 = 2;

/// KVM_DEV_XIVE_GRP_SOURCE_CONFIG: says where the notices of the source go that the number names
/// (kvmppc_xive_native_set_source_config).
pub const GRP_SOURCE_CONFIG: u32 = 3;

/// KVM_DEV_XIVE_GRP_EQ_CONFIG: gives the END that the number names its event queue, or answers which one it has
/// (kvmppc_xive_native_set_queue_config, kvmppc_xive_native_get_queue_config).
pub const GRP_EQ_CONFIG: u32 = 4;

/// KVM_DEV_XIVE_GRP_SOURCE_SYNC: waits until the source that the number names is quiet (kvmppc_xive_native_sync_source).
pub const GRP_SOURCE_SYNC: u32 = 5;

/// An attribute of the device.
#[derive(Clone, Copy)]
pub enum Attribute {
    Reset,
    EqSync,
    NrServers,
    Source { source: u64 },
    SourceConfig { source: u64 },
    /// This one alone can be got, too.
    EqConfig { id: EqId },
    SourceSync { source: u64 },
}

impl Attribute {
    /// The attribute of the device as a whole that a number names.
    fn control(attr: u64) -> Option<Attribute>
        ensures { result ≡ control_of attr }
    {
        match attr {
            CTRL_RESET => Some(Attribute::Reset),
            CTRL_EQ_SYNC => Some(Attribute::EqSync),
            CTRL_NR_SERVERS => Some(Attribute::NrServers),
            _ => None,
        }
    }

    /// The attribute that a group and a number name. In the groups of sources the number is the source's, and in that of
    /// queues the queue's identifier.
    pub fn from_number(group: u32, attr: u64) -> Option<Attribute>
        ensures { result ≡ attribute_of group attr }
    {
        match group {
            GRP_CTRL => Attribute::control(attr),
            GRP_SOURCE => Some(Attribute::Source { source: attr }),
            GRP_SOURCE_CONFIG => Some(Attribute::SourceConfig { source: attr }),
            GRP_EQ_CONFIG => Some(Attribute::EqConfig {
                id: EqId::from_number(attr),
            }),
            GRP_SOURCE_SYNC => Some(Attribute::SourceSync { source: attr }),
            _ => None,
        }
    }
}

/// An attribute with what it is set to. A reset and both syncs are asked for by any number.
#[derive(Clone, Copy)]
pub enum Setting {
    /// Each source that is initialised is masked off, and each END is reset. The number of servers stays.
    Reset,
    /// Nothing is to be on its way into a queue afterwards.
    EqSync,
    /// Processors below this number can be connected: 1 to all of the board, while none is connected.
    NrServers { servers: u64 },
    /// A source is initialised, also where it is already: its EAS is masked off.
    Source { args: SourceArgs },
    /// A source is masked, or notifies an END.
    SourceConfig { args: SourceConfigArgs },
    /// An END gets a queue, or is reset.
    EqConfig { args: EqArgs },
    /// Nothing of a source is to be on its way afterwards.
    SourceSync { source: u64 },
}

impl Setting {
    /// What a number sets an attribute to; a queue isn't set by one.
    fn from_number(attribute: Attribute, value: u64) -> Option<Setting>
        ensures { result ≡ number_setting attribute value }
    {
        match attribute {
            Attribute::Reset => Some(Setting::Reset),
            Attribute::EqSync => Some(Setting::EqSync),
            Attribute::NrServers => Some(Setting::NrServers { servers: value }),
            Attribute::Source { source } => Some(Setting::Source {
                args: SourceArgs::from_value(source, value),
            }),
            Attribute::SourceConfig { source } => Some(Setting::SourceConfig {
                args: SourceConfigArgs::from_value(source, value),
            }),
            Attribute::EqConfig { .. } => None,
            Attribute::SourceSync { source } => Some(Setting::SourceSync { source }),
        }
    }

    /// What the fields of a queue set an attribute to; only a queue is set by them.
    fn from_fields(attribute: Attribute, eq: EqFields) -> Option<Setting>
        ensures { result ≡ queue_setting attribute eq }
    {
        match attribute {
            Attribute::EqConfig { id } => Some(Setting::EqConfig {
                args: EqArgs { id, eq },
            }),
            _ => None,
        }
    }

    /// What a value sets an attribute to, where the value has the attribute's form.
    pub fn from_value(attribute: Attribute, value: AttrValue) -> Option<Setting>
        ensures { result ≡ setting_of attribute value }
    {
        match value {
            AttrValue::Number { value } => Setting::from_number(attribute, value),
            AttrValue::Queue { eq } => Setting::from_fields(attribute, eq),
        }
    }
}
