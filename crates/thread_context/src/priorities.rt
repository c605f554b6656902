//! The priorities that are pending, one bit of a byte each.

ghost use Rattle.std.specs.Prelude.{◌≡◌, ◌<◌, ◌⊎◌};
ghost use Rattle.xv_model.specs.processor.Priorities.{priority_bit as bit_of};
ghost use Rattle.thread_context.specs.Priorities.{least_pending as least_of, with_pending as with, without_pending as without};

/// What PIPR is where no priority is pending.
const NO_PRIORITY: u8 = 0xff;

/// The bit of a priority (QEMU's hw/intc/xive.c, priority_to_ipb).
fn priority_bit(priority: u8) -> u8
    requires { priority < 8 }
    ensures { result ≡ bit_of priority }
{
    1 << (7 - priority)
}

/// The least priority that is pending, or 0xff where none is (QEMU's hw/intc/xive.c, ipb_to_pipr).
pub(crate) fn least_pending(ipb: u8) -> u8
    ensures value { result ≡ least_of ipb }
    ensures in_range { (result < 8) ⊎ (result ≡ 255) }
{
    if ipb == 0 {
        NO_PRIORITY
    } else {
        ipb.leading_zeros() as u8
    }
}

/// The pending priorities with one more.
pub(crate) fn with_pending(ipb: u8, priority: u8) -> u8
    requires { priority < 8 }
    ensures { result ≡ with ipb priority }
{
    ipb | priority_bit(priority)
}

/// The pending priorities without one.
pub(crate) fn without_pending(ipb: u8, priority: u8) -> u8
    requires { priority < 8 }
    ensures { result ≡ without ipb priority }
{
    ipb & !priority_bit(priority)
}
