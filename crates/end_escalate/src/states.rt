//! The states of an END: ESn coalesces its notifications, ESe its escalations.

ghost use Rattle.std.specs.Prelude.{◌≡◌, ◌<◌};
ghost use Rattle.xv_model.specs.source.PqTable.{trigger_row};
ghost use Rattle.xv_model.specs.end.Pages.{load_row};

use esb_mmio::load;
use esb_pq::{cell_of, trigger};

/// Triggers a state: the pair after it, and whether it forwards, so that the END sends (QEMU's
/// hw/intc/xive.c, xive_end_esb_notify).
pub fn notify_state(pq: u8) -> (u8, bool)
    requires { pq < 4 }
    ensures pair { result.0 ≡ (trigger_row pq).pair }
    ensures forwards { result.1 ≡ (trigger_row pq).forwards }
    ensures in_range { result.0 < 4 }
{
    let cell = trigger(pq);
    (cell.pq, cell.forwards)
}

/// The pair after a load of the page of a state, at an offset in bytes, which counts modulo 4,096: an EOI, a
/// get or a set, as on the management page of a source. Nothing is forwarded (QEMU's hw/intc/xive.c,
/// xive_end_source_read).
pub fn page_load(pq: u8, offset: u16) -> u8
    requires { pq < 4 }
    ensures pair { result ≡ (load_row offset pq).pair }
    ensures in_range { result < 4 }
{
    cell_of(load(offset), false, false, pq).pq
}
