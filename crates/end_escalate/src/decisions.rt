//! What decides for a pass of an END, and for what was taken.

ghost use Rattle.std.specs.Prelude.{◌≡◌, ◌<◌, ◌&&◌, ◌||◌, Some, None, if◌then◌else◌};
ghost use Rattle.xv_model.specs.declared.operations.EndConfig.{EndConfig};
ghost use Rattle.xv_model.specs.source.PqTable.{trigger_row};
ghost use Rattle.xv_model.specs.end.EventStates.{asks_state};
ghost use Rattle.xv_model.specs.end.Flags.{always_escalates, is_valid, may_escalate};
ghost use Rattle.xv_model.specs.route.Routing.{next_by};
ghost use Rattle.xv_model.specs.route.Taking.{escalates_on, is_undelivered};
ghost use Rattle.end_escalate.specs.Decisions.{state_after, then_of};

use crate::states::notify_state;
use bitflags::Flags;
use xv_model::operations::EndFlags;
use xv_model::outcomes::Presented;

/// How a pass of an END goes on, when its entry is written.
#[derive(Clone, Copy)]
pub enum EndStep {
    /// The END isn't valid: there is no pass.
    Invalid,
    /// Its state was triggered before, and becomes this.
    Coalesced { esn: u8 },
    /// It sends nothing.
    Silent,
    /// It sends an escalation.
    Escalate,
    /// It sends a presentation, and its state becomes this.
    Present { esn: u8 },
}

/// How a pass goes on of an END with these flags and this state of notifications (QEMU's hw/intc/xive.c,
/// xive_router_end_notify): with s it sends an escalation, where it has e, or nothing; with n a presentation,
/// and with neither a presentation where the state forwards.
pub fn decide(flags: EndFlags, esn: u8) -> EndStep
    requires { esn < 4 }
    ensures then { (c : EndConfig) → c.flags ≡ flags
        → then_of result ≡ (if is_valid c then Some (next_by c esn) else None) }
    ensures state { (c : EndConfig) → c.flags ≡ flags
        → state_after result esn ≡ (if is_valid c && asks_state c then (trigger_row esn).pair else esn) }
    ensures in_range { state_after result esn < 4 }
{
    if !flags.contains(EndFlags::VALID) {
        return EndStep::Invalid;
    }
    if flags.contains(EndFlags::SILENT) {
        return if flags.contains(EndFlags::ESCALATE) {
            EndStep::Escalate
        } else {
            EndStep::Silent
        };
    }
    if flags.contains(EndFlags::NOTIFY_ALWAYS) {
        return EndStep::Present { esn };
    }
    let (esn, forwards) = notify_state(esn);
    if forwards {
        EndStep::Present { esn }
    } else {
        EndStep::Coalesced { esn }
    }
}

/// Whether a presentation goes on as an escalation, by the flags of its message and by what became of it: it does
/// with e, where its processor is connected and wasn't reached on a thread.
pub fn after_present(flags: EndFlags, presented: Presented) -> bool
    ensures { result ≡ (is_undelivered presented && may_escalate flags) }
{
    match presented {
        Presented::Backlogged | Presented::Lost => flags.contains(EndFlags::ESCALATE),
        Presented::Found | Presented::NoProcessor => false,
    }
}

/// What an escalation makes of the state of escalations of its END, by the flags of its message, and whether it
/// goes on to the escalation END: with u it does and leaves the state, and without where the state forwards.
pub fn escalate_state(flags: EndFlags, ese: u8) -> (u8, bool)
    requires { ese < 4 }
    ensures state { result.0 ≡ (if always_escalates flags then ese else (trigger_row ese).pair) }
    ensures goes_on { result.1 ≡ escalates_on flags ese }
    ensures in_range { result.0 < 4 }
{
    if flags.contains(EndFlags::ESCALATE_ALWAYS) {
        return (ese, true);
    }
    notify_state(ese)
}
