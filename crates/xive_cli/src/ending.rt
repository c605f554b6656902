//! The end of a run that stopped early.

ghost use Rattle.std.specs.Prelude.{◌≡◌, ◌≤◌, ◌+◌, ◌++◌, ◌⊎◌, []};
ghost use Rattle.arrayvec.specs.ArrayVec.{array_vec_len};
ghost use Rattle.xive_cli.specs.Output.{told, Tells, Fails};
ghost use Rattle.xive_cli.specs.Ending.{status_of_stop, last_line};

use crate::output::Output;
use crate::stop::Stop;
use account::LONGEST_REPORT_LINE;
use account::refusal::{add_refusal, add_too_long};
use arrayvec::ArrayVec;
use xv_base::Status;
use xv_io::{ROOM, Sink};

/// The status of a stop.
fn status_of(stop: Stop) -> Status
    ensures { result ≡ status_of_stop stop }
{
    match stop {
        Stop::ReadFault => Status::ReadFault,
        Stop::WriteFault => Status::WriteFault,
        Stop::Refused(_) => Status::Refused,
        Stop::TooLong => Status::TooLong,
        Stop::NoMemory => Status::NoMemory,
    }
}

/// Appends the line that says why a run stopped, where its output says so.
fn add_last_line(text: &mut ArrayVec<u8, ROOM>, stop: Stop)
    requires { array_vec_len text.old + LONGEST_REPORT_LINE ≤ ROOM }
    ensures { text.new.items ≡ text.old.items ++ last_line stop }
{
    match stop {
        Stop::Refused(fault) => add_refusal(
            text,
            fault.line as u64,
            fault.byte as u64,
            fault.cause.name(),
        ),
        Stop::TooLong => add_too_long(text),
        _ => {}
    }
}

/// Ends a run that stopped: its last line is told, and all that was told is written.
pub fn give_up<K: Sink>(stop: Stop, output: &mut Output<'_, K>) -> Status
    ensures sink { output.new.sink.ghost_name ≡ output.old.sink.ghost_name }
    ensures ends { ((result ≡ status_of_stop stop)
        × Tells (told output.old) (last_line stop) (told output.new))
        ⊎ ((result ≡ Status.WriteFault)
        × Fails (told output.old) (last_line stop) (told output.new)) }
    ensures all { output.new.writer.gathered.items ≡ [] }
    ensures count { K.faults output.old.sink.now ≤ K.faults output.new.sink.now }
{
    add_last_line(&mut output.writer.gathered, stop);
    match output.writer.flush(output.sink) {
        Ok(()) => status_of(stop),
        Err(_) => Status::WriteFault,
    }
}
