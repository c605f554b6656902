//! The command `run`: it runs a board script, and writes the account of it.

ghost use Rattle.std.specs.Prelude.{ℕ, ◌≡◌, ◌≤◌, ◌⊎◌, [], List, Some, OnOk, IfErr, IsFalse};
ghost use Rattle.std.specs.Io.KnownBytes.{Appends};
ghost use Rattle.xv_io.specs.Faults.{HasRisen};
ghost use Rattle.board_script.specs.Parser.{new_parsing};
ghost use Rattle.board_script.specs.Script.{script_of};
ghost use Rattle.xive_cli.specs.Input.{unread};
ghost use Rattle.xive_cli.specs.Output.{told};
ghost use Rattle.xive_cli.specs.Stop.{Stops, RunsAll};
ghost use Rattle.xive_cli.specs.commands.Run.{WritesAccount, WritesRefusal, WritesTooLong, WritesSoFar, WritesPart, HasHeader, IsOfRun, status_of};

use crate::ending::give_up;
use crate::header::read_header;
use crate::input::Input;
use crate::output::Output;
use crate::report::put_report;
use crate::stop::Stop;
use crate::work::run_work;
use machine::Machine;
use std::alloc::Global;
use xv_base::Status;
use xv_io::{Sink, Source};

/// Reads the script and tells its account.
fn run_script<S: Source, K: Sink>(
    alloc: Global,
    input: &mut Input<'_, S>,
    output: &mut Output<'_, K>,
) -> Result<(), Stop>
    requires parser { input.old.parser ≡ new_parsing }
    ensures source { input.new.source.ghost_name ≡ input.old.source.ghost_name }
    ensures sink { output.new.sink.ghost_name ≡ output.old.sink.ghost_name }
    ensures done { OnOk result (RunsAll
        (unread input.old) (told output.old) (unread input.new) (told output.new)) }
    ensures stop { IfErr result (λ stop. Stops stop
        (unread input.old) (told output.old) (unread input.new) (told output.new)) }
    ensures source_count { S.faults input.old.source.now ≤ S.faults input.new.source.now }
    ensures sink_count { K.faults output.old.sink.now ≤ K.faults output.new.sink.now }
{
    read_header(input, output)?;
    let mut machine = Machine::build(alloc, input.parser.board())?;
    run_work(input, output, &mut machine)?;
    put_report(&machine, output)?;
    output.writer.flush(output.sink)?;
    Ok(())
}

/// Runs the board script that a source gives, and writes the account of it to a sink.
///
/// `Done` where the script was read to its end or to its `end` line and its account is written; `Refused`
/// where a line isn't in the language, and `TooLong` where 16 MiB of lines were given: what the lines before
/// it give is written, and then a line that says so; `ReadFault` and `WriteFault` where the source or the sink
/// failed first; `NoMemory` where there is no memory for the board at `go`.
pub fn run<S: Source, K: Sink>(alloc: Global, source: &mut S, sink: &mut K) -> Status
    ensures done { result ≡ Status.Done →
        WritesAccount (S.left source.old) (K.held sink.old) (K.held sink.new) }
    ensures refused { result ≡ Status.Refused →
        WritesRefusal (S.left source.old) (K.held sink.old) (K.held sink.new) }
    ensures too_long { result ≡ Status.TooLong →
        WritesTooLong (S.left source.old) (K.held sink.old) (K.held sink.new) }
    ensures read_fault { result ≡ Status.ReadFault →
        HasRisen (S.faults source.old) (S.faults source.new)
        × WritesSoFar (S.left source.old) (S.left source.new) (K.held sink.old) (K.held sink.new) }
    ensures write_fault { result ≡ Status.WriteFault →
        HasRisen (K.faults sink.old) (K.faults sink.new)
        × WritesPart (S.left source.old) (K.held sink.old) (K.held sink.new) }
    ensures no_memory { result ≡ Status.NoMemory →
        HasHeader (S.left source.old) × Appends (K.held sink.old) (K.held sink.new) [] }
    ensures others { IsOfRun result }

    // Where neither the source nor the sink failed, the answer is that of the script.
    ensures complete { (bytes : List ℕ) → S.left source.old ≡ Some bytes →
        (HasRisen (S.faults source.old) (S.faults source.new) → ⊥) →
        (HasRisen (K.faults sink.old) (K.faults sink.new) → ⊥) →
        (result ≡ status_of (script_of bytes)) ⊎ (result ≡ Status.NoMemory) }
    ensures source_count { S.faults source.old ≤ S.faults source.new }
    ensures sink_count { K.faults sink.old ≤ K.faults sink.new }
{
    let mut input = Input::new(source);
    let mut output = Output::new(sink);
    match run_script(alloc, &mut input, &mut output) {
        Ok(()) => Status::Done,
        Err(stop) => give_up(stop, &mut output),
    }
}
