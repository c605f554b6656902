//! The lines of an input: what the next one says, and when the source is asked for more.

ghost use Rattle.std.specs.Prelude.{◌≡◌, ◌≤◌, [], IfOk, IfErr, OnOk, IsTrue, IsFalse};
ghost use Rattle.xive_cli.specs.Input.{unread};
ghost use Rattle.xive_cli.specs.Output.{told, Tells};
ghost use Rattle.board_script.specs.Stage.{IsOpen};
ghost use Rattle.xive_cli.specs.Reading.{Says, Waits, CannotGoOn, Fills, Misses, StopsReading};

use crate::input::Input;
use crate::output::Output;
use crate::stop::Stop;
use board_script::lines::Said;
use xv_io::{Next, Sink, Source};

/// Finds in what is read ahead what the next line says; `false` where more has to be read first.
fn next_said<S: Source>(input: &mut Input<'_, S>, said: &mut Said) -> Result<bool, Stop>
    requires { IsOpen input.old.parser.stage }
    ensures source { input.new.source.ghost_name ≡ input.old.source.ghost_name }
    ensures stays { input.new.source.now ≡ input.old.source.now }
    ensures says { IfOk result (λ is_said. IsTrue is_said →
        Says (unread input.old) said.new (unread input.new)) }
    ensures waits { IfOk result (λ is_said. IsFalse is_said →
        (unread input.new ≡ unread input.old) × Waits (unread input.old)) }
    ensures stop { IfErr result (λ stop.
        CannotGoOn stop (unread input.old) (unread input.new)) }
{
    match input.reader.next() {
        Next::Line => {
            input.parser.read(input.reader.line(), said)?;
            Ok(true)
        }
        Next::Long => Err(Stop::Refused(input.parser.refuse_long())),
        Next::TooMany => Err(Stop::TooLong),
        Next::End => {
            input.parser.finish()?;
            *said = Said::End;
            Ok(true)
        }
        Next::More => Ok(false),
    }
}

/// Reads once. All that was told is written before: an answer never waits for the lines behind it.
fn fill<S: Source, K: Sink>(input: &mut Input<'_, S>, told: &Output<'_, K>) -> Result<(), Stop>
    requires told { told.now.writer.gathered.items ≡ [] }
    requires waits { Waits (unread input.old) }
    ensures source { input.new.source.ghost_name ≡ input.old.source.ghost_name }
    ensures fills { OnOk result (Fills (unread input.old) (unread input.new)) }
    ensures stop { IfErr result (λ stop.
        (stop ≡ Stop.ReadFault) × Misses (unread input.old) (unread input.new)) }
    ensures count { S.faults input.old.source.now ≤ S.faults input.new.source.now }
{
    match input.reader.fill(input.source) {
        Ok(()) => Ok(()),
        Err(_) => Err(Stop::ReadFault),
    }
}

/// Writes all that is gathered, and then reads once.
#[inline(never)]
fn read_more<S: Source, K: Sink>(
    input: &mut Input<'_, S>,
    output: &mut Output<'_, K>,
) -> Result<(), Stop>
    requires { Waits (unread input.old) }
    ensures source { input.new.source.ghost_name ≡ input.old.source.ghost_name }
    ensures sink { output.new.sink.ghost_name ≡ output.old.sink.ghost_name }
    ensures fills { OnOk result (Fills (unread input.old) (unread input.new)) }
    ensures tells { OnOk result (Tells (told output.old) [] (told output.new)) }
    ensures stop { IfErr result (λ stop. StopsReading stop
        (unread input.old) (told output.old) (unread input.new) (told output.new)) }
    ensures source_count { S.faults input.old.source.now ≤ S.faults input.new.source.now }
    ensures sink_count { K.faults output.old.sink.now ≤ K.faults output.new.sink.now }
{
    output.writer.flush(output.sink)?;
    fill(input, &*output)
}

/// Reads what the next line says into `said`. All that is gathered is written before the source is asked for
/// more.
pub fn read_line<S: Source, K: Sink>(
    input: &mut Input<'_, S>,
    output: &mut Output<'_, K>,
    said: &mut Said,
) -> Result<(), Stop>
    requires { IsOpen input.old.parser.stage }
    ensures source { input.new.source.ghost_name ≡ input.old.source.ghost_name }
    ensures sink { output.new.sink.ghost_name ≡ output.old.sink.ghost_name }
    ensures says { OnOk result (Says (unread input.old) said.new (unread input.new)) }
    ensures tells { OnOk result (Tells (told output.old) [] (told output.new)) }
    ensures stop { IfErr result (λ stop. StopsReading stop
        (unread input.old) (told output.old) (unread input.new) (told output.new)) }
    ensures source_count { S.faults input.old.source.now ≤ S.faults input.new.source.now }
    ensures sink_count { K.faults output.old.sink.now ≤ K.faults output.new.sink.now }
{
    while !next_said(input, said)? {
        read_more(input, output)?;
    }
    Ok(())
}
