//! The work of a script: its header is told, and its work lines are run one after another.

ghost use Rattle.std.specs.Prelude.{◌≡◌, ◌≤◌, [], OnOk, IfErr};
ghost use Rattle.xv_model.specs.account.Start.{start};
ghost use Rattle.machine.specs.Machine.{StandsFor};
ghost use Rattle.xive_cli.specs.Input.{unread};
ghost use Rattle.xive_cli.specs.Output.{told};
ghost use Rattle.xive_cli.specs.Stop.{Stops};
ghost use Rattle.xive_cli.specs.Work.{RunsAllWork};

use crate::header::put_header;
use crate::input::Input;
use crate::line::run_line;
use crate::output::Output;
use crate::reading::read_line;
use crate::stop::Stop;
use board_script::lines::Said;
use board_script::stage::Stage;
use machine::Machine;
use xv_io::{Sink, Source};

/// Tells the header, and runs the work lines on a machine on which nothing has happened.
pub fn run_work<S: Source, K: Sink>(
    input: &mut Input<'_, S>,
    output: &mut Output<'_, K>,
    machine: &mut Machine,
) -> Result<(), Stop>
    requires stage { input.old.parser.stage ≡ Stage.Work }
    requires board { machine.old.fabric.tables.board ≡ input.old.parser.board }
    requires count { machine.old.count ≡ 0 }
    requires stands { StandsFor machine.old (start input.old.parser.board) [] }
    ensures source { input.new.source.ghost_name ≡ input.old.source.ghost_name }
    ensures sink { output.new.sink.ghost_name ≡ output.old.sink.ghost_name }
    ensures board { machine.new.fabric.tables.board ≡ input.old.parser.board }
    ensures done { OnOk result (RunsAllWork input.old.parser.board
        (unread input.old) (told output.old) machine.new (unread input.new) (told output.new)) }
    ensures stop { IfErr result (λ stop. Stops stop
        (unread input.old) (told output.old) (unread input.new) (told output.new)) }
    ensures source_count { S.faults input.old.source.now ≤ S.faults input.new.source.now }
    ensures sink_count { K.faults output.old.sink.now ≤ K.faults output.new.sink.now }
{
    put_header(output, machine.board())?;
    let mut said = Said::Nothing;
    'lines: loop {
        read_line(input, output, &mut said)?;
        match said {
            Said::Work { actor, work } => run_line(machine, output, actor, work)?,
            Said::End => return Ok(()),
            Said::Nothing | Said::Start => {}
            _ => unreachable!(),
        }
    }
}
