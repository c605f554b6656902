//! The header of a script: it is read here, and told at the head of the account.

ghost use Rattle.std.specs.Prelude.{◌≡◌, ◌≤◌, [], OnOk, OnErr, IfErr};
ghost use Rattle.xv_model.specs.board.Boards.{IsBoard};
ghost use Rattle.account.specs.Account.{header_text};
ghost use Rattle.xive_cli.specs.Input.{unread};
ghost use Rattle.xive_cli.specs.Output.{told, Tells, Fails};
ghost use Rattle.xive_cli.specs.Reading.{IsInHeader, GoesOn};
ghost use Rattle.xive_cli.specs.Stop.{Stops};

use crate::input::Input;
use crate::output::Output;
use crate::reading::read_line;
use crate::stop::Stop;
use account::header::add_header;
use board_script::lines::Said;
use board_script::stage::Stage;
use xv_io::{Failed, Sink, Source};
use xv_model::board::Board;

/// Reads the header. Behind it the parser has the whole board.
pub fn read_header<S: Source, K: Sink>(
    input: &mut Input<'_, S>,
    output: &mut Output<'_, K>,
) -> Result<(), Stop>
    requires { IsInHeader input.old.parser.stage }
    ensures source { input.new.source.ghost_name ≡ input.old.source.ghost_name }
    ensures sink { output.new.sink.ghost_name ≡ output.old.sink.ghost_name }
    ensures goes { OnOk result (GoesOn (unread input.old) [] (unread input.new) []) }
    ensures stage { OnOk result (input.new.parser.stage ≡ Stage.Work) }
    ensures tells { OnOk result (Tells (told output.old) [] (told output.new)) }
    ensures stop { IfErr result (λ stop. Stops stop
        (unread input.old) (told output.old) (unread input.new) (told output.new)) }
    ensures source_count { S.faults input.old.source.now ≤ S.faults input.new.source.now }
    ensures sink_count { K.faults output.old.sink.now ≤ K.faults output.new.sink.now }
{
    let mut said = Said::Nothing;
    'lines: loop {
        read_line(input, output, &mut said)?;
        match said {
            Said::Go => return Ok(()),
            Said::End | Said::Start | Said::Work { .. } => unreachable!(),
            _ => {}
        }
    }
}

/// Tells the header.
pub fn put_header<K: Sink>(output: &mut Output<'_, K>, board: &Board) -> Result<(), Failed>
    requires { IsBoard board.now }
    ensures sink { output.new.sink.ghost_name ≡ output.old.sink.ghost_name }
    ensures ok { OnOk result (Tells (told output.old) (header_text board.now) (told output.new)) }
    ensures err { OnErr result
        (Fails (told output.old) (header_text board.now) (told output.new)) }
    ensures count { K.faults output.old.sink.now ≤ K.faults output.new.sink.now }
{
    add_header(&mut output.writer.gathered, board);
    output.writer.settle(output.sink)?;
    Ok(())
}
