//! The entries of a work line: the machine makes them, and their lines are told.

ghost use Rattle.std.specs.Prelude.{◌≡◌, ◌+◌, ◌*◌, ◌^◌, ◌<◌, ◌≤◌, IfOk, OnOk, OnErr, None, IsTrue};
ghost use Rattle.xv_model.specs.board.Validity.{valid};
ghost use Rattle.board_script.specs.Lines.{IsWork};
ghost use Rattle.board_script.specs.Work.{load};
ghost use Rattle.xive_cli.specs.Output.{told};
ghost use Rattle.machine.specs.Machine.{burden_of};
ghost use Rattle.xive_cli.specs.Line.{IsLegalMachine, entry_of, TellsEntry, FailsEntry, RunsLine, FailsLine};

use crate::output::Output;
use account::entry::add_entry;
use board_script::work::Work;
use machine::Machine;
use xv_io::{Failed, Sink};
use xv_model::operations::Op;
use xv_model::outcomes::Outcome;

/// Makes one entry, and tells its line.
#[inline(never)]
fn make_entry<K: Sink>(
    machine: &mut Machine,
    output: &mut Output<'_, K>,
    actor: u32,
    op: &Op,
) -> Result<Outcome, Failed>
    requires op { IsTrue (valid machine.old.fabric.tables.board op.now) }
    requires count { machine.old.count < 2 ^ 62 }
    ensures sink { output.new.sink.ghost_name ≡ output.old.sink.ghost_name }
    ensures board { machine.new.fabric.tables.board ≡ machine.old.fabric.tables.board }
    ensures count { machine.new.count ≡ machine.old.count + 1 }
    ensures tells { IfOk result (λ outcome. TellsEntry machine.old (told output.old)
        (entry_of actor op.now outcome) machine.new (told output.new)) }
    ensures fails { OnErr result (FailsEntry machine.old (told output.old)
        actor op.now machine.new (told output.new)) }
    ensures sink_count { K.faults output.old.sink.now ≤ K.faults output.new.sink.now }
{
    let index = machine.count();
    let outcome = machine.step(actor, op).outcome;
    add_entry(&mut output.writer.gathered, index, actor, op, &outcome);
    output.writer.settle(output.sink)?;
    Ok(outcome)
}

/// Runs a work line.
pub fn run_line<K: Sink>(
    machine: &mut Machine,
    output: &mut Output<'_, K>,
    actor: u32,
    work: Work,
) -> Result<(), Failed>
    requires work { IsWork machine.old.fabric.tables.board actor work }
    requires legal { IsLegalMachine machine.old }
    requires room { machine.old.count + load work None (burden_of machine.old) ≤ 2 ^ 62 }
    ensures sink { output.new.sink.ghost_name ≡ output.old.sink.ghost_name }
    ensures board { machine.new.fabric.tables.board ≡ machine.old.fabric.tables.board }
    ensures few { OnOk result (machine.new.count + 2 * burden_of machine.new
        ≤ machine.old.count + load work None (burden_of machine.old)) }
    ensures runs { OnOk result (RunsLine (record { actor = actor; work = work })
        machine.old (told output.old) machine.new (told output.new)) }
    ensures fails { OnErr result (FailsLine (record { actor = actor; work = work })
        machine.old (told output.old) (told output.new)) }
    ensures sink_count { K.faults output.old.sink.now ≤ K.faults output.new.sink.now }
{
    let mut going = work;
    let first = going.begin(&*machine);
    let mut last = make_entry(machine, output, actor, &first)?;
    while let Some(op) = going.next(Some(&last), &*machine) {
        last = make_entry(machine, output, actor, &op)?;
    }
    Ok(())
}
