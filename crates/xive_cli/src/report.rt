//! The report at the end of an account.

ghost use Rattle.std.specs.Prelude.{◌≡◌, ◌+◌, ◌++◌, ◌≤◌, OnOk, OnErr};
ghost use Rattle.arrayvec.specs.ArrayVec.{array_vec_len};
ghost use Rattle.account.specs.Account.{report_text};
ghost use Rattle.xive_cli.specs.Output.{told};
ghost use Rattle.xive_cli.specs.Report.{TellsOf, FailsOf, sources_text, queues_text, processors_text, rings_text, connected_line, first_text, last_text};

use crate::output::Output;
use account::LONGEST_REPORT_LINE;
use account::report::{
    add_done, add_end, add_flight, add_notices, add_processor, add_queue, add_ring, add_source,
};
use arrayvec::ArrayVec;
use machine::Machine;
use nvt_backlog::Vp;
use xv_base::limits::ENDS_PER_PROCESSOR;
use xv_io::{Failed, ROOM, Sink};

/// Puts the lines of the sources.
fn put_sources<K: Sink>(machine: &Machine, output: &mut Output<'_, K>) -> Result<(), Failed>
    ensures sink { output.new.sink.ghost_name ≡ output.old.sink.ghost_name }
    ensures ok { OnOk result
        (TellsOf machine.now sources_text (told output.old) (told output.new)) }
    ensures err { OnErr result
        (FailsOf machine.now sources_text (told output.old) (told output.new)) }
    ensures count { K.faults output.old.sink.now ≤ K.faults output.new.sink.now }
{
    for s in 0..machine.board().limits.sources {
        let source = machine.source(s);
        add_source(
            &mut output.writer.gathered,
            s,
            source.pq,
            source.asserted,
            source.forwards,
            source.routes,
        );
        output.writer.settle(output.sink)?;
    }
    Ok(())
}

/// Puts the lines of the ENDs.
fn put_queues<K: Sink>(machine: &Machine, output: &mut Output<'_, K>) -> Result<(), Failed>
    ensures sink { output.new.sink.ghost_name ≡ output.old.sink.ghost_name }
    ensures ok { OnOk result
        (TellsOf machine.now queues_text (told output.old) (told output.new)) }
    ensures err { OnErr result
        (FailsOf machine.now queues_text (told output.old) (told output.new)) }
    ensures count { K.faults output.old.sink.now ≤ K.faults output.new.sink.now }
{
    for e in 0..ENDS_PER_PROCESSOR * machine.board().limits.processors {
        let queue = machine.queue(e);
        add_queue(
            &mut output.writer.gathered,
            e,
            queue.config.flags,
            queue.written,
            queue.taken,
            queue.esn,
            queue.ese,
        );
        output.writer.settle(output.sink)?;
    }
    Ok(())
}

/// Appends the line of a processor, where it is connected.
fn add_connected(text: &mut ArrayVec<u8, ROOM>, v: u32, processor: &Vp)
    requires { array_vec_len text.old + LONGEST_REPORT_LINE ≤ ROOM }
    ensures items { text.new.items ≡ text.old.items ++ connected_line v processor.now }
    ensures len { array_vec_len text.new ≤ array_vec_len text.old + LONGEST_REPORT_LINE }
{
    if processor.valid {
        add_processor(
            text,
            v,
            processor.phase,
            processor.cppr,
            processor.ipb,
            processor.backlog,
        );
    }
}

/// Puts the lines of the processors.
fn put_processors<K: Sink>(machine: &Machine, output: &mut Output<'_, K>) -> Result<(), Failed>
    ensures sink { output.new.sink.ghost_name ≡ output.old.sink.ghost_name }
    ensures ok { OnOk result
        (TellsOf machine.now processors_text (told output.old) (told output.new)) }
    ensures err { OnErr result
        (FailsOf machine.now processors_text (told output.old) (told output.new)) }
    ensures count { K.faults output.old.sink.now ≤ K.faults output.new.sink.now }
{
    for v in 0..machine.board().limits.processors {
        add_connected(&mut output.writer.gathered, v, &machine.processor(v));
        output.writer.settle(output.sink)?;
    }
    Ok(())
}

/// Puts the lines of the rings.
fn put_rings<K: Sink>(machine: &Machine, output: &mut Output<'_, K>) -> Result<(), Failed>
    ensures sink { output.new.sink.ghost_name ≡ output.old.sink.ghost_name }
    ensures ok { OnOk result
        (TellsOf machine.now rings_text (told output.old) (told output.new)) }
    ensures err { OnErr result
        (FailsOf machine.now rings_text (told output.old) (told output.new)) }
    ensures count { K.faults output.old.sink.now ≤ K.faults output.new.sink.now }
{
    for t in 0..machine.board().limits.threads {
        let ring = machine.ring(t);
        add_ring(
            &mut output.writer.gathered,
            t,
            ring.nsr,
            ring.cppr,
            ring.ipb,
            ring.pipr,
            ring.cam,
        );
        output.writer.settle(output.sink)?;
    }
    Ok(())
}

/// Puts the first line.
fn put_end<K: Sink>(machine: &Machine, output: &mut Output<'_, K>) -> Result<(), Failed>
    ensures sink { output.new.sink.ghost_name ≡ output.old.sink.ghost_name }
    ensures ok { OnOk result
        (TellsOf machine.now first_text (told output.old) (told output.new)) }
    ensures err { OnErr result
        (FailsOf machine.now first_text (told output.old) (told output.new)) }
    ensures count { K.faults output.old.sink.now ≤ K.faults output.new.sink.now }
{
    add_end(&mut output.writer.gathered, machine.count());
    output.writer.settle(output.sink)?;
    Ok(())
}

/// Puts the last lines: what is on its way.
fn put_last<K: Sink>(machine: &Machine, output: &mut Output<'_, K>) -> Result<(), Failed>
    ensures sink { output.new.sink.ghost_name ≡ output.old.sink.ghost_name }
    ensures ok { OnOk result
        (TellsOf machine.now last_text (told output.old) (told output.new)) }
    ensures err { OnErr result
        (FailsOf machine.now last_text (told output.old) (told output.new)) }
    ensures count { K.faults output.old.sink.now ≤ K.faults output.new.sink.now }
{
    let text = &mut output.writer.gathered;
    add_flight(text, machine.flight() as u64);
    add_notices(text, machine.notices());
    add_done(text);
    output.writer.settle(output.sink)?;
    Ok(())
}

/// Puts the report.
pub fn put_report<K: Sink>(machine: &Machine, output: &mut Output<'_, K>) -> Result<(), Failed>
    ensures sink { output.new.sink.ghost_name ≡ output.old.sink.ghost_name }
    ensures ok { OnOk result
        (TellsOf machine.now report_text (told output.old) (told output.new)) }
    ensures err { OnErr result
        (FailsOf machine.now report_text (told output.old) (told output.new)) }
    ensures count { K.faults output.old.sink.now ≤ K.faults output.new.sink.now }
{
    put_end(machine, output)?;
    put_sources(machine, output)?;
    put_queues(machine, output)?;
    put_processors(machine, output)?;
    put_rings(machine, output)?;
    put_last(machine, output)
}
