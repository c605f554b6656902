//! The program's call: it gives the words to the command that they name.

ghost use Rattle.std.specs.Prelude.{ℕ, ◌≡◌, ◌≤◌, ◌↔◌, ◌⊎◌, [], List, Some, None};
ghost use Rattle.std.specs.Io.KnownBytes.{Appends};
ghost use Rattle.xv_io.specs.Faults.{HasRisen};
ghost use Rattle.xv_model.specs.laws.Migrations.{EachQueueGoesOn};
ghost use Rattle.xv_model.specs.laws.Refusals.{EachLookLeavesAll, EachRefusalLeavesAll};
ghost use Rattle.board_script.specs.Accepted.{EachAcceptedGoesOn, EachRefusedEnds, EachRefusedSettingEnds, EachSettingGoesOn};
ghost use Rattle.board_script.specs.Migrations.{MigrationsKeep, MigrationsRest};
ghost use Rattle.board_script.specs.Resting.{DrainsLeaveNothing, EqSyncsLeaveNothing, ResetsAreAccepted, ResetsClearEnds, ResetsTurnOff, SettingsClearEnds, SettingsTurnOff, SettlesLeaveNoMessage, SourceSyncsEndQuiet, SyncCallsEndQuiet, SyncsEndQuiet};
ghost use Rattle.board_script.specs.Script.{EachHasAccount, OneOfEach, script_of};
ghost use Rattle.xive_cli.specs.Command.{command_of};
ghost use Rattle.xive_cli.specs.Top.{IsBuilt};
ghost use Rattle.xive_cli.specs.commands.Run.{WritesAccount, WritesRefusal, WritesTooLong, WritesSoFar, WritesPart, HasHeader, status_of};

use crate::command::Command;
use crate::commands::run::run;
use std::alloc::Global;
use xv_base::{Status, Word};
use xv_io::{Sink, Source};

#[cfg(test)]
mod tests;

/// Does what the words behind the program's name say. `Usage` where they are no command; the other statuses
/// are those of the command.
pub fn run_top<S: Source, K: Sink>(
    alloc: Global,
    words: &[Word],
    source: &mut S,
    sink: &mut K,
) -> Status
    ensures done { command_of words.now ≡ Some Command.Run → result ≡ Status.Done →
        WritesAccount (S.left source.old) (K.held sink.old) (K.held sink.new) }
    ensures refused { command_of words.now ≡ Some Command.Run → result ≡ Status.Refused →
        WritesRefusal (S.left source.old) (K.held sink.old) (K.held sink.new) }
    ensures too_long { command_of words.now ≡ Some Command.Run → result ≡ Status.TooLong →
        WritesTooLong (S.left source.old) (K.held sink.old) (K.held sink.new) }
    ensures read_fault { command_of words.now ≡ Some Command.Run → result ≡ Status.ReadFault →
        HasRisen (S.faults source.old) (S.faults source.new)
        × WritesSoFar (S.left source.old) (S.left source.new) (K.held sink.old) (K.held sink.new) }
    ensures write_fault { command_of words.now ≡ Some Command.Run → result ≡ Status.WriteFault →
        HasRisen (K.faults sink.old) (K.faults sink.new)
        × WritesPart (S.left source.old) (K.held sink.old) (K.held sink.new) }
    ensures no_memory { command_of words.now ≡ Some Command.Run → result ≡ Status.NoMemory →
        HasHeader (S.left source.old) × Appends (K.held sink.old) (K.held sink.new) [] }
    ensures usage { (result ≡ Status.Usage) ↔ (command_of words.now ≡ None) }
    ensures untouched { result ≡ Status.Usage →
        (source.new ≡ source.old) × (sink.new ≡ sink.old) }
    ensures others { IsBuilt result }

    // Where neither the source nor the sink failed, the answer is that of the script.
    ensures complete { (bytes : List ℕ) → command_of words.now ≡ Some Command.Run →
        S.left source.old ≡ Some bytes →
        (HasRisen (S.faults source.old) (S.faults source.new) → ⊥) →
        (HasRisen (K.faults sink.old) (K.faults sink.new) → ⊥) →
        (result ≡ status_of (script_of bytes)) ⊎ (result ≡ Status.NoMemory) }

    // Each list of bytes has one account.
    ensures account { EachHasAccount }
    ensures one_account { OneOfEach }

    // Lines that bring to rest do so, and those that reset turn sources off and clear ENDs.
    ensures settles { SettlesLeaveNoMessage }
    ensures syncs { SyncsEndQuiet }
    ensures sync_calls { SyncCallsEndQuiet }
    ensures source_syncs { SourceSyncsEndQuiet }
    ensures drains { DrainsLeaveNothing }
    ensures eq_syncs { EqSyncsLeaveNothing }
    ensures resets { ResetsTurnOff }
    ensures setting_resets { SettingsTurnOff }
    ensures ends { ResetsClearEnds }
    ensures setting_ends { SettingsClearEnds }
    ensures reset_accepted { ResetsAreAccepted }

    // A line goes on after a hypercall or a setting that is accepted, and ends with one that is refused.
    ensures calls { EachAcceptedGoesOn }
    ensures refused_calls { EachRefusedEnds }
    ensures settings { EachSettingGoesOn }
    ensures refused_settings { EachRefusedSettingEnds }

    // What is refused, finds nothing or only looks changes nothing.
    ensures refusals { EachRefusalLeavesAll }
    ensures looks { EachLookLeavesAll }

    // A migration brings all to rest and leaves the sources as they were, and a queue that is set to what was got of one goes on there.
    ensures migrations_rest { MigrationsRest }
    ensures migrations_keep { MigrationsKeep }
    ensures queues { EachQueueGoesOn }
    ensures source_count { S.faults source.old ≤ S.faults source.new }
    ensures sink_count { K.faults sink.old ≤ K.faults sink.new }
{
    match Command::parse(words) {
        Some(command) => match command {
            Command::Run => run(alloc, source, sink),
        },
        None => Status::Usage,
    }
}
