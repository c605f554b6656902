//! Laws of every legal account. The functions do nothing; their contracts are the laws.

ghost use Rattle.xv_model.specs.account.Scripts.{EachHasAccount, OneAccount};
ghost use Rattle.xv_model.specs.laws.Acknowledgements.{EachAcceptsMostFavoured, EachAnswersAccepted, EachLeavesAll, EachLeavesAlone};
ghost use Rattle.xv_model.specs.laws.DeviceExample.{AnswerInTurn};
ghost use Rattle.xv_model.specs.laws.Entering.{EachEntersOnce, RoutedInOrder, RoutedOnceForwarded};
ghost use Rattle.xv_model.specs.laws.Escalations.{EachEscalationRuns, EachSilentEscalates, EachUndeliveredEscalates};
ghost use Rattle.xv_model.specs.laws.Hypercalls.{EachRefusedDoesNothing};
ghost use Rattle.xv_model.specs.laws.Migrations.{EachQueueGoesOn, EachStateGoesOn, EachTellsOldPairs};
ghost use Rattle.xv_model.specs.laws.Notices.{EachHasFewMessages, EachQuietIsQuiet, EachTakesFew};
ghost use Rattle.xv_model.specs.laws.Pending.{EachHasOneUser, EachIsInRing, EachIsKeptOff, EachIsShown, EachIsUser, EachStaysPending};
ghost use Rattle.xv_model.specs.laws.QueueExample.{ReadsTwoQueues};
ghost use Rattle.xv_model.specs.laws.Queues.{EachReadsAsWritten, EachReadsNext, StartIsFresh, ZeroedIsFresh, ZerosAreFresh};
ghost use Rattle.xv_model.specs.laws.Refusals.{EachLookLeavesAll, EachRefusalLeavesAll};
ghost use Rattle.xv_model.specs.laws.Servers.{EachHasServers};
ghost use Rattle.xv_model.specs.laws.Triggers.{CoalescedComesAgain, EachTriggerAccounted, NumberedInOrder};

/// Of lines and the accounts that follow them.
pub fn scripts()
    ensures one_account { OneAccount }
    ensures has_account { EachHasAccount }
{}

/// Of the triggers of a source.
pub fn triggers()
    ensures numbered_in_order { NumberedInOrder }
    ensures each_accounted { EachTriggerAccounted }
    ensures comes_again { CoalescedComesAgain }
{}

/// Of the notices of a source, and of the messages that they make.
pub fn notices()
    ensures routed_in_order { RoutedInOrder }
    ensures once_forwarded { RoutedOnceForwarded }
    ensures quiet { EachQuietIsQuiet }
    ensures few_takes { EachTakesFew }
    ensures few_messages { EachHasFewMessages }
{}

/// Of what is routed to an END.
pub fn entries()
    ensures enters_once { EachEntersOnce }
{}

/// Of what is read of a queue: on a page of its own that was fresh, by a reader that keeps up, it is what was
/// written, in order.
pub fn queues()
    ensures reads_next { EachReadsNext }
    ensures as_written { EachReadsAsWritten }
{}

/// Of pages that are fresh for a queue.
pub fn fresh_pages()
    ensures zeros { ZerosAreFresh }
    ensures at_start { StartIsFresh }
    ensures zeroed { ZeroedIsFresh }
{}

/// Of an account that meets what the laws of queues ask: two whole queues are read in it.
pub fn queue_example()
    ensures example { ReadsTwoQueues }
{}

/// Of what is pending for a processor: wherever its context is, its IPB and its backlog show it, and a priority that
/// was presented to it and not lost stays so until it is acknowledged, or the processor's state is set without it.
pub fn pending()
    ensures one_user { EachHasOneUser }
    ensures users { EachIsUser }
    ensures kept_off { EachIsKeptOff }
    ensures in_ring { EachIsInRing }
    ensures shown { EachIsShown }
    ensures stays { EachStaysPending }
{}

/// Of acknowledgements: one is accepted exactly where a processor is on the thread and a priority is pending that is
/// more favoured than its CPPR; then it answers the most favoured one, which alone isn't pending afterwards.
pub fn acknowledgements()
    ensures most_favoured { EachAcceptsMostFavoured }
    ensures answers { EachAnswersAccepted }
    ensures leaves_alone { EachLeavesAlone }
    ensures leaves_all { EachLeavesAll }
{}

/// Of what isn't delivered.
pub fn escalations()
    ensures undelivered { EachUndeliveredEscalates }
    ensures silent { EachSilentEscalates }
    ensures runs { EachEscalationRuns }
{}

/// Of hypercalls: one that is refused has no outputs, and leaves each EAS and the configuration of each END as it was.
pub fn hypercalls()
    ensures refused { EachRefusedDoesNothing }
{}

/// Of the KVM device: accounts in which its calls are refused in each way, and are accepted.
pub fn device_example()
    ensures example { AnswerInTurn }
{}

/// Of operations that are refused, or that find nothing to do, and of those that answer what they looked at (`peek`,
/// `kvmget`, `vpget`): all is as before.
pub fn refusals()
    ensures refused { EachRefusalLeavesAll }
    ensures looks { EachLookLeavesAll }
{}

/// Of what a migration rests on: the pair that a source had before it was set is told, and a queue or a processor's state
/// that is got on one board and set on another goes on there.
pub fn migrations()
    ensures old_pairs { EachTellsOldPairs }
    ensures queues { EachQueueGoesOn }
    ensures states { EachStateGoesOn }
{}

/// Of the processors that are connected: they are below the number of servers.
pub fn servers()
    ensures servers { EachHasServers }
{}
