//! Laws of every script. The functions do nothing; their contracts are the laws.

ghost use Rattle.board_script.specs.Accepted.{EachAcceptedGoesOn, EachRefusedEnds, EachRefusedSettingEnds, EachSettingGoesOn};
ghost use Rattle.board_script.specs.Migrations.{MigrationsKeep, MigrationsRest};
ghost use Rattle.board_script.specs.Resting.{DrainsLeaveNothing, EqSyncsLeaveNothing, ResetsAreAccepted, ResetsClearEnds, ResetsTurnOff, SettingsClearEnds, SettingsTurnOff, SettlesLeaveNoMessage, SourceSyncsEndQuiet, SyncCallsEndQuiet, SyncsEndQuiet};
ghost use Rattle.board_script.specs.Script.{EachHasAccount, OneOfEach};

/// Of scripts and the accounts that follow them.
pub fn accounts()
    ensures each_has_account { EachHasAccount }
    ensures one_of_each { OneOfEach }
{}

/// Of lines that bring to rest, and of those that reset, once they have ended.
pub fn resting()
    ensures settles { SettlesLeaveNoMessage }
    ensures syncs { SyncsEndQuiet }
    ensures sync_calls { SyncCallsEndQuiet }
    ensures source_syncs { SourceSyncsEndQuiet }
    ensures drains { DrainsLeaveNothing }
    ensures eq_syncs { EqSyncsLeaveNothing }
    ensures resets { ResetsTurnOff }
    ensures settings { SettingsTurnOff }
    ensures ends { ResetsClearEnds }
    ensures setting_ends { SettingsClearEnds }
    ensures accepted { ResetsAreAccepted }
{}

/// Of lines of hypercalls, after their call.
pub fn calls()
    ensures accepted { EachAcceptedGoesOn }
    ensures refused { EachRefusedEnds }
{}

/// Of lines that set an attribute, after they have set it.
pub fn settings()
    ensures accepted { EachSettingGoesOn }
    ensures refused { EachRefusedSettingEnds }
{}

/// Of migrations, half way and once they have ended.
pub fn migrations()
    ensures rest { MigrationsRest }
    ensures keep { MigrationsKeep }
{}
