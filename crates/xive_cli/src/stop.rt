//! Why a run stops before its end.

ghost use Rattle.std.specs.Prelude.{◌≡◌};

use board_script::faults::ScriptFault;
use xv_base::NoMemory;
use xv_io::Failed;

/// Why a run stops before the end of its script.
#[derive(Clone, Copy)]
pub enum Stop {
    /// The source failed.
    ReadFault,
    /// The sink failed.
    WriteFault,
    /// A line is refused.
    Refused(ScriptFault),
    /// Too many bytes of lines were given.
    TooLong,
    /// There is no memory for the board.
    NoMemory,
}

impl From<ScriptFault> for Stop {
    ghost use Rattle.std.specs.Prelude.{◌≡◌};
    ghost use Rattle.xive_cli.specs.declared.stop.Stop.TheVariants.{Refused};

    ghost from_gives = { λ fault stop. stop ≡ Refused fault };

    fn from(fault: ScriptFault) -> Stop {
        Stop::Refused(fault)
    }
}

/// A failed write: the one call that reads names its failure itself.
impl From<Failed> for Stop {
    ghost use Rattle.std.specs.Prelude.{◌≡◌};
    ghost use Rattle.xive_cli.specs.declared.stop.Stop.TheVariants.{WriteFault};

    ghost from_gives = { λ _ stop. stop ≡ WriteFault };

    fn from(_: Failed) -> Stop {
        Stop::WriteFault
    }
}

impl From<NoMemory> for Stop {
    ghost use Rattle.std.specs.Prelude.{◌≡◌};
    ghost use Rattle.xive_cli.specs.declared.stop.Stop.TheVariants.{NoMemory as Wanting};

    ghost from_gives = { λ _ stop. stop ≡ Wanting };

    fn from(_: NoMemory) -> Stop {
        Stop::NoMemory
    }
}
