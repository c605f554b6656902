//! What a line may ask of a machine.

use crate::machine::Machine;
use xv_model::known::Known;

impl Known for Machine {
    ghost use Rattle.machine.specs.Machine.{StandsFor};

    ghost knows = { StandsFor };

    ghost sources = { λ m. m.fabric.tables.board.limits.sources };

    fn out(&self, s: u32) -> u64 {
        let source = self.source(s);
        source.forwards.saturating_sub(source.routes)
    }

    fn initialised(&self, s: u32) -> bool {
        self.fabric.initialised(s)
    }

    fn old_pair(&self, s: u32) -> u8 {
        self.old_pairs[s as usize].bits()
    }
}
