//! Which sources of a board are level sources.

ghost use Rattle.std.specs.Prelude.{◌≡◌, IfOk, vec_len};
ghost use Rattle.machine.specs.Machine.{AreLevels};

use std::alloc::Global;
use xv_base::NoMemory;
use xv_model::board::Board;

/// For each source of a board whether it is a level source, so that no step looks through ranges.
pub(crate) fn levels_of(alloc: Global, board: &Board) -> Result<Vec<bool>, NoMemory>
    ensures len { IfOk result (λ v. vec_len v ≡ board.now.limits.sources) }
    ensures items { IfOk result (λ v. AreLevels board.now v.items) }
{
    let mut levels = Vec::with_capacity(alloc, board.limits.sources as usize)?;
    for s in 0..board.limits.sources {
        levels.push(board.is_level(s))?;
    }
    Ok(levels)
}
