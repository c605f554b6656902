//! The table of EASes.

ghost use Rattle.std.specs.Prelude.{◌≡◌, ◌<◌, ℕ, List, [], All, IfOk, Some, length, slice_get, slice_set, vec_len};
ghost use Rattle.xv_model.specs.declared.eas.Eas.{Eas as AnEas};
ghost use Rattle.xv_model.specs.board.Boards.{IsBoard};
ghost use Rattle.xv_model.specs.declared.entries.Entry.{Entry};
ghost use Rattle.xv_model.specs.account.Start.{Start, start, first_eas as first_eas_of};
ghost use Rattle.xv_model.specs.source.Eas.{eas, masked_off};
ghost use Rattle.eas_table.specs.Table.{AreFirst, IsEas, IsNarrow, StandsFor, cleared, eas_in, masked};

use std::alloc::Global;
use std::marker::Model;
use xv_base::NoMemory;
use xv_model::board::Board;
use xv_model::eas::Eas;

/// The EAS of each source of a board (POWER9's event assignment structures; QEMU's hw/intc/spapr_xive.c, `eat`).
/// Each call leaves those of all other sources as they were.
#[derive(Drop)]
pub struct EasTable {
    eases: Vec<Eas>,
}

impl Model for EasTable {
    ghost use Rattle.std.specs.Prelude.{List, All};
    ghost use Rattle.xv_model.specs.declared.eas.Eas.{Eas};
    ghost use Rattle.eas_table.specs.Table.{IsNarrow};

    ghost Value = { List Eas };

    ghost view = { λ t. t.eases.items };

    ghost invariant = { λ t. All IsNarrow t.eases.items };
}

/// A valid EAS that is masked, and has no END.
const MASKED_OFF: Eas = Eas {
    valid: true,
    masked: true,
    end: 0,
    eisn: 0,
};

/// The EAS that a source starts with: one that is claimed is valid and masked.
fn first_eas(board: &Board, s: u32) -> Eas
    ensures value { result ≡ first_eas_of board.now s }
    ensures narrow { IsNarrow result }
{
    let claimed = !board.unclaimed.has(s);
    Eas {
        valid: claimed,
        masked: claimed,
        end: 0,
        eisn: 0,
    }
}

/// The EASes that the sources of a board start with.
fn first_eases(alloc: Global, board: &Board) -> Result<Vec<Eas>, NoMemory>
    ensures len { IfOk result (λ v. vec_len v ≡ board.now.limits.sources) }
    ensures items { IfOk result (λ v. AreFirst board.now v.items) }
{
    let mut eases = Vec::with_capacity(alloc, board.limits.sources as usize)?;
    for s in 0..board.limits.sources {
        eases.push(first_eas(board, s))?;
    }
    Ok(eases)
}

impl EasTable {
    /// The EASes of a board on which nothing has happened: those of claimed sources are valid and masked, and the
    /// others not valid. May return `NoMemory`; no clause says when.
    pub fn build(alloc: Global, board: &Board) -> Result<EasTable, NoMemory>
        ensures count { IfOk result (λ t. length t ≡ board.now.limits.sources) }
        ensures first { IfOk result (λ t. AreFirst board.now t) }
        ensures stands { IfOk result (λ t. StandsFor t (start board.now) []) }
    {
        Ok(EasTable {
            eases: first_eases(alloc, board)?,
        })
    }

    /// The EAS of a source.
    pub fn get(&self, s: u32) -> Eas
        requires { s < length self.now }
        ensures value { result ≡ eas_in self.now s }
        ensures stands { (z : Start) (h : List Entry) → StandsFor self.now z h → s < z.board.limits.sources
            → result ≡ eas z h s }
        ensures narrow { IsNarrow result }
    {
        self.eases[s as usize]
    }

    /// Sets the EAS of a source.
    pub fn set(&mut self, s: u32, eas: Eas)
        requires source { s < length self.old }
        requires narrow { IsNarrow eas }
        ensures { self.new ≡ slice_set self.old s eas }
    {
        self.eases[s as usize] = eas;
    }

    /// Masks a source: its notices are dropped. All else of its EAS stays.
    pub fn mask(&mut self, s: u32)
        requires { s < length self.old }
        ensures { self.new ≡ slice_set self.old s (masked (eas_in self.old s)) }
    {
        self.eases[s as usize].masked = true;
    }

    /// Makes the EAS of a source valid and masked; its END and its EISN become 0 (QEMU's hw/intc/spapr_xive.c,
    /// spapr_xive_reset).
    pub fn clear(&mut self, s: u32)
        requires { s < length self.old }
        ensures { self.new ≡ slice_set self.old s masked_off }
    {
        self.eases[s as usize] = MASKED_OFF;
    }

    /// Clears the EAS of each source of the board that has a valid one.
    pub fn clear_valid(&mut self, board: &Board)
        requires { length self.old ≡ board.now.limits.sources }
        ensures eases { (s : ℕ) (a : AnEas) → slice_get self.old s ≡ Some a → slice_get self.new s ≡ Some (cleared a) }
        ensures len { length self.new ≡ length self.old }
        ensures in_range { IsBoard board.now → All (IsEas board.now) self.old → All (IsEas board.now) self.new }
    {
        for s in 0..board.limits.sources {
            if self.get(s).valid {
                self.clear(s);
            }
        }
    }
}
