//! The processors of a board and the rings of its threads.

ghost use Rattle.std.specs.Prelude.{◌≡◌, ◌<◌, ◌≤◌, ◌↔◌, ◌∷◌, ℕ, [], pos, List, length, IfOk};
ghost use Rattle.xv_model.specs.declared.entries.Entry.{Entry};
ghost use Rattle.xv_model.specs.declared.operations.Op.TheVariants.{Connect};
ghost use Rattle.xv_model.specs.declared.outcomes.Outcome.TheVariants.{Code};
ghost use Rattle.xv_model.specs.board.Boards.{IsBoard};
ghost use Rattle.xv_model.specs.account.Outcomes.{IsWellFormed};
ghost use Rattle.xv_model.specs.account.Start.{Start, start};
ghost use Rattle.xv_model.specs.processor.Moves.{connect_outcome};
ghost use Rattle.fabric_core.specs.Processors.{StandsFor, vp_of, ring_shown};

use nvt_backlog::{Vp, Vps};
use std::alloc::Global;
use std::marker::Model;
use thread_context::{Ring, Rings};
use xv_base::NoMemory;
use xv_model::board::Board;
use xv_model::outcomes::Outcome;

/// The processors of a board, and the rings of its threads. A call that changes them answers as the operation
/// does, and they then represent the account with that entry.
#[derive(Drop)]
pub struct Processors {
    pub(crate) vps: Vps,
    pub(crate) rings: Rings,
}

impl Model for Processors {
    ghost use Rattle.presenter.specs.Contexts.{AreFit};
    ghost use Rattle.fabric_core.specs.Processors.{Parts};

    ghost Value = { Parts };

    ghost view = { λ p. record {
      vps = p.vps;
      rings = p.rings;
    } };

    ghost invariant = { λ p. AreFit p.vps.vps p.rings };
}

impl Processors {
    /// The processors of a board on which nothing has happened. May return `NoMemory`; no clause says when. No
    /// other call takes memory.
    pub fn build(alloc: Global, board: &Board) -> Result<Processors, NoMemory>
        requires board { IsBoard board.now }
        ensures processors { IfOk result (λ p. length p.vps.vps ≡ board.now.limits.processors) }
        ensures threads { IfOk result (λ p. length p.rings ≡ board.now.limits.threads) }
        ensures stands { IfOk result (λ p. StandsFor p (start board.now) []) }
    {
        Ok(Processors {
            vps: Vps::build(alloc, board)?,
            rings: Rings::build(alloc, board)?,
        })
    }

    /// The processors without the rings.
    pub fn vps(&self) -> &Vps
        ensures { result.now ≡ self.now.vps }
    {
        &self.vps
    }

    /// What is kept of a processor beside the rings.
    pub fn processor(&self, v: u32) -> Vp
        requires { v < length self.now.vps.vps }
        ensures { (z : Start) (h : List Entry) → StandsFor self.now z h → result ≡ vp_of z h v }
    {
        self.vps.get(v)
    }

    /// The ring of a thread.
    pub fn ring(&self, t: u32) -> Ring
        requires { t < length self.now.rings }
        ensures { (z : Start) (h : List Entry) → StandsFor self.now z h → result ≡ ring_shown z h t }
    {
        self.rings.get(t)
    }

    /// Connects a processor. The code is 0 exactly where its number is below that of servers; else nothing changes.
    pub fn connect(&mut self, v: u32) -> Outcome
        requires { v < length self.old.vps.vps }
        ensures outcome { (z : Start) (h : List Entry) → StandsFor self.old z h → result ≡ connect_outcome z h v }
        ensures stands { (z : Start) (h : List Entry) (actor : ℕ) → StandsFor self.old z h
            → StandsFor self.new z (record { actor = actor; op = Connect v; outcome = result } ∷ h) }
        ensures accepted { (result ≡ Code (pos 0)) ↔ (v < self.old.vps.servers) }
        ensures refused { self.old.vps.servers ≤ v → self.new ≡ self.old }
        ensures well_formed { IsWellFormed result }
        ensures processors { length self.new.vps.vps ≡ length self.old.vps.vps }
        ensures threads { length self.new.rings ≡ length self.old.rings }
    {
        Outcome::Code {
            code: self.vps.connect(v),
        }
    }
}
