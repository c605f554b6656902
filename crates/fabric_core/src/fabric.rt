//! A fabric of a board.

ghost use Rattle.std.specs.Prelude.{◌≡◌, ◌+◌, ◌*◌, ◌<◌, ◌≤◌, ◌∷◌, [], ℕ, All, length, List, IsTrue, IfOk, true};
ghost use Rattle.xv_base.specs.Limits.{ends_per_processor, most_messages};
ghost use Rattle.xv_model.specs.declared.entries.Entry.{Entry as AnEntry};
ghost use Rattle.xv_model.specs.board.Boards.{IsBoard};
ghost use Rattle.xv_model.specs.account.Kinds.{access_of};
ghost use Rattle.xv_model.specs.account.Legal.{legal};
ghost use Rattle.xv_model.specs.account.Outcomes.{IsWellFormed};
ghost use Rattle.xv_model.specs.account.Start.{Start, start};
ghost use Rattle.xv_model.specs.board.Validity.{valid};
ghost use Rattle.xv_model.specs.source.Notices.{routes as routes_of};
ghost use Rattle.xv_model.specs.source.Eas.{initialised as is_initialised};
ghost use Rattle.xv_model.specs.route.Flight.{flight as flight_after};
ghost use Rattle.xv_model.specs.route.Quiet.{messages_of};
ghost use Rattle.end_queue.specs.Ends.{HasRoom, HasCountsAtMost, end_in};
ghost use Rattle.fabric_core.specs.Fabric.{StandsFor, IsCounted, IsQueue, IsRefusal, queue_view};
ghost use Rattle.fabric_core.specs.Processors.{vp_of, ring_shown};

use crate::answering::answer;
use crate::processors::Processors;
use crate::views::QueueView;
use guest_ram::Ram;
use nvt_backlog::Vp;
use router::tables::Tables;
use std::alloc::Global;
use std::marker::Model;
use thread_context::Ring;
use xv_base::NoMemory;
use xv_model::board::Board;
use xv_model::entries::Entry;
use xv_model::known::Stands;
use xv_model::operations::Op;

/// The bytes of a MiB.
const MIB: u64 = 1 << 20;

/// The router's tables, the memory, and the processors with the rings of threads.
#[derive(Drop)]
pub struct Fabric {
    tables: Tables,
    ram: Ram,
    processors: Processors,
}

impl Model for Fabric {
    ghost use Rattle.std.specs.Prelude.{◌≡◌, ◌*◌, length};
    ghost use Rattle.xv_model.specs.board.Validity.{ram_size};
    ghost use Rattle.fabric_core.specs.Fabric.{Held};

    ghost Value = { Held };

    ghost view = { λ f. record {
      tables = f.tables;
      memory = f.ram;
      processors = f.processors;
    } };

    ghost invariant = { λ f. (4 * length f.ram ≡ ram_size f.tables.board)
        × (length f.processors.vps.vps ≡ f.tables.board.limits.processors)
        × (length f.processors.rings ≡ f.tables.board.limits.threads) };
}

impl Stands for Fabric {
    ghost use Rattle.fabric_core.specs.Fabric.{StandsFor};

    ghost stands = { StandsFor };
}

impl Fabric {
    /// A fabric of a board on which nothing has happened. May return `NoMemory`; no clause says when.
    /// No other call takes memory.
    pub fn build(alloc: Global, board: &Board) -> Result<Fabric, NoMemory>
        requires board { IsBoard board.now }
        ensures board { IfOk result (λ f. f.tables.board ≡ board.now) }
        ensures counts { IfOk result (λ f. All (HasCountsAtMost 0) f.tables.ends) }
        ensures stands { IfOk result (λ f. StandsFor f (start board.now) []) }
    {
        Ok(Fabric {
            tables: Tables::build(alloc, board)?,
            ram: Ram::new(alloc, board.ram_mib as u64 * MIB)?,
            processors: Processors::build(alloc, board)?,
        })
    }

    /// The board.
    pub fn board(&self) -> &Board
        ensures value { result.now ≡ self.now.tables.board }
        ensures board { IsBoard result.now }
    {
        self.tables.board()
    }

    /// How many notices of a source were routed.
    pub fn routes(&self, s: u32) -> u64
        requires { s < self.now.tables.board.limits.sources }
        ensures { (z : Start) (h : List AnEntry) → StandsFor self.now z h → result ≡ routes_of z h s }
    {
        self.tables.routes(s)
    }

    /// Whether a source has a valid EAS.
    pub fn initialised(&self, s: u32) -> bool
        requires { s < self.now.tables.board.limits.sources }
        ensures { (z : Start) (h : List AnEntry) → StandsFor self.now z h → result ≡ is_initialised z h s }
    {
        self.tables.initialised(s)
    }

    /// An END. Its counts show whether it has room, as `step` needs it of each.
    pub fn queue(&self, e: u32) -> QueueView
        requires { e < ends_per_processor * self.now.tables.board.limits.processors }
        ensures value { (z : Start) (h : List AnEntry) → StandsFor self.now z h → result ≡ queue_view z h e }
        ensures in_range { IsQueue self.now.tables.board result }
        ensures written { result.written ≡ (end_in self.now.tables.ends e).written }
        ensures taken { result.taken ≡ (end_in self.now.tables.ends e).taken }
        ensures ends { length self.now.tables.ends ≡ ends_per_processor * self.now.tables.board.limits.processors }
    {
        let ends = self.tables.ends();
        QueueView {
            config: *ends.config(e),
            written: ends.written(e),
            taken: ends.taken(e),
            esn: ends.esn(e),
            ese: ends.ese(e),
        }
    }

    /// What is kept of a processor beside the rings.
    pub fn processor(&self, v: u32) -> Vp
        requires { v < self.now.tables.board.limits.processors }
        ensures { (z : Start) (h : List AnEntry) → StandsFor self.now z h → result ≡ vp_of z h v }
    {
        self.processors.processor(v)
    }

    /// The OS ring of a thread.
    pub fn ring(&self, t: u32) -> Ring
        requires { t < self.now.tables.board.limits.threads }
        ensures { (z : Start) (h : List AnEntry) → StandsFor self.now z h → result ≡ ring_shown z h t }
    {
        self.processors.ring(t)
    }

    /// How many messages are in flight.
    pub fn flight(&self) -> u32
        ensures value { (z : Start) (h : List AnEntry) → StandsFor self.now z h → result ≡ length (flight_after z h) }
        ensures messages { result ≡ length self.now.tables.messages }
        ensures few { result ≤ most_messages }
    {
        self.tables.flight()
    }

    /// How many of them come from a source.
    pub fn flight_of(&self, s: u32) -> u32
        ensures { (z : Start) (h : List AnEntry) → StandsFor self.now z h → result ≡ messages_of (flight_after z h) s }
    {
        self.tables.flight_of(s)
    }

    /// Makes one entry: what an operation by an actor answers that is on no word of a source. The board has the
    /// operation. `forwards` is how often the source has forwarded whose notice is routed, or that is asked whether
    /// it is quiet; no other operation looks at it. No END has come to the limit of its counts: since it was
    /// configured, fewer than 2^63 entries were written into its queue, and fewer than that taken from it
    /// (end_queue's `HasRoom`; `queue` shows both counts). Refused, it changes nothing; nor does one that asks
    /// whether a source is quiet.
    pub fn step(&mut self, actor: u32, op: &Op, forwards: u64) -> Entry
        requires op { IsTrue (valid self.old.tables.board op.now) }
        requires fabric { access_of self.old.tables.board op.now ≡ None }
        requires room { All HasRoom self.old.tables.ends }
        ensures actor { result.actor ≡ actor }
        ensures op { result.op ≡ op.now }
        ensures outcome { (z : Start) (h : List AnEntry) → StandsFor self.old z h → IsCounted op.now forwards z h
            → result.outcome ≡ legal z h op.now }
        ensures stands { (z : Start) (h : List AnEntry) → StandsFor self.old z h → IsCounted op.now forwards z h
            → StandsFor self.new z (result ∷ h) }
        ensures refused { IsRefusal op.now result.outcome → self.new ≡ self.old }
        ensures well_formed { IsWellFormed result.outcome }
        ensures board { self.new.tables.board ≡ self.old.tables.board }
        ensures counts { (n : ℕ) → All (HasCountsAtMost n) self.old.tables.ends
            → All (HasCountsAtMost (n + 1)) self.new.tables.ends }
    {
        let outcome = answer(
            &mut self.tables,
            &mut self.ram,
            &mut self.processors,
            op,
            forwards,
        );
        Entry {
            actor,
            op: *op,
            outcome,
        }
    }
}
