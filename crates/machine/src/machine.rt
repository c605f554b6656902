//! A machine of a board.

ghost use Rattle.std.specs.Prelude.{◌≡◌, ◌+◌, ◌*◌, ◌<◌, ◌≤◌, ◌∷◌, [], length, List, IsTrue, IfOk};
ghost use Rattle.xv_base.specs.Limits.{ends_per_processor, most_entries, most_messages};
ghost use Rattle.xv_model.specs.declared.entries.Entry.{Entry as AnEntry};
ghost use Rattle.xv_model.specs.board.Boards.{IsBoard};
ghost use Rattle.xv_model.specs.account.Start.{Start, start};
ghost use Rattle.xv_model.specs.account.Legal.{legal};
ghost use Rattle.xv_model.specs.account.Outcomes.{IsWellFormed};
ghost use Rattle.xv_model.specs.board.Validity.{valid};
ghost use Rattle.machine.specs.Machine.{StandsFor, one_more};
ghost use Rattle.machine.specs.Views.{source_view};
ghost use Rattle.fabric_core.specs.Fabric.{IsQueue, IsRefusal, queue_view};
ghost use Rattle.fabric_core.specs.Processors.{vp_of, ring_shown};

use crate::answering::{consumed_by, enter, notices_of};
use crate::levels::levels_of;
use crate::pairs::Pair;
use crate::views::SourceView;
use esb_pq::SourceWord;
use fabric_core::{Fabric, QueueView};
use nvt_backlog::Vp;
use std::alloc::Global;
use std::marker::Model;
use thread_context::Ring;
use xv_base::NoMemory;
use xv_model::board::Board;
use xv_model::entries::Entry;
use xv_model::operations::Op;

/// The state of a board: the fabric, a word for each source, the pair that it had before the last set of it and
/// whether it is a level source, how many entries were made, and how many notices are outstanding.
#[derive(Drop)]
pub struct Machine {
    pub(crate) fabric: Fabric,
    pub(crate) words: Vec<SourceWord>,
    pub(crate) old_pairs: Vec<Pair>,
    levels: Vec<bool>,
    count: u64,
    notices: u64,
}

impl Model for Machine {
    ghost use Rattle.std.specs.Prelude.{◌≡◌, ◌≤◌, vec_len, All};
    ghost use Rattle.end_queue.specs.Ends.{HasCountsAtMost};
    ghost use Rattle.machine.specs.Machine.{Held, AreLevels};

    ghost Value = { Held };

    ghost view = { λ m. record {
      fabric = m.fabric;
      words = m.words.items;
      old_pairs = m.old_pairs.items;
      count = m.count;
      notices = m.notices;
    } };

    ghost invariant = { λ m. (vec_len m.words ≡ m.fabric.tables.board.limits.sources)
        × (vec_len m.old_pairs ≡ m.fabric.tables.board.limits.sources)
        × (vec_len m.levels ≡ m.fabric.tables.board.limits.sources)
        × AreLevels m.fabric.tables.board m.levels.items
        × (m.notices ≤ m.count) × All (HasCountsAtMost m.count) m.fabric.tables.ends };
}

impl Machine {
    /// A machine of a board on which nothing has happened. May return `NoMemory`; no clause says
    /// when. No other call takes memory.
    pub fn build(alloc: Global, board: &Board) -> Result<Machine, NoMemory>
        requires board { IsBoard board.now }
        ensures board { IfOk result (λ m. m.fabric.tables.board ≡ board.now) }
        ensures count { IfOk result (λ m. m.count ≡ 0) }
        ensures stands { IfOk result (λ m. StandsFor m (start board.now) []) }
    {
        Ok(Machine {
            fabric: Fabric::build(alloc, board)?,
            words: vec![in alloc; SourceWord::off(); board.limits.sources as usize]?,
            old_pairs: vec![in alloc; Pair::off(); board.limits.sources as usize]?,
            levels: levels_of(alloc, board)?,
            count: 0,
            notices: 0,
        })
    }

    /// The board.
    pub fn board(&self) -> &Board
        ensures value { result.now ≡ self.now.fabric.tables.board }
        ensures board { IsBoard result.now }
    {
        self.fabric.board()
    }

    /// How many entries were made.
    pub fn count(&self) -> u64
        ensures { result ≡ self.now.count }
    {
        self.count
    }

    /// How many notices are outstanding, over all sources.
    pub fn notices(&self) -> u64
        ensures value { result ≡ self.now.notices }
        ensures few { result ≤ self.now.count }
    {
        self.notices
    }

    /// A source.
    pub fn source(&self, s: u32) -> SourceView
        requires { s < self.now.fabric.tables.board.limits.sources }
        ensures value { (z : Start) (h : List AnEntry)
            → StandsFor self.now z h → result ≡ source_view z h s }
        ensures in_range { result.pq < 4 }
    {
        let word = self.words[s as usize];
        SourceView {
            pq: word.pq(),
            asserted: word.asserted(),
            forwards: word.count(),
            routes: self.fabric.routes(s),
        }
    }

    /// An END.
    pub fn queue(&self, e: u32) -> QueueView
        requires { e < ends_per_processor * self.now.fabric.tables.board.limits.processors }
        ensures value { (z : Start) (h : List AnEntry)
            → StandsFor self.now z h → result ≡ queue_view z h e }
        ensures in_range { IsQueue self.now.fabric.tables.board result }
    {
        self.fabric.queue(e)
    }

    /// A processor: whether it is connected, where its context is, and what is kept of it beside the rings.
    pub fn processor(&self, v: u32) -> Vp
        requires { v < self.now.fabric.tables.board.limits.processors }
        ensures { (z : Start) (h : List AnEntry) → StandsFor self.now z h → result ≡ vp_of z h v }
    {
        self.fabric.processor(v)
    }

    /// The OS ring of a thread.
    pub fn ring(&self, t: u32) -> Ring
        requires { t < self.now.fabric.tables.board.limits.threads }
        ensures { (z : Start) (h : List AnEntry) → StandsFor self.now z h → result ≡ ring_shown z h t }
    {
        self.fabric.ring(t)
    }

    /// How many messages are in flight.
    pub fn flight(&self) -> u32
        ensures value { result ≡ length self.now.fabric.tables.messages }
        ensures few { result ≤ most_messages }
    {
        self.fabric.flight()
    }

    /// Makes one entry: what an operation by an actor answers. The board has the operation, and the
    /// machine has made no more entries than an account may have. Refused, it changes nothing but their number;
    /// nor does an `Op::Quiet`, `Op::Peek`, `Op::AttrGet` or `Op::VpGet`.
    pub fn step(&mut self, actor: u32, op: &Op) -> Entry
        requires op { IsTrue (valid self.old.fabric.tables.board op.now) }
        requires count { self.old.count ≤ most_entries }
        ensures board { self.new.fabric.tables.board ≡ self.old.fabric.tables.board }
        ensures count { self.new.count ≡ self.old.count + 1 }
        ensures actor { result.actor ≡ actor }
        ensures op { result.op ≡ op.now }
        ensures well_formed { IsWellFormed result.outcome }
        ensures outcome { (z : Start) (h : List AnEntry)
            → StandsFor self.old z h → result.outcome ≡ legal z h op.now }
        ensures stands { (z : Start) (h : List AnEntry)
            → StandsFor self.old z h → StandsFor self.new z (result ∷ h) }
        ensures refused { IsRefusal op.now result.outcome → self.new ≡ one_more self.old }
    {
        let outcome = enter(
            &mut self.fabric,
            &mut self.words,
            &mut self.old_pairs,
            &self.levels,
            actor,
            op,
        );
        self.count += 1;
        // A notice that is consumed was outstanding.
        self.notices = (self.notices + notices_of(&outcome)).saturating_sub(consumed_by(&outcome));
        Entry {
            actor,
            op: *op,
            outcome,
        }
    }
}
