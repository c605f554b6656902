//! The ENDs of a board: their configurations, counts and states.

ghost use Rattle.std.specs.Prelude.{◌≡◌, ◌+◌, ◌*◌, ◌^◌, ◌<◌, IfOk, length, replicate, slice_set, true, false};
ghost use Rattle.xv_base.specs.Limits.{ends_per_processor};
ghost use Rattle.end_queue.specs.Ends.{IsNarrow, configured, end_in, first_end, with_esn, with_ese};

use bitflags::Flags;
use std::alloc::Global;
use std::marker::Model;
use xv_base::NoMemory;
use xv_base::limits::ENDS_PER_PROCESSOR;
use xv_model::board::Board;
use xv_model::operations::{EndConfig, EndFlags};

/// An END: its configuration, and what became of it since then.
#[derive(Clone, Copy)]
pub struct EndRecord {
    pub config: EndConfig,
    /// How many entries were written into its queue. It counts on where the queue wraps.
    pub written: u64,
    /// How many entries were taken from its queue.
    pub taken: u64,
    /// The state that coalesces its notifications (ESn), a pair as a source's.
    pub esn: u8,
    /// The state that coalesces its escalations (ESe), a pair as a source's.
    pub ese: u8,
}

/// How an END starts: it isn't valid, and its states are 01.
const FIRST_END: EndRecord = EndRecord {
    config: EndConfig::OFF,
    written: 0,
    taken: 0,
    esn: 1,
    ese: 1,
};

/// The ENDs of a board. The number of an END is 8 times that of its processor, plus its priority (QEMU's
/// hw/intc/spapr_xive.c, spapr_xive_cpu_to_end). Each call leaves all other ENDs as they were, and all else of
/// its own.
#[derive(Drop)]
pub struct Ends {
    pub(crate) records: Vec<EndRecord>,
}

impl Model for Ends {
    ghost use Rattle.std.specs.Prelude.{List, All};
    ghost use Rattle.end_queue.specs.declared.ends.EndRecord.{EndRecord};
    ghost use Rattle.end_queue.specs.Ends.{IsKept};

    ghost Value = { List EndRecord };

    ghost view = { λ t. t.records.items };

    ghost invariant = { λ t. All IsKept t.records.items };
}

impl Ends {
    /// The ENDs of a board on which nothing has happened: none is valid. May return `NoMemory`; no clause
    /// says when.
    pub fn build(alloc: Global, board: &Board) -> Result<Ends, NoMemory>
        ensures { IfOk result (λ t.
            t ≡ replicate (ends_per_processor * board.now.limits.processors) first_end) }
    {
        let count = ENDS_PER_PROCESSOR as usize * board.limits.processors as usize;
        Ok(Ends {
            records: vec![in alloc; FIRST_END; count]?,
        })
    }

    /// Configures an END: its counts begin anew, and so do its states, at 00 where it is valid and at 01 where
    /// it isn't.
    pub fn configure(&mut self, e: u32, config: &EndConfig)
        requires end { e < length self.old }
        requires narrow { IsNarrow config.now }
        ensures { self.new ≡ slice_set self.old e (configured config.now) }
    {
        let state = if config.flags.contains(EndFlags::VALID) {
            0
        } else {
            1
        };
        self.records[e as usize] = EndRecord {
            config: *config,
            written: 0,
            taken: 0,
            esn: state,
            ese: state,
        };
    }

    /// Makes an END what it was at the start.
    pub fn reset(&mut self, e: u32)
        requires { e < length self.old }
        ensures { self.new ≡ slice_set self.old e first_end }
    {
        self.records[e as usize] = FIRST_END;
    }

    /// Makes each END what it was at the start.
    pub fn reset_all(&mut self)
        ensures { self.new ≡ replicate (length self.old) first_end }
    {
        self.records.fill(FIRST_END);
    }

    /// The configuration of an END.
    pub fn config(&self, e: u32) -> &EndConfig
        requires { e < length self.now }
        ensures { result.now ≡ (end_in self.now e).config }
    {
        &self.records[e as usize].config
    }

    /// How many entries were written into the queue of an END since it was configured.
    pub fn written(&self, e: u32) -> u64
        requires { e < length self.now }
        ensures { result ≡ (end_in self.now e).written }
    {
        self.records[e as usize].written
    }

    /// How many entries were taken from the queue of an END since it was configured.
    pub fn taken(&self, e: u32) -> u64
        requires { e < length self.now }
        ensures { result ≡ (end_in self.now e).taken }
    {
        self.records[e as usize].taken
    }

    /// The state of an END that coalesces its notifications: 00 is 0, 01 is 1, 10 is 2, 11 is 3.
    pub fn esn(&self, e: u32) -> u8
        requires { e < length self.now }
        ensures value { result ≡ (end_in self.now e).esn }
        ensures in_range { result < 4 }
    {
        self.records[e as usize].esn
    }

    /// The state of an END that coalesces its escalations: 00 is 0, 01 is 1, 10 is 2, 11 is 3.
    pub fn ese(&self, e: u32) -> u8
        requires { e < length self.now }
        ensures value { result ≡ (end_in self.now e).ese }
        ensures in_range { result < 4 }
    {
        self.records[e as usize].ese
    }

    /// Sets the state of an END that coalesces its notifications.
    pub fn set_esn(&mut self, e: u32, pq: u8)
        requires end { e < length self.old }
        requires pair { pq < 4 }
        ensures { self.new ≡ slice_set self.old e (with_esn pq (end_in self.old e)) }
    {
        self.records[e as usize].esn = pq;
    }

    /// Sets the state of an END that coalesces its escalations.
    pub fn set_ese(&mut self, e: u32, pq: u8)
        requires end { e < length self.old }
        requires pair { pq < 4 }
        ensures { self.new ≡ slice_set self.old e (with_ese pq (end_in self.old e)) }
    {
        self.records[e as usize].ese = pq;
    }
}
