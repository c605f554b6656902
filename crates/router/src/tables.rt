//! The tables of the router.

ghost use Rattle.std.specs.Prelude.{◌≡◌, ◌<◌, ◌≤◌, ◌*◌, List, [], All, IfOk, IfSome, length, slice_get};
ghost use Rattle.xv_base.specs.Limits.{ends_per_processor, most_messages};
ghost use Rattle.xv_model.specs.declared.entries.Entry.{Entry};
ghost use Rattle.xv_model.specs.board.Boards.{IsBoard};
ghost use Rattle.xv_model.specs.account.Start.{Start, start};
ghost use Rattle.xv_model.specs.source.Notices.{routes as routes_of};
ghost use Rattle.xv_model.specs.source.Eas.{initialised as is_initialised};
ghost use Rattle.end_queue.specs.Ends.{HasCountsAtMost};
ghost use Rattle.std.specs.VecDeque.{deque_len};
ghost use Rattle.xv_model.specs.route.Flight.{flight};
ghost use Rattle.xv_model.specs.route.Quiet.{messages_of};
ghost use Rattle.end_queue.specs.Accounts.{IsEnd};
ghost use Rattle.router.specs.Messages.{IsMessage};
ghost use Rattle.router.specs.Tables.{StandsFor};

use eas_table::EasTable;
use end_queue::Ends;
use std::alloc::Global;
use std::collections::VecDeque;
use std::marker::Model;
use xv_base::NoMemory;
use xv_base::limits::MOST_MESSAGES;
use xv_model::board::Board;
use xv_model::messages::Message;

/// The tables of a board: an EAS and a count of routes for each source, the ENDs, and the messages in
/// flight. Who changes the EASes and the ENDs keeps them those of the board.
#[derive(Drop)]
pub struct Tables {
    pub board: Board,
    pub eas: EasTable,
    pub(crate) routes: Vec<u64>,
    pub ends: Ends,
    pub(crate) messages: VecDeque<Message>,
}

impl Model for Tables {
    ghost use Rattle.std.specs.Prelude.{◌≡◌, ◌≤◌, ◌*◌, length, vec_len, All};
    ghost use Rattle.std.specs.VecDeque.{deque_len, deque_capacity};
    ghost use Rattle.xv_base.specs.Limits.{ends_per_processor, most_messages};
    ghost use Rattle.xv_model.specs.board.Boards.{IsBoard};
    ghost use Rattle.eas_table.specs.Table.{IsEas};
    ghost use Rattle.end_queue.specs.Accounts.{IsEnd};
    ghost use Rattle.router.specs.Messages.{IsMessage};
    ghost use Rattle.router.specs.Tables.{Kept};

    ghost Value = { Kept };

    ghost view = { λ t. record {
      board = t.board;
      eases = t.eas;
      routes = t.routes.items;
      ends = t.ends;
      messages = t.messages.items;
    } };

    ghost invariant = { λ t. IsBoard t.board
        × (length t.eas ≡ t.board.limits.sources) × (vec_len t.routes ≡ t.board.limits.sources)
        × (length t.ends ≡ ends_per_processor * t.board.limits.processors)
        × All (IsEas t.board) t.eas × All (IsEnd t.board) t.ends
        × (deque_len t.messages ≤ most_messages) × (most_messages ≤ deque_capacity t.messages)
        × All (IsMessage t.board) t.messages.items };
}

/// How many of some messages come from a source.
fn count_of(messages: &VecDeque<Message>, s: u32) -> u32
    requires few { deque_len messages.now ≤ most_messages }
    ensures value { result ≡ messages_of messages.now.items s }
    ensures few { result ≤ most_messages }
{
    let mut n = 0;
    for i in 0..messages.len() {
        if messages[i].origin() == s {
            n += 1;
        }
    }
    n
}

impl Tables {
    /// The tables of a board on which nothing has happened. May return `NoMemory`; no clause says
    /// when.
    pub fn build(alloc: Global, board: &Board) -> Result<Tables, NoMemory>
        requires board { IsBoard board.now }
        ensures board { IfOk result (λ t. t.board ≡ board.now) }
        ensures stands { IfOk result (λ t. StandsFor t (start board.now) []) }
        ensures counts { IfOk result (λ t. All (HasCountsAtMost 0) t.ends) }
    {
        let eas = EasTable::build(alloc, board)?;
        let routes = vec![in alloc; 0; board.limits.sources as usize]?;
        let ends = Ends::build(alloc, board)?;
        let messages = VecDeque::with_capacity(alloc, MOST_MESSAGES)?;
        Ok(Tables {
            board: *board,
            eas,
            routes,
            ends,
            messages,
        })
    }

    /// The board.
    pub fn board(&self) -> &Board
        ensures value { result.now ≡ self.now.board }
        ensures board { IsBoard result.now }
    {
        &self.board
    }

    /// How many notices of a source were routed.
    pub fn routes(&self, s: u32) -> u64
        requires { s < self.now.board.limits.sources }
        ensures value { (z : Start) (h : List Entry)
            → StandsFor self.now z h → result ≡ routes_of z h s }
    {
        self.routes[s as usize]
    }

    /// Whether a source has a valid EAS.
    pub fn initialised(&self, s: u32) -> bool
        requires { s < self.now.board.limits.sources }
        ensures value { (z : Start) (h : List Entry)
            → StandsFor self.now z h → result ≡ is_initialised z h s }
    {
        self.eas.get(s).valid
    }

    /// The ENDs. Their counts show whether each has room, as a route needs it.
    pub fn ends(&self) -> &Ends
        ensures value { result.now ≡ self.now.ends }
        ensures len { length result.now ≡ ends_per_processor * self.now.board.limits.processors }
        ensures in_range { All (IsEnd self.now.board) result.now }
    {
        &self.ends
    }

    /// How many messages are in flight.
    pub fn flight(&self) -> u32
        ensures value { result ≡ length self.now.messages }
        ensures few { result ≤ most_messages }
    {
        self.messages.len() as u32
    }

    /// How many of them come from a source.
    pub fn flight_of(&self, s: u32) -> u32
        ensures value { (z : Start) (h : List Entry)
            → StandsFor self.now z h → result ≡ messages_of (flight z h) s }
        ensures messages { result ≡ messages_of self.now.messages s }
        ensures few { result ≤ most_messages }
    {
        count_of(&self.messages, s)
    }

    /// Message `i` of those in flight, of which the oldest is message 0; none exactly where there
    /// are no more than `i`.
    pub fn message(&self, i: u32) -> Option<Message>
        ensures value { result ≡ slice_get self.now.messages i }
        ensures in_range { IfSome result (IsMessage self.now.board) }
    {
        self.messages.get(i as usize).copied()
    }
}
