//! Lines after the header.

ghost use Rattle.std.specs.Prelude.{◌≡◌, ℕ, List, length, OnErr};
ghost use Rattle.xv_model.specs.board.Boards.{IsBoard};
ghost use Rattle.board_script.specs.Words.{answer_with};
ghost use Rattle.board_script.specs.Grammar.{read_at, refused_at};
ghost use Rattle.board_script.specs.FirstWords.{out_of_turn as cause_of};
ghost use Rattle.board_script.specs.Operations.{device_rows, move_rows, rare_rows, ring_rows, rows};
ghost use Rattle.board_script.specs.Working.{actor_by, words_after, work_by, work_of};

use crate::attributes::{
    kvmeq_line, kvmget_line, kvmset_line, migrate_line, vpget_line, vpset_line,
};
use crate::calling::{hcall, reset_line};
use crate::configuring::endset;
use crate::faults::{Cause, Misread};
use crate::first_words::out_of_turn;
use crate::lines::Said;
use crate::memory::{peek_line, read_line, zero_line};
use crate::numbers::number;
use crate::pages::{end_page_line, source_page_line};
use crate::processors::{
    ack_line, connect_line, cppr_line, drain_line, inject_line, pull_line, push_line, regs_line,
    restore_line, save_line, settle_line, take_line, tima_load_line, tima_store_line,
};
use crate::sources::{
    access_line, assert_line, init_line, level_line, quiet_line, route_line, set_line, sync_line,
    then_route,
};
use crate::words::{Words, same};
use crate::work::Work;
use xv_model::board::Board;
use xv_model::operations::PqOp;

/// The work of a line of the KVM device, or of a migration, by its name; an unknown name is refused, where so many
/// bytes are left.
fn named_of_device(
    board: &Board,
    left: usize,
    name: &[u8],
    words: &mut Words,
) -> Result<Work, Misread>
    ensures { (at : List ℕ) → length at ≡ left
        → result ≡ work_by at (words_after (device_rows board.now) name.now) words.old }
{
    if same(name, b"kvmset") {
        return kvmset_line(board, words);
    }
    if same(name, b"kvmeq") {
        return kvmeq_line(words);
    }
    if same(name, b"kvmget") {
        return kvmget_line(words);
    }
    if same(name, b"vpget") {
        return vpget_line(board, words);
    }
    if same(name, b"vpset") {
        return vpset_line(board, words);
    }
    if same(name, b"migrate") {
        return migrate_line(board, words);
    }
    Err(Misread {
        cause: Cause::UnknownWord,
        left,
    })
}

/// The work of a line that moves the context of a processor, by its name.
fn named_move(board: &Board, left: usize, name: &[u8], words: &mut Words) -> Result<Work, Misread>
    ensures { (at : List ℕ) → length at ≡ left
        → result ≡ work_by at (words_after (move_rows board.now) name.now) words.old }
{
    if same(name, b"push") {
        return push_line(board, words);
    }
    if same(name, b"pull") {
        return pull_line(board, words);
    }
    if same(name, b"connect") {
        return connect_line(board, words);
    }
    if same(name, b"restore") {
        return restore_line(board, words);
    }
    if same(name, b"save") {
        return save_line(board, words);
    }
    named_of_device(board, left, name, words)
}

/// The work of a line, by a name that comes less often.
fn named_rarely(board: &Board, left: usize, name: &[u8], words: &mut Words) -> Result<Work, Misread>
    requires { IsBoard board.now }
    ensures { (at : List ℕ) → length at ≡ left
        → result ≡ work_by at (words_after (rare_rows board.now) name.now) words.old }
{
    if same(name, b"raise") {
        return level_line(board, left, PqOp::Raise, words);
    }
    if same(name, b"lower") {
        return level_line(board, left, PqOp::Lower, words);
    }
    if same(name, b"assert") {
        return assert_line(board, left, words);
    }
    if same(name, b"init") {
        return init_line(board, left, words);
    }
    if same(name, b"endload") {
        return end_page_line(board, false, words);
    }
    if same(name, b"endstore") {
        return end_page_line(board, true, words);
    }
    if same(name, b"peek") {
        return peek_line(words);
    }
    if same(name, b"zero") {
        return zero_line(words);
    }
    if same(name, b"endset") {
        return endset(board, left, words);
    }
    if same(name, b"hcall") {
        return hcall(board, words);
    }
    if same(name, b"reset") {
        return reset_line(board, words);
    }
    named_move(board, left, name, words)
}

/// The work of a line on messages or on the ring of a thread, by its name.
fn named_on_ring(
    board: &Board,
    left: usize,
    name: &[u8],
    words: &mut Words,
) -> Result<Work, Misread>
    requires { IsBoard board.now }
    ensures { (at : List ℕ) → length at ≡ left
        → result ≡ work_by at (words_after (ring_rows board.now) name.now) words.old }
{
    if same(name, b"settle") {
        return settle_line(words);
    }
    if same(name, b"ack") {
        return ack_line(board, words);
    }
    if same(name, b"cppr") {
        return cppr_line(board, words);
    }
    if same(name, b"take") {
        return take_line(words);
    }
    if same(name, b"inject") {
        return inject_line(board, words);
    }
    if same(name, b"regs") {
        return regs_line(board, words);
    }
    if same(name, b"quiet") {
        return quiet_line(board, words);
    }
    if same(name, b"sync") {
        return sync_line(board, words);
    }
    if same(name, b"drain") {
        return drain_line(board, words);
    }
    if same(name, b"tload") {
        return tima_load_line(board, words);
    }
    if same(name, b"tstore") {
        return tima_store_line(board, words);
    }
    named_rarely(board, left, name, words)
}

/// The work of a line, by the name of its operation and what stands after it. The names that come most often
/// are tried first.
fn named(board: &Board, left: usize, name: &[u8], words: &mut Words) -> Result<Work, Misread>
    requires { IsBoard board.now }
    ensures { (at : List ℕ) → length at ≡ left
        → result ≡ work_by at (words_after (rows board.now) name.now) words.old }
{
    if same(name, b"fire") {
        return then_route(board, PqOp::Trigger, words);
    }
    if same(name, b"finish") {
        return then_route(board, PqOp::Eoi, words);
    }
    if same(name, b"trigger") {
        return access_line(board, PqOp::Trigger, words);
    }
    if same(name, b"eoi") {
        return access_line(board, PqOp::Eoi, words);
    }
    if same(name, b"load") {
        return source_page_line(board, false, words);
    }
    if same(name, b"store") {
        return source_page_line(board, true, words);
    }
    if same(name, b"set") {
        return set_line(board, words);
    }
    if same(name, b"get") {
        return access_line(board, PqOp::Get, words);
    }
    if same(name, b"route") {
        return route_line(board, words);
    }
    if same(name, b"read") {
        return read_line(board, words);
    }
    named_on_ring(board, left, name, words)
}

/// The actor that a first word names; another word is refused, where so many bytes are left.
fn actor(board: &Board, left: usize, word: &[u8]) -> Result<u32, Misread>
    ensures { (at : List ℕ) → length at ≡ left → result ≡ read_at at (actor_by board.now word.now) }
{
    match number(word) {
        Some(n) => {
            if n < board.limits.actors as u64 {
                Ok(n as u32)
            } else {
                Err(Misread {
                    cause: Cause::OutOfRange,
                    left,
                })
            }
        }
        None => Err(Misread {
            cause: out_of_turn(word),
            left,
        }),
    }
}

/// Puts what a line after the header says into `said`: the end of the script, the start of its second half, which
/// comes once at most, or an actor and its work.
pub fn work_line(
    board: &Board,
    started: bool,
    words: &mut Words,
    said: &mut Said,
) -> Result<(), Misread>
    requires { IsBoard board.now }
    ensures value { answer_with result said.new ≡ work_of board.now started words.old }
    ensures unchanged { OnErr result (said.new ≡ said.old) }
{
    let left = words.left();
    let word = words.next();
    if same(word, b"end") {
        words.done()?;
        *said = Said::End;
        return Ok(());
    }
    if same(word, b"start") && !started {
        words.done()?;
        *said = Said::Start;
        return Ok(());
    }
    let actor = actor(board, left, word)?;
    let left = words.left();
    words.some()?;
    let name = words.next();
    *said = Said::Work {
        actor,
        work: named(board, left, name, words)?,
    };
    Ok(())
}
