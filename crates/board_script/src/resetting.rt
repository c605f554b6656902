//! The operations of a line that resets, once its call was accepted.

ghost use Rattle.std.specs.Prelude.{◌≡◌, ◌<◌, ◌≤◌, ◌-◌, List, IfSome, IsTrue};
ghost use Rattle.xv_model.specs.declared.board.Board.{Board};
ghost use Rattle.xv_model.specs.declared.entries.Entry.{Entry};
ghost use Rattle.xv_model.specs.account.Start.{Start};
ghost use Rattle.xv_model.specs.board.Validity.{valid};
ghost use Rattle.board_script.specs.Steps.{first_from, resets, setting_off, resetting, behind};

use crate::steps::succeeded;
use xv_model::known::Known;
use xv_model::operations::{Op, PqOp};
use xv_model::outcomes::Outcome;

/// The first source from this one on, of so many, that is initialised.
pub fn first_initialised<N: Known>(known: &N, from: u32, sources: u32) -> Option<u32>
    requires { sources ≤ N.sources known.now }
    ensures value { (z : Start) (h : List Entry) → N.knows known.now z h →
        result ≡ first_from (resets z h) from (sources - from) }
    ensures below { IfSome result (λ s. s < sources) }
{
    let mut s = from;
    while s < sources {
        if known.initialised(s) {
            return Some(s);
        }
        s += 1;
    }
    None
}

/// The operation of a line that resets so many sources, after one that answered this: the pair of the next source
/// that is initialised is set, and the line moves on behind it.
pub fn reset_next<N: Known>(
    outcome: &Outcome,
    from: &mut u32,
    sources: u32,
    known: &N,
) -> Option<Op>
    requires { sources ≤ N.sources known.now }
    ensures value { (z : Start) (h : List Entry) → N.knows known.now z h →
        result ≡ resetting (setting_off (first_from (resets z h) from.old (sources - from.old))) outcome.now }
    ensures valid { IfSome result (λ o. (b : Board) →
        sources ≤ b.limits.sources → IsTrue (valid b o)) }
    ensures moves { IfSome result (λ o. from.new ≡ behind o) }
{
    match outcome {
        Outcome::Reply { reply } if !succeeded(reply.code) => return None,
        Outcome::Code { code } if !succeeded(*code as i64) => return None,
        _ => {}
    }
    let s = first_initialised(known, *from, sources)?;
    *from = s + 1;
    Some(Op::Pq {
        s,
        op: PqOp::Set { pq: 1 },
    })
}
