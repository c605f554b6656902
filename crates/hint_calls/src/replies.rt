//! Replies of hypercalls: a code, and the outputs.

ghost use Rattle.std.specs.Prelude.{◌≡◌, ◌≤◌, []};
ghost use Rattle.xv_model.specs.declared.hypercalls.codes.TheConstants.{H_SUCCESS};
ghost use Rattle.xv_model.specs.call.Hypercalls.{reply_with};
ghost use Rattle.hint_calls.specs.Replies.{IsReply};

use xv_model::hypercalls::codes::H_SUCCESS;
use xv_model::outcomes::HReply;

/// A code alone.
pub(crate) fn reply(code: i64) -> HReply
    ensures value { result ≡ reply_with code [] }
    ensures reply { IsReply result }
{
    HReply {
        code,
        outs: 0,
        out: [0; 4],
    }
}

/// H_SUCCESS with outputs: the first `outs` of these, the others being 0.
pub(crate) fn accepted(outs: u8, out: [u64; 4]) -> HReply
    requires { outs ≤ 4 }
    ensures value { result ≡ record { code = H_SUCCESS; outs = outs; out = out } }
    ensures reply { IsReply result }
{
    HReply {
        code: H_SUCCESS,
        outs,
        out,
    }
}
