//! Replies that tell of a refusal, of the end, and of a tree text above its bound.
ghost use Rattle.std.specs.Prelude.{◌≡◌, IfOk, false};
ghost use Rattle.serde_json.specs.Written.{compact_text};
ghost use Rattle.wire_asks.specs.Refusals.{code_of, allowed_by};
ghost use Rattle.wire_replies.specs.Bodies.{refusal_data, halted_data, long_text_data};
ghost use Rattle.wire_replies.specs.ReplyBytes.{IsReply};

use crate::bodies::said_body;
use crate::reply::{Reply, json_reply};
use page_units::fault::NoMemory;
use std::alloc::Global;
use wire_asks::Refusal;

/// The reply to a request that is refused: its code, with 405 the method that the route takes, and
/// the refusal's name.
pub fn refusal_reply(alloc: Global, refusal: Refusal) -> Result<Reply, NoMemory>
    ensures status { IfOk result (λ r. r.status ≡ code_of refusal) }
    ensures html { IfOk result (λ r. r.html ≡ false) }
    ensures allow { IfOk result (λ r. r.allow ≡ allowed_by refusal) }
    ensures body { IfOk result (λ r. r.body.items ≡ compact_text (refusal_data refusal)) }
    ensures valid { IfOk result IsReply }
{
    Ok(Reply {
        status: refusal.code(),
        html: false,
        allow: refusal.allowed(),
        body: said_body(alloc, "refused", refusal.name())?,
    })
}

/// The reply to a `/halt` that was obeyed.
pub fn halted_reply(alloc: Global) -> Result<Reply, NoMemory>
    ensures status { IfOk result (λ r. r.status ≡ 200) }
    ensures html { IfOk result (λ r. r.html ≡ false) }
    ensures allow { IfOk result (λ r. r.allow ≡ None) }
    ensures body { IfOk result (λ r. r.body.items ≡ compact_text halted_data) }
    ensures valid { IfOk result IsReply }
{
    Ok(json_reply(said_body(alloc, "outcome", "halted")?))
}

/// The reply in place of a tree text that is above its bound.
pub fn long_text_reply(alloc: Global) -> Result<Reply, NoMemory>
    ensures status { IfOk result (λ r. r.status ≡ 500) }
    ensures html { IfOk result (λ r. r.html ≡ false) }
    ensures allow { IfOk result (λ r. r.allow ≡ None) }
    ensures body { IfOk result (λ r. r.body.items ≡ compact_text long_text_data) }
    ensures valid { IfOk result IsReply }
{
    Ok(Reply {
        status: 500,
        html: false,
        allow: None,
        body: said_body(alloc, "outcome", "bound text")?,
    })
}
