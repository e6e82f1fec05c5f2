//! What the bytes that are held show.
ghost use Rattle.std.specs.Prelude.{◌≡◌, ℕ, ◌≤◌, List, ◌++◌, length};
ghost use Rattle.httparse.specs.Spans.{IsRequestOf, IsRequestWithin};
ghost use Rattle.http_wire.specs.Bounds.{head_bytes, field_room};
ghost use Rattle.http_wire.specs.Held.{HeldIs};

use crate::bounds::HEAD_BYTES;
use crate::fields::{body_length_of, closes_behind};
use crate::head::{Head, read_head};
use httparse::spans::{HeaderSpan, RequestSpans};
use wire_asks::Refusal;

/// Where the parts of a whole request are.
#[derive(Clone, Copy)]
pub struct Whole {
    /// The parts of the head.
    pub spans: RequestSpans,
    /// How many bytes of body are behind the head.
    pub body_length: usize,
    /// Whether the connection ends behind the request.
    pub close: bool,
}

/// What bytes show.
#[derive(Clone, Copy)]
pub enum Held {
    /// A whole request at the start.
    Whole(Whole),
    /// What stands at the start is refused.
    Refused(Refusal),
    /// The bytes end inside a request, or there are none.
    Unfinished,
}

/// What the bytes show of a request at their start. The room is written over.
pub fn judge(bytes: &[u8], room: &mut [HeaderSpan]) -> Held
    requires { field_room ≤ length room.old }
    ensures { HeldIs bytes.now result }
{
    let seen = &bytes[..bytes.len().min(HEAD_BYTES)];
    match read_head(seen, room) {
        Head::Whole(spans) => judge_body(bytes, seen, spans, room),
        Head::Bad => Held::Refused(Refusal::BadHead),
        Head::Unfinished if bytes.len() < HEAD_BYTES => Held::Unfinished,
        Head::Unfinished => Held::Refused(Refusal::HeadTooLarge),
    }
}

/// The same where the head is whole in the first bytes, `seen`.
fn judge_body(bytes: &[u8], seen: &[u8], spans: RequestSpans, room: &[HeaderSpan]) -> Held
    requires prefix { (more : List ℕ) × (bytes.now ≡ seen.now ++ more) }
    requires few { length seen.now ≤ head_bytes }
    requires whole { IsRequestOf seen.now room.now spans }
    requires within { IsRequestWithin seen.now room.now spans }
    ensures { HeldIs bytes.now result }
{
    let fields = &room[..spans.headers];
    let close = closes_behind(spans.version, seen, fields);
    match body_length_of(seen, spans.method.of(seen), fields) {
        Err(refusal) => Held::Refused(refusal),
        Ok(body_length) if bytes.len() - spans.len < body_length => Held::Unfinished,
        Ok(body_length) => Held::Whole(Whole {
            spans,
            body_length,
            close,
        }),
    }
}
