//! The head of a request: whole, hopeless or unfinished.
ghost use Rattle.std.specs.Prelude.{◌≡◌, ◌≤◌, length};
ghost use Rattle.http_wire.specs.Bounds.{head_bytes, field_room};
ghost use Rattle.http_wire.specs.Held.{HeadIs};

use httparse::Status;
use httparse::spans::{HeaderSpan, RequestSpans, parse_request};

/// What bytes show of a head.
#[derive(Clone, Copy)]
pub enum Head {
    /// A head stands at the start, with its parts at these places.
    Whole(RequestSpans),
    /// No bytes that follow make a head.
    Bad,
    /// No head stands at the start yet, and one may come.
    Unfinished,
}

/// Reads a head, and writes the places of its fields to the start of the room.
pub fn read_head(bytes: &[u8], room: &mut [HeaderSpan]) -> Head
    requires fits { length bytes.now ≤ head_bytes }
    requires room { field_room ≤ length room.old }
    ensures { HeadIs bytes.now room.new result }
{
    match parse_request(bytes, room) {
        Ok(Status::Complete(spans)) => Head::Whole(spans),
        Ok(Status::Partial) => Head::Unfinished,
        Err(httparse::Error::TooManyHeaders) => unreachable!(),
        Err(_) => Head::Bad,
    }
}
