//! A reply.
ghost use Rattle.std.specs.Prelude.{◌≡◌, ◌↔◌, IsTrue, true, false};
ghost use Rattle.wire_replies.specs.ReplyBytes.{IsReply, is_reply_code};

use wire_asks::Asks;

/// A reply to a request.
#[derive(Drop)]
pub struct Reply {
    /// The status code: 200, 400, 404, 405, 411, 413, 431, 500 or 501.
    pub status: u16,
    /// Whether the body is tree text; else it is JSON.
    pub html: bool,
    /// The method that the route takes, with 405 alone.
    pub allow: Option<Asks>,
    /// The body's bytes.
    pub body: Vec<u8>,
}

impl Reply {
    /// Whether it can be written: its code is one of those above, and it names an allowed method
    /// exactly with 405.
    pub fn is_reply(&self) -> bool
        ensures { IsTrue result ↔ IsReply self.now }
    {
        has_reply_code(self.status) && self.allow.is_some() == (self.status == 405)
    }
}

/// Whether replies have this code.
fn has_reply_code(status: u16) -> bool
    ensures { result ≡ is_reply_code status }
{
    matches!(status, 200 | 400 | 404 | 405 | 411 | 413 | 431 | 500 | 501)
}

/// The reply 200 with a tree text, in UTF-8.
pub fn tree_reply(body: Vec<u8>) -> Reply
    ensures value { result ≡ record { status = 200; html = true; allow = None; body = body } }
    ensures valid { IsReply result }
{
    Reply {
        status: 200,
        html: true,
        allow: None,
        body,
    }
}

/// The reply 200 with a JSON text.
pub fn json_reply(body: Vec<u8>) -> Reply
    ensures value { result ≡ record { status = 200; html = false; allow = None; body = body } }
    ensures valid { IsReply result }
{
    Reply {
        status: 200,
        html: false,
        allow: None,
        body,
    }
}
