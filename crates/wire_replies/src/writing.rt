//! Replies into a sink.
ghost use Rattle.std.specs.Prelude.{◌≡◌, ◌++◌, ℕ, [], true, take, IfOk, string_bytes, unwrap_or};
ghost use Rattle.http.specs.StatusCode.{reason_phrase};
ghost use Rattle.byte_ports.specs.Streams.{after, Rose, OnAll, OnCutOff, OnNotCutOff};
ghost use Rattle.wire_replies.specs.ReplyBytes.{IsReply, is_reply_code, reply_bytes, allow_line, close_line, media_type};

use crate::reply::Reply;
use http::StatusCode;
use page_units::fault::NoMemory;
use page_units::{Sink, Wrote, write_all};
use std::alloc::Global;
use wire_asks::Asks;

/// Writes a reply (RFC 9112, 4): All, or Failed after a fault of the sink. `close` says that the
/// connection closes behind it. After Failed, and where memory is refused, a front of it went.
pub fn write_reply<W: Sink>(
    alloc: Global,
    sink: &mut W,
    reply: &Reply,
    close: bool,
) -> Result<Wrote, NoMemory>
    requires { IsReply reply.now }
    ensures all { OnAll result
        (W.told sink.new ≡ after (W.told sink.old) (reply_bytes reply.now close)) }
    ensures front { (count : ℕ)
        × (W.told sink.new ≡ after (W.told sink.old) (take count (reply_bytes reply.now close))) }
    ensures rose { OnCutOff result (Rose (W.faults sink.old) (W.faults sink.new)) }
    ensures count { OnNotCutOff result (W.faults sink.new ≡ W.faults sink.old) }
{
    let head = head_of(alloc, reply, close)?;
    match write_all(sink, head.as_bytes())? {
        Wrote::All => write_all(sink, reply.body.as_slice()),
        Wrote::Failed => Ok(Wrote::Failed),
    }
}

/// All that stands before the body.
fn head_of(alloc: Global, reply: &Reply, close: bool) -> Result<String, NoMemory>
    requires { is_reply_code reply.now.status ≡ true }
    ensures { IfOk result
        (λ head. string_bytes head ++ reply.now.body.items ≡ reply_bytes reply.now close) }
{
    let status = reply.status;
    let phrase = phrase_of(status);
    let allow = allow_line(reply.allow);
    let kind = media_type(reply.html);
    let count = reply.body.len();
    let close = close_line(close);
    format!(in alloc;
        "HTTP/1.1 {status} {phrase}\r\n{allow}Content-Type: {kind}\r\nContent-Length: {count}\r\n{close}\r\n"
    )
}

/// The phrase of a reply's code.
fn phrase_of(status: u16) -> &'static str
    requires { is_reply_code status ≡ true }
    ensures { result.now ≡ unwrap_or (reason_phrase status) [] }
{
    match StatusCode::from_u16(status) {
        Ok(code) => code.canonical_reason().unwrap_or(""),
        Err(_) => "",
    }
}

/// The field Allow, where there is one.
fn allow_line(allow: Option<Asks>) -> &'static str
    ensures { result.now ≡ allow_line allow }
{
    match allow {
        None => "",
        Some(Asks::Get) => "Allow: GET\r\n",
        Some(Asks::Post) => "Allow: POST\r\n",
    }
}

/// The value of Content-Type: that of tree text, or that of JSON.
fn media_type(html: bool) -> &'static str
    ensures { result.now ≡ media_type html }
{
    if html {
        "text/html; charset=utf-8"
    } else {
        "application/json"
    }
}

/// The field Connection, where the connection closes.
fn close_line(close: bool) -> &'static str
    ensures { result.now ≡ close_line close }
{
    if close { "Connection: close\r\n" } else { "" }
}
