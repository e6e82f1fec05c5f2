//! Replies with their bytes.
use crate::texts::text_of;
use crate::told::name_of;
use page_units::{SureSink, Wrote};
use row_files::field;
use std::alloc::{AllocError, Global};
use wire_asks::{Asks, Refusal, ends_connection};
use wire_replies::{
    Outcome, Reply, event_body, halted_reply, json_reply, long_text_reply, refusal_reply,
    tree_reply, write_reply,
};

/// The bytes of the reply of a kind and with a text, `close` or `keep`.
pub fn told_reply(alloc: Global, fields: &[String]) -> Result<String, AllocError> {
    let reply = reply_of(alloc, field(fields, 0), field(fields, 1))?;
    written(alloc, &reply, field(fields, 2) == "close")
}

/// A tree with this text; what an event gave of which nothing but one handler is told; a halt; a long text; or the
/// refusal of this name.
fn reply_of(alloc: Global, kind: &str, text: &str) -> Result<Reply, AllocError> {
    match kind {
        "tree" => tree_of(alloc, text),
        "event" => event_of(alloc),
        "halted" => halted_reply(alloc),
        "long text" => long_text_reply(alloc),
        _ => refusal_reply(alloc, refusal_of(text)),
    }
}

fn tree_of(alloc: Global, text: &str) -> Result<Reply, AllocError> {
    Ok(tree_reply(Vec::from_slice(alloc, text.as_bytes())?))
}

fn event_of(alloc: Global) -> Result<Reply, AllocError> {
    let body = event_body(alloc, &[], 1, &[], Outcome::Ok, false)?;
    Ok(json_reply(body))
}

fn written(alloc: Global, reply: &Reply, close: bool) -> Result<String, AllocError> {
    if !reply.is_reply() {
        return String::from_str(alloc, "no reply");
    }
    let mut sink = SureSink::new(Vec::new(alloc));
    match write_reply(alloc, &mut sink, reply, close)? {
        Wrote::All => text_of(alloc, sink.bytes()),
        Wrote::Failed => String::from_str(alloc, "failed"),
    }
}

const REFUSALS: [Refusal; 11] = [
    Refusal::BadHead,
    Refusal::HeadTooLarge,
    Refusal::LeftOut,
    Refusal::BadLength,
    Refusal::TooLarge,
    Refusal::NoLength,
    Refusal::NoRoute,
    Refusal::BadMethod(Asks::Get),
    Refusal::BadMethod(Asks::Post),
    Refusal::BadBody,
    Refusal::NoTarget,
];

/// The refusal of this name.
fn refusal_of(name: &str) -> Refusal {
    for refusal in REFUSALS {
        if name_of(refusal) == name {
            return refusal;
        }
    }
    Refusal::BadHead
}

/// What the refusal of a name says: its name, its code, the method that is allowed, and whether the
/// connection ends after it.
pub fn told_refusal(alloc: Global, fields: &[String]) -> Result<String, AllocError> {
    let refusal = refusal_of(field(fields, 0));
    let name = refusal.name();
    let code = refusal.code();
    let method = match refusal.allowed() {
        Some(asks) => asks.name(),
        None => "no method",
    };
    let ends = if ends_connection(&Err(refusal)) {
        "ends"
    } else {
        "goes on"
    };
    format!(in alloc; "{name} {code}, {method}, {ends}")
}

/// Whether a reply of this code and allowed method can be written.
pub fn told_code(alloc: Global, fields: &[String]) -> Result<String, AllocError> {
    let reply = Reply {
        status: field(fields, 0).parse::<u16>().unwrap_or(1),
        html: false,
        allow: allowed(field(fields, 1)),
        body: Vec::new(alloc),
    };
    let told = if reply.is_reply() {
        "a reply"
    } else {
        "no reply"
    };
    String::from_str(alloc, told)
}

fn allowed(name: &str) -> Option<Asks> {
    match name {
        "get" => Some(Asks::Get),
        "post" => Some(Asks::Post),
        _ => None,
    }
}
