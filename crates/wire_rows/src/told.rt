//! What a request asks, or why it is refused.
use page_units::{PageEvent, Text};
use row_files::{bytes_of, field};
use std::alloc::{AllocError, Global};
use wire_asks::{Asked, Asks, Refusal, Routes};

/// What the routes tell of a method, a target and a body.
pub fn told_request(alloc: Global, fields: &[String]) -> Result<String, AllocError> {
    let target = bytes_of(alloc, fields, 1)?;
    let body = bytes_of(alloc, fields, 2)?;
    let method = field(fields, 0).as_bytes();
    judged(alloc, method, target.as_slice(), body.as_slice())
}

fn judged(alloc: Global, method: &[u8], target: &[u8], body: &[u8]) -> Result<String, AllocError> {
    let routes = Routes::new(alloc)?;
    told(alloc, &routes.asked(alloc, method, target, body)?)
}

/// What is asked, or the refusal's name.
pub fn told(alloc: Global, asked: &Result<Asked, Refusal>) -> Result<String, AllocError> {
    match asked {
        Ok(asked) => told_asked(alloc, asked),
        Err(refusal) => String::from_str(alloc, name_of(*refusal)),
    }
}

/// `dom`, `node [ID]`, `event [TARGET] [TYPE] [VALUE]`, `event [TARGET] [TYPE] none`, `tick MS` ..
fn told_asked(alloc: Global, asked: &Asked) -> Result<String, AllocError> {
    match asked {
        Asked::Dom => String::from_str(alloc, "dom"),
        Asked::Load => String::from_str(alloc, "load"),
        Asked::Node(id) => told_node(alloc, id),
        Asked::Stats => String::from_str(alloc, "stats"),
        Asked::Event(event) => told_event(alloc, event),
        Asked::Tick(ms) => format!(in alloc; "tick {ms}"),
        Asked::Halt => String::from_str(alloc, "halt"),
    }
}

fn told_node(alloc: Global, id: &Text) -> Result<String, AllocError> {
    let mut text = String::from_str(alloc, "node ")?;
    push_text(&mut text, id)?;
    Ok(text)
}

fn told_event(alloc: Global, event: &PageEvent) -> Result<String, AllocError> {
    let mut text = String::from_str(alloc, "event ")?;
    push_text(&mut text, &event.target)?;
    text.push_str(" ")?;
    push_text(&mut text, &event.type_text)?;
    text.push_str(" ")?;
    match &event.value {
        Some(value) => push_text(&mut text, value)?,
        None => text.push_str("none")?,
    }
    Ok(text)
}

/// Writes a text in brackets.
fn push_text(text: &mut String, part: &Text) -> Result<(), AllocError> {
    let part = String::from_utf16_lossy(*text.allocator(), part.units())?;
    write!(text, "[{part}]")
}

/// The name of a refusal, with the method that the route takes.
pub fn name_of(refusal: Refusal) -> &'static str {
    match refusal {
        Refusal::BadHead => "BadHead",
        Refusal::HeadTooLarge => "HeadTooLarge",
        Refusal::LeftOut => "LeftOut",
        Refusal::BadLength => "BadLength",
        Refusal::TooLarge => "TooLarge",
        Refusal::NoLength => "NoLength",
        Refusal::NoRoute => "NoRoute",
        Refusal::BadMethod(Asks::Get) => "BadMethod get",
        Refusal::BadMethod(Asks::Post) => "BadMethod post",
        Refusal::BadBody => "BadBody",
        Refusal::NoTarget => "NoTarget",
    }
}
