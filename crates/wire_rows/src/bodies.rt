//! Bodies, each as it is written. A list of texts is a field in which each text is its units in hexadecimal, and a `;`.
use crate::texts::text_of;
use page_units::Text;
use page_units::fault::Stopped;
use row_files::{field, number};
use std::alloc::{AllocError, Global};
use wire_replies::{Outcome, Stats, event_body, load_body, stats_body, tick_body};

/// The body of an event: its ends, how many handled it, its lines, its outcome, and whether it was prevented.
pub fn told_event(alloc: Global, fields: &[String]) -> Result<String, AllocError> {
    let ends = texts_of(alloc, field(fields, 0))?;
    let lines = texts_of(alloc, field(fields, 2))?;
    event_of(alloc, fields, ends.as_slice(), lines.as_slice())
}

fn event_of(
    alloc: Global,
    fields: &[String],
    ends: &[Text],
    lines: &[Text],
) -> Result<String, AllocError> {
    let handled = count_of(fields, 1);
    let outcome = outcome_of(field(fields, 3));
    let prevented = field(fields, 4) == "true";
    let body = event_body(alloc, ends, handled, lines, outcome, prevented)?;
    text_of(alloc, body.as_slice())
}

/// The body of a tick: its ends, how many timers fired, its lines and its outcome.
pub fn told_tick(alloc: Global, fields: &[String]) -> Result<String, AllocError> {
    let ends = texts_of(alloc, field(fields, 0))?;
    let lines = texts_of(alloc, field(fields, 2))?;
    tick_of(alloc, fields, ends.as_slice(), lines.as_slice())
}

fn tick_of(
    alloc: Global,
    fields: &[String],
    ends: &[Text],
    lines: &[Text],
) -> Result<String, AllocError> {
    let fired = count_of(fields, 1);
    let outcome = outcome_of(field(fields, 3));
    let body = tick_body(alloc, ends, fired, lines, outcome)?;
    text_of(alloc, body.as_slice())
}

/// The body of a load: its ends, its lines and its outcome.
pub fn told_load(alloc: Global, fields: &[String]) -> Result<String, AllocError> {
    let ends = texts_of(alloc, field(fields, 0))?;
    let lines = texts_of(alloc, field(fields, 1))?;
    let outcome = outcome_of(field(fields, 2));
    let body = load_body(alloc, ends.as_slice(), lines.as_slice(), outcome)?;
    text_of(alloc, body.as_slice())
}

/// The body of the counts, in the order of their names.
pub fn told_counts(alloc: Global, fields: &[String]) -> Result<String, AllocError> {
    let stats = Stats {
        afresh: number(fields, 0),
        committed: number(fields, 1),
        contexts: number(fields, 2),
        dropped: number(fields, 3),
        failed: number(fields, 4),
        made: number(fields, 5),
    };
    let body = stats_body(alloc, &stats)?;
    text_of(alloc, body.as_slice())
}

fn count_of(fields: &[String], index: usize) -> u32 {
    field(fields, index).parse::<u32>().unwrap_or(0)
}

fn outcome_of(name: &str) -> Outcome {
    match name {
        "bound steps" => Outcome::Bound(Stopped::Steps),
        "bound weight" => Outcome::Bound(Stopped::Weight),
        "bound depth" => Outcome::Bound(Stopped::Depth),
        "bound requests" => Outcome::Bound(Stopped::Requests),
        "bound timers" => Outcome::Bound(Stopped::Timers),
        _ => Outcome::Ok,
    }
}

fn texts_of(alloc: Global, field: &str) -> Result<Vec<Text>, AllocError> {
    let mut texts = Vec::new(alloc);
    for part in field.split_terminator(';') {
        texts.push(text_of_units(alloc, part)?)?;
    }
    Ok(texts)
}

fn text_of_units(alloc: Global, part: &str) -> Result<Text, AllocError> {
    let mut units = Vec::new(alloc);
    for digits in part.split_whitespace() {
        units.push(u16::from_str_radix(digits, 16).unwrap_or(0))?;
    }
    Text::of_units(units)
}
