//! The bodies of replies.
ghost use Rattle.std.specs.Prelude.{◌≡◌, IfOk, codes};
ghost use Rattle.serde_json.specs.Data.{string};
ghost use Rattle.serde_json.specs.View.{view};
ghost use Rattle.serde_json.specs.Written.{compact_text};
ghost use Rattle.page_units.specs.Coding.{utf8_of_units};
ghost use Rattle.wire_replies.specs.Bodies.{texts, outcome_name, bound_name, said, event_data, tick_data, load_data, stats_data};

use page_units::fault::{NoMemory, Stopped};
use page_units::text::Text;
use serde_json::{Map, Value};
use std::alloc::Global;

/// How a command ended.
#[derive(Clone, Copy, Debug, PartialEq, Eq)]
pub enum Outcome {
    /// It came to its end.
    Ok,
    /// It stopped at this bound.
    Bound(Stopped),
}

impl Outcome {
    /// Its name in a body: `ok`, or `bound` and the bound's name.
    fn name(self) -> &'static str
        ensures { result.now ≡ outcome_name self }
    {
        match self {
            Outcome::Ok => "ok",
            Outcome::Bound(Stopped::Steps) => "bound steps",
            Outcome::Bound(Stopped::Weight) => "bound weight",
            Outcome::Bound(Stopped::Depth) => "bound depth",
            Outcome::Bound(Stopped::Requests) => "bound requests",
            Outcome::Bound(Stopped::Timers) => "bound timers",
        }
    }
}

/// The host's counts.
#[derive(Clone, Copy, Debug, PartialEq, Eq)]
pub struct Stats {
    /// Events that were run afresh.
    pub afresh: u64,
    /// Events whose prepared result was taken.
    pub committed: u64,
    /// Prepared results that stand.
    pub contexts: u64,
    /// Prepared results that were dropped.
    pub dropped: u64,
    /// Speculations that failed.
    pub failed: u64,
    /// Prepared results that were made.
    pub made: u64,
}

/// The body of the reply to an event: how its calls ended (`return` or `throw`, and what), how many
/// calls of listeners ended, the lines that were written, how the command ended, and whether the
/// event was canceled. Each lone surrogate of a text is written as U+FFFD.
pub fn event_body(
    alloc: Global,
    ends: &[Text],
    handled: u32,
    lines: &[Text],
    outcome: Outcome,
    prevented: bool,
) -> Result<Vec<u8>, NoMemory>
    ensures { IfOk result (λ b. b.items
        ≡ compact_text (event_data ends.now handled lines.now outcome prevented)) }
{
    event_value(alloc, ends, handled, lines, outcome, prevented)?.to_vec(alloc)
}

/// The body of the reply to a tick: how its calls ended, how many timers fired, the lines that were
/// written, and how the command ended. Each lone surrogate of a text is written as U+FFFD.
pub fn tick_body(
    alloc: Global,
    ends: &[Text],
    fired: u32,
    lines: &[Text],
    outcome: Outcome,
) -> Result<Vec<u8>, NoMemory>
    ensures { IfOk result
        (λ b. b.items ≡ compact_text (tick_data ends.now fired lines.now outcome)) }
{
    tick_value(alloc, ends, fired, lines, outcome)?.to_vec(alloc)
}

/// The body of the reply that tells what loading the page gave: how its scripts ended, the lines
/// that were written, and how the loading ended. Each lone surrogate of a text is written as U+FFFD.
pub fn load_body(
    alloc: Global,
    ends: &[Text],
    lines: &[Text],
    outcome: Outcome,
) -> Result<Vec<u8>, NoMemory>
    ensures { IfOk result (λ b. b.items ≡ compact_text (load_data ends.now lines.now outcome)) }
{
    load_value(alloc, ends, lines, outcome)?.to_vec(alloc)
}

/// The body of the reply that tells the counts.
pub fn stats_body(alloc: Global, stats: &Stats) -> Result<Vec<u8>, NoMemory>
    ensures { IfOk result (λ b. b.items ≡ compact_text (stats_data stats.now)) }
{
    stats_value(alloc, stats)?.to_vec(alloc)
}

/// A body with one text under one key.
pub(crate) fn said_body(alloc: Global, key: &str, text: &str) -> Result<Vec<u8>, NoMemory>
    ensures { IfOk result (λ b. b.items ≡ compact_text (said key.now text.now)) }
{
    said_value(alloc, key, text)?.to_vec(alloc)
}

fn event_value(
    alloc: Global,
    ends: &[Text],
    handled: u32,
    lines: &[Text],
    outcome: Outcome,
    prevented: bool,
) -> Result<Value, NoMemory>
    ensures { IfOk result
        (λ v. view v ≡ event_data ends.now handled lines.now outcome prevented) }
{
    let ends = texts_value(alloc, ends)?;
    let lines = texts_value(alloc, lines)?;
    let outcome = Value::String(String::from_str(alloc, outcome.name())?);
    let mut map = Map::new(alloc);
    serde_json::put(&mut map, alloc, "ends", ends)?;
    serde_json::put(&mut map, alloc, "handled", Value::from(handled))?;
    serde_json::put(&mut map, alloc, "lines", lines)?;
    serde_json::put(&mut map, alloc, "outcome", outcome)?;
    serde_json::put(&mut map, alloc, "prevented", Value::Bool(prevented))?;
    Ok(Value::Object(map))
}

fn tick_value(
    alloc: Global,
    ends: &[Text],
    fired: u32,
    lines: &[Text],
    outcome: Outcome,
) -> Result<Value, NoMemory>
    ensures { IfOk result (λ v. view v ≡ tick_data ends.now fired lines.now outcome) }
{
    let ends = texts_value(alloc, ends)?;
    let lines = texts_value(alloc, lines)?;
    let outcome = Value::String(String::from_str(alloc, outcome.name())?);
    let mut map = Map::new(alloc);
    serde_json::put(&mut map, alloc, "ends", ends)?;
    serde_json::put(&mut map, alloc, "fired", Value::from(fired))?;
    serde_json::put(&mut map, alloc, "lines", lines)?;
    serde_json::put(&mut map, alloc, "outcome", outcome)?;
    Ok(Value::Object(map))
}

fn load_value(
    alloc: Global,
    ends: &[Text],
    lines: &[Text],
    outcome: Outcome,
) -> Result<Value, NoMemory>
    ensures { IfOk result (λ v. view v ≡ load_data ends.now lines.now outcome) }
{
    let ends = texts_value(alloc, ends)?;
    let lines = texts_value(alloc, lines)?;
    let outcome = Value::String(String::from_str(alloc, outcome.name())?);
    let mut map = Map::new(alloc);
    serde_json::put(&mut map, alloc, "ends", ends)?;
    serde_json::put(&mut map, alloc, "lines", lines)?;
    serde_json::put(&mut map, alloc, "outcome", outcome)?;
    Ok(Value::Object(map))
}

fn stats_value(alloc: Global, stats: &Stats) -> Result<Value, NoMemory>
    ensures { IfOk result (λ v. view v ≡ stats_data stats.now) }
{
    let mut map = Map::new(alloc);
    serde_json::put(&mut map, alloc, "afresh", Value::from(stats.afresh))?;
    serde_json::put(&mut map, alloc, "committed", Value::from(stats.committed))?;
    serde_json::put(&mut map, alloc, "contexts", Value::from(stats.contexts))?;
    serde_json::put(&mut map, alloc, "dropped", Value::from(stats.dropped))?;
    serde_json::put(&mut map, alloc, "failed", Value::from(stats.failed))?;
    serde_json::put(&mut map, alloc, "made", Value::from(stats.made))?;
    Ok(Value::Object(map))
}

fn said_value(alloc: Global, key: &str, text: &str) -> Result<Value, NoMemory>
    ensures { IfOk result (λ v. view v ≡ said key.now text.now) }
{
    let text = Value::String(String::from_str(alloc, text)?);
    let mut map = Map::new(alloc);
    serde_json::put(&mut map, alloc, key, text)?;
    Ok(Value::Object(map))
}

/// Texts as a list.
fn texts_value(alloc: Global, lines: &[Text]) -> Result<Value, NoMemory>
    ensures { IfOk result (λ v. view v ≡ texts lines.now) }
{
    let mut items = Vec::new(alloc);
    for line in lines {
        items.push(text_value(alloc, line)?)?;
    }
    Ok(Value::Array(items))
}

/// A text, with U+FFFD for each lone surrogate.
fn text_value(alloc: Global, text: &Text) -> Result<Value, NoMemory>
    ensures { IfOk result (λ v. view v ≡ string (utf8_of_units text.now)) }
{
    let text = String::from_utf16_lossy(alloc, text.units())?;
    Ok(Value::String(text))
}
