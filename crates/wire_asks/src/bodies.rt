//! The bodies of `/event` and `/tick`, read from their JSON text (RFC 8259).
ghost use Rattle.std.specs.Prelude.{◌≡◌, IfOk, map, option_map, option_and_then, pos};
ghost use Rattle.std.specs.List.{list_any};
ghost use Rattle.std.specs.Str.{bytes_eq};
ghost use Rattle.serde_json.specs.Find.{as_object};
ghost use Rattle.serde_json.specs.View.{view, members_view};
ghost use Rattle.page_units.specs.Coding.{units_of_utf8};
ghost use Rattle.wire_asks.specs.Bodies.{
  json_of,
  keys_are_among,
  tick_in,
  tick_of as tick_in_body,
  units_in,
  value_in,
  event_in,
  event_of as event_in_body,
};

use page_units::{NoMemory, PageEvent, Text};
use serde_json::error::Category;
use serde_json::{Map, Value};
use std::alloc::{AllocError, Global};

/// The longest tick, in milliseconds: a day.
const DAY: u64 = 86_400_000;

/// The milliseconds of a body of `/tick`; None where it isn't an object with `ms` alone, a number
/// without point and exponent from 1 to 86,400,000.
pub fn tick_of(alloc: Global, body: &[u8]) -> Result<Option<i64>, NoMemory>
    ensures { IfOk result (λ ms. ms ≡ option_map pos (tick_in_body body.now)) }
{
    match read_json(alloc, body)? {
        Some(value) => Ok(ms_in(&value).map(|ms| ms as i64)),
        None => Ok(None),
    }
}

fn ms_in(value: &Value) -> Option<u64>
    ensures { result ≡ option_and_then tick_in (as_object (view value.now)) }
{
    if !has_only(value.as_object()?, &["ms"]) {
        return None;
    }
    match value.get("ms")?.as_u64()? {
        ms @ 1..=DAY => Some(ms),
        _ => None,
    }
}

/// The event of a body of `/event`; None where it isn't an object with the texts `target` and
/// `type`, which isn't empty, and optionally `value`, a text or null, and no other key.
pub fn event_of(alloc: Global, body: &[u8]) -> Result<Option<PageEvent>, NoMemory>
    ensures { IfOk result (λ event. event ≡ event_in_body body.now) }
{
    match read_json(alloc, body)? {
        Some(value) => event_in_value(alloc, &value),
        None => Ok(None),
    }
}

fn event_in_value(alloc: Global, value: &Value) -> Result<Option<PageEvent>, NoMemory>
    ensures { IfOk result (λ event. event ≡ option_and_then event_in (as_object (view value.now))) }
{
    let Some(members) = value.as_object() else {
        return Ok(None);
    };
    if !has_only(members, &["target", "type", "value"]) {
        return Ok(None);
    }
    let Some(target) = text_in(alloc, value.get("target"))? else {
        return Ok(None);
    };
    let Some(type_text) = text_in(alloc, value.get("type"))? else {
        return Ok(None);
    };
    if type_text.is_empty() {
        return Ok(None);
    }
    let Some(value) = optional_text_in(alloc, value.get("value"))? else {
        return Ok(None);
    };
    Ok(Some(PageEvent {
        target,
        type_text,
        value,
    }))
}

/// The text that stands there; None where there is none.
fn text_in(alloc: Global, value: Option<&Value>) -> Result<Option<Text>, NoMemory>
    ensures { IfOk result (λ text. text ≡ option_and_then units_in (option_map (λ v. view v.now) value.entry)) }
{
    match value {
        Some(Value::String(text)) => Ok(Some(Text::of_str(alloc, text.as_str())?)),
        _ => Ok(None),
    }
}

/// The text that stands there, or none where nothing or null does; None where something else does.
fn optional_text_in(alloc: Global, value: Option<&Value>) -> Result<Option<Option<Text>>, NoMemory>
    ensures { IfOk result (λ text. text ≡ value_in (option_map (λ v. view v.now) value.entry)) }
{
    match value {
        None | Some(Value::Null) => Ok(Some(None)),
        Some(Value::String(text)) => Ok(Some(Some(Text::of_str(alloc, text.as_str())?))),
        Some(_) => Ok(None),
    }
}

/// What is read from the bytes; None where they aren't UTF-8 or no JSON text.
fn read_json(alloc: Global, bytes: &[u8]) -> Result<Option<Value>, NoMemory>
    ensures { IfOk result (λ value. option_map view value ≡ json_of bytes.now) }
{
    match Value::from_slice(alloc, bytes) {
        Ok(value) => Ok(Some(value)),
        Err(error) => match error.classify() {
            Category::Memory => Err(AllocError),
            _ => Ok(None),
        },
    }
}

/// Whether each key is one of these.
fn has_only(members: &Map<String, Value>, keys: &[&str]) -> bool
    ensures { result ≡ keys_are_among (map (λ key. key.now) keys.now) (members_view members.now.entries) }
{
    members.keys().all(|key| is_among(key.as_str(), keys))
}

fn is_among(key: &str, keys: &[&str]) -> bool
    ensures { result ≡ list_any (λ known. bytes_eq key.now known) (map (λ known. known.now) keys.now) }
{
    keys.contains(&key)
}
