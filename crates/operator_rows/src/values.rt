//! Values as the rows write them: `undefined`, `null`, `true`, `false`, a number, a text in quotation marks, and
//! `cell 3`.
use page_units::{CellName, Text, Value};
use std::alloc::{AllocError, Global};

/// The value that a field writes. A field that writes none is undefined.
pub fn value_of(alloc: Global, field: &str) -> Result<Value, AllocError> {
    match quoted(field) {
        Some(text) => Ok(Value::Str(units_of(alloc, text)?)),
        None => Ok(value_of_word(field)),
    }
}

fn quoted(field: &str) -> Option<&str> {
    field.strip_prefix('"')?.strip_suffix('"')
}

fn units_of(alloc: Global, text: &str) -> Result<Text, AllocError> {
    Text::of_units(text.encode_utf16().collect(alloc)?)
}

fn value_of_word(word: &str) -> Value {
    if let Ok(number) = word.parse::<i64>() {
        return Value::Num(number);
    }
    if let Ok(truth) = word.parse::<bool>() {
        return Value::Bool(truth);
    }
    if word == "null" {
        return Value::Null;
    }
    cell_of(word).unwrap_or(Value::Undefined)
}

fn cell_of(word: &str) -> Option<Value> {
    let number = word.strip_prefix("cell ")?.parse::<u32>().ok()?;
    Some(Value::Cell(CellName(number)))
}

/// How a row writes the value.
pub fn written(alloc: Global, value: &Value) -> Result<String, AllocError> {
    match value {
        Value::Undefined => String::from_str(alloc, "undefined"),
        Value::Null => String::from_str(alloc, "null"),
        Value::Bool(truth) => truth.to_string(alloc),
        Value::Num(number) => number.to_string(alloc),
        Value::Str(text) => in_quotes(alloc, text),
        Value::Cell(name) => cell_word(alloc, *name),
    }
}

/// The text in quotation marks; a surrogate that stands alone is U+FFFD.
pub fn in_quotes(alloc: Global, text: &Text) -> Result<String, AllocError> {
    let text = String::from_utf16_lossy(alloc, text.units())?;
    format!(in alloc; "\"{text}\"")
}

fn cell_word(alloc: Global, name: CellName) -> Result<String, AllocError> {
    format!(in alloc; "cell {}", name.0)
}
