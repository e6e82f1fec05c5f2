//! Rows of cases that were worked out by hand, in a file `rows.json` beside a program that runs them: a list of
//! groups, each a list of the group's name and its rows, each row a list of fields. A field is a text, or a list of
//! texts and numbers that is one text: a number, at least 1, stands for the text before it, so many times in all.
#![tactic(auto)]

mod fields;
mod pieces;

pub use fields::{bytes_of, field, kind_of, number};
pub use pieces::pieces_of;
use serde_json::Value;
use std::alloc::{AllocError, Global};
use std::fs;

/// What works out the answer of a row: its last field, where all is well.
pub trait Answers {
    /// The answer to the fields before the last, in the group of this name. An Err is out of memory.
    fn answer(&self, alloc: Global, group: &str, fields: &[String]) -> Result<String, AllocError>;
}

/// Works out each row of `rows.json`, and prints the rows whose answer is another, and the number of rows of each group.
/// What is no list counts as an empty one, so a file of another shape prints fewer groups. An Err is a file that can't be
/// read or is no JSON, a failed print, or out of memory.
pub fn run(rt: HostRuntime, answers: &impl Answers) -> anyhow::Result<()> {
    let text = fs::read_to_string(&rt, "rows.json")?;
    let file = Value::from_str(rt.alloc(), text.as_str())?;
    for group in list_of(&file) {
        run_group(rt, answers, list_of(group))?;
    }
    Ok(())
}

/// The items of a list; none of what is no list.
fn list_of(value: &Value) -> &[Value] {
    match value.as_array() {
        Some(items) => items.as_slice(),
        None => &[],
    }
}

fn run_group(rt: HostRuntime, answers: &impl Answers, group: &[Value]) -> anyhow::Result<()> {
    let Some((name, rows)) = group.split_first() else {
        return Ok(());
    };
    let name = name.as_str().unwrap_or("?");
    for row in rows {
        let fields = fields_of(rt.alloc(), list_of(row))?;
        run_row(rt, answers, name, fields.as_slice())?;
    }
    println!(rt; "{name}: {}", rows.len())?;
    Ok(())
}

fn run_row(
    rt: HostRuntime,
    answers: &impl Answers,
    group: &str,
    row: &[String],
) -> anyhow::Result<()> {
    let Some((wanted, fields)) = row.split_last() else {
        return Ok(());
    };
    let answer = answers.answer(rt.alloc(), group, fields)?;
    if answer.as_str() != wanted.as_str() {
        print_fields(rt, fields)?;
        println!(rt; "  is {answer}, and not {wanted}")?;
    }
    Ok(())
}

fn print_fields(rt: HostRuntime, fields: &[String]) -> anyhow::Result<()> {
    for field in fields {
        println!(rt; "{field}")?;
    }
    Ok(())
}

fn fields_of(alloc: Global, row: &[Value]) -> Result<Vec<String>, AllocError> {
    let mut fields = Vec::new(alloc);
    for value in row {
        fields.push(field_of(alloc, value)?)?;
    }
    Ok(fields)
}

fn field_of(alloc: Global, value: &Value) -> Result<String, AllocError> {
    if let Some(text) = value.as_str() {
        return String::from_str(alloc, text);
    }
    let mut field = String::new(alloc);
    let mut last = "";
    for part in list_of(value) {
        if let Some(text) = part.as_str() {
            last = text;
            field.push_str(text)?;
        }
        push_times(&mut field, last, part.as_u64().unwrap_or(1))?;
    }
    Ok(field)
}

/// The text so many times, less the one time that it stands there already.
fn push_times(field: &mut String, text: &str, times: u64) -> Result<(), AllocError> {
    for _ in 1..times {
        field.push_str(text)?;
    }
    Ok(())
}
