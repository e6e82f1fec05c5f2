//! Limits and the meter.
use crate::told::{push_count, push_word};
use page_units::{Limit, Limits, Meter};
use row_files::{field, number};
use std::alloc::{AllocError, Global};

/// Whether the default limits take another number for one of them.
pub fn limit(alloc: Global, fields: &[String]) -> Result<String, AllocError> {
    let number = number(fields, 1);
    match limit_of(field(fields, 0)) {
        Some(limit) => String::from_str(alloc, taken(Limits::default(), limit, number)),
        None => String::from_str(alloc, "no such limit"),
    }
}

fn limit_of(name: &str) -> Option<Limit> {
    match name {
        "Weight" => Some(Limit::Weight),
        "Depth" => Some(Limit::Depth),
        "Text" => Some(Limit::Text),
        "SpecSteps" => Some(Limit::SpecSteps),
        "TaskSteps" => Some(Limit::TaskSteps),
        "Served" => Some(Limit::Served),
        _ => None,
    }
}

/// Taken: the limit has the number, and with its old number the limits are the old ones.
fn taken(limits: Limits, limit: Limit, number: u64) -> &'static str {
    match limits.with(limit, number) {
        Some(changed) => {
            if changed.number(limit) != number {
                "not changed"
            } else if changed.with(limit, limits.number(limit)) != Some(limits) {
                "others changed"
            } else {
                "taken"
            }
        }
        None => "refused",
    }
}

/// What a new meter tells at these acts.
pub fn meter(alloc: Global, acts: &[String]) -> Result<String, AllocError> {
    let mut meter = Meter::new();
    let mut told = String::new(alloc);
    for act in acts {
        push_act(&mut told, &mut meter, act.as_str())?;
    }
    Ok(told)
}

fn push_act(told: &mut String, meter: &mut Meter, act: &str) -> Result<(), AllocError> {
    match act.split_once(' ') {
        Some((word, count)) => push_steps(told, meter, word, count.parse::<u64>().unwrap_or(0)),
        None => push_counts(told, meter, act),
    }
}

/// A step that is counted is told by `yes`, any other by `no`.
fn push_steps(
    told: &mut String,
    meter: &mut Meter,
    word: &str,
    count: u64,
) -> Result<(), AllocError> {
    match word {
        "begin" => meter.begin(count),
        "whole" => meter.whole(count),
        "tick" => return push_word(told, if meter.tick(count) { "yes" } else { "no" }),
        _ => return push_word(told, "?"),
    }
    Ok(())
}

fn push_counts(told: &mut String, meter: &mut Meter, word: &str) -> Result<(), AllocError> {
    match word {
        "end_whole" => {
            meter.end_whole();
            Ok(())
        }
        "counts" => {
            push_count(told, meter.used())?;
            push_count(told, meter.total())
        }
        _ => push_word(told, "?"),
    }
}
