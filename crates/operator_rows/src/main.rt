//! Operands with what the operators and conversions of `js_ops` give of them, worked out by hand: the rows of
//! `data/rows.json`.
#![tactic(auto)]

mod answers;
mod operators;
mod values;

use crate::answers::{of_one, of_two, of_value, steps_of_two};
use crate::values::value_of;
use row_files::{Answers, run};
use std::alloc::{AllocError, Global};

struct OperatorRows;

impl Answers for OperatorRows {
    fn answer(&self, alloc: Global, group: &str, fields: &[String]) -> Result<String, AllocError> {
        match fields {
            [a] => of_value(alloc, group, &value_of(alloc, a.as_str())?),
            [op, a] => of_one(alloc, op.as_str(), a.as_str()),
            [a, op, b] => of_two(alloc, a.as_str(), op.as_str(), b.as_str()),
            [a, op, b, bound] => steps_of_two(
                alloc,
                a.as_str(),
                op.as_str(),
                b.as_str(),
                bound.as_str(),
            ),
            _ => String::from_str(alloc, "no row of operands"),
        }
    }
}

fn main(rt: HostRuntime) -> anyhow::Result<()> {
    run(rt, &OperatorRows)
}
