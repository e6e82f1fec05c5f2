//! Sources of scripts with the tokens that `js_lexer` gives of them or the faults that they show, worked out by hand:
//! the rows of `data/rows.json`.
#![tactic(auto)]

mod shown;

use crate::shown::{Aspect, push_shown};
use js_lexer::{Token, lex};
use row_files::{Answers, run};
use std::alloc::{AllocError, Global};

/// The most bytes of a source that `lex` takes.
const MOST_BYTES: usize = 1_048_576;

struct TokenRows;

impl Answers for TokenRows {
    fn answer(&self, alloc: Global, group: &str, fields: &[String]) -> Result<String, AllocError> {
        match fields {
            [source] => tokens_of(alloc, Aspect::of_group(group), source.as_str()),
            _ => String::from_str(alloc, "no row of a source"),
        }
    }
}

fn tokens_of(alloc: Global, aspect: Aspect, source: &str) -> Result<String, AllocError> {
    if source.len() > MOST_BYTES {
        return String::from_str(alloc, "too many bytes");
    }
    match lex(alloc, source) {
        Ok(tokens) => joined(alloc, aspect, tokens.as_slice()),
        Err(fault) => format!(in alloc; "{fault:?}"),
    }
}

/// What is shown of each token, with commas between.
fn joined(alloc: Global, aspect: Aspect, tokens: &[Token]) -> Result<String, AllocError> {
    let Some((first, rest)) = tokens.split_first() else {
        return String::from_str(alloc, "no token");
    };
    let mut answer = String::new(alloc);
    push_shown(&mut answer, aspect, first)?;
    for token in rest {
        answer.push_str(", ")?;
        push_shown(&mut answer, aspect, token)?;
    }
    Ok(answer)
}

fn main(rt: HostRuntime) -> anyhow::Result<()> {
    run(rt, &TokenRows)
}
