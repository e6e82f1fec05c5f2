//! Programs as texts, as `(vars a) (expr (= a #0)) (code _ (return))`. A function is `#` with the number of its code.
use crate::expressions;
use crate::statements::statements;
use crate::words::{close, function, name, open, word};
use js_tree::{Expr, FnCode, Program, Stmt};
use page_units::Text;
use sqlite_items::Items;
use std::alloc::{AllocError, Global};

/// An expression.
pub(crate) fn expression(alloc: Global, value: &Expr) -> Result<String, AllocError> {
    let mut out = String::new(alloc);
    expressions::expression(&mut out, value)?;
    Ok(out)
}

/// A program: its body and its codes.
pub(crate) fn program(alloc: Global, program: &Program) -> Result<String, AllocError> {
    let mut out = String::new(alloc);
    body(&mut out, &program.vars, &program.funs, &program.body)?;
    codes(&mut out, &program.codes)?;
    Ok(out)
}

/// What a body has: its lists as far as they hold anything, and its statements.
fn body(
    out: &mut String,
    vars: &Items<Text>,
    funs: &Items<u32>,
    items: &Items<Stmt>,
) -> Result<(), AllocError> {
    names(out, "vars", vars)?;
    functions(out, funs)?;
    statements(out, items)
}

/// Names, where there are any.
fn names(out: &mut String, head: &str, items: &Items<Text>) -> Result<(), AllocError> {
    if items.is_empty() {
        return Ok(());
    }
    open(out, head)?;
    for item in items.as_slice() {
        name(out, item)?;
    }
    close(out)
}

/// Functions, where there are any.
fn functions(out: &mut String, items: &Items<u32>) -> Result<(), AllocError> {
    if items.is_empty() {
        return Ok(());
    }
    open(out, "funs")?;
    for item in items.as_slice() {
        function(out, *item)?;
    }
    close(out)
}

fn codes(out: &mut String, items: &Items<FnCode>) -> Result<(), AllocError> {
    for item in items.as_slice() {
        code(out, item)?;
    }
    Ok(())
}

/// A code: its name or `_`, its parameters if there are any, and its body.
fn code(out: &mut String, code: &FnCode) -> Result<(), AllocError> {
    code_head(out, &code.name)?;
    names(out, "params", &code.params)?;
    body(out, &code.vars, &code.funs, &code.body)?;
    close(out)
}

fn code_head(out: &mut String, value: &Option<Text>) -> Result<(), AllocError> {
    open(out, "code")?;
    match value {
        Some(value) => name(out, value),
        None => word(out, "_"),
    }
}
