//! Expressions as texts, as `(+ a b)`.
use crate::operators::{assignment_sign, binary_sign, step_sign, unary_sign};
use crate::words::{close, function, name, number, open, open_name, quoted, word};
use js_tree::{Entry, Expr};
use sqlite_items::Items;
use std::alloc::AllocError;

/// An expression.
#[cycle(expression)]
pub(crate) fn expression(out: &mut String, value: &Expr) -> Result<(), AllocError> {
    match head(value) {
        Some(head) => node(out, head, value),
        None => leaf(out, value),
    }
}

/// What a node opens with; None where there is no bracket.
fn head(value: &Expr) -> Option<&'static str> {
    match value {
        Expr::Array(_) => Some("list"),
        Expr::Table(_) => Some("table"),
        Expr::Member(_, _) => Some("."),
        Expr::Index(_, _) => Some("at"),
        Expr::Call(_, _) => Some("call"),
        Expr::New(_, _) => Some("new"),
        Expr::Unary(op, _) => Some(unary_sign(*op)),
        Expr::Step(op, before, _) => Some(step_sign(*op, *before)),
        Expr::Binary(op, _, _) => Some(binary_sign(*op)),
        Expr::And(_, _) => Some("&&"),
        Expr::Or(_, _) => Some("||"),
        Expr::Cond(_, _, _) => Some("?"),
        Expr::Assign(_, _) => Some("="),
        Expr::AssignOp(op, _, _) => Some(assignment_sign(*op)),
        Expr::Comma(_, _) => Some(","),
        _ => None,
    }
}

/// What stands in no bracket.
fn leaf(out: &mut String, value: &Expr) -> Result<(), AllocError> {
    match value {
        Expr::This => word(out, "this"),
        Expr::Name(value) => name(out, value),
        Expr::Num(value) => number(out, *value),
        Expr::Str(value) => quoted(out, value),
        Expr::Bool(true) => word(out, "true"),
        Expr::Bool(false) => word(out, "false"),
        Expr::Null => word(out, "null"),
        Expr::Fun(code) => function(out, *code),
        _ => Ok(()),
    }
}

#[cycle(expression)]
fn node(out: &mut String, head: &str, value: &Expr) -> Result<(), AllocError> {
    open(out, head)?;
    operands(out, value)?;
    close(out)
}

#[cycle(expression)]
fn operands(out: &mut String, value: &Expr) -> Result<(), AllocError> {
    match value {
        Expr::Array(items) => expressions(out, items),
        Expr::Table(items) => entries(out, items),
        Expr::Unary(_, a) | Expr::Step(_, _, a) => expression(out, a.get()),
        Expr::Cond(a, b, c) => {
            expression(out, a.get())?;
            expression(out, b.get())?;
            expression(out, c.get())
        }
        _ => two_operands(out, value),
    }
}

#[cycle(expression)]
fn two_operands(out: &mut String, value: &Expr) -> Result<(), AllocError> {
    match value {
        Expr::Member(a, property) => {
            expression(out, a.get())?;
            name(out, property)
        }
        Expr::Call(a, items) | Expr::New(a, items) => {
            expression(out, a.get())?;
            expressions(out, items)
        }
        Expr::Index(a, b)
        | Expr::Binary(_, a, b)
        | Expr::And(a, b)
        | Expr::Or(a, b)
        | Expr::Assign(a, b)
        | Expr::AssignOp(_, a, b)
        | Expr::Comma(a, b) => {
            expression(out, a.get())?;
            expression(out, b.get())
        }
        _ => Ok(()),
    }
}

#[cycle(expression)]
fn expressions(out: &mut String, items: &Items<Expr>) -> Result<(), AllocError> {
    for item in items.as_slice() {
        expression(out, item)?;
    }
    Ok(())
}

#[cycle(expression)]
fn entries(out: &mut String, items: &Items<Entry>) -> Result<(), AllocError> {
    for item in items.as_slice() {
        entry(out, item)?;
    }
    Ok(())
}

#[cycle(expression)]
fn entry(out: &mut String, item: &Entry) -> Result<(), AllocError> {
    open_name(out, &item.key)?;
    expression(out, &item.value)?;
    close(out)
}
