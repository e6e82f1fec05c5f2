//! Statements as texts, as `(expr (+ a b))`.
use crate::expressions::expression;
use crate::words::{close, name, open, open_name, word};
use js_tree::{Case, Decl, Expr, Handler, Stmt};
use page_units::Text;
use sqlite_items::{Boxed, Items};
use std::alloc::AllocError;

/// Statements, each behind the one before.
#[cycle(statement)]
pub(crate) fn statements(out: &mut String, items: &Items<Stmt>) -> Result<(), AllocError> {
    for item in items.as_slice() {
        statement(out, item)?;
    }
    Ok(())
}

#[cycle(statement)]
fn statement(out: &mut String, value: &Stmt) -> Result<(), AllocError> {
    front(out, value)?;
    bodies(out, value)?;
    close(out)
}

/// What a statement opens with, and what stands before the statements in it.
fn front(out: &mut String, value: &Stmt) -> Result<(), AllocError> {
    open(out, head(value))?;
    match value {
        Stmt::Var(items) => variables(out, items),
        Stmt::Expr(a)
        | Stmt::If(a, _, _)
        | Stmt::While(a, _)
        | Stmt::Return(Some(a))
        | Stmt::Throw(a)
        | Stmt::Switch(a, _) => expression(out, a),
        Stmt::ForIn(key, a, _) => keys(out, key, a),
        _ => Ok(()),
    }
}

fn head(value: &Stmt) -> &'static str {
    match value {
        Stmt::Block(_) => "block",
        Stmt::Var(_) => "var",
        Stmt::Empty => "empty",
        Stmt::Expr(_) => "expr",
        Stmt::If(_, _, _) => "if",
        Stmt::DoWhile(_, _) => "do",
        Stmt::While(_, _) => "while",
        Stmt::For(_, _, _, _) => "for",
        Stmt::ForIn(_, _, _) => "each",
        Stmt::Continue => "continue",
        Stmt::Break => "break",
        Stmt::Return(_) => "return",
        Stmt::Throw(_) => "throw",
        Stmt::Switch(_, _) => "switch",
        Stmt::Try(_, _, _) => "try",
    }
}

fn variables(out: &mut String, items: &Items<Decl>) -> Result<(), AllocError> {
    for item in items.as_slice() {
        variable(out, item)?;
    }
    Ok(())
}

/// A variable of a `var`: without a value its name alone.
fn variable(out: &mut String, item: &Decl) -> Result<(), AllocError> {
    match &item.value {
        None => name(out, &item.name),
        Some(value) => set_variable(out, &item.name, value),
    }
}

fn set_variable(out: &mut String, name: &Text, value: &Expr) -> Result<(), AllocError> {
    open_name(out, name)?;
    expression(out, value)?;
    close(out)
}

fn keys(out: &mut String, key: &Text, value: &Expr) -> Result<(), AllocError> {
    name(out, key)?;
    expression(out, value)
}

/// The statements in a statement, with what stands between and behind them.
#[cycle(statement)]
fn bodies(out: &mut String, value: &Stmt) -> Result<(), AllocError> {
    match value {
        Stmt::Block(items) => statements(out, items),
        Stmt::While(_, a) | Stmt::ForIn(_, _, a) => statement(out, a.get()),
        Stmt::DoWhile(a, b) => {
            statement(out, a.get())?;
            expression(out, b)
        }
        Stmt::Switch(_, items) => cases(out, items),
        _ => more_bodies(out, value),
    }
}

#[cycle(statement)]
fn more_bodies(out: &mut String, value: &Stmt) -> Result<(), AllocError> {
    match value {
        Stmt::If(_, a, b) => {
            statement(out, a.get())?;
            maybe(out, b, "")
        }
        Stmt::For(a, b, c, d) => {
            maybe(out, a, " _")?;
            steps(out, b, c)?;
            statement(out, d.get())
        }
        _ => attempt(out, value),
    }
}

/// The blocks of a `try`.
#[cycle(statement)]
fn attempt(out: &mut String, value: &Stmt) -> Result<(), AllocError> {
    match value {
        Stmt::Try(a, b, None) => {
            block(out, "block", a)?;
            caught(out, b)
        }
        Stmt::Try(a, b, Some(c)) => {
            block(out, "block", a)?;
            caught(out, b)?;
            block(out, "finally", c)
        }
        _ => Ok(()),
    }
}

/// A statement, or this text where there is none: nothing, or a word behind its space.
#[cycle(statement)]
fn maybe(out: &mut String, value: &Option<Boxed<Stmt>>, none: &str) -> Result<(), AllocError> {
    match value {
        Some(value) => statement(out, value.get()),
        None => out.push_str(none),
    }
}

/// The second and the third part of a `for`.
fn steps(out: &mut String, a: &Option<Expr>, b: &Option<Expr>) -> Result<(), AllocError> {
    step(out, a)?;
    step(out, b)
}

fn step(out: &mut String, value: &Option<Expr>) -> Result<(), AllocError> {
    match value {
        Some(value) => expression(out, value),
        None => word(out, "_"),
    }
}

#[cycle(statement)]
fn cases(out: &mut String, items: &Items<Case>) -> Result<(), AllocError> {
    for item in items.as_slice() {
        case(out, item)?;
    }
    Ok(())
}

#[cycle(statement)]
fn case(out: &mut String, item: &Case) -> Result<(), AllocError> {
    case_head(out, &item.test)?;
    statements(out, &item.body)?;
    close(out)
}

fn case_head(out: &mut String, test: &Option<Expr>) -> Result<(), AllocError> {
    match test {
        None => open(out, "default"),
        Some(test) => {
            open(out, "case")?;
            expression(out, test)
        }
    }
}

#[cycle(statement)]
fn block(out: &mut String, head: &str, items: &Items<Stmt>) -> Result<(), AllocError> {
    open(out, head)?;
    statements(out, items)?;
    close(out)
}

#[cycle(statement)]
fn caught(out: &mut String, handler: &Option<Handler>) -> Result<(), AllocError> {
    match handler {
        Some(handler) => {
            catch_head(out, handler)?;
            statements(out, &handler.body)?;
            close(out)
        }
        None => Ok(()),
    }
}

fn catch_head(out: &mut String, handler: &Handler) -> Result<(), AllocError> {
    open(out, "catch")?;
    name(out, &handler.name)
}
