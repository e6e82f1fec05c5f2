//! Which expressions are names, and which may be assigned.
use js_tree::{Expr, UnOp};
use page_units::Text;
use sqlite_items::Boxed;
use std::alloc::{AllocError, Global};

/// What the expression is that is named.
pub(crate) fn shape(alloc: Global, named: &str) -> Result<String, AllocError> {
    match named {
        "a" => told(alloc, &name(alloc)?),
        "a.b" => told(alloc, &member(alloc)?),
        "a.b[0]" => told(alloc, &index(alloc)?),
        "-a.b[0]" => told(alloc, &minus(alloc)?),
        _ => String::from_str(alloc, "no such expression"),
    }
}

fn told(alloc: Global, expression: &Expr) -> Result<String, AllocError> {
    let is_name = expression.is_name();
    let is_target = expression.is_target();
    format!(in alloc; "name {is_name}, target {is_target}")
}

/// The text of one letter.
fn letter(alloc: Global, unit: u16) -> Result<Text, AllocError> {
    Text::of_units(vec![in alloc; unit]?)
}

fn name(alloc: Global) -> Result<Expr, AllocError> {
    Ok(Expr::Name(letter(alloc, 0x61)?))
}

fn member(alloc: Global) -> Result<Expr, AllocError> {
    let object = Boxed::new(alloc, name(alloc)?)?;
    Ok(Expr::Member(object, letter(alloc, 0x62)?))
}

fn index(alloc: Global) -> Result<Expr, AllocError> {
    let object = Boxed::new(alloc, member(alloc)?)?;
    let key = Boxed::new(alloc, Expr::Num(0))?;
    Ok(Expr::Index(object, key))
}

fn minus(alloc: Global) -> Result<Expr, AllocError> {
    let operand = Boxed::new(alloc, index(alloc)?)?;
    Ok(Expr::Unary(UnOp::Minus, operand))
}
