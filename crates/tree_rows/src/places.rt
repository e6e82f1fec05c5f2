//! Places, and clones of what stands there.
use crate::fields::text_of;
use cell_places::{Answer, CellKind, Place, Slot};
use page_units::{CellName, NoMemory, Shared, Value};
use row_files::field;
use std::alloc::{AllocError, Global};

/// How two places compare, each of which is given by its cell, its slot and the slot's text.
pub fn order(alloc: Global, fields: &[String]) -> Result<String, AllocError> {
    let one = place_of(alloc, field(fields, 0), field(fields, 1), field(fields, 2))?;
    let other = place_of(alloc, field(fields, 3), field(fields, 4), field(fields, 5))?;
    String::from_str(alloc, compared(&one, &other))
}

/// How a place compares with its clone.
pub fn compared_clone(alloc: Global, fields: &[String]) -> Result<String, AllocError> {
    let place = place_of(alloc, field(fields, 0), field(fields, 1), field(fields, 2))?;
    let clone = place.clone()?;
    String::from_str(alloc, compared(&place, &clone))
}

fn place_of(alloc: Global, cell: &str, slot: &str, text: &str) -> Result<Place, NoMemory> {
    let cell = CellName(cell.parse::<u32>().unwrap_or(0));
    let slot = slot_of(alloc, slot, text)?;
    Ok(Place { cell, slot })
}

fn slot_of(alloc: Global, slot: &str, text: &str) -> Result<Slot, NoMemory> {
    let text = text_of(alloc, text)?;
    match slot {
        "Own" => Ok(Slot::Own(text)),
        "Bind" => Ok(Slot::Bind(text)),
        "Attr" => Ok(Slot::Attr(text)),
        "Keys" => Ok(Slot::Keys),
        "Guesses" => Ok(Slot::Guesses),
        _ => Ok(Slot::Proto),
    }
}

fn compared(one: &Place, other: &Place) -> &'static str {
    if one == other {
        "equal"
    } else if one < other {
        "less"
    } else {
        "greater"
    }
}

/// The clone of what the field names.
pub fn other_clone(alloc: Global, fields: &[String]) -> Result<String, AllocError> {
    match field(fields, 0) {
        "a function of code 3 in scope 4" => function_clone(alloc),
        "the number 7" => number_clone(alloc),
        "the cells 2 and 9" => cells_clone(alloc),
        _ => String::from_str(alloc, "no such case"),
    }
}

fn function_clone(alloc: Global) -> Result<String, AllocError> {
    match CellKind::Fun(3, CellName(4)).clone()? {
        CellKind::Fun(code, CellName(scope)) => format!(in alloc; "code {code}, scope {scope}"),
        _ => String::from_str(alloc, "another kind"),
    }
}

fn number_clone(alloc: Global) -> Result<String, AllocError> {
    match Answer::One(Value::Num(7)).clone()? {
        Answer::One(Value::Num(number)) => format!(in alloc; "{number}"),
        _ => String::from_str(alloc, "another answer"),
    }
}

fn cells_clone(alloc: Global) -> Result<String, AllocError> {
    let cells = Shared::of_vec(vec![in alloc; CellName(2), CellName(9)]?)?;
    match Answer::Cells(cells).clone()? {
        Answer::Cells(same) => cells_told(alloc, same.as_slice()),
        _ => String::from_str(alloc, "another answer"),
    }
}

fn cells_told(alloc: Global, cells: &[CellName]) -> Result<String, AllocError> {
    let mut told = String::from_str(alloc, "cells")?;
    for cell in cells {
        let number = cell.0;
        write!(told, " {number}")?;
    }
    Ok(told)
}
