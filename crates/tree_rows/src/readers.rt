//! What kinds and answers say of themselves, and clones of what lists hold.
use crate::fields::text_of;
use cell_heap::Base;
use cell_places::{Answer, CellKind, Cells, Guess, Listener, PAGE, Timer};
use page_units::{CellName, NoMemory, Shared, Value};
use row_files::field;
use std::alloc::{AllocError, Global};

/// The classes of a kind of this name, and the name of an element.
pub fn classes(alloc: Global, fields: &[String]) -> Result<String, AllocError> {
    let kind = kind_of(alloc, field(fields, 0))?;
    let mut answer = String::new(alloc);
    push_if(&mut answer, kind.is_scope(), "scope ")?;
    push_if(&mut answer, kind.is_page(), "page ")?;
    push_if(&mut answer, kind.is_list(), "list ")?;
    push_if(&mut answer, kind.is_event(), "event ")?;
    push_if(&mut answer, kind.is_document(), "document ")?;
    push_if(&mut answer, kind.is_element(), "element ")?;
    push_if(&mut answer, kind.is_chars(), "text ")?;
    push_if(&mut answer, kind.is_function(), "function ")?;
    push_if(&mut answer, kind.is_object(), "object ")?;
    push_if(&mut answer, kind.is_child(), "child ")?;
    push_if(&mut answer, kind.is_parent(), "parent ")?;
    push_if(&mut answer, kind.is_node(), "node ")?;
    push_if(&mut answer, kind.element_name().is_some(), "named")?;
    Ok(answer)
}

fn push_if(answer: &mut String, yes: bool, word: &str) -> Result<(), AllocError> {
    if yes {
        answer.push_str(word)?;
    }
    Ok(())
}

fn kind_of(alloc: Global, name: &str) -> Result<CellKind, NoMemory> {
    match name {
        "a scope" => Ok(CellKind::Scope(None)),
        "a list" => Ok(CellKind::List),
        "a function" => Ok(CellKind::Fun(0, CellName(0))),
        "a built-in function" => Ok(CellKind::Native(7)),
        "the page" => Ok(CellKind::Page),
        "the document" => Ok(CellKind::Document),
        "an element" => Ok(CellKind::Element(text_of(alloc, "p")?)),
        "a text node" => Ok(CellKind::Chars),
        "an event" => Ok(CellKind::Event),
        _ => Ok(CellKind::Plain),
    }
}

/// What the readers find in an answer: its names, cells, units, listeners, timers and guesses, by
/// their count, its number, its next serial number, its cell, and whether it is absent or the text
/// `ab`.
pub fn held(alloc: Global, fields: &[String]) -> Result<String, AllocError> {
    let answer = answer_of(alloc, field(fields, 0))?;
    let lists = counts(alloc, &answer)?;
    let number = answer.number();
    let next = answer.next_serial();
    let cell = answer.cell().map_or(-1, |cell| i64::from(cell.0));
    let is_text = answer.is_text(&text_of(alloc, "ab")?);
    let is_absent = answer.is_absent();
    format!(in alloc; "{lists}, {number} {next} {cell} {is_text} {is_absent}")
}

fn counts(alloc: Global, answer: &Answer) -> Result<String, AllocError> {
    let names = answer.names().len();
    let cells = answer.cells().len();
    let units = answer.text_units().len();
    let listeners = answer.listeners().len();
    let timers = answer.timers().len();
    let guesses = answer.guesses().len();
    format!(in alloc; "{names} {cells} {units} {listeners} {timers} {guesses}")
}

fn answer_of(alloc: Global, name: &str) -> Result<Answer, NoMemory> {
    match name {
        "the number 7" => Ok(Answer::One(Value::Num(7))),
        "the cell 9" => Ok(Answer::One(Value::Cell(CellName(9)))),
        "the text ab" => Ok(Answer::One(Value::Str(text_of(alloc, "ab")?))),
        "the text abc" => Ok(Answer::One(Value::Str(text_of(alloc, "abc")?))),
        "two names" => names(alloc),
        "two cells" => Ok(Answer::Cells(Shared::of_vec(vec![in alloc;
            CellName(2),
            CellName(9),
        ]?)?)),
        "a listener, the next is 3" => listeners(alloc),
        "a timer" => Ok(Answer::Timers(Shared::of_vec(vec![in alloc; timer()]?)?)),
        "a guess" => Ok(Answer::Guesses(Shared::of_vec(vec![in alloc; guess(alloc)?]?)?)),
        _ => Ok(Answer::Absent),
    }
}

fn names(alloc: Global) -> Result<Answer, NoMemory> {
    let list = vec![in alloc; text_of(alloc, "a")?, text_of(alloc, "b")?]?;
    Ok(Answer::Names(Shared::of_vec(list)?))
}

fn listeners(alloc: Global) -> Result<Answer, NoMemory> {
    let list = vec![in alloc; listener(alloc)?]?;
    Ok(Answer::Heard(3, Shared::of_vec(list)?))
}

fn listener(alloc: Global) -> Result<Listener, NoMemory> {
    Ok(Listener {
        serial: 2,
        type_text: text_of(alloc, "click")?,
        callback: CellName(130),
        capture: true,
        once: false,
    })
}

fn timer() -> Timer {
    Timer {
        id: 5,
        due: 250,
        callback: CellName(131),
    }
}

fn guess(alloc: Global) -> Result<Guess, NoMemory> {
    Ok(Guess {
        id: 6,
        target: text_of(alloc, "field")?,
        type_text: text_of(alloc, "input")?,
        value: Some(text_of(alloc, "new")?),
        mutator: Some(CellName(132)),
        sketch: None,
    })
}

/// The parts of a clone of what the field names.
pub fn list_clone(alloc: Global, fields: &[String]) -> Result<String, AllocError> {
    match field(fields, 0) {
        "a listener" => listener_clone(alloc),
        "a timer" => timer_clone(alloc),
        "a guess" => guess_clone(alloc),
        _ => String::from_str(alloc, "no such case"),
    }
}

fn listener_clone(alloc: Global) -> Result<String, AllocError> {
    let clone = listener(alloc)?.clone()?;
    let serial = clone.serial;
    let units = clone.type_text.len();
    let callback = clone.callback.0;
    let (capture, once) = (clone.capture, clone.once);
    format!(in alloc; "{serial} {units} {callback} {capture} {once}")
}

fn timer_clone(alloc: Global) -> Result<String, AllocError> {
    let clone = timer().clone()?;
    let (id, due) = (clone.id, clone.due);
    let callback = clone.callback.0;
    format!(in alloc; "{id} {due} {callback}")
}

fn guess_clone(alloc: Global) -> Result<String, AllocError> {
    let clone = guess(alloc)?.clone()?;
    let id = clone.id;
    let target = clone.target.len();
    let units = clone.type_text.len();
    let value = clone.value.map_or(-1, |text| text.len() as i64);
    let mutator = clone.mutator.map_or(-1, |cell| i64::from(cell.0));
    let sketch = clone.sketch.map_or(-1, |cell| i64::from(cell.0));
    format!(in alloc; "{id} {target} {units} {value} {mutator} {sketch}")
}

/// The change number of the page in a heap that counts no puts.
pub fn change_number(alloc: Global, _fields: &[String]) -> Result<String, AllocError> {
    let base = Base::start(alloc, 1000, 0)?;
    let number = base.number(PAGE);
    String::from_str(alloc, if number.is_some() { "some" } else { "none" })
}
