//! The cells of the heap that a page starts with, and all that stands at their slots.
ghost use Rattle.std.specs.Prelude.{◌≡◌, OnOk};
ghost use Rattle.cell_places.specs.Slots as slots;
ghost use Rattle.cell_heap.specs.Base.{heap_of};

use crate::fields::text_of;
use cell_heap::Base;
use cell_places::{Answer, CellKind, Cells, FaultName, Place, Slot};
use page_units::{CellName, NoMemory, Text, Value};
use row_files::field;
use std::alloc::{AllocError, Global};

/// Each name that a property or a binding of the start has, in the order of their letters.
const NAMES: &str =
    "Array Boolean Error JSON Math Number Object RangeError ReferenceError String SyntaxError \
    TypeError abs addEventListener appendChild apply call charAt charCodeAt clearTimeout \
    clock concat console constructor create createElement createTextNode crom document every \
    filter floor forEach forget fromCharCode get getAttribute getElementById getPrototypeOf \
    guess hasAttribute hasOwnProperty indexOf insertBefore isArray isPrototypeOf join keys \
    lastIndexOf log map max message min name net parse parseInt pop post pow preventDefault \
    prototype push reduce removeAttribute removeChild removeEventListener replace reverse \
    setAttribute setTimeout shift slice some splice split stopImmediatePropagation \
    stopPropagation stringify substring toLowerCase toString toUpperCase trim undefined \
    unshift valueOf";

/// Names of ECMA-262 5.1, of WHATWG DOM and of HTML at which nothing stands.
const OTHER_NAMES: &str =
    "Date EvalError Function Infinity NaN PI RegExp URIError bind callee caller className \
    data defineProperty documentElement eval exec firstChild global id isFinite isNaN \
    lastChild length localeCompare match nextSibling nodeType now parentNode parseFloat \
    previousSibling propertyIsEnumerable random reduceRight round search self sort sqrt \
    tagName textContent toFixed toLocaleString type value window";

/// A cell of the start: its kind, and each of its slots at which something stands, the properties
/// and bindings in the order of their names.
pub fn cell(alloc: Global, fields: &[String]) -> Result<String, AllocError> {
    let mut base = Base::start(alloc, 1000, 1234)?;
    let cell = CellName(field(fields, 0).parse::<u32>().unwrap_or(u32::MAX));
    if cell.0 >= base.count() {
        return String::from_str(alloc, "no cell");
    }
    let mut out = kind_spelled(alloc, base.kind_of(cell))?;
    push_links(&mut out, &mut base, cell)?;
    push_page(&mut out, &mut base, cell)?;
    push_names(&mut out, &mut base, alloc, cell, NAMES)?;
    push_names(&mut out, &mut base, alloc, cell, OTHER_NAMES)?;
    Ok(out)
}

/// Appends what stands at the slots of a cell that bear one of these names.
fn push_names(
    out: &mut String,
    base: &mut Base,
    alloc: Global,
    cell: CellName,
    names: &str,
) -> Result<(), AllocError> {
    for name in names.split(" ") {
        push_slot(out, base, cell, Slot::Own(text_of(alloc, name)?), name)?;
        push_slot(out, base, cell, Slot::Bind(text_of(alloc, name)?), name)?;
        push_slot(out, base, cell, Slot::Attr(text_of(alloc, name)?), name)?;
    }
    Ok(())
}

/// Appends what stands at the slots of objects, lists, nodes and events that bear no name.
fn push_links(out: &mut String, base: &mut Base, cell: CellName) -> Result<(), AllocError> {
    push_slot(out, base, cell, Slot::Proto, "Proto")?;
    push_slot(out, base, cell, Slot::Keys, "Keys")?;
    push_slot(out, base, cell, Slot::Length, "Length")?;
    push_slot(out, base, cell, Slot::Parent, "Parent")?;
    push_slot(out, base, cell, Slot::Children, "Children")?;
    push_slot(out, base, cell, Slot::AttrNames, "AttrNames")?;
    push_slot(out, base, cell, Slot::Chars, "Chars")?;
    push_slot(out, base, cell, Slot::Heard, "Heard")?;
    push_slot(out, base, cell, Slot::Flags, "Flags")
}

/// Appends what stands at the slots of the page.
fn push_page(out: &mut String, base: &mut Base, cell: CellName) -> Result<(), AllocError> {
    push_slot(out, base, cell, Slot::Clock, "Clock")?;
    push_slot(out, base, cell, Slot::NextTimer, "NextTimer")?;
    push_slot(out, base, cell, Slot::Timers, "Timers")?;
    push_slot(out, base, cell, Slot::NextGuess, "NextGuess")?;
    push_slot(out, base, cell, Slot::Guesses, "Guesses")
}

/// Appends what stands at a slot of a cell, unless the cell hasn't the slot or nothing stands there.
fn push_slot(
    out: &mut String,
    base: &mut Base,
    cell: CellName,
    slot: Slot,
    label: &str,
) -> Result<(), AllocError> {
    match ask(base, cell, slot)? {
        Answer::Absent => Ok(()),
        Answer::One(value) => push_value(out, label, &value),
        _ => write!(out, ", {label} a list"),
    }
}

/// What stands at a slot of a cell; nothing, where the cell isn't there or hasn't the slot.
fn ask(base: &mut Base, cell: CellName, slot: Slot) -> Result<Answer, NoMemory> {
    if cell.0 >= base.count() || !has_slot(base.kind_of(cell), &slot) {
        return Ok(Answer::Absent);
    }
    base.ask(&Place { cell, slot })
}

/// Whether a cell of this kind has the slot.
fn has_slot(kind: &CellKind, slot: &Slot) -> bool
    ensures { result ≡ slots.has_slot kind.now slot.now }
{
    match slot {
        Slot::Own(_) | Slot::Keys | Slot::Proto => kind.is_object(),
        Slot::Length => kind.is_list(),
        Slot::Bind(_) => kind.is_scope(),
        Slot::Parent => kind.is_node(),
        Slot::Children | Slot::Heard => kind.is_parent(),
        Slot::Attr(_) | Slot::AttrNames => kind.is_element(),
        Slot::Chars => kind.is_chars(),
        Slot::Flags => kind.is_event(),
        Slot::Clock | Slot::NextTimer | Slot::Timers | Slot::NextGuess | Slot::Guesses => {
            kind.is_page()
        }
    }
}

fn push_value(out: &mut String, label: &str, value: &Value) -> Result<(), AllocError> {
    match value {
        Value::Undefined => write!(out, ", {label} undefined"),
        Value::Null => write!(out, ", {label} null"),
        Value::Bool(truth) => write!(out, ", {label} {truth}"),
        Value::Num(number) => write!(out, ", {label} the number {number}"),
        Value::Cell(cell) => {
            let number = cell.0;
            write!(out, ", {label} {number}")
        }
        Value::Str(text) => {
            write!(out, ", {label} the text ")?;
            push_text(out, text)
        }
    }
}

fn push_text(out: &mut String, text: &Text) -> Result<(), AllocError> {
    out.push('"')?;
    for unit in text.units() {
        out.push(char::from_u32(u32::from(*unit)).unwrap_or('?'))?;
    }
    out.push('"')
}

fn kind_spelled(alloc: Global, kind: &CellKind) -> Result<String, AllocError> {
    match kind {
        CellKind::Scope(None) => String::from_str(alloc, "the outermost scope"),
        CellKind::Plain => String::from_str(alloc, "plain"),
        CellKind::List => String::from_str(alloc, "list"),
        CellKind::Fault(name) => format!(in alloc; "fault {}", fault_spelled(*name)),
        CellKind::Native(which) => format!(in alloc; "built-in {which}"),
        CellKind::Page => String::from_str(alloc, "page"),
        CellKind::Document => String::from_str(alloc, "document"),
        _ => String::from_str(alloc, "another"),
    }
}

fn fault_spelled(name: FaultName) -> &'static str {
    match name {
        FaultName::Error => "Error",
        FaultName::TypeError => "TypeError",
        FaultName::RangeError => "RangeError",
        FaultName::ReferenceError => "ReferenceError",
        FaultName::SyntaxError => "SyntaxError",
        FaultName::HierarchyRequestError => "HierarchyRequestError",
        FaultName::NotFoundError => "NotFoundError",
    }
}
