//! The heap that a page starts with, at a limit of 1,000.
ghost use Rattle.std.specs.Prelude.{◌≡◌, ◌<◌, true, OnOk};
ghost use Rattle.cell_places.specs.declared.kind.CellKind.TheVariants.{Page};
ghost use Rattle.cell_places.specs.Slots.{has_slot};
ghost use Rattle.cell_places.specs.Start.{start_kinds};
ghost use Rattle.cell_heap.specs.Base.{heap_of};

use crate::fields::text_of;
use cell_heap::Base;
use cell_places::{Answer, CellFault, CellKind, Cells, DOCUMENT, PAGE, Place, Slot};
use page_units::{CellName, NoMemory, Value};
use row_files::field;
use std::alloc::{AllocError, Global};

/// A number of the heap at its start: that of the cell at the document's own property of this name, where it is no
/// other.
pub fn started(alloc: Global, fields: &[String]) -> Result<String, AllocError> {
    let mut base = Base::start(alloc, 1000, 1234)?;
    match field(fields, 0) {
        "count" => base.count().to_string(alloc),
        "spent" => base.spent().to_string(alloc),
        "limit" => base.limit().to_string(alloc),
        "clock" => page_number(&mut base, Slot::Clock)?.to_string(alloc),
        "next timer" => page_number(&mut base, Slot::NextTimer)?.to_string(alloc),
        "timers" => page_number(&mut base, Slot::Timers)?.to_string(alloc),
        name => own_cell(&mut base, alloc, name)?.to_string(alloc),
    }
}

/// The number at the page's slot; -1 is none.
fn page_number(base: &mut Base, slot: Slot) -> Result<i64, NoMemory>
    requires kinds { (heap_of base.old).kinds ≡ start_kinds }
    requires slot { has_slot Page slot ≡ true }
    ensures { OnOk result (heap_of base.new ≡ heap_of base.old) }
{
    match base.ask(&Place { cell: PAGE, slot })? {
        Answer::One(Value::Num(number)) => Ok(number),
        _ => Ok(-1),
    }
}

/// The number of the cell at the document's own property; -1 where nothing stands.
fn own_cell(base: &mut Base, alloc: Global, name: &str) -> Result<i64, NoMemory>
    requires { (heap_of base.old).kinds ≡ start_kinds }
    ensures { OnOk result (heap_of base.new ≡ heap_of base.old) }
{
    let slot = Slot::Own(text_of(alloc, name)?);
    match base.ask(&Place {
        cell: DOCUMENT,
        slot,
    })? {
        Answer::One(Value::Cell(found)) => Ok(i64::from(found.0)),
        _ => Ok(-1),
    }
}

fn put_own(base: &mut Base, alloc: Global, name: &str, number: u32) -> Result<(), NoMemory>
    requires kinds { (heap_of base.old).kinds ≡ start_kinds }
    requires number { number < 128 }
    ensures { OnOk result ((heap_of base.new).kinds ≡ start_kinds) }
{
    let slot = Slot::Own(text_of(alloc, name)?);
    let answer = Answer::One(Value::Cell(CellName(number)));
    base.put(
        &Place {
            cell: DOCUMENT,
            slot,
        },
        answer,
    )
}

fn clear_own(base: &mut Base, alloc: Global, name: &str) -> Result<(), NoMemory>
    requires { (heap_of base.old).kinds ≡ start_kinds }
    ensures { OnOk result ((heap_of base.new).kinds ≡ start_kinds) }
{
    let slot = Slot::Own(text_of(alloc, name)?);
    base.put(
        &Place {
            cell: DOCUMENT,
            slot,
        },
        Answer::Absent,
    )
}

/// What a case of puts or of makes leaves.
pub fn acts(alloc: Global, fields: &[String]) -> Result<String, AllocError> {
    match field(fields, 0) {
        "createElement is put and taken away: it, createTextNode, next guess" => puts(alloc),
        "an event is made: its cell, the count, the kinds of 128, 127 and 109" => makes(alloc),
        _ => String::from_str(alloc, "no such case"),
    }
}

/// A put changes its place and no other, and Absent takes an answer away.
fn puts(alloc: Global) -> Result<String, AllocError> {
    let mut base = Base::start(alloc, 1000, 0)?;
    put_own(&mut base, alloc, "createElement", 3)?;
    let put = told(&mut base, alloc)?;
    clear_own(&mut base, alloc, "createElement")?;
    let cleared = told(&mut base, alloc)?;
    format!(in alloc; "{put}; {cleared}")
}

fn told(base: &mut Base, alloc: Global) -> Result<String, AllocError>
    requires { (heap_of base.old).kinds ≡ start_kinds }
    ensures { OnOk result (heap_of base.new ≡ heap_of base.old) }
{
    let element = own_cell(base, alloc, "createElement")?;
    let text = own_cell(base, alloc, "createTextNode")?;
    let guess = page_number(base, Slot::NextGuess)?;
    format!(in alloc; "{element} {text} {guess}")
}

fn makes(alloc: Global) -> Result<String, AllocError> {
    let mut base = Base::start(alloc, 1000, 0)?;
    let made = base.make(CellKind::Event)?.0;
    let count = base.count();
    let last = kind(base.kind_of(CellName(128)));
    let before = kind(base.kind_of(CellName(127)));
    let native = kind(base.kind_of(CellName(109)));
    format!(in alloc; "{made} {count} {last} {before} {native}")
}

fn kind(kind: &CellKind) -> &'static str {
    match kind {
        CellKind::Event => "event",
        CellKind::Plain => "plain",
        CellKind::Native(88) => "native 88",
        _ => "another",
    }
}

/// What charges of these weights give, and the weight that is spent after each.
pub fn charges(alloc: Global, fields: &[String]) -> Result<String, AllocError> {
    let mut base = Base::start(alloc, 1000, 0)?;
    let mut told = String::new(alloc);
    for field in fields {
        push_charge(&mut told, base.charge(field.parse::<u64>().unwrap_or(7)))?;
        push_spent(&mut told, base.spent())?;
    }
    Ok(told)
}

fn push_charge(told: &mut String, charged: Result<(), CellFault>) -> Result<(), AllocError> {
    match charged {
        Ok(()) => told.push_str("ok"),
        Err(CellFault::Full { spent, wants }) => write!(told, "full at {spent} for {wants}"),
    }
}

fn push_spent(told: &mut String, spent: u64) -> Result<(), AllocError> {
    write!(told, ", spent {spent}; ")
}
