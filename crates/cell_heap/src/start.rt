//! The heap that a page starts with: its cells, and what stands at their slots.
ghost use Rattle.std.specs.Prelude.{◌≡◌, ◌<◌, ◌≤◌, ℕ, pos, ◌≤ℤ◌, [], ◌∷◌, ◌++◌};
ghost use Rattle.std.specs.Prelude.{take, drop, replicate, map, IfOk, OnOk};
ghost use Rattle.std.specs.List.{flat_map};
ghost use Rattle.cell_places.specs.declared.answer.Answer.TheVariants.{One};
ghost use Rattle.cell_places.specs.declared.kind.CellKind.TheVariants.{Plain};
ghost use Rattle.cell_places.specs.declared.place.Slot.TheVariants.{Own, Bind};
ghost use Rattle.page_units.specs.Numbers.{greatest_number};
ghost use Rattle.cell_places.specs.Lists.{Every};
ghost use Rattle.cell_places.specs.Heap.{place};
ghost use Rattle.cell_places.specs.Valid.{CanPut};
ghost use Rattle.cell_places.specs.Known.{global_scope, native_count, function_cell};
ghost use Rattle.cell_places.specs.StartRows.{property, binding, page_rows};
ghost use Rattle.cell_places.specs.StartRows.{prototype_row, prototype_rows};
ghost use Rattle.cell_places.specs.StartRows.{function_prototype_rows, built_in_rows};
ghost use Rattle.cell_places.specs.Start.{start, start_objects, start_kinds, natives};
ghost use Rattle.cell_places.specs.Sound.{IsSound};
ghost use Rattle.cell_heap.specs.StartParts.{CanPutAll, HasPut, method_of, constructor_of};
ghost use Rattle.cell_heap.specs.StartParts.{fault_of, global_of};

use crate::base::Base;
use crate::tables::{
    CONSTRUCTORS, Constructor, FAULT_PROTOTYPES, FaultPrototype, GLOBALS, GlobalName,
    KINDS_OF_ERROR, METHODS, Method, PLAIN_OBJECTS,
};
use cell_places::{
    Answer, CellKind, Cells, DOCUMENT, ERROR_PROTOTYPE, FUNCTION_PROTOTYPE, FaultName,
    GLOBAL_SCOPE, NATIVE_COUNT, NODE_PROTOTYPE, OBJECT_PROTOTYPE, PAGE, Place, RESERVE_COUNT, Slot,
    function_cell,
};
use page_units::{CellName, NoMemory, Text, Value};
use std::alloc::Global;

impl Base {
    ghost use Rattle.cell_heap.specs.Base.{heap_of};

    /// The heap that a page starts with: 128 cells with the built-in objects and functions, nothing
    /// spent, and the clock at `now` (milliseconds, from 0 to 2^53 - 1). The limit of its weight is
    /// at most 3,000,000,000. Where no memory is found there is no heap.
    pub fn start(alloc: Global, weight: u64, now: i64) -> Result<Base, NoMemory>
        requires weight { weight ≤ 3000000000 }
        requires from { pos 0 ≤ℤ now }
        requires to { now ≤ℤ pos greatest_number }
        ensures start { IfOk result (λ base. heap_of base ≡ start weight now) }
        ensures sound { IfOk result (λ base. (codes : ℕ) → IsSound codes (heap_of base)) }
    {
        let kinds = start_kinds(alloc)?;
        let mut base = Base::of_kinds(alloc, kinds, weight);
        base.put_page(now)?;
        base.put_built_ins(alloc)?;
        Ok(base)
    }

    fn put_page(&mut self, now: i64) -> Result<(), NoMemory>
        requires kinds { (heap_of self.old).kinds ≡ start_kinds }
        requires from { pos 0 ≤ℤ now }
        requires to { now ≤ℤ pos greatest_number }
        ensures { OnOk result (HasPut self.old self.new (page_rows now)) }
    {
        self.put_value(PAGE, Slot::Clock, Value::Num(now))?;
        self.put_value(PAGE, Slot::NextTimer, Value::Num(1))?;
        self.put_value(PAGE, Slot::NextGuess, Value::Num(1))
    }

    fn put_built_ins(&mut self, alloc: Global) -> Result<(), NoMemory>
        requires { (heap_of self.old).kinds ≡ start_kinds }
        ensures { OnOk result (HasPut self.old self.new built_in_rows) }
    {
        self.put_prototypes()?;
        self.put_methods(alloc, &METHODS)?;
        self.put_constructors(alloc, &CONSTRUCTORS)?;
        self.put_faults(alloc, &FAULT_PROTOTYPES)?;
        self.bind_globals(alloc, &GLOBALS)?;
        self.bind(alloc, "undefined", Value::Undefined)
    }

    fn put_prototypes(&mut self) -> Result<(), NoMemory>
        requires { (heap_of self.old).kinds ≡ start_kinds }
        ensures { OnOk result (HasPut self.old self.new prototype_rows) }
    {
        self.put_prototype(OBJECT_PROTOTYPE, &PLAIN_OBJECTS)?;
        self.put_prototype(ERROR_PROTOTYPE, &KINDS_OF_ERROR)?;
        self.put_function_prototypes()?;
        self.put_value(DOCUMENT, Slot::Proto, Value::Cell(NODE_PROTOTYPE))
    }

    fn put_prototype(&mut self, prototype: CellName, cells: &[CellName]) -> Result<(), NoMemory>
        requires kinds { (heap_of self.old).kinds ≡ start_kinds }
        requires allowed { CanPutAll start_kinds (map (prototype_row prototype) cells.now) }
        ensures { OnOk result (HasPut self.old self.new (map (prototype_row prototype) cells.now)) }
    {
        for cell in cells {
            self.put_value(*cell, Slot::Proto, Value::Cell(prototype))?;
        }
        Ok(())
    }

    fn put_function_prototypes(&mut self) -> Result<(), NoMemory>
        requires { (heap_of self.old).kinds ≡ start_kinds }
        ensures { OnOk result (HasPut self.old self.new (function_prototype_rows native_count)) }
    {
        for which in 0..NATIVE_COUNT {
            self.put_value(
                function_cell(which),
                Slot::Proto,
                Value::Cell(FUNCTION_PROTOTYPE),
            )?;
        }
        Ok(())
    }

    fn put_methods(&mut self, alloc: Global, methods: &[Method]) -> Result<(), NoMemory>
        requires kinds { (heap_of self.old).kinds ≡ start_kinds }
        requires numbers { Every (λ m. m.2 < native_count) methods.now }
        requires allowed { CanPutAll start_kinds (map method_of methods.now) }
        ensures { OnOk result (HasPut self.old self.new (map method_of methods.now)) }
    {
        for method in methods {
            let function = Value::Cell(function_cell(method.2));
            self.put_own(alloc, method.0, method.1, function)?;
        }
        Ok(())
    }

    fn put_constructors(
        &mut self,
        alloc: Global,
        constructors: &[Constructor],
    ) -> Result<(), NoMemory>
        requires kinds { (heap_of self.old).kinds ≡ start_kinds }
        requires numbers { Every (λ c. c.1 < native_count) constructors.now }
        requires allowed { Every (λ c. CanPutAll start_kinds (constructor_of c)) constructors.now }
        ensures { OnOk result
            (HasPut self.old self.new (flat_map constructor_of constructors.now)) }
    {
        for constructor in constructors {
            self.put_constructor(alloc, *constructor)?;
        }
        Ok(())
    }

    fn put_constructor(&mut self, alloc: Global, constructor: Constructor) -> Result<(), NoMemory>
        requires kinds { (heap_of self.old).kinds ≡ start_kinds }
        requires number { constructor.1 < native_count }
        requires allowed { CanPutAll start_kinds (constructor_of constructor) }
        ensures { OnOk result (HasPut self.old self.new (constructor_of constructor)) }
    {
        let Constructor(name, which, prototype) = constructor;
        let function = function_cell(which);
        self.put_own(alloc, prototype, "constructor", Value::Cell(function))?;
        self.put_own(alloc, function, "prototype", Value::Cell(prototype))?;
        self.bind(alloc, name, Value::Cell(function))
    }

    fn put_faults(&mut self, alloc: Global, faults: &[FaultPrototype]) -> Result<(), NoMemory>
        requires kinds { (heap_of self.old).kinds ≡ start_kinds }
        requires allowed { Every (λ f. CanPutAll start_kinds (fault_of f)) faults.now }
        ensures { OnOk result (HasPut self.old self.new (flat_map fault_of faults.now)) }
    {
        for fault in faults {
            self.put_fault(alloc, *fault)?;
        }
        Ok(())
    }

    fn put_fault(&mut self, alloc: Global, fault: FaultPrototype) -> Result<(), NoMemory>
        requires kinds { (heap_of self.old).kinds ≡ start_kinds }
        requires allowed { CanPutAll start_kinds (fault_of fault) }
        ensures { OnOk result (HasPut self.old self.new (fault_of fault)) }
    {
        let FaultPrototype(prototype, name) = fault;
        let name = Value::Str(Text::of_ascii(alloc, name.as_bytes())?);
        self.put_own(alloc, prototype, "name", name)?;
        let message = Value::Str(Text::of_ascii(alloc, b"")?);
        self.put_own(alloc, prototype, "message", message)
    }

    fn bind_globals(&mut self, alloc: Global, globals: &[GlobalName]) -> Result<(), NoMemory>
        requires kinds { (heap_of self.old).kinds ≡ start_kinds }
        requires allowed { CanPutAll start_kinds (map global_of globals.now) }
        ensures { OnOk result (HasPut self.old self.new (map global_of globals.now)) }
    {
        for global in globals {
            self.bind(alloc, global.0, Value::Cell(global.1))?;
        }
        Ok(())
    }

    fn put_own(
        &mut self,
        alloc: Global,
        owner: CellName,
        key: &str,
        value: Value,
    ) -> Result<(), NoMemory>
        requires { CanPut (heap_of self.old) (place owner (Own key.now)) (One value) }
        ensures { OnOk result (HasPut self.old self.new (property owner key.now value ∷ [])) }
    {
        let slot = Slot::Own(Text::of_ascii(alloc, key.as_bytes())?);
        self.put_value(owner, slot, value)
    }

    fn bind(&mut self, alloc: Global, name: &str, value: Value) -> Result<(), NoMemory>
        requires { CanPut (heap_of self.old) (place global_scope (Bind name.now)) (One value) }
        ensures { OnOk result (HasPut self.old self.new (binding name.now value ∷ [])) }
    {
        let slot = Slot::Bind(Text::of_ascii(alloc, name.as_bytes())?);
        self.put_value(GLOBAL_SCOPE, slot, value)
    }

    fn put_value(&mut self, cell: CellName, slot: Slot, value: Value) -> Result<(), NoMemory>
        requires { CanPut (heap_of self.old) (place cell slot) (One value) }
        ensures { OnOk result (HasPut self.old self.new ((place cell slot, One value) ∷ [])) }
    {
        self.put(&Place { cell, slot }, Answer::One(value))
    }
}

fn start_kinds(alloc: Global) -> Result<Vec<CellKind>, NoMemory>
    ensures { IfOk result (λ kinds. kinds.items ≡ start_kinds) }
{
    let mut kinds = Vec::with_capacity(alloc, 128)?;
    push_roots(&mut kinds)?;
    push_plain(&mut kinds, 3)?;
    push_faults(&mut kinds)?;
    push_plain(&mut kinds, 7)?;
    push_natives(&mut kinds, NATIVE_COUNT)?;
    push_plain(&mut kinds, RESERVE_COUNT)?;
    Ok(kinds)
}

fn push_roots(kinds: &mut Vec<CellKind>) -> Result<(), NoMemory>
    ensures { OnOk result (kinds.new.items ≡ kinds.old.items ++ take 6 start_objects) }
{
    kinds.push(CellKind::Scope(None))?;
    kinds.push(CellKind::Page)?;
    kinds.push(CellKind::Document)?;
    kinds.push(CellKind::Plain)?;
    kinds.push(CellKind::Plain)?;
    kinds.push(CellKind::List)?;
    Ok(())
}

fn push_faults(kinds: &mut Vec<CellKind>) -> Result<(), NoMemory>
    ensures { OnOk result (kinds.new.items ≡ kinds.old.items ++ take 5 (drop 9 start_objects)) }
{
    kinds.push(CellKind::Fault(FaultName::Error))?;
    kinds.push(CellKind::Fault(FaultName::TypeError))?;
    kinds.push(CellKind::Fault(FaultName::RangeError))?;
    kinds.push(CellKind::Fault(FaultName::ReferenceError))?;
    kinds.push(CellKind::Fault(FaultName::SyntaxError))?;
    Ok(())
}

fn push_plain(kinds: &mut Vec<CellKind>, count: u32) -> Result<(), NoMemory>
    ensures { OnOk result (kinds.new.items ≡ kinds.old.items ++ replicate count Plain) }
{
    for _ in 0..count {
        kinds.push(CellKind::Plain)?;
    }
    Ok(())
}

fn push_natives(kinds: &mut Vec<CellKind>, count: u32) -> Result<(), NoMemory>
    ensures { OnOk result (kinds.new.items ≡ kinds.old.items ++ natives 0 count) }
{
    for which in 0..count {
        kinds.push(CellKind::Native(which))?;
    }
    Ok(())
}
