//! The tables of the heap that a page starts with. The functions stand in the order of their
//! numbers (this project's own). Names and owners are those of ECMA-262 5.1, 15, of WHATWG DOM, and
//! of this project's `net` and `crom`.
use cell_places::{
    BOOLEAN_PROTOTYPE, CONSOLE, CROM, DOCUMENT, ERROR_PROTOTYPE, EVENT_PROTOTYPE, FIRST_NATIVE,
    FUNCTION_PROTOTYPE, JSON, LIST_PROTOTYPE, MATH, NET, NODE_PROTOTYPE, NUMBER_PROTOTYPE,
    OBJECT_PROTOTYPE, RANGE_ERROR_PROTOTYPE, REFERENCE_ERROR_PROTOTYPE, STRING_PROTOTYPE,
    SYNTAX_ERROR_PROTOTYPE, TYPE_ERROR_PROTOTYPE,
};
use page_units::CellName;

/// A function that is a method: its owner, its name there, and its number.
#[derive(Clone, Copy)]
pub(crate) struct Method(pub CellName, pub &'static str, pub u32);

/// A function that is a constructor: its name in the global scope, its number, and the prototype of
/// what it makes.
#[derive(Clone, Copy)]
pub(crate) struct Constructor(pub &'static str, pub u32, pub CellName);

/// A prototype of faults, and their name.
#[derive(Clone, Copy)]
pub(crate) struct FaultPrototype(pub CellName, pub &'static str);

/// A cell that the global scope names.
#[derive(Clone, Copy)]
pub(crate) struct GlobalName(pub &'static str, pub CellName);

/// The objects whose prototype is that of objects.
pub(crate) const PLAIN_OBJECTS: [CellName; 13] = [
    FUNCTION_PROTOTYPE,
    LIST_PROTOTYPE,
    STRING_PROTOTYPE,
    NUMBER_PROTOTYPE,
    BOOLEAN_PROTOTYPE,
    ERROR_PROTOTYPE,
    NODE_PROTOTYPE,
    EVENT_PROTOTYPE,
    MATH,
    JSON,
    CONSOLE,
    NET,
    CROM,
];

/// The objects whose prototype is that of faults of the class `Error`.
pub(crate) const KINDS_OF_ERROR: [CellName; 4] = [
    TYPE_ERROR_PROTOTYPE,
    RANGE_ERROR_PROTOTYPE,
    REFERENCE_ERROR_PROTOTYPE,
    SYNTAX_ERROR_PROTOTYPE,
];

/// The function `Object`.
const OBJECT: CellName = CellName(FIRST_NATIVE.0);

/// The function `Array`.
const ARRAY: CellName = CellName(FIRST_NATIVE.0 + 10);

/// The function `String`.
const STRING: CellName = CellName(FIRST_NATIVE.0 + 30);

/// The functions that are methods.
pub(crate) const METHODS: [Method; 76] = [
    Method(OBJECT, "keys", 1),
    Method(OBJECT, "create", 2),
    Method(OBJECT, "getPrototypeOf", 3),
    Method(OBJECT_PROTOTYPE, "hasOwnProperty", 4),
    Method(OBJECT_PROTOTYPE, "isPrototypeOf", 5),
    Method(OBJECT_PROTOTYPE, "toString", 6),
    Method(OBJECT_PROTOTYPE, "valueOf", 7),
    Method(FUNCTION_PROTOTYPE, "call", 8),
    Method(FUNCTION_PROTOTYPE, "apply", 9),
    Method(ARRAY, "isArray", 11),
    Method(LIST_PROTOTYPE, "push", 12),
    Method(LIST_PROTOTYPE, "pop", 13),
    Method(LIST_PROTOTYPE, "shift", 14),
    Method(LIST_PROTOTYPE, "unshift", 15),
    Method(LIST_PROTOTYPE, "slice", 16),
    Method(LIST_PROTOTYPE, "splice", 17),
    Method(LIST_PROTOTYPE, "concat", 18),
    Method(LIST_PROTOTYPE, "join", 19),
    Method(LIST_PROTOTYPE, "reverse", 20),
    Method(LIST_PROTOTYPE, "indexOf", 21),
    Method(LIST_PROTOTYPE, "lastIndexOf", 22),
    Method(LIST_PROTOTYPE, "forEach", 23),
    Method(LIST_PROTOTYPE, "map", 24),
    Method(LIST_PROTOTYPE, "filter", 25),
    Method(LIST_PROTOTYPE, "some", 26),
    Method(LIST_PROTOTYPE, "every", 27),
    Method(LIST_PROTOTYPE, "reduce", 28),
    Method(LIST_PROTOTYPE, "toString", 29),
    Method(STRING, "fromCharCode", 31),
    Method(STRING_PROTOTYPE, "charAt", 32),
    Method(STRING_PROTOTYPE, "charCodeAt", 33),
    Method(STRING_PROTOTYPE, "indexOf", 34),
    Method(STRING_PROTOTYPE, "lastIndexOf", 35),
    Method(STRING_PROTOTYPE, "slice", 36),
    Method(STRING_PROTOTYPE, "substring", 37),
    Method(STRING_PROTOTYPE, "split", 38),
    Method(STRING_PROTOTYPE, "trim", 39),
    Method(STRING_PROTOTYPE, "toLowerCase", 40),
    Method(STRING_PROTOTYPE, "toUpperCase", 41),
    Method(STRING_PROTOTYPE, "replace", 42),
    Method(STRING_PROTOTYPE, "concat", 43),
    Method(STRING_PROTOTYPE, "toString", 44),
    Method(STRING_PROTOTYPE, "valueOf", 45),
    Method(NUMBER_PROTOTYPE, "toString", 47),
    Method(NUMBER_PROTOTYPE, "valueOf", 48),
    Method(BOOLEAN_PROTOTYPE, "toString", 50),
    Method(BOOLEAN_PROTOTYPE, "valueOf", 51),
    Method(MATH, "abs", 52),
    Method(MATH, "floor", 53),
    Method(MATH, "max", 54),
    Method(MATH, "min", 55),
    Method(MATH, "pow", 56),
    Method(ERROR_PROTOTYPE, "toString", 63),
    Method(JSON, "parse", 64),
    Method(JSON, "stringify", 65),
    Method(CONSOLE, "log", 66),
    Method(NET, "get", 67),
    Method(NET, "post", 68),
    Method(CROM, "guess", 69),
    Method(CROM, "forget", 70),
    Method(CROM, "clock", 71),
    Method(DOCUMENT, "getElementById", 74),
    Method(DOCUMENT, "createElement", 75),
    Method(DOCUMENT, "createTextNode", 76),
    Method(NODE_PROTOTYPE, "appendChild", 77),
    Method(NODE_PROTOTYPE, "insertBefore", 78),
    Method(NODE_PROTOTYPE, "removeChild", 79),
    Method(NODE_PROTOTYPE, "getAttribute", 80),
    Method(NODE_PROTOTYPE, "setAttribute", 81),
    Method(NODE_PROTOTYPE, "removeAttribute", 82),
    Method(NODE_PROTOTYPE, "hasAttribute", 83),
    Method(NODE_PROTOTYPE, "addEventListener", 84),
    Method(NODE_PROTOTYPE, "removeEventListener", 85),
    Method(EVENT_PROTOTYPE, "preventDefault", 86),
    Method(EVENT_PROTOTYPE, "stopPropagation", 87),
    Method(EVENT_PROTOTYPE, "stopImmediatePropagation", 88),
];

/// The functions that are constructors.
pub(crate) const CONSTRUCTORS: [Constructor; 10] = [
    Constructor("Object", 0, OBJECT_PROTOTYPE),
    Constructor("Array", 10, LIST_PROTOTYPE),
    Constructor("String", 30, STRING_PROTOTYPE),
    Constructor("Number", 46, NUMBER_PROTOTYPE),
    Constructor("Boolean", 49, BOOLEAN_PROTOTYPE),
    Constructor("Error", 58, ERROR_PROTOTYPE),
    Constructor("TypeError", 59, TYPE_ERROR_PROTOTYPE),
    Constructor("RangeError", 60, RANGE_ERROR_PROTOTYPE),
    Constructor("ReferenceError", 61, REFERENCE_ERROR_PROTOTYPE),
    Constructor("SyntaxError", 62, SYNTAX_ERROR_PROTOTYPE),
];

/// The prototypes of faults.
pub(crate) const FAULT_PROTOTYPES: [FaultPrototype; 5] = [
    FaultPrototype(ERROR_PROTOTYPE, "Error"),
    FaultPrototype(TYPE_ERROR_PROTOTYPE, "TypeError"),
    FaultPrototype(RANGE_ERROR_PROTOTYPE, "RangeError"),
    FaultPrototype(REFERENCE_ERROR_PROTOTYPE, "ReferenceError"),
    FaultPrototype(SYNTAX_ERROR_PROTOTYPE, "SyntaxError"),
];

/// What the global scope names besides the constructors.
pub(crate) const GLOBALS: [GlobalName; 9] = [
    GlobalName("parseInt", CellName(FIRST_NATIVE.0 + 57)),
    GlobalName("setTimeout", CellName(FIRST_NATIVE.0 + 72)),
    GlobalName("clearTimeout", CellName(FIRST_NATIVE.0 + 73)),
    GlobalName("Math", MATH),
    GlobalName("JSON", JSON),
    GlobalName("console", CONSOLE),
    GlobalName("net", NET),
    GlobalName("crom", CROM),
    GlobalName("document", DOCUMENT),
];
