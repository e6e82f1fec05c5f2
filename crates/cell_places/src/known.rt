//! Cells that each heap has from its start, and that code names (this project's own). The objects
//! are those of ECMA-262 5.1, 15, of WHATWG DOM, and of this project's own.
ghost use Rattle.std.specs.Prelude.{◌≡◌, ◌<◌};
ghost use Rattle.cell_places.specs.Known as known;

use page_units::CellName;

/// The global scope.
pub const GLOBAL_SCOPE: CellName = CellName(0);

/// The page, with its clock, timers and guesses.
pub const PAGE: CellName = CellName(1);

/// The document.
pub const DOCUMENT: CellName = CellName(2);

/// The prototype of objects (15.2.4).
pub const OBJECT_PROTOTYPE: CellName = CellName(3);

/// The prototype of functions (15.3.4).
pub const FUNCTION_PROTOTYPE: CellName = CellName(4);

/// The prototype of lists (15.4.4).
pub const LIST_PROTOTYPE: CellName = CellName(5);

/// The prototype of texts (15.5.4).
pub const STRING_PROTOTYPE: CellName = CellName(6);

/// The prototype of numbers (15.7.4).
pub const NUMBER_PROTOTYPE: CellName = CellName(7);

/// The prototype of truth values (15.6.4).
pub const BOOLEAN_PROTOTYPE: CellName = CellName(8);

/// The prototype of faults of the class `Error` (15.11.4).
pub const ERROR_PROTOTYPE: CellName = CellName(9);

/// The prototype of faults of the class `TypeError` (15.11.7.7).
pub const TYPE_ERROR_PROTOTYPE: CellName = CellName(10);

/// The prototype of faults of the class `RangeError` (15.11.7.7).
pub const RANGE_ERROR_PROTOTYPE: CellName = CellName(11);

/// The prototype of faults of the class `ReferenceError` (15.11.7.7).
pub const REFERENCE_ERROR_PROTOTYPE: CellName = CellName(12);

/// The prototype of faults of the class `SyntaxError` (15.11.7.7).
pub const SYNTAX_ERROR_PROTOTYPE: CellName = CellName(13);

/// The prototype of the document, of elements and of text nodes.
pub const NODE_PROTOTYPE: CellName = CellName(14);

/// The prototype of events.
pub const EVENT_PROTOTYPE: CellName = CellName(15);

/// The object `Math` (15.8).
pub const MATH: CellName = CellName(16);

/// The object `JSON` (15.12).
pub const JSON: CellName = CellName(17);

/// The object `console`.
pub const CONSOLE: CellName = CellName(18);

/// The object `net`, with the page's requests (this project's own).
pub const NET: CellName = CellName(19);

/// The object `crom`, with the page's guesses (this project's own).
pub const CROM: CellName = CellName(20);

/// The first built-in function; the others follow in the order of their numbers.
pub const FIRST_NATIVE: CellName = CellName(21);

/// How many built-in functions there are.
pub const NATIVE_COUNT: u32 = 89;

/// How many plain objects stand in reserve behind the functions.
pub const RESERVE_COUNT: u32 = 18;

/// The cell of the built-in function of this number, from 0.
pub fn function_cell(which: u32) -> CellName
    requires { which < known.native_count }
    ensures { result ≡ known.function_cell which }
{
    CellName(FIRST_NATIVE.0 + which)
}
