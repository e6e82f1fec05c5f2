//! The built-in functions of pages (ECMA-262 5.1, 15; WHATWG DOM; this project's own).
ghost use Rattle.std.specs.Prelude.{◌≡◌};
ghost use Rattle.js_rules.specs.BuiltIns.{makes_objects};

/// A built-in function. Its number, which a cell of kind `Native` holds, is its place here, from 0
/// (this project's own). A number in brackets alone is a section of ECMA-262 5.1.
#[derive(Clone, Copy, Debug, PartialEq, Eq)]
pub enum BuiltIn {
    /// `Object` (15.2.1, 15.2.2).
    Object,
    /// `Object.keys` (15.2.3.14).
    ObjectKeys,
    /// `Object.create` (15.2.3.5), without property descriptors.
    ObjectCreate,
    /// `Object.getPrototypeOf` (15.2.3.2).
    ObjectGetPrototypeOf,
    /// `Object.prototype.hasOwnProperty` (15.2.4.5).
    HasOwnProperty,
    /// `Object.prototype.isPrototypeOf` (15.2.4.6).
    IsPrototypeOf,
    /// `Object.prototype.toString` (15.2.4.2).
    ObjectToString,
    /// `Object.prototype.valueOf` (15.2.4.4).
    ObjectValueOf,
    /// `Function.prototype.call` (15.3.4.4).
    FunctionCall,
    /// `Function.prototype.apply` (15.3.4.3).
    FunctionApply,
    /// `Array` (15.4.1, 15.4.2).
    Array,
    /// `Array.isArray` (15.4.3.2).
    ArrayIsArray,
    /// `Array.prototype.push` (15.4.4.7).
    Push,
    /// `Array.prototype.pop` (15.4.4.6).
    Pop,
    /// `Array.prototype.shift` (15.4.4.9).
    Shift,
    /// `Array.prototype.unshift` (15.4.4.13).
    Unshift,
    /// `Array.prototype.slice` (15.4.4.10).
    Slice,
    /// `Array.prototype.splice` (15.4.4.12).
    Splice,
    /// `Array.prototype.concat` (15.4.4.4).
    Concat,
    /// `Array.prototype.join` (15.4.4.5).
    Join,
    /// `Array.prototype.reverse` (15.4.4.8).
    Reverse,
    /// `Array.prototype.indexOf` (15.4.4.14).
    IndexOf,
    /// `Array.prototype.lastIndexOf` (15.4.4.15).
    LastIndexOf,
    /// `Array.prototype.forEach` (15.4.4.18).
    ForEach,
    /// `Array.prototype.map` (15.4.4.19).
    Map,
    /// `Array.prototype.filter` (15.4.4.20).
    Filter,
    /// `Array.prototype.some` (15.4.4.17).
    Some,
    /// `Array.prototype.every` (15.4.4.16).
    Every,
    /// `Array.prototype.reduce` (15.4.4.21).
    Reduce,
    /// `Array.prototype.toString` (15.4.4.2).
    ArrayToString,
    /// `String` as a function (15.5.1).
    String,
    /// `String.fromCharCode` (15.5.3.2).
    FromCharCode,
    /// `String.prototype.charAt` (15.5.4.4).
    CharAt,
    /// `String.prototype.charCodeAt` (15.5.4.5).
    CharCodeAt,
    /// `String.prototype.indexOf` (15.5.4.7).
    TextIndexOf,
    /// `String.prototype.lastIndexOf` (15.5.4.8).
    TextLastIndexOf,
    /// `String.prototype.slice` (15.5.4.13).
    TextSlice,
    /// `String.prototype.substring` (15.5.4.15).
    Substring,
    /// `String.prototype.split` (15.5.4.14), by a text and without a limit.
    Split,
    /// `String.prototype.trim` (15.5.4.20).
    Trim,
    /// `String.prototype.toLowerCase` (15.5.4.16), of ASCII letters alone.
    ToLowerCase,
    /// `String.prototype.toUpperCase` (15.5.4.18), of ASCII letters alone.
    ToUpperCase,
    /// `String.prototype.replace` (15.5.4.11), of a text by a text.
    Replace,
    /// `String.prototype.concat` (15.5.4.6).
    TextConcat,
    /// `String.prototype.toString` (15.5.4.2).
    TextToString,
    /// `String.prototype.valueOf` (15.5.4.3).
    TextValueOf,
    /// `Number` as a function (15.7.1).
    Number,
    /// `Number.prototype.toString` (15.7.4.2), without a radix.
    NumberToString,
    /// `Number.prototype.valueOf` (15.7.4.4).
    NumberValueOf,
    /// `Boolean` as a function (15.6.1).
    Boolean,
    /// `Boolean.prototype.toString` (15.6.4.2).
    BooleanToString,
    /// `Boolean.prototype.valueOf` (15.6.4.3).
    BooleanValueOf,
    /// `Math.abs` (15.8.2.1).
    Abs,
    /// `Math.floor` (15.8.2.9).
    Floor,
    /// `Math.max` (15.8.2.11).
    Max,
    /// `Math.min` (15.8.2.12).
    Min,
    /// `Math.pow` (15.8.2.13).
    Pow,
    /// `parseInt` (15.1.2.2).
    ParseInt,
    /// `Error` (15.11.1, 15.11.2).
    Error,
    /// `TypeError` (15.11.7).
    TypeError,
    /// `RangeError` (15.11.7).
    RangeError,
    /// `ReferenceError` (15.11.7).
    ReferenceError,
    /// `SyntaxError` (15.11.7).
    SyntaxError,
    /// `Error.prototype.toString` (15.11.4.4).
    ErrorToString,
    /// `JSON.parse` (15.12.2), without a reviver.
    JsonParse,
    /// `JSON.stringify` (15.12.3), of a value alone.
    JsonStringify,
    /// `console.log` (this project's own).
    ConsoleLog,
    /// `net.get` (this project's own).
    NetGet,
    /// `net.post` (this project's own).
    NetPost,
    /// `crom.guess` (this project's own).
    CromGuess,
    /// `crom.forget` (this project's own).
    CromForget,
    /// `crom.clock` (this project's own).
    CromClock,
    /// `setTimeout` (this project's own, after HTML).
    SetTimeout,
    /// `clearTimeout` (this project's own, after HTML).
    ClearTimeout,
    /// `Document.getElementById` (WHATWG DOM, 4.2.4).
    GetElementById,
    /// `Document.createElement` (WHATWG DOM, 4.5).
    CreateElement,
    /// `Document.createTextNode` (WHATWG DOM, 4.5).
    CreateTextNode,
    /// `Node.appendChild` (WHATWG DOM, 4.4).
    AppendChild,
    /// `Node.insertBefore` (WHATWG DOM, 4.4).
    InsertBefore,
    /// `Node.removeChild` (WHATWG DOM, 4.4).
    RemoveChild,
    /// `Element.getAttribute` (WHATWG DOM, 4.9).
    GetAttribute,
    /// `Element.setAttribute` (WHATWG DOM, 4.9).
    SetAttribute,
    /// `Element.removeAttribute` (WHATWG DOM, 4.9).
    RemoveAttribute,
    /// `Element.hasAttribute` (WHATWG DOM, 4.9).
    HasAttribute,
    /// `EventTarget.addEventListener` (WHATWG DOM, 2.7).
    AddEventListener,
    /// `EventTarget.removeEventListener` (WHATWG DOM, 2.7).
    RemoveEventListener,
    /// `Event.preventDefault` (WHATWG DOM, 2.2).
    PreventDefault,
    /// `Event.stopPropagation` (WHATWG DOM, 2.2).
    StopPropagation,
    /// `Event.stopImmediatePropagation` (WHATWG DOM, 2.2).
    StopImmediatePropagation,
}

impl BuiltIn {
    /// Whether `new` may be used on this function: those of `Object`, `Array` and the faults
    /// (15.2.2, 15.4.2, 15.11.2, 15.11.7). That `String`, `Number` and `Boolean` are no
    /// constructors is this project's own.
    pub fn is_constructor(self) -> bool
        ensures { result ≡ makes_objects self }
    {
        matches!(
            self,
            BuiltIn::Object
                | BuiltIn::Array
                | BuiltIn::Error
                | BuiltIn::TypeError
                | BuiltIn::RangeError
                | BuiltIn::ReferenceError
                | BuiltIn::SyntaxError
        )
    }
}
