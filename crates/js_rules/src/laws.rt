//! Laws of the rules: each function's contract is one, and its body is empty.
ghost use Rattle.std.specs.Prelude.{◌≡◌, ℕ, List, Some, false};
ghost use Rattle.page_units.specs.declared.value.Value.{Value};
ghost use Rattle.js_rules.specs.declared.built_in.BuiltIn.{BuiltIn};
ghost use Rattle.js_rules.specs.BuiltIns.{built_in};
ghost use Rattle.js_rules.specs.Fixed.{Fixed};
ghost use Rattle.js_rules.specs.Prog.{not_built};
ghost use Rattle.js_rules.specs.Rules.{rule};
ghost use Rattle.js_rules.specs.Stages.{is_built};
ghost use Rattle.js_rules.specs.Tasks.{Values, Native};

/// A call of a built-in function that isn't built throws the TypeError `not built`, whatever it is
/// called on, and does nothing before that.
pub fn unbuilt_functions_throw(_which: u32)
    ensures { (fixed : Fixed) (function : BuiltIn) (this : Value) (arguments : List Value)
        → built_in _which ≡ Some function → is_built function ≡ false
        → rule fixed (Native _which this arguments) ≡ not_built {K = Values} }
{}
