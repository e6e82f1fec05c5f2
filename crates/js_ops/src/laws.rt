//! Laws of the definitions: each function's contract is one, and its body is empty.
ghost use Rattle.std.specs.Prelude.{◌≡◌, ℕ, true};
ghost use Rattle.page_units.specs.declared.value.Value.TheVariants.{Bool};
ghost use Rattle.js_ops.specs.Operators.{value, equal, strictly_equal};
ghost use Rattle.js_ops.specs.Whole.{to_int32, to_uint32};

use page_units::Value;

/// `a == b` is `b == a`, at the same steps (the note at 11.9.3).
pub fn equal_is_symmetric(_a: &Value, _b: &Value)
    ensures { equal _a.now _b.now ≡ equal _b.now _a.now }
{}

/// What is equal by `===` is equal by `==`, at the same steps.
pub fn strictly_equal_is_equal(_a: &Value, _b: &Value)
    ensures { (steps : ℕ) → strictly_equal _a.now _b.now ≡ value steps (Bool true)
        → equal _a.now _b.now ≡ value steps (Bool true) }
{}

/// The signed number of a number's 32 bits has the same 32 bits (the note at 9.6).
pub fn signed_bits_are_kept(_number: i64)
    ensures { to_uint32 (to_int32 _number) ≡ to_uint32 _number }
{}
