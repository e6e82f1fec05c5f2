//! The characters that stand between tokens and around the number of a text.
ghost use Rattle.std.specs.Prelude.{◌≡◌};
ghost use Rattle.page_units.specs.Blanks as spec;

/// Whether a code point is white space of a script (ECMA-262 5.1, 7.2).
pub fn is_white_space(code: u32) -> bool
    ensures { result ≡ spec.is_white_space code }
{
    code == 0x09
        || code == 0x0B
        || code == 0x0C
        || code == 0x20
        || code == 0xA0
        || code == 0xFEFF
        || code == 0x1680
        || (0x2000 <= code && code <= 0x200A)
        || code == 0x202F
        || code == 0x205F
        || code == 0x3000
}

/// Whether a code point ends a line of a script (ECMA-262 5.1, 7.3).
pub fn is_line_terminator(code: u32) -> bool
    ensures { result ≡ spec.is_line_terminator code }
{
    code == 0x0A || code == 0x0D || code == 0x2028 || code == 0x2029
}
