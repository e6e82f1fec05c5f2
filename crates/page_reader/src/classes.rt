//! Classes of characters, by their codes.
ghost use Rattle.std.specs.Prelude.{◌≡◌, ◌+◌, ◌*◌, ◌≤◌, ◌<◌};
ghost use Rattle.std.specs.Char.{digit_value};
ghost use Rattle.page_reader.specs.Classes as class;
ghost use Rattle.page_reader.specs.References as references;
ghost use Rattle.placed_chars.specs.Chars.{is_end};

/// The code of the end of a page: one above the greatest of a character.
pub(crate) const END: u32 = GREATEST_CODE + 1;

/// The greatest code of a character.
pub(crate) const GREATEST_CODE: u32 = 0x10_FFFF;

/// Whether it is the end of the page, and no character of it.
pub(crate) fn is_end(code: u32) -> bool
    ensures { result ≡ is_end code }
{
    END <= code
}

/// Whether it is a space, a tab, a line feed, a form feed or a carriage return.
pub(crate) fn is_white(code: u32) -> bool
    ensures { result ≡ class.is_white code }
{
    code == ' ' as u32
        || code == '\t' as u32
        || code == '\n' as u32
        || code == '\x0C' as u32
        || code == '\r' as u32
}

fn is_capital(code: u32) -> bool
    ensures { result ≡ class.is_capital code }
{
    'A' as u32 <= code && code <= 'Z' as u32
}

/// Whether it is an ASCII letter.
pub(crate) fn is_letter(code: u32) -> bool
    ensures { result ≡ class.is_letter code }
{
    is_capital(code) || ('a' as u32 <= code && code <= 'z' as u32)
}

/// Whether it may stand in a name behind its first letter.
pub(crate) fn is_part(code: u32) -> bool
    ensures { result ≡ class.is_part code }
{
    is_letter(code) || ('0' as u32 <= code && code <= '9' as u32) || code == '-' as u32
}

/// The code, and that of an ASCII capital lowered.
pub(crate) fn lower(code: u32) -> u32
    ensures value { result ≡ class.lower code }
    ensures small { code < 65536 → result < 65536 }
{
    if is_capital(code) {
        code - 'A' as u32 + 'a' as u32
    } else {
        code
    }
}

/// Whether it is `"` or `'`.
pub(crate) fn is_quote(code: u32) -> bool
    ensures { result ≡ class.is_quote code }
{
    code == '"' as u32 || code == '\'' as u32
}

/// Whether it is white space or `>`.
pub(crate) fn ends_name(code: u32) -> bool
    ensures { result ≡ class.ends_name code }
{
    is_white(code) || code == '>' as u32
}

/// Whether it is white space, `>` or `/`.
pub(crate) fn ends_attribute(code: u32) -> bool
    ensures { result ≡ class.ends_attribute code }
{
    is_white(code) || code == '>' as u32 || code == '/' as u32
}

/// The value of a digit or letter, 36 for anything else.
pub(crate) fn digit_value(code: u32) -> u32
    ensures value { result ≡ digit_value code }
    ensures few { result ≤ 36 }
{
    if code < '0' as u32 {
        36
    } else if code <= '9' as u32 {
        code - '0' as u32
    } else if code < 'A' as u32 {
        36
    } else if code <= 'Z' as u32 {
        code - 'A' as u32 + 10
    } else if code < 'a' as u32 {
        36
    } else if code <= 'z' as u32 {
        code - 'a' as u32 + 10
    } else {
        36
    }
}

/// Whether it is a Unicode scalar value above 0.
pub(crate) fn is_scalar(code: u32) -> bool
    ensures { result ≡ references.is_scalar code }
{
    0 < code && (code < 0xD800 || (0xDFFF < code && code <= GREATEST_CODE))
}
