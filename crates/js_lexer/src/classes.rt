//! Classes of characters (ECMA-262 5.1, 7.2, 7.3, 7.6 and 7.8).
ghost use Rattle.std.specs.Prelude.{◌≡◌};
ghost use Rattle.js_lexer.specs.Chars as chars;

use page_units::{is_line_terminator, is_white_space};

/// Whether it is white space.
pub(crate) fn is_white(c: char) -> bool
    ensures { result ≡ chars.is_white c }
{
    is_white_space(u32::from(c))
}

/// Whether it ends a line.
pub(crate) fn is_terminator(c: char) -> bool
    ensures { result ≡ chars.is_terminator c }
{
    is_line_terminator(u32::from(c))
}

/// Whether a name may begin with it.
pub(crate) fn starts_name(c: char) -> bool
    ensures { result ≡ chars.starts_name c }
{
    c == '$' || c == '_' || unicode_ident::is_xid_start(c)
}

/// Whether it may stand in a name behind the first character.
pub(crate) fn is_part(c: char) -> bool
    ensures { result ≡ chars.is_part c }
{
    c == '$' || c == '_' || unicode_ident::is_xid_continue(c)
}

/// Whether it is a decimal digit.
pub(crate) fn is_digit(c: char) -> bool
    ensures { result ≡ chars.is_digit c }
{
    c.is_ascii_digit()
}

/// Whether it is a hexadecimal digit.
pub(crate) fn is_hex(c: char) -> bool
    ensures { result ≡ chars.is_hex c }
{
    c.is_ascii_hexdigit()
}

/// Whether it begins and ends texts.
pub(crate) fn is_quote(c: char) -> bool
    ensures { result ≡ chars.is_quote c }
{
    c == '"' || c == '\''
}
