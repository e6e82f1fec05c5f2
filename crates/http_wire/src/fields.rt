//! What the fields of a head say of the body and of the connection.
ghost use Rattle.std.specs.Prelude.{◌≡◌, ◌≤◌, length, map, codes, All};
ghost use Rattle.std.specs.List.{list_any};
ghost use Rattle.httparse.specs.Spans.{header_bytes, IsHeaderWithin};
ghost use Rattle.http_wire.specs.Fields.{values_named, body_length, has_close, closes};
ghost use Rattle.http_wire.specs.Held.{NamedIs};

use crate::lengths::parse_length;
use crate::options::{has_close_option, is_same_name};
use httparse::spans::{HeaderSpan, Span};
use wire_asks::Refusal;

/// The fields of one name.
#[derive(Clone, Copy)]
pub enum Named {
    /// There is none.
    Absent,
    /// One, with this value.
    Single(Span),
    /// Two or more.
    Several,
}

/// The fields of this name, without ASCII case; the fields' places are counted in `bytes`.
pub fn find_named(bytes: &[u8], fields: &[HeaderSpan], name: &[u8]) -> Named
    requires { All (IsHeaderWithin (length bytes.now)) fields.now }
    ensures { NamedIs bytes.now
        (values_named name.now (map (header_bytes bytes.now) fields.now)) result }
{
    let mut found = None;
    for field in fields {
        if is_same_name(field.name.of(bytes), name) {
            if found.is_some() {
                return Named::Several;
            }
            found = Some(field.value);
        }
    }
    match found {
        Some(value) => Named::Single(value),
        None => Named::Absent,
    }
}

/// How many bytes the body has. LeftOut: there is a Transfer-Encoding field; BadLength: there is
/// more than one Content-Length field, or its value isn't 1 to 19 digits; TooLarge: it is above
/// 65,536; NoLength: a POST has none.
pub fn body_length_of(bytes: &[u8], method: &[u8], fields: &[HeaderSpan]) -> Result<usize, Refusal>
    requires { All (IsHeaderWithin (length bytes.now)) fields.now }
    ensures { result ≡ body_length method.now (map (header_bytes bytes.now) fields.now) }
{
    if !matches!(
        find_named(bytes, fields, b"transfer-encoding"),
        Named::Absent
    ) {
        return Err(Refusal::LeftOut);
    }
    match find_named(bytes, fields, b"content-length") {
        Named::Absent if method == b"POST".as_slice() => Err(Refusal::NoLength),
        Named::Absent => Ok(0),
        Named::Single(value) => parse_length(value.of(bytes)),
        Named::Several => Err(Refusal::BadLength),
    }
}

/// Whether the connection ends behind the request: it is HTTP/1.0, or a Connection field has the
/// option `close`.
pub fn closes_behind(minor: u8, bytes: &[u8], fields: &[HeaderSpan]) -> bool
    requires { All (IsHeaderWithin (length bytes.now)) fields.now }
    ensures { result ≡ closes minor (map (header_bytes bytes.now) fields.now) }
{
    minor == 0 || says_close(bytes, fields)
}

/// Whether a Connection field has the option `close`.
fn says_close(bytes: &[u8], fields: &[HeaderSpan]) -> bool
    requires { All (IsHeaderWithin (length bytes.now)) fields.now }
    ensures { result ≡ list_any has_close
        (values_named (codes "connection") (map (header_bytes bytes.now) fields.now)) }
{
    for field in fields {
        if is_same_name(field.name.of(bytes), b"connection")
            && has_close_option(field.value.of(bytes))
        {
            return true;
        }
    }
    false
}
