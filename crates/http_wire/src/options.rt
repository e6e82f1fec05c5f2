//! The options of a Connection field's value.
ghost use Rattle.std.specs.Prelude.{◌≡◌, ◌≤◌, ◌==◌, ◌||◌, length};
ghost use Rattle.std.specs.Str.{str_eq_ignore_ascii_case};
ghost use Rattle.httparse.specs.Grammar.{is_ows, trim_ows};
ghost use Rattle.http_wire.specs.Fields.{is_close, has_close};

/// Whether two names are equal without ASCII case.
pub fn is_same_name(name: &[u8], other: &[u8]) -> bool
    ensures { result ≡ str_eq_ignore_ascii_case name.now other.now }
{
    name.eq_ignore_ascii_case(other)
}

/// Whether the value, a list with commas, has the option `close` in any ASCII case.
pub fn has_close_option(value: &[u8]) -> bool
    ensures { result ≡ has_close value.now }
{
    let mut start = 0;
    for (at, byte) in value.iter().enumerate() {
        if *byte == b',' {
            if is_close_option(&value[start..at]) {
                return true;
            }
            start = at + 1;
        }
    }
    is_close_option(&value[start..])
}

fn is_close_option(part: &[u8]) -> bool
    ensures { result ≡ is_close part.now }
{
    is_same_name(trimmed(part), b"close")
}

/// The part without the spaces and tabs at both ends.
fn trimmed(part: &[u8]) -> &[u8]
    ensures { result.now ≡ trim_ows part.now }
{
    let mut start = 0;
    let mut end = part.len();
    while start < end && is_blank(part[start]) {
        start += 1;
    }
    while start < end && is_blank(part[end - 1]) {
        end -= 1;
    }
    &part[start..end]
}

fn is_blank(byte: u8) -> bool
    ensures { result ≡ is_ows byte }
{
    byte == b' ' || byte == b'\t'
}
