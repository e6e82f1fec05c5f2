//! What the fields of a row write.
ghost use Rattle.std.specs.Prelude.{◌<◌};

use std::alloc::{AllocError, Global};

/// What a group's name says before its first `:`; all of it where there is none.
pub fn kind_of(group: &str) -> &str {
    match group.split_once(":") {
        Some((kind, _)) => kind,
        None => group,
    }
}

/// The field at this index, from 0; empty where there is none.
pub fn field(fields: &[String], index: usize) -> &str {
    match fields.get(index) {
        Some(text) => text.as_str(),
        None => "",
    }
}

/// The number in base 10 at this index; 0 where there is none.
pub fn number(fields: &[String], index: usize) -> u64 {
    field(fields, index).parse::<u64>().unwrap_or(0)
}

/// The bytes that the field at this index writes, in which `\xFF` is one byte.
pub fn bytes_of(alloc: Global, fields: &[String], index: usize) -> Result<Vec<u8>, AllocError> {
    let mut bytes = Vec::new(alloc);
    let mut is_first = true;
    for part in field(fields, index).split("\\x") {
        push_part(&mut bytes, part.as_bytes(), is_first)?;
        is_first = false;
    }
    Ok(bytes)
}

fn push_part(bytes: &mut Vec<u8>, part: &[u8], is_first: bool) -> Result<(), AllocError> {
    match part {
        [high, low, rest @ ..] if !is_first => {
            bytes.push(digit(*high) * 16 + digit(*low))?;
            bytes.extend_from_slice(rest)
        }
        _ => bytes.extend_from_slice(part),
    }
}

/// The value of a hexadecimal digit, a capital where it is a letter.
fn digit(byte: u8) -> u8
    ensures { result < 16 }
{
    match byte {
        b'0'..=b'9' => byte - b'0',
        b'A'..=b'F' => byte - b'A' + 10,
        _ => 0,
    }
}
