//! How texts are spelled: by ASCII characters, a unit each, and by characters, a unit or two each.
ghost use Rattle.std.specs.Prelude.{◌≡◌, ◌++◌, OnOk, OnErr, length, take, bytes_eq};
ghost use Rattle.std.specs.Char.Escape.{encode_utf16};

use crate::fault::NoMemory;

/// Appends ASCII characters, a unit each. Out of memory, some of them may have been appended.
pub fn push_ascii(units: &mut Vec<u16>, characters: &[u8]) -> Result<(), NoMemory>
    ensures ok { OnOk result (units.new.items ≡ units.old.items ++ characters.now) }
    ensures err { OnErr result (take (length units.old.items) units.new.items ≡ units.old.items) }
{
    for character in characters {
        units.push(u16::from(*character))?;
    }
    Ok(())
}

/// Appends a character's unit, or its pair of surrogates where it lies above U+FFFF (Unicode, D91).
/// Out of memory, nothing was appended.
pub fn push_char(units: &mut Vec<u16>, c: char) -> Result<(), NoMemory>
    ensures ok { OnOk result (units.new.items ≡ units.old.items ++ encode_utf16 c) }
    ensures err { OnErr result (units.new.items ≡ units.old.items) }
{
    let mut pair = [0; 2];
    units.extend_from_slice(c.encode_utf16(&mut pair))?;
    Ok(())
}

/// Whether the units spell this ASCII word.
pub fn is_word(units: &[u16], word: &[u8]) -> bool
    ensures { result ≡ bytes_eq units.now word.now }
{
    match (units, word) {
        ([], []) => true,
        ([u, units @ ..], [c, word @ ..]) => *u == u16::from(*c) && is_word(units, word),
        _ => false,
    }
}
