//! Texts from UTF-8 (RFC 3629) and back.
ghost use Rattle.std.specs.Prelude.{◌≡◌, IfOk, IfSome, MatchOption};
ghost use Rattle.std.specs.Str.{IsUtf8};
ghost use Rattle.page_units.specs.Coding.{units_of_utf8, utf8_of_units, IsPaired};

use crate::fault::NoMemory;
use crate::spelling::push_char;
use crate::text::Text;
use std::alloc::Global;

/// The text that the bytes spell, and None exactly where they are not UTF-8.
#[tactic(auto, using(crate::proofs::Reading::utf8_back))]
pub fn text_of_utf8(alloc: Global, bytes: &[u8]) -> Result<Option<Text>, NoMemory>
    ensures cases { IfOk result (λ r. MatchOption r (¬ (IsUtf8 bytes.now)) (λ t. IsUtf8 bytes.now × (t ≡ units_of_utf8 bytes.now))) }
    ensures paired { IfOk result (λ r. IfSome r IsPaired) }
    // Back in UTF-8 it is these bytes.
    ensures back { IsUtf8 bytes.now → utf8_of_units (units_of_utf8 bytes.now) ≡ bytes.now }
{
    match str::from_utf8(bytes) {
        Ok(text) => Ok(Some(Text::of_units(units_of_str(alloc, text)?)?)),
        Err(_) => Ok(None),
    }
}

/// The text's UTF-8: paired surrogates are one character, and each other surrogate is U+FFFD.
pub fn utf8_of(alloc: Global, text: &Text) -> Result<Vec<u8>, NoMemory>
    ensures bytes { IfOk result (λ v. v.items ≡ utf8_of_units text.now) }
    ensures utf8 { IfOk result (λ v. IsUtf8 v.items) }
    // A text without a lone surrogate comes back from it.
    ensures back { IsPaired text.now → units_of_utf8 (utf8_of_units text.now) ≡ text.now }
{
    Ok(String::from_utf16_lossy(alloc, text.units())?.into_bytes())
}

/// The units of a `str`.
pub(crate) fn units_of_str(alloc: Global, text: &str) -> Result<Vec<u16>, NoMemory>
    ensures { IfOk result (λ v. v.items ≡ units_of_utf8 text.now) }
{
    let mut units = Vec::with_capacity(alloc, text.len())?;
    for c in text.chars() {
        push_char(&mut units, c)?;
    }
    Ok(units)
}
