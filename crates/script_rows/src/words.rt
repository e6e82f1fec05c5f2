//! The words of a printed tree, with a space before each but the first.
use page_units::Text;
use std::alloc::AllocError;

fn space(out: &mut String) -> Result<(), AllocError> {
    if out.is_empty() {
        return Ok(());
    }
    out.push_str(" ")
}

/// One word more.
pub(crate) fn word(out: &mut String, word: &str) -> Result<(), AllocError> {
    space(out)?;
    out.push_str(word)
}

/// A bracket that opens, with the word that it opens with.
pub(crate) fn open(out: &mut String, head: &str) -> Result<(), AllocError> {
    word(out, "(")?;
    out.push_str(head)
}

/// The bracket that closes.
pub(crate) fn close(out: &mut String) -> Result<(), AllocError> {
    out.push_str(")")
}

/// A number.
pub(crate) fn number(out: &mut String, value: i64) -> Result<(), AllocError> {
    space(out)?;
    write!(out, "{value}")
}

/// A function: `#` with the number of its code.
pub(crate) fn function(out: &mut String, code: u32) -> Result<(), AllocError> {
    space(out)?;
    write!(out, "#{code}")
}

/// The characters of a text.
fn characters(out: &mut String, text: &Text) -> Result<(), AllocError> {
    for unit in text.units() {
        out.push(char::from_u32(u32::from(*unit)).unwrap_or('?'))?;
    }
    Ok(())
}

/// A name.
pub(crate) fn name(out: &mut String, name: &Text) -> Result<(), AllocError> {
    space(out)?;
    characters(out, name)
}

/// A bracket that opens, with the name that it opens with.
pub(crate) fn open_name(out: &mut String, head: &Text) -> Result<(), AllocError> {
    word(out, "(")?;
    characters(out, head)
}

/// A text in quotes.
pub(crate) fn quoted(out: &mut String, text: &Text) -> Result<(), AllocError> {
    word(out, "'")?;
    characters(out, text)?;
    out.push_str("'")
}
