//! Names of elements that have a rule of their own (this project's page form, after HTML's void
//! and raw text elements).
ghost use Rattle.std.specs.Prelude.{◌≡◌, bytes_eq};
ghost use Rattle.std.specs.List.{list_any};
ghost use Rattle.tree_shape.specs.Names as spec;

use page_units::Text;

/// The elements without children and end tag.
const VOID: [&[u8]; 13] = [
    b"area", b"base", b"br", b"col", b"embed", b"hr", b"img", b"input", b"link", b"meta",
    b"source", b"track", b"wbr",
];

/// The elements whose text is raw.
const RAW: [&[u8]; 2] = [b"script", b"style"];

/// Whether an element of this name has no children and no end tag: `area`, `base`, `br`, `col`,
/// `embed`, `hr`, `img`, `input`, `link`, `meta`, `source`, `track` or `wbr`.
pub fn is_void(name: &Text) -> bool
    ensures { result ≡ spec.is_void name.now }
{
    is_among(name, &VOID)
}

/// Whether the content of an element of this name is raw: `script` or `style`.
pub fn is_raw(name: &Text) -> bool
    ensures { result ≡ spec.is_raw name.now }
{
    is_among(name, &RAW)
}

/// Whether the name is one of these words.
fn is_among(name: &Text, words: &[&[u8]]) -> bool
    ensures { result ≡ list_any (λ word. bytes_eq name.now word.now) words.now }
{
    words.iter().any(|word| name.is_word(word))
}
