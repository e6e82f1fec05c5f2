//! The tree of a page, and what stands in its tags.

use page_units::Text;
use sqlite_items::Items;

/// A name and its value.
#[derive(Drop)]
pub struct Attribute {
    pub name: Text,
    pub value: Text,
}

/// A text, or an element: its name, its attributes and its children.
#[derive(Drop)]
pub enum Node {
    Chars(Text),
    Element(Text, Items<Attribute>, Items<Node>),
}

/// Where the content of a script stands: from the byte `start` to before the byte `end`.
#[derive(Clone, Copy)]
pub struct Slice {
    pub start: u32,
    pub end: u32,
}

/// The attributes of a start tag, and the byte behind it.
#[derive(Drop)]
pub struct Started {
    pub attributes: Items<Attribute>,
    pub start: u32,
}

/// Raw content, and the byte at which its end tag begins.
#[derive(Drop)]
pub struct RawContent {
    pub text: Text,
    pub end: u32,
}
