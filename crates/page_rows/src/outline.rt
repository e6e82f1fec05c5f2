//! Trees and scripts as texts.
use page_reader::{Attribute, Node, ScriptText};
use page_units::Text;
use sqlite_items::Items;
use std::alloc::{AllocError, Global};

/// The nodes in tree order: each is `<name a=[value]>` and the count of its children, or `'text'`.
pub fn outline(alloc: Global, root: &Node) -> Result<String, AllocError> {
    let mut out = String::new(alloc);
    let mut left = Vec::new(alloc);
    left.push(root)?;
    for _ in 0..1000 {
        match left.pop() {
            Some(node) => push_node(alloc, &mut out, &mut left, node)?,
            None => break,
        }
    }
    Ok(out)
}

fn push_node<'a>(
    alloc: Global,
    out: &mut String,
    left: &mut Vec<&'a Node>,
    node: &'a Node,
) -> Result<(), AllocError> {
    match node {
        Node::Chars(text) => push_chars(alloc, out, text),
        Node::Element(name, attributes, children) => {
            push_name(alloc, out, name)?;
            push_attributes(alloc, out, attributes.as_slice())?;
            push_count(out, children.len())?;
            push_children(left, children)
        }
    }
}

fn push_chars(alloc: Global, out: &mut String, text: &Text) -> Result<(), AllocError> {
    let text = String::from_utf16_lossy(alloc, text.units())?;
    write!(out, "'{text}'")
}

fn push_name(alloc: Global, out: &mut String, name: &Text) -> Result<(), AllocError> {
    let name = String::from_utf16_lossy(alloc, name.units())?;
    write!(out, "<{name}")
}

fn push_attributes(
    alloc: Global,
    out: &mut String,
    attributes: &[Attribute],
) -> Result<(), AllocError> {
    for attribute in attributes {
        push_attribute(alloc, out, attribute)?;
    }
    Ok(())
}

fn push_attribute(
    alloc: Global,
    out: &mut String,
    attribute: &Attribute,
) -> Result<(), AllocError> {
    let name = String::from_utf16_lossy(alloc, attribute.name.units())?;
    let value = String::from_utf16_lossy(alloc, attribute.value.units())?;
    write!(out, " {name}=[{value}]")
}

fn push_count(out: &mut String, count: usize) -> Result<(), AllocError> {
    write!(out, ">{count}")
}

fn push_children<'a>(
    left: &mut Vec<&'a Node>,
    children: &'a Items<Node>,
) -> Result<(), AllocError> {
    for child in children.as_slice().iter().rev() {
        left.push(child)?;
    }
    Ok(())
}

/// The number of each script, its first byte and its end.
pub fn scripts(alloc: Global, scripts: &[ScriptText]) -> Result<String, AllocError> {
    let mut out = String::new(alloc);
    for script in scripts {
        push_script(&mut out, script)?;
    }
    Ok(out)
}

fn push_script(out: &mut String, script: &ScriptText) -> Result<(), AllocError> {
    let index = script.index;
    let at = script.at;
    let end = script.end;
    write!(out, "{index} from {at} to {end}; ")
}
