//! Reads a page's bytes as its tree and its scripts.
ghost use Rattle.std.specs.Prelude.{◌≡◌, ◌≤◌, ◌<◌, ◌^◌, ℕ, List, [], length, IfOk, OnOk};
ghost use Rattle.std.specs.Str.{chars};
ghost use Rattle.grammar.specs.Reading.{read};
ghost use Rattle.tree_shape.specs.Trees.{Trees};
ghost use Rattle.placed_chars.specs.declared.chars.Char.{Char};
ghost use Rattle.placed_chars.specs.Chars.{placed, stop};
ghost use Rattle.page_reader.specs.declared.page.ScriptText.{ScriptText};
ghost use Rattle.page_reader.specs.Content.{found};
ghost use Rattle.page_reader.specs.Page as pages;
ghost use Rattle.page_reader.specs.Page.{levels_below};
ghost use Rattle.page_reader.specs.PageForm.{page};
ghost use Rattle.page_reader.specs.Reading.{TreeRead};
ghost use Rattle.page_reader.specs.Reads.{ReadsAs};

use crate::fault::{PageFault, PageRule, ReadError};
use crate::node::{Node, Slice};
use crate::page::ScriptText;
use crate::reader::{PAGE_BYTES, Reader};
use page_units::NoMemory;
use sqlite_items::Items;
use std::alloc::Global;
use std::str;

/// The root of a page, and its scripts.
#[derive(Drop)]
pub struct PageTree {
    pub root: Node,
    pub scripts: Vec<ScriptText>,
}

/// How many levels may stand below the root.
const LEVELS_BELOW: u8 = 127;

/// The page that the bytes are, or the rule that they break.
pub fn read_tree(alloc: Global, bytes: &[u8]) -> Result<PageTree, PageFault>
    ensures { TreeRead result bytes.now }
{
    if PAGE_BYTES < bytes.len() {
        return Err(PageFault::Rule(PageRule::TooLong.number(), PAGE_BYTES as u32));
    }
    match str::from_utf8(bytes) {
        Ok(text) => read_text(alloc, text),
        Err(error) => Err(PageFault::Rule(PageRule::NotUtf8.number(), error.valid_up_to() as u32)),
    }
}

/// The page that a text is, or the rule that it breaks.
fn read_text(alloc: Global, text: &str) -> Result<PageTree, PageFault>
    requires { length text.now ≤ PAGE_BYTES }
    ensures { TreeRead result text.now }
{
    let mut slices = Items::new(alloc);
    match read_characters(alloc, text, &mut slices) {
        Ok(root) => {
            let scripts = numbered(alloc, slices.as_slice())?;
            Ok(PageTree { root, scripts })
        }
        Err(error) => Err(error.into_fault()),
    }
}

/// The root of a page, with its scripts put to the slices.
fn read_characters(alloc: Global, text: &str, slices: &mut Items<Slice>) -> Result<Node, ReadError>
    requires few { length text.now ≤ PAGE_BYTES }
    requires none { slices.old ≡ [] }
    ensures { (rest : List Char) × ReadsAs (λ root. found root slices.new)
        (read stop (page levels_below) (placed 0 (chars text.now))) result rest × OnOk result
        (rest ≡ []) }
{
    Reader::new(text).page(alloc, LEVELS_BELOW, slices)
}

/// The scripts of these slices, numbered from 0.
fn numbered(alloc: Global, slices: &[Slice]) -> Result<Vec<ScriptText>, NoMemory>
    requires { length slices.now < 2 ^ 32 }
    ensures { IfOk result (λ scripts. scripts.items ≡ pages.numbered 0 slices.now) }
{
    let mut scripts = Vec::with_capacity(alloc, slices.len())?;
    for (index, slice) in slices.iter().enumerate() {
        scripts.push(ScriptText {
            index: index as u32,
            at: slice.start,
            end: slice.end,
        })?;
    }
    Ok(scripts)
}
