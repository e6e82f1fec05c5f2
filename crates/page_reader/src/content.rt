//! Elements and what stands in them.
ghost use Rattle.std.specs.Prelude.{◌≡◌, false, [], IsTrue, IfOk, OnOk};
ghost use Rattle.grammar.specs.Grammar.{first};
ghost use Rattle.grammar.specs.Reading.{read};
ghost use Rattle.placed_chars.specs.Chars.{stop, is_end};
ghost use Rattle.page_reader.specs.Classes as class;
ghost use Rattle.page_reader.specs.Content as form;
ghost use Rattle.page_reader.specs.Content.{Inside, found};
ghost use Rattle.page_reader.specs.Reads.{ReadsAs, content};

use crate::classes::{is_end, is_letter};
use crate::fault::{PageRule, ReadError};
use crate::names::is_script;
use crate::node::{Node, Slice, Started};
use crate::reader::{Reader, broken, push_code};
use page_units::{NoMemory, Text};
use sqlite_items::Items;
use std::alloc::Global;
use std::mem;
use tree_shape::{is_raw, is_void};

/// Makes a node of the text, unless it is empty.
#[tactic(auto, using(crate::proofs::Levels::flushed_text, crate::proofs::Levels::flushed_none))]
fn flush(alloc: Global, children: &mut Items<Node>, units: &mut Vec<u16>) -> Result<(), NoMemory>
    ensures children { OnOk result (children.new ≡ form.flushed children.old units.old.items) }
    ensures units { OnOk result (units.new.items ≡ []) }
{
    if !units.is_empty() {
        let chars = mem::replace(units, Vec::new(alloc));
        children.push(Node::Chars(Text::of_units(chars)?))?;
    }
    Ok(())
}

impl<'a> Reader<'a> {
    /// Takes a comment, the end tag or a child behind the `<` at the byte `at`, and answers whether it
    /// was the end tag.
    #[cycle(element)]
    #[tactic(auto, using(crate::proofs::Levels::may_opened, crate::proofs::Levels::markup_child))]
    fn markup(
        &mut self,
        alloc: Global,
        room: u8,
        tag: &Text,
        at: u32,
        children: &mut Items<Node>,
        units: &mut Vec<u16>,
        scripts: &mut Items<Slice>,
    ) -> Result<bool, ReadError>
        ensures { ReadsAs (λ ended. content ended children.new units.new.items scripts.new)
            (read stop (form.markup (form.opened room) tag.now at children.old units.old.items
            scripts.old) self.old) result self.new }
    {
        if self.is_at('!') {
            self.advance();
            self.comment(at)?;
            return Ok(false);
        }
        if self.is_at('/') {
            self.advance();
            self.end_tag(at, tag)?;
            flush(alloc, children, units)?;
            return Ok(true);
        }
        if is_letter(self.code()) {
            let child = self.opened(alloc, room, at, scripts)?;
            flush(alloc, children, units)?;
            children.push(child)?;
            return Ok(false);
        }
        Err(self.cut_off(at, PageRule::BadTag, at))
    }

    /// Takes a character, a reference, or what begins with a `<`, and answers whether it was the end
    /// tag.
    #[cycle(element)]
    fn piece(
        &mut self,
        alloc: Global,
        room: u8,
        tag_at: u32,
        tag: &Text,
        children: &mut Items<Node>,
        units: &mut Vec<u16>,
        scripts: &mut Items<Slice>,
    ) -> Result<bool, ReadError>
        requires { is_end (first self.old stop).code ≡ false }
        ensures { ReadsAs (λ ended. content ended children.new units.new.items scripts.new)
            (read stop (form.piece (form.opened room) tag_at tag.now
            (Inside children.old units.old.items scripts.old)) self.old) result self.new }
    {
        let code = self.code();
        let at = self.place();
        self.advance();
        if code == '&' as u32 {
            let c = self.reference(tag_at, at)?;
            push_code(units, c)?;
            return Ok(false);
        }
        if code == '<' as u32 {
            return self.markup(alloc, room, tag, at, children, units, scripts);
        }
        push_code(units, code)?;
        Ok(false)
    }

    /// Takes children and the end tag.
    #[cycle(element)]
    fn full_body(
        &mut self,
        alloc: Global,
        room: u8,
        tag_at: u32,
        tag: Text,
        started: Started,
        scripts: &mut Items<Slice>,
    ) -> Result<Node, ReadError>
        ensures { ReadsAs (λ node. found node scripts.new)
            (read stop (form.full_body (form.opened room) tag_at tag started scripts.old) self.old)
            result self.new }
    {
        let mut children = Items::new(alloc);
        let mut units = Vec::new(alloc);
        let mut is_closed = false;
        'pieces: while !is_closed && !is_end(self.code()) {
            is_closed = self.piece(
                alloc,
                room,
                tag_at,
                &tag,
                &mut children,
                &mut units,
                scripts,
            )?;
        }
        if !is_closed {
            return Err(broken(PageRule::Unclosed, tag_at));
        }
        Ok(Node::Element(tag, started.attributes, children))
    }

    /// Takes raw content and the end tag.
    fn raw_body(
        &mut self,
        alloc: Global,
        tag_at: u32,
        tag: Text,
        started: Started,
        scripts: &mut Items<Slice>,
    ) -> Result<Node, ReadError>
        ensures { ReadsAs (λ node. found node scripts.new)
            (read stop (form.raw_body tag_at tag started scripts.old) self.old) result self.new }
    {
        let content = self.raw(alloc, tag_at, &tag)?;
        if is_script(&tag) {
            scripts.push(Slice {
                start: started.start,
                end: content.end,
            })?;
        }
        let children = raw_children(alloc, content.text)?;
        Ok(Node::Element(tag, started.attributes, children))
    }

    /// Takes what stands behind a start tag.
    #[cycle(element)]
    fn body(
        &mut self,
        alloc: Global,
        room: u8,
        tag_at: u32,
        tag: Text,
        started: Started,
        scripts: &mut Items<Slice>,
    ) -> Result<Node, ReadError>
        ensures { ReadsAs (λ node. found node scripts.new)
            (read stop (form.body (form.opened room) tag_at tag started scripts.old) self.old)
            result self.new }
    {
        if is_void(&tag) {
            return Ok(Node::Element(tag, started.attributes, Items::new(alloc)));
        }
        if is_raw(&tag) {
            return self.raw_body(alloc, tag_at, tag, started, scripts);
        }
        self.full_body(alloc, room, tag_at, tag, started, scripts)
    }

    /// Takes an element behind its `<` at the byte `tag_at` and the first letter of its name.
    #[cycle(element)]
    pub(crate) fn element(
        &mut self,
        alloc: Global,
        room: u8,
        tag_at: u32,
        scripts: &mut Items<Slice>,
        letter: u16,
    ) -> Result<Node, ReadError>
        ensures { ReadsAs (λ node. found node scripts.new)
            (read stop (form.element (form.opened room) tag_at scripts.old letter) self.old)
            result self.new }
    {
        let tag = self.name(alloc, letter)?;
        let started = self.start_tag(alloc, tag_at, &tag)?;
        self.body(alloc, room, tag_at, tag, started, scripts)
    }

    /// Takes an element behind its `<` at the byte `at`, where so many levels are left.
    #[cycle(element)]
    #[tactic(auto, using(crate::proofs::Levels::no_level, crate::proofs::Levels::one_level))]
    fn opened(
        &mut self,
        alloc: Global,
        room: u8,
        at: u32,
        scripts: &mut Items<Slice>,
    ) -> Result<Node, ReadError>
        requires { IsTrue (class.is_letter (first self.old stop).code) }
        ensures { ReadsAs (λ node. found node scripts.new)
            (read stop (form.opened room at scripts.old) self.old) result self.new }
    {
        if room == 0 {
            return Err(broken(PageRule::Nesting, at));
        }
        let letter = self.code();
        self.advance();
        self.element(alloc, room - 1, at, scripts, letter as u16)
    }
}

/// Raw content as a node, or none where it is empty.
#[tactic(auto, using(crate::proofs::Levels::flushed_text, crate::proofs::Levels::flushed_none))]
fn raw_children(alloc: Global, text: Text) -> Result<Items<Node>, NoMemory>
    ensures { IfOk result (λ children. children ≡ form.flushed [] text) }
{
    let mut children = Items::new(alloc);
    if !text.is_empty() {
        children.push(Node::Chars(text))?;
    }
    Ok(children)
}
