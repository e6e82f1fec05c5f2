//! Start tags and end tags.
ghost use Rattle.std.specs.Prelude.{◌≡◌};
ghost use Rattle.grammar.specs.Grammar.{first};
ghost use Rattle.grammar.specs.Reading.{read};
ghost use Rattle.placed_chars.specs.Chars.{stop};
ghost use Rattle.page_reader.specs.declared.fault.ReadError.TheVariants as errors;
ghost use Rattle.page_reader.specs.Reads.{Reads};
ghost use Rattle.page_reader.specs.Rules as rules;
ghost use Rattle.page_reader.specs.Tags as form;

use crate::classes::{ends_attribute, ends_name, is_letter, is_part, is_white, lower};
use crate::fault::{PageRule, ReadError};
use crate::node::Started;
use crate::reader::Reader;
use page_units::Text;
use std::alloc::Global;
use tree_shape::is_void;

impl<'a> Reader<'a> {
    /// Takes the end of the start tag that begins at the byte `tag_at`, and answers the byte behind it.
    fn tag_end(&mut self, tag_at: u32, tag: &Text) -> Result<u32, ReadError>
        ensures { Reads (read stop (form.tag_end tag_at tag.now) self.old) result self.new }
    {
        let is_slash = self.is_at('/');
        if is_slash && !is_void(tag) {
            return Err(self.cut_off(tag_at, PageRule::BadTag, tag_at));
        }
        if is_slash {
            self.advance();
        }
        let end = self.here();
        if end.code == '>' as u32 {
            self.advance();
            return Ok(end.past as u32);
        }
        if is_slash {
            return Err(self.cut_off(tag_at, PageRule::BadTag, tag_at));
        }
        Err(self.cut_off(tag_at, PageRule::BadAttribute, end.at as u32))
    }

    /// Takes the rest of a start tag behind its name.
    #[tactic(auto, unfolding(crate::specs::Tags::start_tag))]
    pub(crate) fn start_tag(
        &mut self,
        alloc: Global,
        tag_at: u32,
        tag: &Text,
    ) -> Result<Started, ReadError>
        ensures { Reads (read stop (form.start_tag tag_at tag.now) self.old) result self.new }
    {
        if !ends_attribute(self.code()) {
            return Err(self.cut_off(tag_at, PageRule::BadTag, tag_at));
        }
        let attributes = self.attributes(alloc, tag_at, tag)?;
        let start = self.tag_end(tag_at, tag)?;
        Ok(Started { attributes, start })
    }

    /// Takes this letter of the innermost element's name; the end tag begins at the byte `at`.
    fn same_letter(&mut self, at: u32, letter: u16) -> Result<(), ReadError>
        ensures { Reads (read stop (rules.must (form.same_letter letter) (form.not_this at))
            self.old) result self.new }
    {
        let code = self.code();
        if is_part(code) && lower(code) == u32::from(letter) {
            self.advance();
            return Ok(());
        }
        Err(self.not_this(at))
    }

    /// What another character shows than the next one of the innermost element's name; the end tag begins
    /// at the byte `at`.
    fn not_this(&self, at: u32) -> ReadError
        ensures { result ≡ errors.Page (form.not_this at (first self.now stop)) }
    {
        let code = self.code();
        if is_part(code) || ends_name(code) {
            self.cut_off(at, PageRule::Mismatch, at)
        } else {
            self.cut_off(at, PageRule::BadTag, at)
        }
    }

    /// Takes the innermost element's name.
    fn same_name(&mut self, at: u32, name: &Text) -> Result<(), ReadError>
        ensures { Reads (read stop (form.same_name at name.now) self.old) result self.new }
    {
        for letter in name.units() {
            self.same_letter(at, *letter)?;
        }
        let code = self.code();
        if ends_name(code) {
            return Ok(());
        }
        if is_part(code) {
            return Err(self.cut_off(at, PageRule::Mismatch, at));
        }
        Err(self.cut_off(at, PageRule::BadTag, at))
    }

    /// Takes the end tag of this name behind its `</`; its `<` stands at the byte `at`.
    #[tactic(auto, unfolding(crate::specs::Tags::end_tag))]
    pub(crate) fn end_tag(&mut self, at: u32, name: &Text) -> Result<(), ReadError>
        ensures { Reads (read stop (form.end_tag at name.now) self.old) result self.new }
    {
        if !is_letter(self.code()) {
            return Err(self.cut_off(at, PageRule::BadTag, at));
        }
        self.same_name(at, name)?;
        'spaces: while is_white(self.code()) {
            self.advance();
        }
        self.must('>', at, PageRule::BadTag, at)
    }
}
