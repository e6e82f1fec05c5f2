//! Attributes, in the start tag that begins at the byte `tag_at`.
ghost use Rattle.std.specs.Prelude.{◌≡◌, [], IsTrue};
ghost use Rattle.grammar.specs.Grammar.{first};
ghost use Rattle.grammar.specs.Reading.{read};
ghost use Rattle.placed_chars.specs.Chars.{stop};
ghost use Rattle.page_reader.specs.declared.fault.ReadError.TheVariants as errors;
ghost use Rattle.page_reader.specs.Attributes as form;
ghost use Rattle.page_reader.specs.Attributes.{Listing};
ghost use Rattle.page_reader.specs.Reads.{Reads, ReadsAs};
ghost use Rattle.page_reader.specs.Rules as rules;

use crate::classes::{ends_attribute, is_end, is_letter, is_quote, is_white};
use crate::fault::{PageRule, ReadError};
use crate::named::NamedAttributes;
use crate::names::{is_script, is_src};
use crate::node::Attribute;
use crate::reader::{Reader, broken, push_code};
use page_units::Text;
use sqlite_items::Items;
use std::alloc::Global;
use tree_shape::is_void;

impl<'a> Reader<'a> {
    fn in_value(&self, quote: u32) -> bool
        ensures { result ≡ form.in_value quote (first self.now stop).code }
    {
        let code = self.code();
        !is_end(code) && code != quote
    }

    /// Takes a reference or a character of a value.
    fn value_piece(
        &mut self,
        tag_at: u32,
        quote: u32,
        units: &mut Vec<u16>,
    ) -> Result<(), ReadError>
        requires { IsTrue (form.in_value quote (first self.old stop).code) }
        ensures { ReadsAs (λ _. units.new.items) (read stop
            (form.value_piece tag_at quote units.old.items) self.old) result self.new }
    {
        let next = self.here();
        self.advance();
        if next.code != '&' as u32 {
            push_code(units, next.code)?;
            return Ok(());
        }
        let c = self.reference(tag_at, next.at as u32)?;
        push_code(units, c)?;
        Ok(())
    }

    /// Takes a value behind its first quote.
    #[tactic(auto, unfolding(crate::specs::Attributes::value))]
    fn value(&mut self, alloc: Global, tag_at: u32, quote: u32) -> Result<Text, ReadError>
        ensures { Reads (read stop (form.value tag_at quote) self.old) result self.new }
    {
        let mut units = Vec::new(alloc);
        'pieces: while self.in_value(quote) {
            self.value_piece(tag_at, quote, &mut units)?;
        }
        if is_end(self.code()) || self.code() != quote {
            return Err(broken(PageRule::Unclosed, tag_at));
        }
        self.advance();
        Ok(Text::of_units(units)?)
    }

    /// Takes what stands behind the name of the attribute that begins at the byte `at`.
    fn after_name(&mut self, alloc: Global, tag_at: u32, at: u32) -> Result<Text, ReadError>
        ensures { Reads (read stop (form.after_name tag_at at) self.old) result self.new }
    {
        if self.is_at('=') {
            self.advance();
            let quote = self.code();
            if !is_quote(quote) {
                return Err(self.cut_off(tag_at, PageRule::BadAttribute, at));
            }
            self.advance();
            return self.value(alloc, tag_at, quote);
        }
        if ends_attribute(self.code()) {
            return Ok(Text::of_units(Vec::new(alloc))?);
        }
        Err(self.cut_off(tag_at, PageRule::BadAttribute, self.place()))
    }

    /// What is broken by an attribute whose name this tag can't have.
    fn wrong(&self, tag_at: u32, tag: &Text, rule: PageRule, at: u32) -> ReadError
        ensures { result ≡ errors.Page (form.wrong tag_at tag.now (rules.fault rule at)
            (first self.now stop)) }
    {
        if self.is_at('/') && !is_void(tag) {
            self.cut_off(tag_at, PageRule::BadTag, tag_at)
        } else {
            self.cut_off(tag_at, rule, at)
        }
    }

    /// Takes the rest of an attribute of this name.
    fn named_so(
        &mut self,
        alloc: Global,
        tag_at: u32,
        tag: &Text,
        earlier: &NamedAttributes,
        at: u32,
        name: Text,
    ) -> Result<Attribute, ReadError>
        ensures { Reads (read stop (form.named_so tag_at tag.now earlier.now at name) self.old)
            result self.new }
    {
        if is_script(tag) && is_src(&name) {
            return Err(self.wrong(tag_at, tag, PageRule::BadAttribute, at));
        }
        if earlier.has_name(&name) {
            return Err(self.wrong(tag_at, tag, PageRule::TwiceNamed, at));
        }
        let value = self.after_name(alloc, tag_at, at)?;
        Ok(Attribute { name, value })
    }

    /// Takes an attribute behind its first letter, which stands at the byte `at`.
    #[tactic(auto, unfolding(crate::specs::Attributes::attribute))]
    fn attribute(
        &mut self,
        alloc: Global,
        tag_at: u32,
        tag: &Text,
        earlier: &NamedAttributes,
        at: u32,
        letter: u16,
    ) -> Result<Attribute, ReadError>
        ensures { Reads (read stop (form.attribute tag_at tag.now earlier.now at letter) self.old)
            result self.new }
    {
        let name = self.name(alloc, letter)?;
        self.named_so(alloc, tag_at, tag, earlier, at, name)
    }

    fn in_attributes(&self, is_spaced: bool) -> bool
        ensures { result ≡ form.attributes_go (Listing [] is_spaced) (first self.now stop) }
    {
        let code = self.code();
        is_white(code) || (is_letter(code) && is_spaced)
    }

    /// Takes a white space or an attribute, and answers whether it was white space.
    fn attributes_piece(
        &mut self,
        alloc: Global,
        tag_at: u32,
        tag: &Text,
        earlier: &mut NamedAttributes,
        is_spaced: bool,
    ) -> Result<bool, ReadError>
        requires { IsTrue (form.attributes_go (Listing earlier.old is_spaced) (first self.old stop)) }
        ensures { ReadsAs (λ spaced. Listing earlier.new spaced)
            (read stop (form.attributes_piece tag_at tag.now (Listing earlier.old is_spaced))
            self.old) result self.new }
    {
        let letter = self.code();
        let at = self.place();
        self.advance();
        if is_white(letter) {
            return Ok(true);
        }
        let attribute = self.attribute(alloc, tag_at, tag, earlier, at, letter as u16)?;
        earlier.push(alloc, attribute)?;
        Ok(false)
    }

    /// Takes the attributes of a start tag behind its name.
    #[tactic(auto, unfolding(crate::specs::Attributes::attributes))]
    pub(crate) fn attributes(
        &mut self,
        alloc: Global,
        tag_at: u32,
        tag: &Text,
    ) -> Result<Items<Attribute>, ReadError>
        ensures { Reads (read stop (form.attributes tag_at tag.now) self.old) result self.new }
    {
        let mut earlier = NamedAttributes::new(alloc);
        let mut is_spaced = false;
        'pieces: while self.in_attributes(is_spaced) {
            is_spaced = self.attributes_piece(alloc, tag_at, tag, &mut earlier, is_spaced)?;
        }
        Ok(earlier.into_items())
    }
}
