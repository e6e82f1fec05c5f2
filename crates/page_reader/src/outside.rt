//! The whole page: a doctype, pads and the root.
ghost use Rattle.std.specs.Prelude.{◌≡◌, [], IsTrue, OnOk};
ghost use Rattle.grammar.specs.Grammar.{first};
ghost use Rattle.grammar.specs.Reading.{read};
ghost use Rattle.placed_chars.specs.Chars.{stop};
ghost use Rattle.page_reader.specs.Content.{found};
ghost use Rattle.page_reader.specs.PageForm as form;
ghost use Rattle.page_reader.specs.Classes as class;
ghost use Rattle.page_reader.specs.Reads.{Reads, ReadsAs};
ghost use Rattle.page_reader.specs.Rules as rules;

use crate::classes::{is_end, is_letter, is_white, lower};
use crate::fault::{PageRule, ReadError};
use crate::node::{Node, Slice};
use crate::reader::{Reader, broken};
use sqlite_items::Items;
use std::alloc::Global;

/// Where the reading stands before the root: before it, or behind its `<`, which stands at this byte,
/// and its first letter.
#[derive(Clone, Copy)]
pub enum Outside {
    Seeking,
    Opening(u32, u16),
}

impl<'a> Reader<'a> {
    /// Takes this letter of the doctype, whose `<` stands at the byte `at`, in any case.
    fn doctype_letter(&mut self, at: u32, letter: u8) -> Result<(), ReadError>
        ensures { Reads (read stop (rules.must (class.is_any_case letter) (form.no_doctype at))
            self.old) result self.new }
    {
        let code = self.code();
        if is_end(code) {
            return Err(broken(PageRule::RootCount, self.place()));
        }
        if lower(code) != u32::from(letter) {
            return Err(broken(PageRule::BadTag, at));
        }
        self.advance();
        Ok(())
    }

    /// Takes these letters of the doctype.
    fn word(&mut self, at: u32, letters: &[u8]) -> Result<(), ReadError>
        ensures { Reads (read stop (form.word at letters.now) self.old) result self.new }
    {
        for letter in letters {
            self.doctype_letter(at, *letter)?;
        }
        Ok(())
    }

    /// Takes the doctype or a comment behind the `<!` that the page begins with.
    fn front_bang(&mut self, at: u32) -> Result<(), ReadError>
        ensures { Reads (read stop (form.front_bang at) self.old) result self.new }
    {
        if self.is_at('d') || self.is_at('D') {
            self.advance();
            return self.word(at, b"octype html>");
        }
        self.comment(at)
    }

    /// Takes a comment, or at the front also the doctype, behind its `<!`.
    fn bang(&mut self, is_front: bool, at: u32) -> Result<(), ReadError>
        ensures { Reads (read stop (form.bang is_front at) self.old) result self.new }
    {
        if is_front {
            self.front_bang(at)
        } else {
            self.comment(at)
        }
    }

    /// Takes what stands behind a `<` before the root.
    fn before_root(&mut self, is_front: bool, at: u32) -> Result<Outside, ReadError>
        ensures { Reads (read stop (form.before_root is_front at) self.old) result self.new }
    {
        if self.is_at('!') {
            self.advance();
            self.bang(is_front, at)?;
            return Ok(Outside::Seeking);
        }
        let letter = self.code();
        if is_letter(letter) {
            self.advance();
            return Ok(Outside::Opening(at, letter as u16));
        }
        if self.is_at('/') {
            return Err(self.cut_off(at, PageRule::RootCount, at));
        }
        Err(self.cut_off(at, PageRule::BadTag, at))
    }

    /// Takes the `<` that the page begins with, if it does, and what stands behind it.
    #[tactic(auto, using(crate::proofs::Turns::front_lt))]
    fn front(&mut self) -> Result<Outside, ReadError>
        ensures { Reads (read stop form.front self.old) result self.new }
    {
        if self.is_at('<') {
            let at = self.place();
            self.advance();
            self.before_root(true, at)
        } else {
            Ok(Outside::Seeking)
        }
    }

    fn at_pad(&self) -> bool
        ensures { result ≡ form.is_pad (first self.now stop).code }
    {
        is_white(self.code()) || self.is_at('<')
    }

    fn seeks(&self, outside: Outside) -> bool
        ensures { result ≡ form.outside_goes outside (first self.now stop) }
    {
        match outside {
            Outside::Seeking => self.at_pad(),
            Outside::Opening(_, _) => false,
        }
    }

    /// Takes white space, a comment or the root's first letter.
    fn pad_before(&mut self, outside: Outside) -> Result<Outside, ReadError>
        requires { IsTrue (form.outside_goes outside (first self.old stop)) }
        ensures { Reads (read stop (form.pad_before outside) self.old) result self.new }
    {
        match outside {
            Outside::Seeking => {
                if is_white(self.code()) {
                    self.advance();
                    return Ok(Outside::Seeking);
                }
                let at = self.place();
                self.advance();
                self.before_root(false, at)
            }
            Outside::Opening(_, _) => Ok(outside),
        }
    }

    /// Takes the root, with so many levels below it.
    fn root(
        &mut self,
        alloc: Global,
        room: u8,
        outside: Outside,
        scripts: &mut Items<Slice>,
    ) -> Result<Node, ReadError>
        requires { scripts.old ≡ [] }
        ensures { ReadsAs (λ node. found node scripts.new)
            (read stop (form.root room outside) self.old) result self.new }
    {
        match outside {
            Outside::Seeking => Err(broken(PageRule::RootCount, self.place())),
            Outside::Opening(at, letter) => self.element(alloc, room, at, scripts, letter),
        }
    }

    /// Takes what stands behind a `<` behind the root.
    fn behind_root(&mut self, at: u32) -> Result<(), ReadError>
        ensures { Reads (read stop (form.behind_root at) self.old) result self.new }
    {
        if self.is_at('!') {
            self.advance();
            return self.comment(at);
        }
        if self.is_at('/') || is_letter(self.code()) {
            return Err(self.cut_off(at, PageRule::RootCount, at));
        }
        Err(self.cut_off(at, PageRule::BadTag, at))
    }

    /// Takes white space or a comment behind the root.
    fn pad_behind(&mut self) -> Result<(), ReadError>
        requires { IsTrue (form.is_pad (first self.old stop).code) }
        ensures { Reads (read stop (form.pad_behind tt) self.old) result self.new }
    {
        if is_white(self.code()) {
            self.advance();
            return Ok(());
        }
        let at = self.place();
        self.advance();
        self.behind_root(at)
    }

    /// Takes the end.
    fn last(&mut self) -> Result<(), ReadError>
        ensures value { Reads (read stop form.last self.old) result self.new }
        ensures over { OnOk result (self.new ≡ []) }
    {
        if !self.is_at_end() {
            return Err(broken(PageRule::RootCount, self.place()));
        }
        self.advance();
        Ok(())
    }

    /// Takes a whole page, with so many levels below the root.
    pub(crate) fn page(
        &mut self,
        alloc: Global,
        room: u8,
        scripts: &mut Items<Slice>,
    ) -> Result<Node, ReadError>
        requires { scripts.old ≡ [] }
        ensures value { ReadsAs (λ node. found node scripts.new)
            (read stop (form.page room) self.old) result self.new }
        ensures over { OnOk result (self.new ≡ []) }
    {
        let mut outside = self.front()?;
        'front_pads: while self.seeks(outside) {
            outside = self.pad_before(outside)?;
        }
        let node = self.root(alloc, room, outside, scripts)?;
        'back_pads: while self.at_pad() {
            self.pad_behind()?;
        }
        self.last()?;
        Ok(node)
    }
}
