//! Raw content.
ghost use Rattle.std.specs.Prelude.{◌≡◌, ◌≤◌, length, IfOk, MatchOption};
ghost use Rattle.grammar.specs.Grammar.{first};
ghost use Rattle.grammar.specs.Reading.{read};
ghost use Rattle.placed_chars.specs.Chars.{stop};
ghost use Rattle.page_reader.specs.Raw as form;
ghost use Rattle.page_reader.specs.Reads.{Reads};

use crate::classes::{is_end, is_white, lower};
use crate::fault::{PageRule, ReadError};
use crate::node::RawContent;
use crate::reader::{Reader, broken, push_code};
use page_units::{NoMemory, Text};
use std::alloc::Global;

/// Whether the units are this name, which is lowered, in any case.
#[tactic(auto, using(crate::proofs::Called::called_short))]
fn is_called(name: &[u16], units: &[u16]) -> bool
    ensures { result ≡ form.is_called name.now units.now }
{
    let mut rest = units;
    for letter in name {
        match rest.split_first() {
            Some((unit, more)) => {
                if lower(u32::from(*unit)) != u32::from(*letter) {
                    return false;
                }
                rest = more;
            }
            None => return false,
        }
    }
    rest.is_empty()
}

fn is_slash_and_name(name: &[u16], units: &[u16]) -> bool
    ensures { result ≡ form.is_slash_and_name name.now units.now }
{
    match units.split_first() {
        Some((unit, rest)) => *unit == u16::from(b'/') && is_called(name, rest),
        None => false,
    }
}

/// Whether the units are an end tag of this name, but for its white space and its `>`.
fn is_end_tag(name: &[u16], units: &[u16]) -> bool
    ensures { result ≡ form.is_end_tag name.now units.now }
{
    match units.split_first() {
        Some((unit, rest)) => *unit == u16::from(b'<') && is_slash_and_name(name, rest),
        None => false,
    }
}

/// How many units are left where white space at the end is taken off.
fn trimmed(units: &[u16]) -> usize
    ensures value { result ≡ form.trimmed units.now (length units.now) }
    ensures within { result ≤ length units.now }
{
    let mut count = units.len();
    'spaces: while 0 < count && is_white(u32::from(units[count - 1])) {
        count -= 1;
    }
    count
}

/// Behind how many units the end tag of this name begins in which they end, but for its `>`.
fn end_tag_at(name: &[u16], units: &[u16]) -> Option<usize>
    ensures value { result ≡ form.end_tag_at name.now units.now }
    ensures within { MatchOption result (Unit {0}) (λ count. count ≤ length units.now) }
{
    let count = trimmed(units);
    let tag = name.len() + 2;
    if tag <= count && is_end_tag(name, &units[count - tag..count]) {
        Some(count - tag)
    } else {
        None
    }
}

/// The content before the end tag whose `>` stands at the byte `at`.
fn before_end_tag(
    alloc: Global,
    name: &Text,
    mut units: Vec<u16>,
    at: u32,
) -> Result<RawContent, NoMemory>
    ensures { IfOk result (λ content. content ≡ form.before_end_tag units.items
        (form.end_tag_at name.now units.items) at) }
{
    match end_tag_at(name.units(), units.as_slice()) {
        Some(count) => {
            let tag = units.len() - count;
            units.truncate(count);
            Ok(RawContent {
                text: Text::of_units(units)?,
                end: (at as usize).saturating_sub(tag) as u32,
            })
        }
        None => Ok(RawContent {
            text: Text::of_units(Vec::new(alloc))?,
            end: at,
        }),
    }
}

impl<'a> Reader<'a> {
    fn in_raw(&self, name: &[u16], units: &[u16]) -> bool
        ensures { result ≡ form.raw_goes name.now units.now (first self.now stop) }
    {
        let code = self.code();
        if is_end(code) {
            return false;
        }
        code != '>' as u32 || end_tag_at(name, units).is_none()
    }

    /// Takes raw content and the end tag of this name.
    #[tactic(auto, unfolding(crate::specs::Raw::raw))]
    pub(crate) fn raw(
        &mut self,
        alloc: Global,
        tag_at: u32,
        name: &Text,
    ) -> Result<RawContent, ReadError>
        ensures { Reads (read stop (form.raw tag_at name.now) self.old) result self.new }
    {
        let mut units = Vec::new(alloc);
        'characters: while self.in_raw(name.units(), units.as_slice()) {
            push_code(&mut units, self.code())?;
            self.advance();
        }
        if !self.is_at('>') {
            return Err(broken(PageRule::Unclosed, tag_at));
        }
        let at = self.place();
        self.advance();
        Ok(before_end_tag(alloc, name, units, at)?)
    }
}
