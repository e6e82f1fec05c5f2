//! Names of elements and attributes.
ghost use Rattle.std.specs.Prelude.{◌≡◌, ◌<◌};
ghost use Rattle.grammar.specs.Reading.{read};
ghost use Rattle.placed_chars.specs.Chars.{stop};
ghost use Rattle.page_reader.specs.Names as form;
ghost use Rattle.page_reader.specs.Reads.{Reads};

use crate::classes::{is_part, lower};
use crate::fault::ReadError;
use crate::reader::Reader;
use page_units::Text;
use std::alloc::Global;

impl<'a> Reader<'a> {
    /// Takes a name behind its first letter, and answers it lowered.
    #[tactic(auto, unfolding(crate::specs::Names::name))]
    pub(crate) fn name(&mut self, alloc: Global, letter: u16) -> Result<Text, ReadError>
        ensures { Reads (read stop (form.name letter) self.old) result self.new }
    {
        let mut name = Vec::new(alloc);
        name.push(lower(u32::from(letter)) as u16)?;
        'characters: while is_part(self.code()) {
            name.push(lower(self.code()) as u16)?;
            self.advance();
        }
        Ok(Text::of_units(name)?)
    }
}

/// Whether it is the element whose content is a script.
pub(crate) fn is_script(name: &Text) -> bool
    ensures { result ≡ form.is_script name.now }
{
    name.is_word(b"script")
}

/// Whether it is the attribute that no script may have.
pub(crate) fn is_src(name: &Text) -> bool
    ensures { result ≡ form.is_src name.now }
{
    name.is_word(b"src")
}
