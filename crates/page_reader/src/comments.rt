//! Comments.
ghost use Rattle.std.specs.Prelude.{◌≡◌};
ghost use Rattle.grammar.specs.Grammar.{first};
ghost use Rattle.grammar.specs.Reading.{read};
ghost use Rattle.placed_chars.specs.Chars.{stop};
ghost use Rattle.page_reader.specs.Comments as form;
ghost use Rattle.page_reader.specs.Reads.{Reads};

use crate::classes::is_end;
use crate::fault::{PageRule, ReadError};
use crate::reader::Reader;

/// How many dashes stand last behind one more character, 2 for more of them.
fn dashes_after(dashes: u8, code: u32) -> u8
    ensures { result ≡ form.dashes_after dashes code }
{
    if code == '-' as u32 {
        if dashes == 0 { 1 } else { 2 }
    } else {
        0
    }
}

impl<'a> Reader<'a> {
    fn in_comment(&self, dashes: u8) -> bool
        ensures { result ≡ form.comment_goes dashes (first self.now stop) }
    {
        let code = self.code();
        !(is_end(code) || (dashes == 2 && code == '>' as u32))
    }

    /// Takes a comment behind its `<!`; its `<` stands at the byte `at`.
    #[tactic(auto, unfolding(crate::specs::Comments::comment))]
    pub(crate) fn comment(&mut self, at: u32) -> Result<(), ReadError>
        ensures { Reads (read stop (form.comment at) self.old) result self.new }
    {
        self.must('-', at, PageRule::BadTag, at)?;
        self.must('-', at, PageRule::BadTag, at)?;
        let mut dashes = 0;
        'characters: while self.in_comment(dashes) {
            dashes = dashes_after(dashes, self.code());
            self.advance();
        }
        self.close(at)
    }
}
