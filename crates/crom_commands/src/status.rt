//! How a run ended.
ghost use Rattle.std.specs.Prelude.{◌≡◌, Some};
ghost use Rattle.std.specs.Option.{option_copied};
ghost use Rattle.crom_commands.specs.Statuses.{status_number, status_line};
ghost use Rattle.crom_commands.specs.Faults as faults;
ghost use Rattle.crom_commands.specs.Statuses as spec;

use js_lexer::LexFault;
use js_parser::ScriptFault;
use page_loading::LoadFault;
use page_reader::PageFault;
use std::fmt;

/// How a run ended, with the number that the program ends with and the line that it prints to
/// standard error.
#[derive(Clone, Copy, Debug, PartialEq, Eq)]
pub enum Status {
    /// The work came to its end, and nothing failed.
    Ended,
    /// The arguments aren't `stdio PAGE` or `check PAGE`.
    Usage,
    /// The page's bytes are no page: the number of the rule that they break, and the byte at which.
    Page(PageFault),
    /// A script of the page is none: the first such by its number, in tree order from 0, and what is
    /// wrong with it.
    Script(u32, ScriptFault),
    /// Reading the input failed.
    ReadFault,
    /// Writing the output failed.
    WriteFault,
    /// Memory was refused.
    NoMemory,
    /// The page's file couldn't be read.
    ShelfFault,
    /// The input ended inside a request.
    Truncated,
    /// As many requests were answered as a run answers at the most, and one more came, whole or
    /// refused.
    RequestBound,
    /// The page has a script, and scripts aren't run yet.
    NotBuilt,
}

impl Status {
    /// The status of a run whose page wasn't loaded.
    pub(crate) fn of_load(fault: LoadFault) -> Status
        ensures { result ≡ faults.status_of fault }
    {
        match fault {
            LoadFault::Page(PageFault::Rule(rule, at)) => Status::Page(PageFault::Rule(rule, at)),
            LoadFault::Page(PageFault::NoMemory) => Status::NoMemory,
            LoadFault::Script(index, fault) => Status::Script(index, fault),
            LoadFault::NoMemory => Status::NoMemory,
        }
    }

    /// The number that the program ends with.
    pub fn number(self) -> u8
        ensures { result ≡ status_number self }
    {
        match self {
            Status::Ended => 0,
            Status::Usage => 2,
            Status::Page(_) | Status::Script(_, _) => 3,
            Status::ReadFault => 4,
            Status::WriteFault => 5,
            Status::NoMemory => 6,
            Status::ShelfFault => 7,
            Status::Truncated => 8,
            Status::RequestBound => 10,
            Status::NotBuilt => 11,
        }
    }
}

/// The line for standard error, without its line feed; nothing where the work came to its end.
impl fmt::Display for Status {
    ghost output = { λ status. Some (status_line status) };

    fn fmt<W: fmt::Write>(&self, f: &mut fmt::Formatter<W>) -> fmt::Result {
        match self {
            Status::Ended => Ok(()),
            Status::Usage => f.write_str("cromhost: usage"),
            Status::Page(PageFault::Rule(rule, at)) => {
                write!(f, "cromhost: page rule {rule} at {at}")
            }
            Status::Script(index, fault) => match rule_of(*fault) {
                Some(rule) => {
                    let at = place_of(*fault);
                    write!(f, "cromhost: script {index} rule {rule} at {at}")
                }
                None => f.write_str("cromhost: no memory"),
            },
            Status::ReadFault => f.write_str("cromhost: read fault"),
            Status::WriteFault => f.write_str("cromhost: write fault"),
            Status::NoMemory | Status::Page(PageFault::NoMemory) => {
                f.write_str("cromhost: no memory")
            }
            Status::ShelfFault => f.write_str("cromhost: page not read"),
            Status::Truncated => f.write_str("cromhost: input ended inside a request"),
            Status::RequestBound => f.write_str("cromhost: request bound"),
            Status::NotBuilt => f.write_str("cromhost: not built"),
        }
    }
}

/// The number of the rule that a script breaks, with a second one where it is of the tokens' own form;
/// None where memory was refused, which is no rule.
fn rule_of(fault: ScriptFault) -> Option<&'static str>
    ensures { option_copied result ≡ spec.rule_of fault }
{
    match fault {
        ScriptFault::Lex(LexFault::BadChar(_)) => Some("1.1"),
        ScriptFault::Lex(LexFault::UnclosedText(_)) => Some("1.2"),
        ScriptFault::Lex(LexFault::UnclosedComment(_)) => Some("1.3"),
        ScriptFault::Lex(LexFault::BadNumber(_)) => Some("1.4"),
        ScriptFault::Lex(LexFault::BigNumber(_)) => Some("1.5"),
        ScriptFault::Lex(LexFault::LeftOut(_)) => Some("1.6"),
        ScriptFault::Syntax(_) => Some("2"),
        ScriptFault::Nesting(_) => Some("3"),
        ScriptFault::LeftOut(_) => Some("4"),
        ScriptFault::NoMemory | ScriptFault::Lex(LexFault::NoMemory) => None,
    }
}

/// The byte of the script at which the rule is broken, from 0.
fn place_of(fault: ScriptFault) -> u32
    ensures { result ≡ spec.place_of fault }
{
    match fault {
        ScriptFault::Lex(LexFault::BadChar(at)) => at,
        ScriptFault::Lex(LexFault::UnclosedText(at)) => at,
        ScriptFault::Lex(LexFault::UnclosedComment(at)) => at,
        ScriptFault::Lex(LexFault::BadNumber(at)) => at,
        ScriptFault::Lex(LexFault::BigNumber(at)) => at,
        ScriptFault::Lex(LexFault::LeftOut(at)) => at,
        ScriptFault::Syntax(at) => at,
        ScriptFault::Nesting(at) => at,
        ScriptFault::LeftOut(at) => at,
        ScriptFault::NoMemory | ScriptFault::Lex(LexFault::NoMemory) => 0,
    }
}
