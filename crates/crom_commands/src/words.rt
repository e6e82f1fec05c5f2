//! The arguments of the program.
ghost use Rattle.std.specs.Prelude.{◌≡◌, map};
ghost use Rattle.std.specs.String.{string_bytes};
ghost use Rattle.crom_commands.specs.Words as spec;

/// A command, with the name of its page.
#[derive(Clone, Copy, Debug)]
pub enum Command<'a> {
    /// Load the page, and answer the requests of the input.
    Stdio(&'a str),
    /// Read the page and its scripts, and write how many there are.
    Check(&'a str),
}

/// The command of these arguments: `stdio PAGE` or `check PAGE`, where PAGE doesn't begin with `-`;
/// else None.
pub fn command_of(words: &Vec<String>) -> Option<Command<'_>>
    ensures { spec.found result ≡ spec.command_of (map string_bytes words.now.items) }
{
    match words.as_slice() {
        [word, page] => {
            let name = page.as_str();
            match name.as_bytes().first() {
                Some(b'-') => None,
                _ => command_named(word.as_str(), name),
            }
        }
        _ => None,
    }
}

/// The command with this name, of this page.
fn command_named<'a>(word: &str, page: &'a str) -> Option<Command<'a>>
    ensures { spec.found result ≡ spec.command_named word.now page.now }
{
    if word == "stdio" {
        Some(Command::Stdio(page))
    } else if word == "check" {
        Some(Command::Check(page))
    } else {
        None
    }
}
