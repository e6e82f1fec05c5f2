//! What is wrong with a script.
ghost use Rattle.std.specs.Prelude.{◌≡◌};
ghost use Rattle.js_parser.specs.declared.fault.ScriptFault.TheVariants.{NoMemory};
ghost use Rattle.js_parser.specs.Faults as faults;

use js_lexer::LexFault;
use js_nodes::Fault;
use std::alloc::AllocError;
use thiserror::Error;

/// Why a script is none. Places are byte offsets in the source; the end's is the source's length.
#[derive(Clone, Copy, Debug, PartialEq, Eq, Error)]
pub enum ScriptFault {
    /// It is no row of tokens.
    #[error("{0}")]
    Lex(LexFault),
    /// A token, or the end, fits no rule; or a target, a name or a key before it is wrong, at that.
    #[error("the token at byte {0} fits no rule")]
    Syntax(u32),
    /// A node would have level 129, where it begins.
    #[error("what begins at byte {0} is nested too deep")]
    Nesting(u32),
    /// A form that is left out of the language.
    #[error("the form at byte {0} is left out of the language of pages")]
    LeftOut(u32),
    /// The allocator refused; nothing is said of the script.
    #[error("out of memory")]
    NoMemory,
}

impl From<AllocError> for ScriptFault {
    ghost from_gives = { λ _ e. e ≡ NoMemory };

    fn from(_error: AllocError) -> ScriptFault {
        ScriptFault::NoMemory
    }
}

impl ScriptFault {
    /// What is wrong with the tokens' own form.
    pub(crate) fn of_lexer(fault: LexFault) -> ScriptFault
        ensures { result ≡ faults.of_lexer fault }
    {
        match fault {
            LexFault::NoMemory => ScriptFault::NoMemory,
            fault => ScriptFault::Lex(fault),
        }
    }

    /// What a token shows.
    pub(crate) fn of(fault: Fault) -> ScriptFault
        ensures { result ≡ faults.of fault }
    {
        match fault {
            Fault::LeftOut(at) => ScriptFault::LeftOut(at),
            Fault::Nesting(at) => ScriptFault::Nesting(at),
            Fault::Syntax(at) => ScriptFault::Syntax(at),
        }
    }
}
