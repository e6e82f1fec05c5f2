//! What a token shows, and why a rule reads nothing.
ghost use Rattle.std.specs.Prelude.{◌≡◌};
ghost use Rattle.js_nodes.specs.declared.fault.ParseError.TheVariants.{Memory};

use std::alloc::AllocError;

/// What a token that fits no rule shows, and where. Places are byte offsets in the source.
#[derive(Clone, Copy, Debug, PartialEq, Eq)]
pub enum Fault {
    /// A form that is left out of the language.
    LeftOut(u32),
    /// A node of level 129.
    Nesting(u32),
    /// What else is wrong before the token, and is told by it.
    Syntax(u32),
}

/// Why a rule reads nothing.
#[derive(Debug, Drop)]
pub enum ParseError {
    /// The allocator refused.
    Memory,
    /// The next token fits no rule.
    Unfit,
    /// The next token shows this.
    Shown(Fault),
}

impl From<AllocError> for ParseError {
    ghost from_gives = { λ _ e. e ≡ Memory };

    fn from(_error: AllocError) -> ParseError {
        ParseError::Memory
    }
}
