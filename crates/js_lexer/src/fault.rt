//! What is wrong with a script's text.
use std::alloc::AllocError;
use thiserror::Error;

/// Why a source has no tokens. Each place is the offset of a byte in the source.
#[derive(Debug, Clone, Copy, PartialEq, Eq, Error)]
pub enum LexFault {
    /// The character here fits no rule, or the backslash here begins no escape.
    #[error("no token begins with the character at byte {0}")]
    BadChar(u32),
    /// The text that begins here has no closing quote before a line terminator or the end.
    #[error("the text that begins at byte {0} has no closing quote")]
    UnclosedText(u32),
    /// The comment that begins here has no `*/`.
    #[error("the comment that begins at byte {0} has no `*/`")]
    UnclosedComment(u32),
    /// What begins here as a number is none: a leading zero, or a name character straight behind it.
    #[error("what begins at byte {0} is no number")]
    BadNumber(u32),
    /// The number that begins here is above 2^53 - 1.
    #[error("the number at byte {0} is above 9007199254740991")]
    BigNumber(u32),
    /// What begins here is of the language, but not of the part that pages may use.
    #[error("what begins at byte {0} is left out of the language of pages")]
    LeftOut(u32),
    /// Memory was refused.
    #[error("out of memory")]
    NoMemory,
}

impl From<AllocError> for LexFault {
    ghost use Rattle.std.specs.Prelude.{◌≡◌};
    ghost use Rattle.js_lexer.specs.declared.fault.LexFault.TheVariants.{NoMemory};

    ghost from_gives = { λ _ fault. fault ≡ NoMemory };

    fn from(_: AllocError) -> LexFault {
        LexFault::NoMemory
    }
}
