//! What is wrong with a page, and what ends its reading.
ghost use Rattle.std.specs.Prelude.{◌≡◌};
ghost use Rattle.page_reader.specs.declared.fault.PageFault.TheVariants.{NoMemory};
ghost use Rattle.page_reader.specs.declared.fault.ReadError.TheVariants.{Memory};
ghost use Rattle.page_reader.specs.Faults.{rule_number, fault_of};

use page_units::NoMemory;
use std::alloc::{AllocError, AllocFailed};
use thiserror::Error;

/// A rule of the page form that a page can break (this project's own page form).
#[derive(Debug, Clone, Copy, PartialEq, Eq)]
pub enum PageRule {
    /// More than 1,048,576 bytes; at that byte.
    TooLong,
    /// Bytes that are no UTF-8; at the first byte that begins no character.
    NotUtf8,
    /// A `<` that begins no tag or comment, or a start tag with a `/` out of place; at the `<`.
    BadTag,
    /// An attribute without a quote behind its `=`, or `src` on a script, at the attribute's first
    /// byte; or what can't stand in a start tag behind its name, at its first byte.
    BadAttribute,
    /// A `&` that begins no reference; at the `&`.
    BadReference,
    /// An element, comment, tag or raw element that the page's end cuts off; at the innermost's `<`.
    Unclosed,
    /// An end tag that isn't the innermost element's; at its `<`.
    Mismatch,
    /// What stands outside the root and is no pad, at its first byte; or no root, at the page's end.
    RootCount,
    /// A start tag of level 129; at its `<`.
    Nesting,
    /// A second attribute of one name; at its first byte.
    TwiceNamed,
}

impl PageRule {
    /// The rule's number, from 1 to 10.
    pub fn number(self) -> u32
        ensures { result ≡ rule_number self }
    {
        match self {
            PageRule::TooLong => 1,
            PageRule::NotUtf8 => 2,
            PageRule::BadTag => 3,
            PageRule::BadAttribute => 4,
            PageRule::BadReference => 5,
            PageRule::Unclosed => 6,
            PageRule::Mismatch => 7,
            PageRule::RootCount => 8,
            PageRule::Nesting => 9,
            PageRule::TwiceNamed => 10,
        }
    }
}

/// Why no page was read.
#[derive(Debug, Clone, Copy, PartialEq, Eq, Error)]
pub enum PageFault {
    /// The bytes are no page: the number of the rule that they break, from 1 to 10, and the byte
    /// at which, from 0. Nothing was changed.
    #[error("the page breaks rule {0} at byte {1}")]
    Rule(u32, u32),
    /// Memory was refused. The heap is to be given up.
    #[error("out of memory")]
    NoMemory,
}

impl From<NoMemory> for PageFault {
    ghost from_gives = { λ _ fault. fault ≡ NoMemory };

    fn from(_: NoMemory) -> PageFault {
        PageFault::NoMemory
    }
}

/// The rule that is broken, and the byte at which.
#[derive(Debug, Clone, Copy, PartialEq, Eq)]
pub struct Fault {
    pub rule: PageRule,
    pub at: u32,
}

/// What ends the reading of a page before its end.
#[derive(Debug, Drop)]
pub enum ReadError {
    /// Memory was refused.
    Memory,
    /// The page breaks a rule.
    Page(Fault),
}

impl ReadError {
    /// The same, with the rule's number.
    pub(crate) fn into_fault(self) -> PageFault
        ensures { result ≡ fault_of self }
    {
        match self {
            ReadError::Memory => PageFault::NoMemory,
            ReadError::Page(fault) => PageFault::Rule(fault.rule.number(), fault.at),
        }
    }
}

impl From<AllocError> for ReadError {
    ghost from_gives = { λ _ error. error ≡ Memory };

    fn from(_: AllocError) -> ReadError {
        ReadError::Memory
    }
}

impl From<AllocFailed<u16>> for ReadError {
    ghost from_gives = { λ _ error. error ≡ Memory };

    fn from(_: AllocFailed<u16>) -> ReadError {
        ReadError::Memory
    }
}
