//! Faults as texts: the kind and its place, as `Syntax 5` and `Lex BadChar 0`.
use js_lexer::LexFault;
use js_parser::ScriptFault;
use std::alloc::{AllocError, Global};

/// What is wrong with a script.
pub(crate) fn fault_text(alloc: Global, fault: ScriptFault) -> Result<String, AllocError> {
    match fault {
        ScriptFault::Lex(fault) => lexer_text(alloc, fault),
        ScriptFault::Syntax(at) => placed(alloc, "Syntax", at),
        ScriptFault::Nesting(at) => placed(alloc, "Nesting", at),
        ScriptFault::LeftOut(at) => placed(alloc, "LeftOut", at),
        ScriptFault::NoMemory => String::from_str(alloc, "NoMemory"),
    }
}

fn lexer_text(alloc: Global, fault: LexFault) -> Result<String, AllocError> {
    match fault {
        LexFault::BadChar(at) => placed(alloc, "Lex BadChar", at),
        LexFault::UnclosedText(at) => placed(alloc, "Lex UnclosedText", at),
        LexFault::UnclosedComment(at) => placed(alloc, "Lex UnclosedComment", at),
        LexFault::BadNumber(at) => placed(alloc, "Lex BadNumber", at),
        LexFault::BigNumber(at) => placed(alloc, "Lex BigNumber", at),
        LexFault::LeftOut(at) => placed(alloc, "Lex LeftOut", at),
        LexFault::NoMemory => String::from_str(alloc, "Lex NoMemory"),
    }
}

fn placed(alloc: Global, kind: &str, at: u32) -> Result<String, AllocError> {
    format!(in alloc; "{kind} {at}")
}
