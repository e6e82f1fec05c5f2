//! Characters with their places.
ghost use Rattle.std.specs.Prelude.{◌≡◌, ℕ, ◌<◌, ◌≤◌, ◌^◌, [], length, drop, IsTrue, MatchOption};
ghost use Rattle.std.specs.Str.{chars};
ghost use Rattle.grammar.specs.Grammar.{first};
ghost use Rattle.placed_chars.specs.Chars.{placed, stop, is_end, AreWithin};

use std::marker::Model;

/// A character of a text, or its end, with its place. Places are byte offsets in the text.
#[derive(Debug, Clone, Copy, PartialEq, Eq)]
pub struct Char {
    /// The code point; at the text's end 0x110000, and behind it 0x110001.
    pub code: u32,
    /// The offset of its first byte.
    pub at: usize,
    /// The offset of the byte behind it.
    pub past: usize,
}

/// The characters of a text with their places, read one by one; the end is read as a last character.
#[derive(Drop)]
pub struct Characters<'a> {
    rest: &'a str,
    at: usize,
    is_over: bool,
}

impl<'a> Model for Characters<'a> {
    ghost use Rattle.std.specs.Prelude.{List, ℕ, ◌+◌, ◌<◌, ◌^◌, length, cond, []};
    ghost use Rattle.std.specs.Str.{chars};
    ghost use Rattle.placed_chars.specs.declared.chars.Char.{Char};
    ghost use Rattle.placed_chars.specs.Chars.{placed};

    ghost Value = { List Char };

    ghost view = { λ p. cond p.is_over [] (placed p.at (chars p.rest.now)) };

    ghost invariant = { λ p. p.at + length p.rest.now < 2 ^ 62 };
}

impl<'a> Characters<'a> {
    /// The characters of this text, none of them read.
    #[tactic(auto, using(crate::proofs::Within::within_text))]
    pub fn new(text: &'a str) -> Characters<'a>
        requires { length text.now < 2 ^ 62 }
        ensures value { result ≡ placed 0 (chars text.now) }

        // No place is behind the text.
        ensures within { AreWithin (length text.now) result }
    {
        Characters {
            rest: text,
            at: 0,
            is_over: false,
        }
    }

    /// The next character, which isn't read by this: behind the last one the end, and behind that the stop.
    #[tactic(auto, using(crate::proofs::Ahead::here_some, crate::proofs::Ahead::here_none, crate::proofs::Within::first_within))]
    pub fn here(&self) -> Char
        ensures value { result ≡ first self.now stop }
        ensures code { result.code < 0x110002 }
        ensures ordered { result.at ≤ result.past }
        ensures within { (n : ℕ) → AreWithin n self.now → result.past ≤ n }
        ensures bounded { result.past < 2 ^ 62 }
    {
        if self.is_over {
            return Char {
                code: 0x110001,
                at: 0,
                past: 0,
            };
        }
        match self.rest.chars().next() {
            Some(c) => Char {
                code: u32::from(c),
                at: self.at,
                past: self.at + c.len_utf8(),
            },
            None => Char {
                code: 0x110000,
                at: self.at,
                past: self.at,
            },
        }
    }

    /// The next character, where the text has one more.
    #[tactic(auto, using(crate::proofs::Ahead::code_some, crate::proofs::Ahead::here_none, crate::proofs::Ahead::past_none))]
    pub fn ahead(&self) -> Option<char>
        ensures { MatchOption result (IsTrue (is_end (first self.now stop).code) × (drop 1 self.now ≡ []))
            (λ c. (first self.now stop).code ≡ c) }
    {
        if self.is_over {
            return None;
        }
        match self.rest.chars().next() {
            Some(c) => Some(c),
            None => None,
        }
    }

    /// Reads the next character, or the end; behind the end nothing.
    #[tactic(auto, using(crate::proofs::Ahead::past_some, crate::proofs::Ahead::past_none, crate::proofs::Within::rest_within))]
    pub fn advance(&mut self)
        ensures value { self.new ≡ drop 1 self.old }
        ensures within { (n : ℕ) → AreWithin n self.old → AreWithin n self.new }
    {
        if !self.is_over {
            let mut chars = self.rest.chars();
            match chars.next() {
                Some(c) => {
                    self.rest = chars.as_str();
                    self.at += c.len_utf8();
                }
                None => {
                    self.is_over = true;
                }
            }
        }
    }
}
