//! Numbers.
ghost use Rattle.std.specs.Prelude.{◌≡◌, ◌≤◌, ◌+◌, drop, IsTrue, IsFalse, IfOk, MatchOption, cond};
ghost use Rattle.std.specs.Char.{digit_value};
ghost use Rattle.grammar.specs.Grammar.{first};
ghost use Rattle.grammar.specs.Reading.{read, Bad};
ghost use Rattle.page_units.specs.Numbers.{greatest_number};
ghost use Rattle.placed_chars.specs.Chars.{stop};
ghost use Rattle.js_lexer.specs.Chars as chars;
ghost use Rattle.js_lexer.specs.Chars.{of};
ghost use Rattle.js_lexer.specs.Numbers as numbers;
ghost use Rattle.js_lexer.specs.Reads.{Reads};

use crate::fault::LexFault;
use crate::lexer::{Lexeme, Lexer};
use crate::token::Kind;
use page_units::GREATEST_NUMBER;

/// The greatest number, 2^53 - 1.
const MOST: u64 = GREATEST_NUMBER as u64;

/// A number so far.
#[derive(Clone, Copy)]
pub(crate) struct Numeral {
    /// Its value, and 2^53 for each that is above the greatest number.
    value: u64,
    /// Whether a digit stands behind a leading zero.
    is_bad: bool,
    /// The offset of the byte behind it.
    past: u32,
}

/// The value, and 2^53 for each that is above the greatest number.
fn capped(value: u64) -> u64
    ensures value { result ≡ numbers.capped value }
    ensures small { result ≤ greatest_number + 1 }
{
    if value <= MOST { value } else { MOST + 1 }
}

impl<'a> Lexer<'a> {
    /// The value of the decimal digit that is next.
    fn digit(&self) -> Option<u32>
        ensures value { MatchOption result (IsFalse (of chars.is_digit (first self.now stop)))
            (λ d. IsTrue (of chars.is_digit (first self.now stop)) × (d ≡ digit_value (first self.now stop).code)) }
        ensures few { MatchOption result (Unit {0}) (λ d. d ≤ 9) }
    {
        self.ahead()?.to_digit(10)
    }

    /// The value of the hexadecimal digit that is next.
    pub(crate) fn hex_digit(&self) -> Option<u32>
        ensures value { MatchOption result (IsFalse (of chars.is_hex (first self.now stop)))
            (λ d. IsTrue (of chars.is_hex (first self.now stop)) × (d ≡ digit_value (first self.now stop).code)) }
        ensures few { MatchOption result (Unit {0}) (λ d. d ≤ 15) }
    {
        self.ahead()?.to_digit(16)
    }

    fn at_exponent(&self) -> bool
        ensures { result ≡ of numbers.is_exponent (first self.now stop) }
    {
        self.ahead().is_some_and(|c| c == 'e' || c == 'E')
    }

    fn at_sign(&self) -> bool
        ensures { result ≡ of numbers.is_sign (first self.now stop) }
    {
        self.ahead().is_some_and(|c| c == '+' || c == '-')
    }

    fn skip_sign(&mut self)
        ensures { self.new ≡ cond (of numbers.is_sign (first self.old stop)) (drop 1 self.old) self.old }
    {
        if self.at_sign() {
            self.advance();
        }
    }

    /// What is wrong with an exponent, behind its `e`, at the number that begins at `at`.
    fn exponent(&mut self, at: u32) -> LexFault
        ensures { read stop (numbers.exponent at) self.old ≡ Bad (Some result) self.new }
    {
        self.skip_sign();
        match self.digit() {
            Some(_) => LexFault::LeftOut(at),
            None => LexFault::BadNumber(at),
        }
    }

    /// What is wrong with decimal digits that begin at `at`, with what is next.
    fn digits_fault(&self, at: u32, numeral: Numeral) -> Option<LexFault>
        ensures { result ≡ numbers.digits_fault at numeral (first self.now stop) }
    {
        if self.is_at('.') {
            Some(LexFault::LeftOut(at))
        } else if self.at_part() || numeral.is_bad {
            Some(LexFault::BadNumber(at))
        } else if MOST < numeral.value {
            Some(LexFault::BigNumber(at))
        } else {
            None
        }
    }

    /// Takes the decimal digits behind the first of the number that begins at `at`.
    #[tactic(auto, unfolding(crate::specs::Numbers::decimal))]
    fn decimal(&mut self, at: u32, leads_zero: bool, start: Numeral) -> Result<Numeral, LexFault>
        requires { start.value ≤ greatest_number + 1 }
        ensures value { Reads (read stop (numbers.decimal at leads_zero start) self.old) result self.new }
        ensures small { IfOk result (λ numeral. numeral.value ≤ greatest_number) }
    {
        let mut numeral = start;
        'digits: while let Some(digit) = self.digit() {
            numeral = Numeral {
                value: capped(numeral.value * 10 + u64::from(digit)),
                is_bad: leads_zero,
                past: self.past(),
            };
            self.advance();
        }
        if self.at_exponent() {
            self.advance();
            return Err(self.exponent(at));
        }
        match self.digits_fault(at, numeral) {
            Some(fault) => Err(fault),
            None => Ok(numeral),
        }
    }

    /// Takes the hexadecimal digits of the number that begins at `at`, behind its `0x`.
    #[tactic(auto, unfolding(crate::specs::Numbers::hex))]
    fn hex(&mut self, at: u32) -> Result<Numeral, LexFault>
        ensures value { Reads (read stop (numbers.hex at) self.old) result self.new }
        ensures small { IfOk result (λ numeral. numeral.value ≤ greatest_number) }
    {
        let Some(digit) = self.hex_digit() else {
            return Err(LexFault::BadNumber(at));
        };
        let mut numeral = Numeral {
            value: u64::from(digit),
            is_bad: false,
            past: self.past(),
        };
        self.advance();
        'digits: while let Some(digit) = self.hex_digit() {
            numeral = Numeral {
                value: capped(numeral.value * 16 + u64::from(digit)),
                is_bad: false,
                past: self.past(),
            };
            self.advance();
        }
        if self.at_part() {
            Err(LexFault::BadNumber(at))
        } else if MOST < numeral.value {
            Err(LexFault::BigNumber(at))
        } else {
            Ok(numeral)
        }
    }

    fn numeral(&mut self, digit: u32) -> Result<Numeral, LexFault>
        requires here { IsTrue (of chars.is_digit (first self.old stop)) }
        requires value { digit ≡ digit_value (first self.old stop).code }
        ensures value { Reads (read stop (numbers.numeral_of (first self.old stop)) (drop 1 self.old)) result self.new }
        ensures small { IfOk result (λ numeral. numeral.value ≤ greatest_number) }
    {
        let at = self.place();
        let start = Numeral {
            value: u64::from(digit),
            is_bad: false,
            past: self.past(),
        };
        let leads_zero = self.is_at('0');
        self.advance();
        if leads_zero && self.is_at('x') {
            self.advance();
            self.hex(at)
        } else {
            self.decimal(at, leads_zero, start)
        }
    }

    /// Takes the number that begins here.
    pub(crate) fn number(&mut self) -> Result<Lexeme, LexFault>
        requires { IsTrue (of chars.is_digit (first self.old stop)) }
        ensures { Reads (read stop (numbers.number (first self.old stop)) (drop 1 self.old)) result self.new }
    {
        let at = self.place();
        let digit = self.digit().unwrap_or(0);
        let numeral = self.numeral(digit)?;
        Ok(Lexeme {
            kind: Kind::Num(numeral.value as i64),
            at,
            end: numeral.past,
        })
    }
}
