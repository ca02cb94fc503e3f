//! Reading tokens one by one, with the next one at hand.

ghost use Rattle.std.specs.Prelude.{◌≡◌, false, true, MatchOption};
ghost use Rattle.std.specs.List.{list_any};
ghost use Rattle.std.specs.Str.{bytes_eq};
ghost use Rattle.cg_verilog_text.specs.Items.{line_of};
ghost use Rattle.cg_verilog_text.specs.Reading.{behind, bit, is_arrow, is_bit, is_identifier, is_label, is_mark, is_next, is_numeral, is_plain, is_word};
ghost use Rattle.cg_verilog_text.specs.Reading.{mark, name, ones, pass, word};
ghost use Rattle.cg_verilog_expression.specs.Readings.{IsPassed, IsRead, is_over, next_text};

use crate::ahead::{Ahead, hold_next};
use crate::stop::Stop;
use cg_verilog_tokens::identifier::Identifier;
use cg_verilog_tokens::numeral::Numeral;
use cg_verilog_tokens::token::is_one;
use cg_verilog_tokens::tokens::Tokens;
use std::marker::Model;

/// Bytes of a text.
#[derive(Drop)]
pub struct Piece<'a> {
    /// The bytes.
    pub bytes: &'a [u8],
}

impl<'a> Model for Piece<'a> {
    ghost use Rattle.std.specs.Prelude.{List, ℕ};

    ghost Value = { List ℕ };

    ghost view = { λ p. p.bytes.now };
}

/// Tokens, of which the next one is at hand.
///
/// Clauses see the tokens that are left, and the number of the line behind the last.
#[derive(Drop)]
pub struct Reading<'a> {
    tokens: Tokens<'a>,
    next: Ahead<'a>,
}

impl<'a> Model for Reading<'a> {
    ghost use Rattle.std.specs.Prelude.{List, ℕ};
    ghost use Rattle.cg_verilog_text.specs.Tokens.{Token as TokenSeen};
    ghost use Rattle.cg_verilog_expression.specs.Ahead.{ahead};

    ghost Value = { List TokenSeen × ℕ };

    ghost view = { λ r. (ahead r.next r.tokens.0, r.tokens.1) };
}

impl<'a> Reading<'a> {
    /// Tokens from the first one on.
    pub fn new(tokens: Tokens<'a>) -> Reading<'a>
        ensures left { result.0 ≡ tokens.entry.0 }
        ensures end { result.1 ≡ tokens.entry.1 }
    {
        let mut tokens = tokens;
        let mut next = Ahead::Over;
        hold_next(&mut tokens, &mut next);
        Reading { tokens, next }
    }

    /// The line of the next token, or the line behind the last.
    pub fn line(&self) -> u64
        ensures { result ≡ line_of self.now.1 self.now.0 }
    {
        match &self.next {
            Ahead::Over => self.tokens.end(),
            Ahead::Mark(mark) => mark.line,
            Ahead::Token(token) => token.line(),
        }
    }

    /// Whether there is no token.
    pub fn is_over(&self) -> bool
        ensures { result ≡ is_over self.now.0 }
    {
        matches!(self.next, Ahead::Over)
    }

    /// Passes over the next token.
    pub fn pass(&mut self)
        ensures left { self.new.0 ≡ behind self.old.0 }
        ensures end { self.new.1 ≡ self.old.1 }
    {
        if !self.is_over() {
            hold_next(&mut self.tokens, &mut self.next);
        }
    }

    /// Whether the next token is this mark.
    pub fn is_mark(&self, byte: u8) -> bool
        ensures { result ≡ is_next (is_mark byte) self.now.0 }
    {
        match &self.next {
            Ahead::Over => false,
            Ahead::Mark(mark) => mark.byte == byte,
            Ahead::Token(token) => token.is_mark(byte),
        }
    }

    /// Whether the next token is this word.
    pub fn is_word(&self, word: &[u8]) -> bool
        ensures { result ≡ is_next (is_word word.now) self.now.0 }
    {
        match &self.next {
            Ahead::Token(token) => token.is_word(word),
            _ => false,
        }
    }

    /// Whether the next token is `<=`.
    fn is_arrow(&self) -> bool
        ensures { result ≡ is_next is_arrow self.now.0 }
    {
        match &self.next {
            Ahead::Token(token) => token.is_arrow(),
            _ => false,
        }
    }

    /// Whether the next token is a plain identifier.
    pub fn is_plain(&self) -> bool
        ensures { result ≡ is_next is_plain self.now.0 }
    {
        match &self.next {
            Ahead::Token(token) => token.is_plain(),
            _ => false,
        }
    }

    /// The next token as a name, if it is an identifier.
    fn identifier(&self) -> Option<Identifier<'a>>
        ensures { MatchOption result (is_next is_identifier self.now.0 ≡ false)
            (λ word. (is_next is_identifier self.now.0 ≡ true) × (word ≡ next_text self.now.0)) }
    {
        match &self.next {
            Ahead::Token(token) => token.identifier(),
            _ => None,
        }
    }

    /// The bytes of the next token, if it may name an instance.
    fn next_label(&self) -> Option<Piece<'a>>
        ensures { MatchOption result (is_next is_label self.now.0 ≡ false)
            (λ label. (is_next is_label self.now.0 ≡ true) × (label ≡ next_text self.now.0)) }
    {
        match &self.next {
            Ahead::Token(token) if token.is_label() => Some(Piece {
                bytes: token.text(),
            }),
            _ => None,
        }
    }

    /// The next token as a number, if it is one without a leading zero.
    fn next_numeral(&self) -> Option<Numeral<'a>>
        ensures { MatchOption result (is_next is_numeral self.now.0 ≡ false)
            (λ numeral. (is_next is_numeral self.now.0 ≡ true) × (numeral ≡ next_text self.now.0)) }
    {
        match &self.next {
            Ahead::Token(token) => token.numeral(),
            _ => None,
        }
    }

    /// Whether the next token is a bit.
    pub fn is_bit(&self) -> bool
        ensures { result ≡ is_next is_bit self.now.0 }
    {
        match &self.next {
            Ahead::Token(token) => token.is_bit(),
            _ => false,
        }
    }

    /// The next token as a bit, if it is one.
    fn next_bit(&self) -> Option<bool>
        ensures { MatchOption result (is_next is_bit self.now.0 ≡ false)
            (λ one. (is_next is_bit self.now.0 ≡ true) × (one ≡ list_any (bytes_eq (next_text self.now.0)) ones)) }
    {
        match &self.next {
            Ahead::Token(token) if token.is_bit() => Some(is_one(token.text())),
            _ => None,
        }
    }

    /// Reads a mark.
    pub fn mark(&mut self, byte: u8) -> Result<(), Stop>
        ensures end { self.new.1 ≡ self.old.1 }
        ensures left { IsPassed self.old.1 (mark byte self.old.0) self.new.0 result }
    {
        if !self.is_mark(byte) {
            return Err(Stop::At(self.line()));
        }
        self.pass();
        Ok(())
    }

    /// Reads a word.
    pub fn word(&mut self, text: &[u8]) -> Result<(), Stop>
        ensures end { self.new.1 ≡ self.old.1 }
        ensures left { IsPassed self.old.1 (word text.now self.old.0) self.new.0 result }
    {
        if !self.is_word(text) {
            return Err(Stop::At(self.line()));
        }
        self.pass();
        Ok(())
    }

    /// Reads a `<=`.
    pub fn arrow(&mut self) -> Result<(), Stop>
        ensures end { self.new.1 ≡ self.old.1 }
        ensures left { IsPassed self.old.1 (pass is_arrow self.old.0) self.new.0 result }
    {
        if !self.is_arrow() {
            return Err(Stop::At(self.line()));
        }
        self.pass();
        Ok(())
    }

    /// Reads a name.
    pub fn name(&mut self) -> Result<Identifier<'a>, Stop>
        ensures end { self.new.1 ≡ self.old.1 }
        ensures left { IsRead self.old.1 (name self.old.0) self.new.0 result }
    {
        match self.identifier() {
            None => Err(Stop::At(self.line())),
            Some(name) => {
                self.pass();
                Ok(name)
            }
        }
    }

    /// Reads the name of an instance.
    pub fn label(&mut self) -> Result<Piece<'a>, Stop>
        ensures end { self.new.1 ≡ self.old.1 }
        ensures left { IsRead self.old.1 (pass is_label self.old.0) self.new.0 result }
    {
        match self.next_label() {
            None => Err(Stop::At(self.line())),
            Some(label) => {
                self.pass();
                Ok(label)
            }
        }
    }

    /// Reads a number.
    pub fn numeral(&mut self) -> Result<Numeral<'a>, Stop>
        ensures end { self.new.1 ≡ self.old.1 }
        ensures left { IsRead self.old.1 (pass is_numeral self.old.0) self.new.0 result }
    {
        match self.next_numeral() {
            None => Err(Stop::At(self.line())),
            Some(numeral) => {
                self.pass();
                Ok(numeral)
            }
        }
    }

    /// Reads a bit.
    pub fn bit(&mut self) -> Result<bool, Stop>
        ensures end { self.new.1 ≡ self.old.1 }
        ensures left { IsRead self.old.1 (bit self.old.0) self.new.0 result }
    {
        match self.next_bit() {
            None => Err(Stop::At(self.line())),
            Some(one) => {
                self.pass();
                Ok(one)
            }
        }
    }
}
