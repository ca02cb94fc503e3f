//! A token, and what it is.

ghost use Rattle.std.specs.Prelude.{◌≡◌, ◌∷◌, [], false, true, MatchOption};
ghost use Rattle.std.specs.List.{list_any};
ghost use Rattle.std.specs.Str.{bytes_eq};
ghost use Rattle.cg_cell.specs.Name.{is_name};
ghost use Rattle.cg_verilog_tokens.specs.PlainNames.{IsNamedIf, IsNamedIfPlain};
ghost use Rattle.cg_verilog_text.specs.Reading.{is_arrow, is_bit, is_identifier, is_label, is_mark, is_numeral, is_plain, is_word, keywords, ones};

use crate::identifier::Identifier;
use crate::numeral::Numeral;
use cg_cell::name::Name;
use cg_verilog_text::kind::Kind;
use std::marker::Model;

/// A token, lent by the text. A plain one has bytes that are a name.
#[derive(Drop)]
pub struct Token<'a> {
    /// The number of its line, counted from 1.
    line: u64,

    /// What it is.
    kind: Kind,

    /// Its bytes, which are those behind the `\` of an escaped one.
    text: &'a [u8],

    /// Whether these are known to be a name, so that they need not be looked through again.
    named: bool,
}

impl<'a> Model for Token<'a> {
    ghost use Rattle.cg_verilog_text.specs.Tokens.{Token as TokenSeen};
    ghost use Rattle.cg_verilog_tokens.specs.PlainNames.{IsNamedIf, IsNamedIfPlain};

    ghost Value = { TokenSeen };

    ghost view = { λ t. record { line = t.line; kind = t.kind; text = t.text.now } };

    ghost invariant = { λ t. IsNamedIfPlain t.kind t.text.now × IsNamedIf t.named t.text.now };
}

impl<'a> Token<'a> {
    /// The token of a line, of a kind and with these bytes.
    pub fn new(line: u64, kind: Kind, text: &'a [u8]) -> Token<'a>
        requires { IsNamedIfPlain kind text.now }
        ensures { result ≡ record { line = line; kind = kind; text = text.entry.now } }
    {
        Token::known(line, kind, text, false)
    }

    /// The same; `named`: the bytes are known to be a name.
    pub fn known(line: u64, kind: Kind, text: &'a [u8], named: bool) -> Token<'a>
        requires plain { IsNamedIfPlain kind text.now }
        requires named { IsNamedIf named text.now }
        ensures { result ≡ record { line = line; kind = kind; text = text.entry.now } }
    {
        Token {
            line,
            kind,
            text,
            named,
        }
    }

    /// The number of its line, counted from 1.
    pub fn line(&self) -> u64
        ensures { result ≡ self.now.line }
    {
        self.line
    }

    /// Its bytes, which are those behind the `\` of an escaped one.
    pub fn text(&self) -> &'a [u8]
        ensures { result.now ≡ self.now.text }
    {
        self.text
    }

    /// Its bytes as a name, if it is an identifier: a plain one that is no keyword, or an escaped one that is a name.
    pub fn identifier(&self) -> Option<Identifier<'a>>
        ensures { MatchOption result (is_identifier self.now ≡ false) (λ word. (is_identifier self.now ≡ true) × (word ≡ self.now.text)) }
    {
        match self.kind {
            Kind::Plain if !is_keyword(self.text) => Some(Identifier::new(self.text)),
            Kind::Escaped if self.is_name() => Some(Identifier::new(self.text)),
            _ => None,
        }
    }

    /// Whether its bytes are a name.
    fn is_name(&self) -> bool
        ensures { result ≡ is_name self.now.text }
    {
        self.named || Name::is_name(self.text)
    }

    /// Whether it is this mark.
    pub fn is_mark(&self, byte: u8) -> bool
        ensures { result ≡ is_mark byte self.now }
    {
        match self.kind {
            Kind::Mark => is_only(self.text, byte),
            _ => false,
        }
    }

    /// Whether it is `<=`.
    pub fn is_arrow(&self) -> bool
        ensures { result ≡ is_arrow self.now }
    {
        matches!(self.kind, Kind::Arrow)
    }

    /// Whether it is this word.
    pub fn is_word(&self, word: &[u8]) -> bool
        ensures { result ≡ is_word word.now self.now }
    {
        match self.kind {
            Kind::Plain => self.text == word,
            _ => false,
        }
    }

    /// Whether it is a plain identifier.
    pub fn is_plain(&self) -> bool
        ensures { result ≡ is_plain self.now }
    {
        match self.kind {
            Kind::Plain => !is_keyword(self.text),
            _ => false,
        }
    }

    /// Whether it may name an instance, whose name is not kept.
    pub fn is_label(&self) -> bool
        ensures { result ≡ is_label self.now }
    {
        match self.kind {
            Kind::Plain => !is_keyword(self.text),
            Kind::Escaped => true,
            _ => false,
        }
    }

    /// Its bytes as a number, if it is one without a leading zero.
    pub fn numeral(&self) -> Option<Numeral<'a>>
        ensures { MatchOption result (is_numeral self.now ≡ false) (λ numeral. (is_numeral self.now ≡ true) × (numeral ≡ self.now.text)) }
    {
        match self.kind {
            Kind::Number => Numeral::new(self.text),
            _ => None,
        }
    }

    /// Whether it is a bit.
    pub fn is_bit(&self) -> bool
        ensures { result ≡ is_bit self.now }
    {
        match self.kind {
            Kind::Number => {
                self.text == b"1'b0".as_slice()
                    || (self.text == b"1'h0".as_slice()
                        || (self.text == b"1'b1".as_slice() || self.text == b"1'h1".as_slice()))
            }
            _ => false,
        }
    }
}

/// Whether bytes are this one alone.
fn is_only(bytes: &[u8], byte: u8) -> bool
    ensures { result ≡ bytes_eq bytes.now (byte ∷ []) }
{
    bytes.len() == 1 && bytes[0] == byte
}

/// Whether the bytes of a bit are a one.
pub fn is_one(text: &[u8]) -> bool
    ensures { result ≡ list_any (bytes_eq text.now) ones }
{
    text == b"1'b1".as_slice() || text == b"1'h1".as_slice()
}

/// Whether these bytes are a keyword.
fn is_keyword(text: &[u8]) -> bool
    ensures { result ≡ list_any (bytes_eq text.now) keywords }
{
    text == b"module".as_slice()
        || (text == b"endmodule".as_slice()
            || (text == b"input".as_slice()
                || (text == b"output".as_slice()
                    || (text == b"wire".as_slice()
                        || (text == b"reg".as_slice()
                            || (text == b"assign".as_slice()
                                || (text == b"always".as_slice()
                                    || (text == b"posedge".as_slice()
                                        || (text == b"begin".as_slice()
                                            || (text == b"end".as_slice()
                                                || text == b"initial".as_slice()))))))))))
}
