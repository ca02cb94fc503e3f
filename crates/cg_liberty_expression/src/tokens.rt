//! The words and signs of the text of an expression.

ghost use Rattle.std.specs.Prelude.{◌≡◌, ◌∷◌, [], ◌+◌, ◌≤◌, ◌<◌, false, drop, length, MatchOption, slice_index};
ghost use Rattle.std.specs.List.{prefix_len};
ghost use Rattle.cg_text.specs.Blanks.{is_white_space};
ghost use Rattle.cg_liberty_expression.specs.Tokens.{is_digit, is_letter, is_word_byte, sign_of, tokens_from};
ghost use Rattle.cg_liberty_expression.specs.inner.TokensSeen.{kind_of, token_of};

use cg_text::blanks::is_white_space;
use std::marker::Model;

/// What a token is.
#[derive(Clone, Copy)]
pub enum TokenKind<'a> {
    /// The longest run of letters, digits, `_`, `[`, `]` and `.`.
    Word(&'a [u8]),

    /// `+` or `|`.
    Or,

    /// `*` or `&`.
    And,

    /// `^`.
    Xor,

    /// `!`.
    Not,

    /// `'`.
    Prime,

    /// `(`.
    Open,

    /// `)`.
    Close,

    /// Any other byte.
    Other,
}

/// A token, and the place of its first byte.
#[derive(Clone, Copy)]
pub struct Token<'a> {
    pub at: usize,
    pub kind: TokenKind<'a>,
}

/// The tokens that are left of a text. Clauses see them as a list.
#[derive(Drop)]
pub struct Tokens<'a> {
    text: &'a [u8],
    at: usize,
}

impl<'a> Model for Tokens<'a> {
    ghost use Rattle.std.specs.Prelude.{List, ◌≤◌, drop, length, false};
    ghost use Rattle.cg_liberty_expression.specs.Tokens.{Token as SeenToken, tokens_from};

    ghost Value = { List SeenToken };

    ghost view = { λ s. tokens_from false s.at (drop s.at s.text.now) };

    ghost invariant = { λ s. s.at ≤ length s.text.now };
}

impl<'a> Tokens<'a> {
    /// The tokens of a text.
    pub fn new(text: &'a [u8]) -> Tokens<'a>
        ensures { result ≡ tokens_from false 0 text.now }
    {
        Tokens { text, at: 0 }
    }

    /// The next token, or None behind the last one.
    pub fn next(&mut self) -> Option<Token<'a>>
        ensures { MatchOption result (self.old ≡ []) (λ token. self.old ≡ token_of token ∷ self.new) }
    {
        let at = after_blanks(self.text, self.at);
        if at == self.text.len() {
            return None;
        }
        if is_word_byte(self.text[at]) {
            let end = word_end(self.text, at + 1);
            self.at = end;
            Some(Token {
                at,
                kind: TokenKind::Word(&self.text[at..end]),
            })
        } else {
            self.at = at + 1;
            Some(Token {
                at,
                kind: sign(self.text[at]),
            })
        }
    }
}

/// The first place from `at` on that has no blank.
fn after_blanks(text: &[u8], at: usize) -> usize
    requires { at ≤ length text.now }
    ensures within { result ≤ length text.now }
    ensures same { tokens_from false result (drop result text.now) ≡ tokens_from false at (drop at text.now) }
    ensures full { result < length text.now → is_white_space (slice_index text.now result) ≡ false }
{
    let mut place = at;
    'blanks: while place < text.len() && is_white_space(text[place]) {
        place += 1;
    }
    place
}

/// The first place from `at` on that has no byte of a word.
fn word_end(text: &[u8], at: usize) -> usize
    requires { at ≤ length text.now }
    ensures within { result ≤ length text.now }
    ensures end { result ≡ at + prefix_len is_word_byte (drop at text.now) }
{
    let mut end = at;
    'word: while end < text.len() && is_word_byte(text[end]) {
        end += 1;
    }
    end
}

/// Whether a byte is a letter or `_`.
pub fn is_letter(byte: u8) -> bool
    ensures { result ≡ is_letter byte }
{
    (byte >= b'A' && byte <= b'Z') || (byte >= b'a' && byte <= b'z') || byte == b'_'
}

/// Whether a byte is a digit.
pub fn is_digit(byte: u8) -> bool
    ensures { result ≡ is_digit byte }
{
    byte >= b'0' && byte <= b'9'
}

/// Whether a byte stands in words.
fn is_word_byte(byte: u8) -> bool
    ensures { result ≡ is_word_byte byte }
{
    is_letter(byte) || is_digit(byte) || byte == b'[' || byte == b']' || byte == b'.'
}

/// The sign that a byte is, which is neither a blank nor in a word.
fn sign<'a>(byte: u8) -> TokenKind<'a>
    ensures { kind_of result ≡ sign_of byte }
{
    match byte {
        b'+' | b'|' => TokenKind::Or,
        b'*' | b'&' => TokenKind::And,
        b'^' => TokenKind::Xor,
        b'!' => TokenKind::Not,
        b'\'' => TokenKind::Prime,
        b'(' => TokenKind::Open,
        b')' => TokenKind::Close,
        _ => TokenKind::Other,
    }
}
