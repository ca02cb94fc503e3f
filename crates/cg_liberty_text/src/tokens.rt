//! A text cut into tokens, one by one.

ghost use Rattle.std.specs.Prelude.{◌≡◌, ◌+◌, ◌<◌, ◌≤◌, ◌∷◌, ℕ, List, [], length, false, drop, MatchOption};
ghost use Rattle.cg_liberty_text.specs.Token.{token_text, tokens, tokens_from};
ghost use Rattle.cg_liberty_text.specs.declared.token.Token.{Token};

use crate::lexeme::{Kind, Lexeme, lexeme_at};
use crate::text::{Text, first_of};
use crate::token::Token;
use std::marker::Model;

/// A place in a text, from which its tokens are read.
///
/// Clauses see the tokens that are left, and the place where the text ends.
#[derive(Drop)]
pub struct Tokens<'a> {
    /// The bytes that are left.
    rest: &'a [u8],

    /// The place of the first of them.
    at: usize,

    /// The length of the text.
    end: usize,
}

impl<'a> Model for Tokens<'a> {
    ghost use Rattle.std.specs.Prelude.{ℕ, ◌+◌, ◌≤◌, List, length, false};
    ghost use Rattle.cg_liberty_text.specs.Token.{tokens_from};
    ghost use Rattle.cg_liberty_text.specs.declared.token.Token.{Token};

    ghost Value = { List Token × ℕ };

    ghost view = { λ t. (tokens_from 0 false t.at t.rest.now, t.end) };

    ghost invariant = { λ t. t.at + length t.rest.now ≤ t.end };
}

impl<'a> Tokens<'a> {
    /// The tokens of a text.
    pub fn new(text: &'a [u8]) -> Tokens<'a>
        ensures tokens { result.0 ≡ tokens text.entry.now }
        ensures end { result.1 ≡ length text.entry.now }
    {
        Tokens {
            rest: text,
            at: 0,
            end: text.len(),
        }
    }

    /// The same tokens once more.
    pub fn again(&self) -> Tokens<'a>
        ensures { result ≡ self.now }
    {
        Tokens {
            rest: self.rest,
            at: self.at,
            end: self.end,
        }
    }

    /// The length of the text.
    pub fn end(&self) -> usize
        ensures { result ≡ self.now.1 }
    {
        self.end
    }

    /// The bytes of the text that are left.
    pub fn left(&self) -> &'a [u8]
        ensures { (at : ℕ) × (self.now.0 ≡ tokens_from 0 false at result.now) }
    {
        self.rest
    }

    /// Takes the next token, or nothing where the text ends.
    pub fn next(&mut self) -> Option<Token<'a>>
        ensures token { MatchOption result ((self.old.0 ≡ []) × (self.new.0 ≡ [])) (λ token. self.old.0 ≡ token ∷ self.new.0) }
        ensures end { self.new.1 ≡ self.old.1 }
    {
        let mut fresh = false;
        'gaps: while let Some(first) = first_of(self.rest) {
            let at = self.at;
            match lexeme_at(first.byte, first.rest) {
                Lexeme::LineEnd => {
                    fresh = true;
                    self.rest = first.rest;
                    self.at = at + 1;
                }
                Lexeme::Blank(more) => {
                    self.rest = behind(first.rest, more);
                    self.at = at + 1 + more;
                }
                Lexeme::Token(kind, more) => {
                    let text = text_of(kind, self.rest, more);
                    self.rest = behind(first.rest, more);
                    self.at = at + 1 + more;
                    return Some(Token {
                        kind,
                        at,
                        text,
                        fresh,
                    });
                }
                Lexeme::Bad => {
                    let text = Text::word(&[]);
                    self.rest = &[];
                    return Some(Token {
                        kind: Kind::Bad,
                        at,
                        text,
                        fresh,
                    });
                }
            }
        }
        None
    }
}

/// The bytes behind the first `count`.
fn behind(bytes: &[u8], count: usize) -> &[u8]
    requires { count ≤ length bytes.now }
    ensures { result.now ≡ drop count bytes.entry.now }
{
    &bytes[count..]
}

/// The text of a token of a kind that begins with the first of the bytes and has `more` bytes behind it.
fn text_of(kind: Kind, bytes: &[u8], more: usize) -> Text<'_>
    requires { more < length bytes.now }
    ensures { (byte : ℕ) (after : List ℕ) → bytes.entry.now ≡ byte ∷ after → result ≡ token_text kind more byte after }
{
    match kind {
        Kind::Quoted => Text::quoted(&bytes[1..more.max(1)]),
        _ => Text::word(&bytes[..more + 1]),
    }
}
