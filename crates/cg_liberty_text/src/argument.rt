//! The arguments and the values of statements, in tokens.

ghost use Rattle.std.specs.Prelude.{◌≡◌, ◌==◌, ◌∷◌, ℕ, List, [], length, Ok, Err, MatchOption, MatchResult};
ghost use Rattle.std.specs.List.{list_any};
ghost use Rattle.std.specs.Str.{bytes_eq};
ghost use Rattle.cg_liberty_text.specs.Argument.{argument_texts, behind_arguments, behind_value, ends_value, is_bad};
ghost use Rattle.cg_liberty_text.specs.Argument.{is_close_brace};
ghost use Rattle.cg_liberty_text.specs.Argument.{is_close_paren, is_colon, is_comma, is_in_value, is_open_brace, is_open_paren};
ghost use Rattle.cg_liberty_text.specs.Argument.{is_semicolon, is_text, is_value_over, is_word, may_follow, unexpected, value_text};
ghost use Rattle.cg_liberty_text.specs.declared.lexeme.Kind.TheVariants.{OpenParen};

use crate::fault::TextFault;
use crate::lexeme::Kind;
use crate::text::Text;
use crate::token::Token;
use crate::tokens::Tokens;
use std::marker::Model;

impl Kind {
    /// Whether it is a `{`.
    pub fn is_open_brace(self) -> bool
        ensures { result ≡ is_open_brace self }
    {
        matches!(self, Kind::OpenBrace)
    }

    /// Whether it is a `}`.
    pub fn is_close_brace(self) -> bool
        ensures { result ≡ is_close_brace self }
    {
        matches!(self, Kind::CloseBrace)
    }

    /// Whether it is a `(`.
    pub fn is_open_paren(self) -> bool
        ensures { result ≡ is_open_paren self }
    {
        matches!(self, Kind::OpenParen)
    }

    /// Whether it is a `)`.
    pub fn is_close_paren(self) -> bool
        ensures { result ≡ is_close_paren self }
    {
        matches!(self, Kind::CloseParen)
    }

    /// Whether it is a `:`.
    pub fn is_colon(self) -> bool
        ensures { result ≡ is_colon self }
    {
        matches!(self, Kind::Colon)
    }

    /// Whether it is a `;`.
    pub fn is_semicolon(self) -> bool
        ensures { result ≡ is_semicolon self }
    {
        matches!(self, Kind::Semicolon)
    }

    /// Whether it is a `,`.
    pub fn is_comma(self) -> bool
        ensures { result ≡ is_comma self }
    {
        matches!(self, Kind::Comma)
    }

    /// Whether it is a word.
    pub fn is_word(self) -> bool
        ensures { result ≡ is_word self }
    {
        matches!(self, Kind::Word)
    }

    /// Whether it is no token at all.
    pub fn is_bad(self) -> bool
        ensures { result ≡ is_bad self }
    {
        matches!(self, Kind::Bad)
    }

    /// Whether it is a word or a string.
    pub fn is_text(self) -> bool
        ensures { result ≡ is_text self }
    {
        matches!(self, Kind::Word | Kind::Quoted)
    }

    /// Whether a token of this kind may stand in a value.
    fn is_in_value(self) -> bool
        ensures { result ≡ is_in_value self }
    {
        self.is_text()
            || self.is_open_paren()
            || self.is_close_paren()
            || self.is_comma()
            || self.is_colon()
    }

    /// Whether a token of this kind may stand behind one of the kind `before` among arguments.
    fn may_follow(self, before: Kind) -> bool
        ensures { result ≡ may_follow before self }
    {
        self.is_text()
            || self.is_comma() && before.is_text()
            || self.is_close_paren() && !before.is_comma()
    }
}

impl<'a> Token<'a> {
    /// The fault of this token where it may not stand.
    pub fn unexpected(&self) -> TextFault
        ensures { result ≡ unexpected self.now }
    {
        if self.kind.is_bad() {
            TextFault::BadToken(self.at)
        } else {
            TextFault::BadGroup(self.at)
        }
    }

    /// Whether a value ends before this token.
    fn ends_value(&self) -> bool
        ensures { result ≡ ends_value self.now }
    {
        self.fresh || self.kind.is_semicolon() || self.kind.is_close_brace()
    }
}

/// The arguments of a statement, which are read when they are asked for.
///
/// Clauses see the texts that are left.
#[derive(Drop)]
pub struct Arguments<'a> {
    /// What stands behind the `(`, or behind an argument.
    tokens: Tokens<'a>,
}

impl<'a> Model for Arguments<'a> {
    ghost use Rattle.std.specs.Prelude.{ℕ, List};
    ghost use Rattle.cg_liberty_text.specs.Argument.{argument_texts};

    ghost Value = { List (List ℕ) };

    ghost view = { λ a. argument_texts a.tokens.0 };
}

impl<'a> Arguments<'a> {
    /// The arguments that begin here, behind the `(`.
    pub fn new(tokens: Tokens<'a>) -> Arguments<'a>
        ensures { result ≡ argument_texts tokens.entry.0 }
    {
        Arguments { tokens }
    }

    /// The same arguments once more.
    pub fn again(&self) -> Arguments<'a>
        ensures { result ≡ self.now }
    {
        Arguments {
            tokens: self.tokens.again(),
        }
    }

    /// The tokens from the next argument on, or from what stands before it.
    pub fn tokens(&self) -> Tokens<'a>
        ensures { argument_texts result.0 ≡ self.now }
    {
        self.tokens.again()
    }

    /// Takes the next argument, where there is one.
    pub fn next(&mut self) -> Option<Text<'a>>
        ensures { MatchOption result ((self.old ≡ []) × (self.new ≡ [])) (λ text. self.old ≡ text ∷ self.new) }
    {
        'texts: loop {
            let mut ahead = self.tokens.again();
            let token = ahead.next()?;
            if token.kind.is_close_paren() {
                return None;
            }
            self.tokens = ahead;
            if token.kind.is_text() {
                return Some(token.text);
            }
        }
    }

    /// Whether a text is among them.
    #[tactic(auto, using(crate::proofs::Hinted::compared))]
    pub fn has(&self, text: &[u8]) -> bool
        ensures { result ≡ list_any (bytes_eq text.now) self.now }
    {
        let mut left = self.again();
        'texts: while let Some(own) = left.next() {
            if own.is(text) {
                return true;
            }
        }
        false
    }

    /// Whether there is exactly one.
    pub fn is_one(&self) -> bool
        ensures { result ≡ (length self.now == 1) }
    {
        let mut left = self.again();
        left.next().is_some() && left.next().is_none()
    }
}

/// Passes over the arguments and their `)`.
pub fn pass_arguments(tokens: &mut Tokens<'_>) -> Result<(), TextFault>
    ensures behind { MatchResult result (λ _. behind_arguments tokens.old.1 OpenParen tokens.old.0 ≡ Ok tokens.new.0)
        (λ fault. behind_arguments tokens.old.1 OpenParen tokens.old.0 ≡ Err fault) }
    ensures end { tokens.new.1 ≡ tokens.old.1 }
{
    let mut before = Kind::OpenParen;
    'arguments: while let Some(token) = tokens.next() {
        if !token.kind.may_follow(before) {
            return Err(token.unexpected());
        }
        if token.kind.is_close_paren() {
            return Ok(());
        }
        before = token.kind;
    }
    Err(TextFault::BadGroup(tokens.end()))
}

/// Whether nothing more belongs to a value.
fn is_over(tokens: &Tokens<'_>) -> bool
    ensures { result ≡ is_value_over tokens.now.0 }
{
    let mut ahead = tokens.again();
    match ahead.next() {
        Some(token) => token.ends_value(),
        None => true,
    }
}

/// The text of the value that begins here, where it is one word or one string.
pub fn text_of_value<'a>(tokens: &Tokens<'a>) -> Option<Text<'a>>
    ensures { result ≡ value_text tokens.now.0 }
{
    let mut ahead = tokens.again();
    let first = ahead.next()?;
    if !first.ends_value() && first.kind.is_text() && is_over(&ahead) {
        Some(first.text)
    } else {
        None
    }
}

/// Passes over a value, with the `;` where it ends with one.
pub fn pass_value(tokens: &mut Tokens<'_>) -> Result<(), TextFault>
    ensures behind { MatchResult result (λ _. behind_value tokens.old.0 ≡ Ok tokens.new.0) (λ fault. behind_value tokens.old.0 ≡ Err fault) }
    ensures end { tokens.new.1 ≡ tokens.old.1 }
{
    'value: loop {
        let mut ahead = tokens.again();
        let Some(token) = ahead.next() else {
            return Ok(());
        };
        if token.ends_value() {
            if !token.fresh && token.kind.is_semicolon() {
                *tokens = ahead;
            }
            return Ok(());
        }
        if !token.kind.is_in_value() {
            return Err(token.unexpected());
        }
        *tokens = ahead;
    }
}
