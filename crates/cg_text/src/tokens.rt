//! The words of many lines in a row, for formats whose parts may run over line ends.

ghost use Rattle.std.specs.Prelude.{◌≡◌, [], ◌∷◌, MatchResult};

use crate::blanks::Blanks;
use crate::lines::{Line, Lines};
use crate::words::Words;
use std::marker::Model;

/// A word with the number of its line.
#[derive(Clone, Copy)]
pub struct Token<'a> {
    /// The number of its line, counted from 1.
    pub line: u64,
    /// Its bytes.
    pub text: &'a [u8],
}

/// The words that are still to be read, over the ends of lines.
///
/// Contracts see the words left with their lines, and the number behind that of the last line of the text.
#[derive(Drop)]
pub struct Tokens<'a> {
    line: Line<'a>,
    later: Lines<'a>,
}

impl<'a> Model for Tokens<'a> {
    ghost use Rattle.std.specs.Prelude.{◌++◌};
    ghost use Rattle.cg_text.specs.Spots.{SpotsLeft, line_spots, spots_of};

    ghost Value = { SpotsLeft };

    ghost view = { λ s. record { left = line_spots s.line ++ spots_of s.later.left; end = s.later.end } };
}

impl<'a> Tokens<'a> {
    ghost use Rattle.cg_text.specs.Spots.{spot_of, spots_of};

    /// The words of these lines.
    pub fn new(lines: Lines<'a>) -> Self
        ensures all { result.left ≡ spots_of lines.entry.left }
        ensures end { result.end ≡ lines.entry.end }
    {
        let line = Line {
            number: 0,
            words: Words::new(&[], Blanks::Whitespace),
        };
        Tokens { line, later: lines }
    }

    /// The next word, or the number behind that of the last line.
    pub fn next_token(&mut self) -> Result<Token<'a>, u64>
        ensures token { MatchResult result (λ token. self.old.left ≡ spot_of token ∷ self.new.left)
            (λ end. (self.old.left ≡ []) × (self.new.left ≡ []) × (end ≡ self.old.end)) }
        ensures end { self.new.end ≡ self.old.end }
    {
        'tokens: loop {
            if let Some(text) = self.line.words.next_word() {
                return Ok(Token {
                    line: self.line.number,
                    text,
                });
            }
            self.line = self.later.next_line()?;
        }
    }
}
