//! The words of a line.

ghost use Rattle.std.specs.Prelude.{◌≡◌, ◌==◌, [], ◌∷◌, length, MatchOption};
ghost use Rattle.cg_text.specs.Words.{words};

use crate::blanks::{Blanks, Separator};
use crate::piece::cut_piece;
use std::marker::Model;

/// The words of a line that are still to be read. Contracts see the list of their bytes.
#[derive(Drop)]
pub struct Words<'a> {
    rest: &'a [u8],
    blanks: Blanks,
}

impl<'a> Model for Words<'a> {
    ghost use Rattle.std.specs.Prelude.{List, ℕ};
    ghost use Rattle.cg_text.specs.Words.{words};

    ghost Value = { List (List ℕ) };

    ghost view = { λ s. words s.blanks s.rest.now };
}

impl<'a> Words<'a> {
    /// All words of a line.
    pub fn new(line: &'a [u8], blanks: Blanks) -> Self
        ensures { result ≡ words blanks line.entry.now }
    {
        Words { rest: line, blanks }
    }

    /// The next word.
    pub fn next_word(&mut self) -> Option<&'a [u8]>
        ensures word { MatchOption result ((self.old ≡ []) × (self.new ≡ [])) (λ word. self.old ≡ word.now ∷ self.new) }
    {
        'pieces: while !self.rest.is_empty() {
            let (piece, rest) = cut_piece(self.rest, Separator::Blank(self.blanks));
            self.rest = rest;
            if !piece.is_empty() {
                return Some(piece);
            }
        }
        None
    }

    /// Another reader of the same words, to look ahead with.
    pub fn ahead(&self) -> Words<'a>
        ensures same { result ≡ self.now }
    {
        Words {
            rest: self.rest,
            blanks: self.blanks,
        }
    }

    /// Whether no word is left.
    pub fn is_empty(&self) -> bool
        ensures none { result ≡ (length self.now == 0) }
    {
        holds_no_word(self.rest, self.blanks)
    }
}

// Whether each byte of the line is a blank.
fn holds_no_word(line: &[u8], blanks: Blanks) -> bool
    ensures { result ≡ (length (words blanks line.now) == 0) }
{
    for byte in line {
        if !blanks.has(*byte) {
            return false;
        }
    }
    true
}
