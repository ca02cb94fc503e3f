//! The lines of a text that have words, with their numbers.

ghost use Rattle.std.specs.Prelude.{◌≡◌, [], ◌∷◌, MatchResult};
ghost use Rattle.std.specs.List.{before_first, position};
ghost use Rattle.cg_text.specs.Lines.{is_hash, read_part};

use crate::blanks::{Blanks, Separator};
use crate::piece::cut_piece;
use crate::words::Words;
use std::marker::Model;

/// What of a line is not read.
#[derive(Clone, Copy)]
pub enum Comments {
    /// Each line is read whole.
    Never,
    /// A line whose first byte is `c` is not read, as in DIMACS and LRAT.
    LeadingC,
    /// A line is read up to its first `#`, as in stimuli.
    FromHash,
}

/// How a format cuts its text into lines of words.
#[derive(Clone, Copy)]
pub struct Layout {
    /// The bytes between words.
    pub blanks: Blanks,
    /// What is left out.
    pub comments: Comments,
}

/// Words between white space, and comments from a `#` to the end of its line, as in stimuli.
pub const BARE: Layout = Layout {
    blanks: Blanks::Whitespace,
    comments: Comments::FromHash,
};

/// A line that has words.
#[derive(Drop)]
pub struct Line<'a> {
    /// Its number among all lines of the text, counted from 1.
    pub number: u64,
    /// Its words.
    pub words: Words<'a>,
}

/// The lines that are still to be read. Lines without words are passed over, and counted.
///
/// Contracts see the lines left, and the number behind that of the last line of the text.
#[derive(Drop)]
pub struct Lines<'a> {
    rest: &'a [u8],
    number: u64,
    layout: Layout,
}

impl<'a> Model for Lines<'a> {
    ghost use Rattle.std.specs.Prelude.{◌+◌, ◌<◌, ◌^◌, length};
    ghost use Rattle.cg_text.specs.Words.{lines};
    ghost use Rattle.cg_text.specs.Lines.{Rest, kept_lines};

    ghost Value = { Rest };

    ghost view = { λ s. record { left = kept_lines s.layout s.number (lines s.rest.now); end = s.number + length (lines s.rest.now) } };

    ghost invariant = { λ s. s.number + length s.rest.now < 2 ^ 64 };
}

impl<'a> Lines<'a> {
    ghost use Rattle.cg_text.specs.Lines.{text_lines, end_line};

    /// All lines of a text.
    pub fn new(text: &'a [u8], layout: Layout) -> Self
        ensures all { result.left ≡ text_lines layout text.entry.now }
        ensures end { result.end ≡ end_line text.entry.now }
    {
        Lines {
            rest: text,
            number: 1,
            layout,
        }
    }

    /// The next line, or behind the last one its number and one more.
    pub fn next_line(&mut self) -> Result<Line<'a>, u64>
        ensures line { MatchResult result (λ line. self.old.left ≡ line ∷ self.new.left)
            (λ end. (self.old.left ≡ []) × (self.new.left ≡ []) × (end ≡ self.old.end)) }
        ensures end { self.new.end ≡ self.old.end }
    {
        'lines: while !self.rest.is_empty() {
            let (text, rest) = cut_piece(self.rest, Separator::LineFeed);
            let number = self.number;
            self.rest = rest;
            self.number += 1;
            let words = Words::new(read_part(text, self.layout.comments), self.layout.blanks);
            if !words.is_empty() {
                return Ok(Line { number, words });
            }
        }
        Err(self.number)
    }
}

// What of a line is read.
fn read_part<'a>(line: &'a [u8], comments: Comments) -> &'a [u8]
    ensures { result.now ≡ read_part comments line.entry.now }
{
    match comments {
        Comments::Never => line,
        Comments::LeadingC => { if line.starts_with(b"c") { &[] } else { line } }
        Comments::FromHash => before_hash(line),
    }
}

// What stands before the first `#` of a line.
fn before_hash<'a>(line: &'a [u8]) -> &'a [u8]
    ensures { result.now ≡ before_first is_hash line.entry.now }
{
    match hash_at(line) {
        Some(at) => &line[..at],
        None => line,
    }
}

// Where a line has its first `#`.
fn hash_at(line: &[u8]) -> Option<usize>
    ensures { result ≡ position is_hash line.now }
{
    line.iter().position(|byte| *byte == b'#')
}
