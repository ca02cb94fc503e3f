//! The lines of a text: the physical ones, what of each is read, and the logical ones as words. They are cut where a byte of some
//! kind stands first, which is looked for sixteen bytes at a time.

ghost use Rattle.std.specs.Prelude.{◌≡◌, ◌+◌, ◌∷◌, ◌<◌, ◌==◌, [], length, MatchOption, not, IfSome, true, IfOk, IfErr, OnOk, ℕ, ◌≤◌, false, slice_index};
ghost use Rattle.std.specs.List.{AllPass, before_first, list_all, position_or_len};
ghost use Rattle.cg_blif.specs.Joining.{words_in, IsUnnamedLine, PushedWords};
ghost use Rattle.cg_blif.specs.Physical.{is_read, is_trailing, unjoined, without_end};
ghost use Rattle.cg_blif_text.specs.LogicalLines.{bared, is_joined};
ghost use Rattle.cg_cell.specs.Name.{is_name, is_name_byte};
ghost use Rattle.cg_text.specs.Blanks.{is_blank};
ghost use Rattle.cg_text.specs.Words.{lines, pieces};
ghost use Rattle.cg_text.specs.declared.blanks.Blanks.TheVariants.{Controls};
ghost use Rattle.cg_blif.specs.inner.Runs.{IsFirst, IsRun, first_set};

use cg_blif_text::fault::BlifFault;
use cg_blif_text::statement::Word;
use std::alloc::AllocError;
use std::marker::Model;
use std::simd::prelude::*;

/// The logical lines that are still to be read; those without words are passed over.
///
/// Contracts see the lines left, each with its words and the number of its first physical line.
#[derive(Drop)]
pub struct LogicalLines<'a> {
    physical: PhysicalLines<'a>,
}

impl<'a> Model for LogicalLines<'a> {
    ghost use Rattle.std.specs.Prelude.{List};
    ghost use Rattle.cg_text.specs.declared.lines.Line.{Line};
    ghost use Rattle.cg_blif_text.specs.LogicalLines.{logical_lines, word_lines};

    ghost Value = { List Line };

    ghost view = { λ s. word_lines (logical_lines s.physical.number s.physical.left) };
}

impl<'a> LogicalLines<'a> {
    ghost use Rattle.cg_blif_text.specs.LogicalLines.{text_lines};

    /// All logical lines of a text.
    pub fn new(text: &'a [u8]) -> Self
        ensures { result ≡ text_lines text.entry.now }
    {
        LogicalLines {
            physical: PhysicalLines::new(text),
        }
    }

    /// Reads the words of the next line, in place of those that are there, and answers the number of the line; or `None`
    /// behind the last line. `BadLine` where a word of the line ends in `\`.
    pub fn next_line(&mut self, words: &mut Vec<Word<'a>>) -> Result<Option<u64>, BlifFault>
        ensures line { IfOk result (λ number. MatchOption number ((self.old ≡ []) × (self.new ≡ []))
            (λ number. self.old ≡ record { number = number; words = words.new.items } ∷ self.new)) }
        ensures named { OnOk result (list_all is_name words.new.items ≡ true) }
        ensures bad { IfErr result (IsUnnamedLine self.old) }
    {
        words.clear();
        let mut number = self.physical.number();
        'lines: while let Some(line) = self.physical.next_line() {
            let line = bared(line);
            if !push_words(words, unjoined(line))? {
                return Err(BlifFault::BadLine(number));
            }
            if !is_joined(line) {
                if !words.is_empty() {
                    return Ok(Some(number));
                }
                number = self.physical.number();
            }
        }
        if words.is_empty() {
            return Ok(None);
        }
        Ok(Some(number))
    }
}

/// Puts the words of a line behind these, up to the first that is no name; false where there is one.
fn push_words<'a>(words: &mut Vec<Word<'a>>, line: &'a [u8]) -> Result<bool, AllocError>
    requires named { list_all is_name words.old.items ≡ true }
    requires read { AllPass is_read line.now }
    ensures { IfOk result (λ named. PushedWords words.old.items (words_in line.entry.now) words.new.items named) }
{
    let mut rest = LineWords::new(line);
    'words: while let Some(word) = rest.next_word() {
        if is_joined(word) {
            return Ok(false);
        }
        words.push(Word::new(word))?;
    }
    Ok(true)
}

/// The words of a line that are still to be read. Contracts see the list of their bytes.
#[derive(Drop)]
struct LineWords<'a> {
    rest: &'a [u8],
}

impl<'a> Model for LineWords<'a> {
    ghost use Rattle.std.specs.Prelude.{List, ℕ};
    ghost use Rattle.std.specs.List.{AllPass};
    ghost use Rattle.cg_blif.specs.Joining.{words_in};
    ghost use Rattle.cg_blif.specs.Physical.{is_read};

    ghost Value = { List (List ℕ) };

    ghost view = { λ s. words_in s.rest.now };

    ghost invariant = { λ s. AllPass is_read s.rest.now };
}

impl<'a> LineWords<'a> {
    /// All words of a line.
    fn new(line: &'a [u8]) -> Self
        requires { AllPass is_read line.now }
        ensures { result ≡ words_in line.entry.now }
    {
        LineWords { rest: line }
    }

    /// The next word, which is a name unless it ends in `\`.
    fn next_word(&mut self) -> Option<&'a [u8]>
        ensures word { MatchOption result ((self.old ≡ []) × (self.new ≡ [])) (λ word. self.old ≡ word.now ∷ self.new) }
        ensures named { IfSome result (λ word. is_name word.now ≡ not (is_joined word.now)) }
    {
        'pieces: while !self.rest.is_empty() {
            let (piece, rest) = cut_word(self.rest);
            self.rest = rest;
            if !piece.is_empty() {
                return Some(piece);
            }
        }
        None
    }
}

/// What stands before the first blank of a line that is not empty, and what stands behind it.
fn cut_word<'a>(line: &'a [u8]) -> (&'a [u8], &'a [u8])
    requires some { 0 < length line.now }
    requires read { AllPass is_read line.now }
    ensures cut { pieces (is_blank Controls) line.entry.now ≡ result.0.now ∷ pieces (is_blank Controls) result.1.now }
    ensures shorter { length result.1.now < length line.entry.now }
    ensures word { AllPass is_name_byte result.0.now }
    ensures rest { AllPass is_read result.1.now }
{
    let len = first_blank(line);
    if len == line.len() {
        return (line, &line[len..]);
    }
    (&line[..len], &line[len + 1..])
}

/// The physical lines that are still to be read.
///
/// Contracts see the number of the next one, and the lines.
#[derive(Drop)]
struct PhysicalLines<'a> {
    rest: &'a [u8],
    number: u64,
}

impl<'a> Model for PhysicalLines<'a> {
    ghost use Rattle.std.specs.Prelude.{◌+◌, ◌<◌, ◌^◌, length};
    ghost use Rattle.cg_text.specs.Words.{lines};
    ghost use Rattle.cg_blif.specs.Physical.{LinesLeft};

    ghost Value = { LinesLeft };

    ghost view = { λ s. record { number = s.number; left = lines s.rest.now } };

    ghost invariant = { λ s. s.number + length s.rest.now < 2 ^ 64 };
}

impl<'a> PhysicalLines<'a> {
    /// All lines of a text, counted from 1.
    fn new(text: &'a [u8]) -> Self
        ensures { result ≡ record { number = 1; left = lines text.entry.now } }
    {
        PhysicalLines {
            rest: text,
            number: 1,
        }
    }

    /// The number of the next line.
    fn number(&self) -> u64
        ensures { result ≡ self.now.number }
    {
        self.number
    }

    /// The next line, without the line feed that ends it.
    fn next_line(&mut self) -> Option<&'a [u8]>
        ensures { MatchOption result ((self.old.left ≡ []) × (self.new.left ≡ []))
            (λ line. (self.old.left ≡ line.now ∷ self.new.left) × (self.new.number ≡ self.old.number + 1)) }
    {
        if self.rest.is_empty() {
            return None;
        }
        let (line, rest) = cut_line(self.rest);
        self.rest = rest;
        self.number += 1;
        Some(line)
    }
}

/// The first line of a text that is not empty, and what stands behind the line feed that ends it.
fn cut_line<'a>(text: &'a [u8]) -> (&'a [u8], &'a [u8])
    requires { 0 < length text.now }
    ensures cut { lines text.entry.now ≡ result.0.now ∷ lines result.1.now }
    ensures shorter { length result.1.now < length text.entry.now }
{
    let len = first_at(text, b'\n');
    if len == text.len() {
        return (text, &text[len..]);
    }
    (&text[..len], &text[len + 1..])
}

/// What of a line is read: neither its comment, nor the blanks that then stand at its end.
fn bared<'a>(line: &'a [u8]) -> &'a [u8]
    ensures bared { result.now ≡ bared line.entry.now }
    ensures read { AllPass is_read result.now }
{
    trimmed(uncommented(line))
}

/// A line without its comment.
fn uncommented<'a>(line: &'a [u8]) -> &'a [u8]
    ensures bare { result.now ≡ before_first (λ b. b == 35) line.entry.now }
    ensures read { AllPass is_read result.now }
{
    &line[..first_at(line, b'#')]
}

/// A line without the blanks at its end.
fn trimmed<'a>(line: &'a [u8]) -> &'a [u8]
    requires { AllPass is_read line.now }
    ensures trimmed { result.now ≡ without_end line.entry.now }
    ensures read { AllPass is_read result.now }
{
    let mut rest = line;
    'blanks: while let Some((last, front)) = rest.split_last() {
        if !is_trailing(*last) {
            return rest;
        }
        rest = front;
    }
    rest
}

/// Whether a byte is a blank that is taken away at the end of a line.
fn is_trailing(byte: u8) -> bool
    ensures { result ≡ is_trailing byte }
{
    byte == b' ' || byte == b'\t' || byte == b'\r'
}

/// Whether a line is joined with the next one.
fn is_joined(line: &[u8]) -> bool
    ensures { result ≡ is_joined line.now }
{
    match line.last() {
        None => false,
        Some(last) => *last == b'\\',
    }
}

/// A line without the `\` that joins it.
fn unjoined<'a>(line: &'a [u8]) -> &'a [u8]
    requires { AllPass is_read line.now }
    ensures unjoined { result.now ≡ unjoined line.entry.now }
    ensures read { AllPass is_read result.now }
{
    if is_joined(line) {
        return &line[..line.len() - 1];
    }
    line
}

/// How many bytes are looked at together.
const LANES: usize = 16;

/// How many bytes stand before the first one of this value, or in all where there is none.
pub fn first_at(text: &[u8], value: u8) -> usize
    ensures first { result ≡ position_or_len (λ b. b == value) text.now }
    ensures within { result ≤ length text.now }
    ensures before { (k : ℕ) → k < result → (slice_index text.now k == value) ≡ false }
    ensures ends { result < length text.now → (slice_index text.now result == value) ≡ true }
{
    search(text, value)
}

/// The same, by runs of bytes.
#[inline(always)]
fn search(text: &[u8], value: u8) -> usize
    ensures within { result ≤ length text.now }
    ensures before { (k : ℕ) → k < result → (slice_index text.now k == value) ≡ false }
    ensures ends { result < length text.now → (slice_index text.now result == value) ≡ true }
{
    let mut seen = 0;
    'runs: while LANES <= text.len() - seen {
        let run = run_before(text, seen, value);
        seen += run;
        if run < LANES {
            return seen;
        }
    }
    next_at(text, seen, value)
}

/// The first place of this value from a place on, one byte at a time.
fn next_at(text: &[u8], from: usize, value: u8) -> usize
    requires { from ≤ length text.now }
    ensures { IsFirst (λ b. b == value) text.now from result }
{
    let mut at = from;
    'bytes: while at < text.len() && text[at] != value {
        at += 1;
    }
    at
}

/// How many of the bytes from a place on stand before the first one of this value.
#[inline(always)]
fn run_before(text: &[u8], from: usize, value: u8) -> usize
    requires { from + LANES ≤ length text.now }
    ensures { IsRun (λ b. b == value) text.now from LANES result }
{
    let stops = u8x16::from_slice(&text[from..]).simd_eq(u8x16::splat(value));
    first_set(stops.to_bitmask())
}

/// How many bytes stand before the first blank, or in all where there is none.
fn first_blank(text: &[u8]) -> usize
    ensures within { result ≤ length text.now }
    ensures before { (k : ℕ) → k < result → is_blank Controls (slice_index text.now k) ≡ false }
    ensures ends { result < length text.now → is_blank Controls (slice_index text.now result) ≡ true }
{
    let mut seen = 0;
    'runs: while LANES <= text.len() - seen {
        let run = run_before_blank(text, seen);
        seen += run;
        if run < LANES {
            return seen;
        }
    }
    next_blank(text, seen)
}

/// The place of the first blank from a place on, one byte at a time.
fn next_blank(text: &[u8], from: usize) -> usize
    requires { from ≤ length text.now }
    ensures { IsFirst (is_blank Controls) text.now from result }
{
    let mut at = from;
    'bytes: while at < text.len() && text[at] > b' ' {
        at += 1;
    }
    at
}

/// How many of the bytes from a place on stand before the first blank.
#[inline(always)]
fn run_before_blank(text: &[u8], from: usize) -> usize
    requires { from + LANES ≤ length text.now }
    ensures { IsRun (is_blank Controls) text.now from LANES result }
{
    let stops = u8x16::from_slice(&text[from..]).simd_le(u8x16::splat(b' '));
    first_set(stops.to_bitmask())
}

/// How many lanes come before the first that is marked.
#[inline(always)]
fn first_set(marks: u64) -> usize
    ensures { result ≡ first_set marks LANES }
{
    if marks == 0 {
        return LANES;
    }
    marks.trailing_zeros() as usize
}
