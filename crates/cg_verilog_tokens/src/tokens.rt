//! The tokens of a text, one after another.

ghost use Rattle.std.specs.Prelude.{◌≡◌, ◌+◌, ◌<◌, ◌≤◌, ◌∷◌, ◌^◌, ℕ, List, [], length, true, drop, take, IfSome, MatchOption};
ghost use Rattle.std.specs.List.{fold};
ghost use Rattle.cg_text.specs.Blanks.{is_white_space};
ghost use Rattle.cg_text.specs.Lines.{end_line};
ghost use Rattle.cg_text.specs.Words.{lines};
ghost use Rattle.cg_verilog_text.specs.Tokens.{next_line, stays_fresh, token_text, tokens};
ghost use Rattle.cg_verilog_tokens.specs.Marks.{mark_token};
ghost use Rattle.cg_verilog_tokens.specs.Passing.{passed_fresh, passed_line};

use crate::lexeme::{Begun, is_seen_mark, lexeme};
use crate::mark::Mark;
use crate::token::Token;
use cg_scan::first::first_at;
use cg_text::blanks::is_white_space;
use cg_verilog_text::kind::Kind;
use std::marker::Model;

/// A place in a text, from which its tokens are read.
///
/// Clauses see the tokens that are left, and the number of the line behind the last.
#[derive(Drop)]
pub struct Tokens<'a> {
    /// The bytes of the text.
    text: &'a [u8],

    /// The bytes that are left.
    rest: &'a [u8],

    /// The line of the first of them.
    line: u64,

    /// Whether only blanks stand before it on its line.
    fresh: bool,
}

impl<'a> Model for Tokens<'a> {
    ghost use Rattle.std.specs.Prelude.{ℕ, ◌+◌, ◌<◌, ◌^◌, List, length};
    ghost use Rattle.cg_text.specs.Lines.{end_line};
    ghost use Rattle.cg_verilog_text.specs.Tokens.{Token as TokenSeen, tokens_from};

    ghost Value = { List TokenSeen × ℕ };

    ghost view = { λ t. (tokens_from (end_line t.text.now) 0 t.fresh t.line t.rest.now, end_line t.text.now) };

    ghost invariant = { λ t. (t.line + length t.rest.now < 2 ^ 64) × (length t.text.now < 2 ^ 63) };
}

impl<'a> Tokens<'a> {
    /// The tokens of a text.
    pub fn new(text: &'a [u8]) -> Tokens<'a>
        requires { length text.now < 2 ^ 63 }
        ensures tokens { result.0 ≡ tokens text.entry.now }
        ensures end { result.1 ≡ end_line text.entry.now }
    {
        Tokens {
            text,
            rest: text,
            line: 1,
            fresh: true,
        }
    }

    /// The number of the line behind the last. The lines are counted for it, which takes time as the text is long.
    pub fn end(&self) -> u64
        ensures { result ≡ self.now.1 }
    {
        line_behind(self.text)
    }

    /// Takes the next token if it is seen at once, by its first byte, to be a mark. It may be one so unseen; then it takes none.
    #[inline(always)]
    pub fn next_mark(&mut self) -> Option<Mark>
        ensures mark { MatchOption result (self.new ≡ self.old) (λ mark. self.old.0 ≡ mark_token mark ∷ self.new.0) }
        ensures end { self.new.1 ≡ self.old.1 }
    {
        self.skip_blanks();
        match first_of(self.rest) {
            Some(first) if is_seen_mark(first.byte, first.rest) => {
                self.rest = first.rest;
                self.fresh = false;
                Some(Mark {
                    line: self.line,
                    byte: first.byte,
                })
            }
            _ => None,
        }
    }

    /// Takes the next token, or nothing where the text ends.
    pub fn next(&mut self) -> Option<Token<'a>>
        ensures token { MatchOption result ((self.old.0 ≡ []) × (self.new.0 ≡ [])) (λ token. self.old.0 ≡ token ∷ self.new.0) }
        ensures end { self.new.1 ≡ self.old.1 }
    {
        self.skip_blanks();
        'gaps: while let Some(first) = first_of(self.rest) {
            let line = self.line;
            match lexeme(self.fresh, first.byte, first.rest) {
                Begun::Blank(more) => {
                    let place = passed(first.byte, first.rest, more, self.fresh, line);
                    self.rest = behind(first.rest, more);
                    self.fresh = place.fresh;
                    self.line = place.line;
                }
                Begun::Token(kind, more) => {
                    let text = text_of(kind, self.rest, more);
                    self.rest = behind(first.rest, more);
                    self.fresh = false;
                    return Some(Token::new(line, kind, text));
                }
                Begun::Escaped(more, named) => {
                    let text = front(first.rest, more);
                    self.rest = behind(first.rest, more);
                    self.fresh = false;
                    return Some(Token::known(line, Kind::Escaped, text, named));
                }
                Begun::Open => {
                    self.rest = &[];
                    return Some(Token::new(line_behind(self.text), Kind::Other, &[]));
                }
            }
        }
        None
    }

    /// Passes over the blanks at the front.
    #[inline(always)]
    fn skip_blanks(&mut self)
        ensures { self.new ≡ self.old }
    {
        let mut rest = self.rest;
        let mut place = Place {
            line: self.line,
            fresh: self.fresh,
        };
        'blanks: while let Some(blank) = blank_of(rest) {
            place = next_place(place, blank.byte);
            rest = blank.rest;
        }
        self.rest = rest;
        self.line = place.line;
        self.fresh = place.fresh;
    }
}

/// The number of the line behind the last.
fn line_behind(text: &[u8]) -> u64
    requires { length text.now < 2 ^ 63 }
    ensures { result ≡ end_line text.now }
{
    let mut rest = text;
    let mut line: u64 = 1;
    'lines: while !rest.is_empty() {
        rest = behind_line(rest);
        line += 1;
    }
    line
}

/// The bytes behind the first line of some.
fn behind_line(text: &[u8]) -> &[u8]
    requires { 0 < length text.now }
    ensures lines { length (lines text.entry.now) ≡ 1 + length (lines result.now) }
    ensures shorter { length result.now < length text.entry.now }
{
    let len = first_at(text, b'\n');
    if len == text.len() {
        return &text[len..];
    }
    &text[len + 1..]
}

/// The first byte of some, and those behind it.
#[derive(Clone, Copy)]
struct First<'a> {
    byte: u8,
    rest: &'a [u8],
}

/// The first byte, if there is one.
fn first_of(bytes: &[u8]) -> Option<First<'_>>
    ensures { MatchOption result (bytes.entry.now ≡ []) (λ first. bytes.entry.now ≡ first.byte ∷ first.rest.now) }
{
    if bytes.is_empty() {
        return None;
    }
    Some(First {
        byte: bytes[0],
        rest: &bytes[1..],
    })
}

/// The first byte, if there is one and it is a blank.
fn blank_of(bytes: &[u8]) -> Option<First<'_>>
    ensures { IfSome result (λ first. (bytes.entry.now ≡ first.byte ∷ first.rest.now) × (is_white_space first.byte ≡ true)) }
{
    match first_of(bytes) {
        Some(first) if is_white_space(first.byte) => Some(first),
        _ => None,
    }
}

/// Where a byte stands: its line, and whether only blanks stand before it there.
#[derive(Clone, Copy)]
struct Place {
    line: u64,
    fresh: bool,
}

/// The place behind a byte.
fn next_place(place: Place, byte: u8) -> Place
    requires { place.line + 1 < 2 ^ 64 }
    ensures line { result.line ≡ next_line place.line byte }
    ensures fresh { result.fresh ≡ stays_fresh place.fresh byte }
{
    if byte == b' ' {
        return place;
    }
    if byte == b'\n' {
        return Place {
            line: place.line + 1,
            fresh: true,
        };
    }
    Place {
        line: place.line,
        fresh: is_white_space(byte) && place.fresh,
    }
}

/// The place behind a byte and so many after it.
fn passed(byte: u8, after: &[u8], more: usize, fresh: bool, line: u64) -> Place
    requires within { more ≤ length after.now }
    requires few { line + 1 + length after.now < 2 ^ 64 }
    ensures line { result.line ≡ passed_line line (byte ∷ take more after.now) }
    ensures fresh { result.fresh ≡ passed_fresh fresh (byte ∷ take more after.now) }
    ensures few { result.line ≤ line + 1 + more }
{
    let mut place = next_place(Place { line, fresh }, byte);
    'bytes: for other in &after[..more] {
        place = next_place(place, *other);
    }
    place
}

/// The bytes behind the first `count`.
fn behind(bytes: &[u8], count: usize) -> &[u8]
    requires { count ≤ length bytes.now }
    ensures { result.now ≡ drop count bytes.entry.now }
{
    &bytes[count..]
}

/// The first `count` bytes.
fn front(bytes: &[u8], count: usize) -> &[u8]
    requires { count ≤ length bytes.now }
    ensures { result.now ≡ take count bytes.entry.now }
{
    &bytes[..count]
}

/// The text of a token of a kind that begins with the first of the bytes and has `more` bytes behind it.
fn text_of(kind: Kind, bytes: &[u8], more: usize) -> &[u8]
    requires { more < length bytes.now }
    ensures { (byte : ℕ) (after : List ℕ) → bytes.entry.now ≡ byte ∷ after → result.now ≡ token_text kind more byte after }
{
    match kind {
        Kind::Escaped => &bytes[1..more + 1],
        _ => &bytes[..more + 1],
    }
}
