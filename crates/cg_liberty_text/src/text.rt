//! The text of a word or a string, without a copy.

ghost use Rattle.std.specs.Prelude.{◌≡◌, ◌==◌, ◌∷◌, ℕ, List, [], MatchOption, IfOk, IfSome};
ghost use Rattle.std.specs.List.{list_any};
ghost use Rattle.std.specs.Str.{bytes_eq};
ghost use Rattle.cg_liberty_text.specs.Text.{content, unescaped};
ghost use Rattle.cg_liberty_text.specs.inner.Escapes.{escape};

use crate::lexeme::join_bytes;
use std::alloc::{AllocError, Global};
use std::marker::Model;

/// The text of a word, or of a string with its joins and its `\` taken away.
///
/// It keeps the bytes of the file between the quotes and takes them apart when they are read, so
/// making one takes no memory. Clauses see the bytes that it stands for.
#[derive(Drop)]
pub struct Text<'a> {
    raw: &'a [u8],
    quoted: bool,
}

impl<'a> Model for Text<'a> {
    ghost use Rattle.std.specs.Prelude.{ℕ, List};
    ghost use Rattle.cg_liberty_text.specs.Text.{content};

    ghost Value = { List ℕ };

    ghost view = { λ t. content t.quoted t.raw.now };
}

impl<'a> Text<'a> {
    /// The text of a word.
    pub fn word(raw: &'a [u8]) -> Text<'a>
        ensures { result ≡ raw.entry.now }
    {
        Text { raw, quoted: false }
    }

    /// The text of a string, of which `raw` is between the quotes.
    pub fn quoted(raw: &'a [u8]) -> Text<'a>
        ensures { result ≡ unescaped 0 raw.entry.now }
    {
        Text { raw, quoted: true }
    }

    /// The same text once more.
    pub fn again(&self) -> Text<'a>
        ensures { result ≡ self.now }
    {
        Text {
            raw: self.raw,
            quoted: self.quoted,
        }
    }

    /// Takes the first byte away, where there is one.
    fn next_byte(&mut self) -> Option<u8>
        ensures { MatchOption result (self.old ≡ []) (λ byte. self.old ≡ byte ∷ self.new) }
    {
        let first = if self.quoted {
            first_of_quoted(self.raw)?
        } else {
            first_of(self.raw)?
        };
        self.raw = first.rest;
        Some(first.byte)
    }

    /// Whether the text is these bytes.
    pub fn is(&self, bytes: &[u8]) -> bool
        ensures { result ≡ bytes_eq self.now bytes.now }
    {
        let mut left = self.again();
        'bytes: for byte in bytes {
            match left.next_byte() {
                Some(own) => {
                    if own != *byte {
                        return false;
                    }
                }
                None => return false,
            }
        }
        left.next_byte().is_none()
    }

    /// The bytes where they stand in the file, unless some of them are written by a `\`.
    #[tactic(auto, using(crate::proofs::Texts::plain_text))]
    pub fn plain(&self) -> Option<&'a [u8]>
        ensures { IfSome result (λ raw. raw.now ≡ self.now) }
    {
        if !self.quoted {
            return Some(self.raw);
        }
        if has_escape(self.raw) {
            return None;
        }
        Some(self.raw)
    }

    /// A copy of the bytes.
    pub fn bytes(&self, alloc: Global) -> Result<Vec<u8>, AllocError>
        ensures { IfOk result (λ bytes. bytes.items ≡ self.now) }
    {
        let mut left = self.again();
        // What it stands for is no longer than what is written.
        let mut bytes = Vec::with_capacity(alloc, self.raw.len())?;
        'bytes: while let Some(byte) = left.next_byte() {
            bytes.push(byte)?;
        }
        Ok(bytes)
    }
}

/// Whether some byte is a `\`.
fn has_escape(raw: &[u8]) -> bool
    ensures { result ≡ list_any (λ byte. byte == 92) raw.now }
{
    raw.iter().any(|byte| *byte == b'\\')
}

/// A first byte, and the bytes behind it.
#[derive(Drop)]
pub struct First<'a> {
    /// The byte.
    pub byte: u8,

    /// What is read next.
    pub rest: &'a [u8],
}

/// The first of some bytes.
pub fn first_of(raw: &[u8]) -> Option<First<'_>>
    ensures { MatchOption result (raw.entry.now ≡ []) (λ first. raw.entry.now ≡ first.byte ∷ first.rest.now) }
{
    match raw {
        [] => None,
        [byte, rest @ ..] => Some(First { byte: *byte, rest }),
    }
}

/// The first byte that the inside of a string stands for.
fn first_of_quoted(raw: &[u8]) -> Option<First<'_>>
    ensures { MatchOption result (unescaped 0 raw.entry.now ≡ []) (λ first. unescaped 0 raw.entry.now ≡ first.byte ∷ unescaped 0 first.rest.now) }
{
    match raw {
        [] => None,
        [byte, rest @ ..] => {
            if *byte == b'\\' {
                first_of_escape(rest)
            } else {
                Some(First { byte: *byte, rest })
            }
        }
    }
}

/// What a `\` stands for, and what follows it, before the bytes `after` it.
#[tactic(auto, using(crate::proofs::Texts::unescaped_behind))]
fn first_of_escape(after: &[u8]) -> Option<First<'_>>
    ensures { MatchOption result (escape after.entry.now ≡ []) (λ first. escape after.entry.now ≡ first.byte ∷ unescaped 0 first.rest.now) }
{
    if let Some(more) = join_bytes(after) {
        return Some(First {
            byte: b' ',
            rest: &after[more..],
        });
    }
    match after {
        [] => None,
        [byte, rest @ ..] => Some(First { byte: *byte, rest }),
    }
}
