//! The arguments of a group, among which many texts are looked for.

ghost use Rattle.std.specs.Prelude.{◌≡◌, ◌<◌, ℕ, List, IfOk};
ghost use Rattle.std.specs.List.{All, list_any};
ghost use Rattle.std.specs.Str.{bytes_eq};
ghost use Rattle.cg_liberty_text.specs.Hint.{IsHint};

use crate::argument::Arguments;
use crate::hints::{Looked, look, put_text};
use std::alloc::{AllocError, Global};
use std::marker::Model;

/// Arguments with a table of hints where each stands in the text, so that looking for one of them does not go through
/// those before it. Looking for a text that is none of them does.
///
/// Clauses see the arguments.
#[derive(Drop)]
pub struct IndexedArguments<'a> {
    arguments: Arguments<'a>,

    /// The bytes of the text from the arguments on.
    bytes: &'a [u8],

    /// Places in these bytes at which arguments begin; 0 in a slot that is free. So an argument at the place 0 has no
    /// hint; it is the first one, and needs none.
    places: Vec<u32>,
}

impl<'a> Model for IndexedArguments<'a> {
    ghost use Rattle.std.specs.Prelude.{ℕ, List};
    ghost use Rattle.std.specs.List.{All};
    ghost use Rattle.cg_liberty_text.specs.Hint.{IsHint};

    ghost Value = { List (List ℕ) };

    ghost view = { λ s. s.arguments };

    ghost invariant = { λ s. All (IsHint s.arguments s.bytes.now) s.places.items };
}

impl<'a> IndexedArguments<'a> {
    /// The arguments, with a hint for each.
    pub fn new(alloc: Global, arguments: Arguments<'a>) -> Result<IndexedArguments<'a>, AllocError>
        ensures { IfOk result (λ indexed. indexed ≡ arguments.entry) }
    {
        let bytes = arguments.tokens().left();
        let places = places_of(alloc, &arguments, bytes)?;
        Ok(IndexedArguments {
            arguments,
            bytes,
            places,
        })
    }

    /// Whether a text is one of the arguments.
    pub fn has(&self, text: &[u8]) -> bool
        ensures { result ≡ list_any (bytes_eq text.now) self.now }
    {
        match look(self.bytes, &self.places, text) {
            Looked::Found => true,
            _ => self.arguments.has(text),
        }
    }
}

/// The most different texts of one to three bytes that are counted for, beside the longer ones.
const MOST_SHORT: usize = 262_144;

/// How many slots a table of hints for these arguments has: a ninth more than there may be different texts that are put
/// into it. A text of four bytes or more takes at least five with what separates it from the next.
fn slots_for(arguments: &Arguments<'_>, bytes: &[u8]) -> usize {
    let mut left = arguments.again();
    let mut count: usize = 0;
    'texts: while let Some(_) = left.next() {
        count = count.saturating_add(1);
    }
    let behind = left.tokens().left().len();
    let most = count.min(bytes.len().saturating_sub(behind) / 5 + MOST_SHORT);
    most + most / 8 + 16
}

/// The places of the arguments, each in a slot to which its text leads.
fn places_of(alloc: Global, arguments: &Arguments<'_>, bytes: &[u8]) -> Result<Vec<u32>, AllocError>
    ensures { IfOk result (λ places. All (IsHint arguments.now bytes.now) places.items) }
{
    let mut places = vec![in alloc; 0; slots_for(arguments, bytes)]?;
    let mut tokens = arguments.tokens();
    let before = tokens.end().saturating_sub(bytes.len());
    'tokens: while let Some(token) = tokens.next() {
        if token.kind.is_close_paren() {
            break;
        }
        if token.kind.is_text() {
            put_text(
                alloc,
                bytes,
                &mut places,
                &token.text,
                token.at.saturating_sub(before),
            )?;
        }
    }
    Ok(places)
}
