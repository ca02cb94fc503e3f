//! A table of hints where in a text the arguments of a group stand.
//!
//! The hash of an argument's text leads through a few slots of the table, and one of them has its place. A hint is
//! always looked at before it is believed, so that a lost or a wrong one costs time, and never an answer.

ghost use Rattle.std.specs.Prelude.{◌≡◌, ◌<◌, ℕ, List, true, length};
ghost use Rattle.std.specs.List.{All, list_any};
ghost use Rattle.std.specs.Str.{bytes_eq};
ghost use Rattle.cg_liberty_text.specs.Hint.{IsHint, stands_at};
ghost use Rattle.cg_liberty_text.specs.declared.hints.Looked.TheVariants.{Free, Found};

use crate::argument::Arguments;
use crate::text::Text;
use crate::tokens::Tokens;
use std::alloc::{AllocError, Global};

/// What looking for a text in a table gave.
#[derive(Clone, Copy)]
pub enum Looked {
    /// The text stands where a hint says.
    Found,

    /// No hint leads to it, and this slot is free for one.
    Free(usize),

    /// No hint leads to it, and no slot is free for one.
    Full,
}

/// How many slots are looked at for a text. With a ninth of the slots free, hardly a text needs so many.
const MOST_TRIES: usize = 256;

/// Whether the first argument that is read from a place on is this text.
fn stands_at(bytes: &[u8], place: usize, text: &[u8]) -> bool
    ensures { result ≡ stands_at bytes.now place text.now }
{
    if bytes.len() < place {
        return false;
    }
    let mut arguments = Arguments::new(Tokens::new(&bytes[place..]));
    match arguments.next() {
        Some(first) => first.is(text),
        None => false,
    }
}

/// Whether the first argument that is read from a place on is this text. Of a longer argument only so many bytes are read as
/// this text may have with a `\` before each of them, so that one long argument does not make looking for others long.
fn leads_to(bytes: &[u8], place: usize, text: &[u8]) -> bool
    ensures { result ≡ true → stands_at bytes.now place text.now ≡ true }
{
    let most = text
        .len()
        .saturating_mul(2)
        .saturating_add(3)
        .saturating_add(place);
    let near = &bytes[..most.min(bytes.len())];
    stands_at(near, place, text) && stands_at(bytes, place, text)
}

/// The hash of a text (FNV-1a).
fn hash(text: &[u8]) -> u64 {
    let mut hash: u64 = 0xcbf2_9ce4_8422_2325;
    'bytes: for byte in text {
        hash = (hash ^ *byte as u64).wrapping_mul(0x0000_0100_0000_01b3);
    }
    hash
}

/// The hash for the next try.
fn next_hash(hash: u64) -> u64 {
    hash.wrapping_mul(6_364_136_223_846_793_005)
        .wrapping_add(1_442_695_040_888_963_407)
}

/// The slot to which a hash leads.
fn slot_of(hash: u64, slots: usize) -> usize
    requires { 0 < slots }
    ensures { result < slots }
{
    (hash >> 32) as usize % slots
}

/// Looks for a text by the hints.
pub fn look(bytes: &[u8], places: &[u32], text: &[u8]) -> Looked
    ensures found { result ≡ Found → (arguments : List (List ℕ)) → All (IsHint arguments bytes.now) places.now → list_any (bytes_eq text.now) arguments ≡ true }
    ensures free { (slot : ℕ) → result ≡ Free slot → slot < length places.now }
{
    if places.is_empty() {
        return Looked::Full;
    }
    let mut hash = hash(text);
    'tries: for _ in 0..MOST_TRIES {
        hash = next_hash(hash);
        let slot = slot_of(hash, places.len());
        let place = places[slot];
        if place == 0 {
            return Looked::Free(slot);
        }
        if leads_to(bytes, place as usize, text) {
            return Looked::Found;
        }
    }
    Looked::Full
}

/// Puts a hint to an argument that stands at a place, unless there is one. A text that is not ASCII gets none.
fn put(bytes: &[u8], places: &mut Vec<u32>, text: &[u8], place: usize)
    ensures hints { (arguments : List (List ℕ)) → list_any (bytes_eq text.now) arguments ≡ true → All (IsHint arguments bytes.now) places.old.items
        → All (IsHint arguments bytes.now) places.new.items }
{
    if !text.is_ascii() || (u32::MAX as usize) < place || !stands_at(bytes, place, text) {
        return;
    }
    if let Looked::Free(slot) = look(bytes, places, text) {
        places[slot] = place as u32;
    }
}

/// Puts a hint to an argument that stands at a place.
pub fn put_text(
    alloc: Global,
    bytes: &[u8],
    places: &mut Vec<u32>,
    text: &Text<'_>,
    place: usize,
) -> Result<(), AllocError>
    ensures hints { (arguments : List (List ℕ)) → list_any (bytes_eq text.now) arguments ≡ true → All (IsHint arguments bytes.now) places.old.items
        → All (IsHint arguments bytes.now) places.new.items }
{
    match text.plain() {
        Some(raw) => put(bytes, places, raw, place),
        None => {
            let copy = text.bytes(alloc)?;
            put(bytes, places, &copy, place);
        }
    }
    Ok(())
}
