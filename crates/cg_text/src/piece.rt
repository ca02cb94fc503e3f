//! A text, cut at its first separator.

ghost use Rattle.std.specs.Prelude.{◌≡◌, ℕ, ◌<◌, ◌≤◌, ◌∷◌, true, false, length, slice_index};
ghost use Rattle.cg_text.specs.Blanks.{is_blank, separates};
ghost use Rattle.cg_text.specs.Words.{pieces};

use crate::blanks::{Blanks, Separator};
use cg_scan::first::first_at;

// How many bytes stand before the first separator, or in all where there is none.
fn piece_len(text: &[u8], separator: Separator) -> usize
    ensures within { result ≤ length text.now }
    ensures before { (k : ℕ) → k < result → separates separator (slice_index text.now k) ≡ false }
    ensures ends { result < length text.now → separates separator (slice_index text.now result) ≡ true }
{
    match separator {
        Separator::LineFeed => first_at(text, b'\n'),
        Separator::Blank(blanks) => blank_at(text, blanks),
    }
}

// How many bytes stand before the first blank, or in all where there is none. Words are short, so they are looked at byte by byte.
fn blank_at(text: &[u8], blanks: Blanks) -> usize
    ensures within { result ≤ length text.now }
    ensures before { (k : ℕ) → k < result → is_blank blanks (slice_index text.now k) ≡ false }
    ensures ends { result < length text.now → is_blank blanks (slice_index text.now result) ≡ true }
{
    for (at, byte) in text.iter().enumerate() {
        if blanks.has(*byte) {
            return at;
        }
    }
    text.len()
}

/// The first piece of a text that is not empty, and what stands behind the separator that ends it.
pub fn cut_piece<'a>(text: &'a [u8], separator: Separator) -> (&'a [u8], &'a [u8])
    requires { 0 < length text.now }
    ensures cut { pieces (separates separator) text.entry.now ≡ result.0.now ∷ pieces (separates separator) result.1.now }
    ensures shorter { length result.1.now < length text.entry.now }
{
    let len = piece_len(text, separator);
    if len == text.len() {
        return (text, &text[len..]);
    }
    (&text[..len], &text[len + 1..])
}
