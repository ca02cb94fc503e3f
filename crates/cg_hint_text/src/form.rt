//! The form of a line: registers, `when`, a condition, `after` and a number.

ghost use Rattle.std.specs.Prelude.{⊤, ◌≡◌, ◌∷◌, [], ◌+◌, ◌<◌, None, Some, true, drop, take, length, IfOk, MatchOption};
ghost use Rattle.std.specs.List.{position};
ghost use Rattle.cg_hint_text.specs.Reading.{are_terms, cycles_of, form_of, is_after, is_bang, is_plus, is_when, stand_apart};

use crate::word::Word;
use cg_text::number::{Number, read_number};
use std::alloc::{AllocError, Global};
use std::collections::BTreeSet;

/// Where the parts of a line of the form stand.
#[derive(Clone, Copy)]
pub(crate) struct FormAt {
    /// How many words stand before `when`: the registers' names.
    pub when: usize,

    /// How many words the condition has, which stands behind `when`.
    pub end: usize,

    /// The number of cycles.
    pub after: u8,
}

/// Whether a word is `when`.
fn is_when(word: &Word<'_>) -> bool
    ensures { result ≡ is_when word.now }
{
    word.bytes() == b"when".as_slice()
}

/// Whether a word is `after`.
fn is_after(word: &Word<'_>) -> bool
    ensures { result ≡ is_after word.now }
{
    word.bytes() == b"after".as_slice()
}

/// Whether a word is `+`.
pub(crate) fn is_plus(word: &Word<'_>) -> bool
    ensures { result ≡ is_plus word.now }
{
    word.bytes() == b"+".as_slice()
}

/// Whether a word is `!`.
fn is_bang(word: &Word<'_>) -> bool
    ensures { result ≡ is_bang word.now }
{
    word.bytes() == b"!".as_slice()
}

/// Where the first `when` stands.
fn find_when(words: &[Word<'_>]) -> Option<usize>
    ensures { result ≡ position is_when words.now }
{
    words.iter().position(|word| is_when(word))
}

/// The number of cycles that a word says, from 0 to 4.
fn cycles_of(word: &Word<'_>) -> Option<u8>
    ensures { result ≡ cycles_of word.now }
{
    match read_number(word.bytes()) {
        Number::Small(cycles) if cycles <= 4 => Some(cycles as u8),
        _ => None,
    }
}

/// Whether words are terms with `+` between two.
fn are_terms(words: &[Word<'_>]) -> bool
    ensures { result ≡ are_terms true words.now }
{
    let mut fresh = true;
    for word in words {
        if is_plus(word) {
            if fresh {
                return false;
            }
            fresh = true;
        } else {
            if is_bang(word) {
                return false;
            }
            fresh = false;
        }
    }
    !fresh
}

/// Whether no word stands twice.
fn stand_apart(alloc: Global, words: &[Word<'_>]) -> Result<bool, AllocError>
    ensures { IfOk result (λ apart. apart ≡ stand_apart [] words.now) }
{
    let mut before = BTreeSet::new(alloc);
    for word in words {
        if !before.insert(Word::new(word.bytes()))? {
            return Ok(false);
        }
    }
    Ok(true)
}

/// The form of a line of these words, or `None` where it has none.
pub(crate) fn read_form(alloc: Global, words: &[Word<'_>]) -> Result<Option<FormAt>, AllocError>
    ensures within { IfOk result (λ form. MatchOption form ⊤ (λ f. f.when + 1 + f.end < length words.now)) }
    ensures form { IfOk result (λ form. MatchOption form (form_of words.now ≡ None) (λ f. form_of words.now
        ≡ Some (record { regs = take f.when words.now; terms = take f.end (drop (f.when + 1) words.now); after = f.after }))) }
{
    let Some(when) = find_when(words) else {
        return Ok(None);
    };
    let regs = &words[..when];
    let rest = &words[when + 1..];
    if regs.is_empty() || !stand_apart(alloc, regs)? || rest.len() < 2 {
        return Ok(None);
    }
    let end = rest.len() - 2;
    if !is_after(&rest[end]) || !are_terms(&rest[..end]) {
        return Ok(None);
    }
    match cycles_of(&rest[end + 1]) {
        None => Ok(None),
        Some(after) => Ok(Some(FormAt { when, end, after })),
    }
}
