//! A word of a line.

ghost use Rattle.std.specs.Prelude.{◌≡◌, Some, nat_eq, refl, IfOk};
ghost use Rattle.std.specs.Cmp.{partial_equiv_from_equiv};
ghost use Rattle.std.specs.Cmp.Lexicographic.{nat_list_cmp_total, nat_list_eq_equiv, pointwise, slice_cmp, texts_po, texts_ties};
ghost use Rattle.std.specs.Ordering.{nat_cmp};

use cg_text::words::Words;
use std::alloc::{AllocError, Global};
use std::cmp::Ordering;
use std::marker::Model;

/// A word of a line, lent by the text. Words are in the order of their bytes. Contracts see a word as its bytes.
#[derive(Drop)]
pub(crate) struct Word<'a> {
    bytes: &'a [u8],
}

impl<'a> Model for Word<'a> {
    ghost use Rattle.std.specs.Prelude.{List, ℕ};

    ghost Value = { List ℕ };

    ghost view = { λ w. w.bytes.now };
}

impl<'a> Word<'a> {
    /// The word of these bytes.
    pub(crate) fn new(bytes: &'a [u8]) -> Word<'a>
        ensures { result ≡ bytes.entry.now }
    {
        Word { bytes }
    }

    /// The bytes of the word.
    pub(crate) fn bytes(&self) -> &'a [u8]
        ensures { result.now ≡ self.now }
    {
        self.bytes
    }
}

/// The words that are left of a line.
pub(crate) fn read_words<'a>(alloc: Global, words: Words<'a>) -> Result<Vec<Word<'a>>, AllocError>
    ensures { IfOk result (λ read. read.items ≡ words.entry) }
{
    let mut words = words;
    let mut read = Vec::new(alloc);
    'words: while let Some(word) = words.next_word() {
        read.push(Word::new(word))?;
    }
    Ok(read)
}

impl<'a> PartialEq for Word<'a> {
    ghost eq = { pointwise nat_eq };

    ghost laws = { partial_equiv_from_equiv nat_list_eq_equiv };

    fn eq(&self, other: &Self) -> bool {
        self.bytes == other.bytes
    }
}

impl<'a> Eq for Word<'a> {
    ghost laws = { nat_list_eq_equiv };
}

impl<'a> PartialOrd for Word<'a> {
    ghost partial_cmp = { λ x y. Some (slice_cmp nat_cmp x y) };

    ghost laws = { texts_po };

    fn partial_cmp(&self, other: &Self) -> Option<Ordering> {
        Some(self.cmp(other))
    }
}

impl<'a> Ord for Word<'a> {
    ghost cmp = { slice_cmp nat_cmp };

    ghost total = { nat_list_cmp_total };

    ghost matches_partial_cmp = { λ x y. refl };

    ghost matches_eq = { texts_ties };

    fn cmp(&self, other: &Self) -> Ordering {
        self.bytes.cmp(other.bytes)
    }
}
