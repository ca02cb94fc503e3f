//! Numbers, as they are written.

ghost use Rattle.std.specs.Prelude.{◌≡◌, IsTrue, false, true, MatchOption};
ghost use Rattle.cg_text.specs.Numbers.{is_number};

use cg_text::number::{Number, read_number};
use std::marker::Model;

/// Decimal digits without a leading zero, lent by the text.
///
/// Clauses see the digits.
#[derive(Drop)]
pub struct Numeral<'a> {
    digits: &'a [u8],
}

impl<'a> Model for Numeral<'a> {
    ghost use Rattle.std.specs.Prelude.{IsTrue, List, ℕ};
    ghost use Rattle.cg_text.specs.Numbers.{is_number};

    ghost Value = { List ℕ };

    ghost view = { λ n. n.digits.now };

    ghost invariant = { λ n. IsTrue (is_number n.digits.now) };
}

impl<'a> Numeral<'a> {
    /// These bytes as a number, if they are one.
    pub fn new(bytes: &'a [u8]) -> Option<Numeral<'a>>
        ensures { MatchOption result (is_number bytes.entry.now ≡ false) (λ numeral. (is_number bytes.entry.now ≡ true) × (numeral ≡ bytes.entry.now)) }
    {
        match read_number(bytes) {
            Number::Misspelled => None,
            Number::Small(_) | Number::Large => Some(Numeral { digits: bytes }),
        }
    }

    /// The digits.
    pub fn digits(&self) -> &'a [u8]
        ensures digits { result.now ≡ self.now }
        ensures number { IsTrue (is_number self.now) }
    {
        self.digits
    }
}
