//! Decimal numbers.

ghost use Rattle.std.specs.Prelude.{◌≡◌, ◌==◌, ◌<◌, ◌≤◌, ◌+◌, ◌-◌, ◌*◌, ◌^◌, ◌++◌, ◌&&◌, ◌||◌, not, true, false, decimal, is_ok, if◌then◌else◌, length, slice_index, MatchOption, SomeIff};
ghost use Rattle.std.specs.Char.{is_ascii_digit};
ghost use Rattle.std.specs.Str.{all_ascii_digits};
ghost use Rattle.cg_text.specs.Numbers.{digits_after, number_of};
ghost use Rattle.cg_text.specs.declared.number.TheConstants.{FEW};

use itoa::Buffer;
use std::alloc::AllocError;

/// What a word says as a number.
#[derive(Clone, Copy, PartialEq, Eq)]
pub enum Number {
    /// A number below 2^64.
    Small(u64),
    /// A number from 2^64 on.
    Large,
    /// No decimal digits, or a leading zero before others.
    Misspelled,
}

/// So few digits make a number below 2^64, whichever they are.
const FEW: usize = 18;

/// Reads a word as a number: decimal digits with no leading zero, `0` itself apart.
pub fn read_number(word: &[u8]) -> Number
    ensures { result ≡ number_of word.now }
{
    if word.len() <= FEW {
        read_few(word)
    } else {
        read_many(word)
    }
}

// Reads a word of few bytes, in one pass.
fn read_few(word: &[u8]) -> Number
    requires { length word.now ≤ FEW }
    ensures { result ≡ number_of word.now }
{
    if !is_front(word) {
        return Number::Misspelled;
    }
    match few_digits(word) {
        Some(value) => Number::Small(value),
        None => Number::Misspelled,
    }
}

// Reads a word of any length.
fn read_many(word: &[u8]) -> Number
    ensures { result ≡ number_of word.now }
{
    if !is_front(word) || !are_digits(word) {
        return Number::Misspelled;
    }
    match value(word) {
        Some(value) => Number::Small(value),
        None => Number::Large,
    }
}

// Whether a word has bytes, the first of which is no leading zero.
fn is_front(word: &[u8]) -> bool
    ensures { result ≡ (not (length word.now == 0) && (not (slice_index word.now 0 == 48) || length word.now == 1)) }
{
    !word.is_empty() && (word[0] != b'0' || word.len() == 1)
}

// Whether each byte is a decimal digit.
fn are_digits(word: &[u8]) -> bool
    ensures { result ≡ all_ascii_digits word.now }
{
    for byte in word {
        if !byte.is_ascii_digit() {
            return false;
        }
    }
    true
}

// The value of few decimal digits, if each byte is one.
fn few_digits(word: &[u8]) -> Option<u64>
    requires { length word.now ≤ FEW }
    ensures { MatchOption result (all_ascii_digits word.now ≡ false) (λ value. (all_ascii_digits word.now ≡ true) × (value ≡ digits_after 0 word.now)) }
{
    let mut value = 0u64;
    for byte in word {
        if !byte.is_ascii_digit() {
            return None;
        }
        value = 10 * value + u64::from(*byte - b'0');
    }
    Some(value)
}

// The value of decimal digits, where it is below 2^64.
fn value(digits: &[u8]) -> Option<u64>
    requires { all_ascii_digits digits.now ≡ true }
    ensures { SomeIff result (digits_after 0 digits.now < 2 ^ 64) (digits_after 0 digits.now) }
{
    let mut value = 0u64;
    for digit in digits {
        match append_digit(value, *digit) {
            Some(longer) => value = longer,
            None => return None,
        }
    }
    Some(value)
}

// The number that a digit behind others makes, where it is below 2^64.
fn append_digit(value: u64, digit: u8) -> Option<u64>
    requires { is_ascii_digit digit ≡ true }
    ensures { SomeIff result (10 * value + (digit - 48) < 2 ^ 64) (10 * value + (digit - 48)) }
{
    value.checked_mul(10)?.checked_add(u64::from(digit - b'0'))
}

/// Puts the decimal digits of a number behind a text.
pub fn push_number(text: &mut Vec<u8>, number: u64) -> Result<(), AllocError>
    ensures { text.new.items ≡ (if is_ok result then text.old.items ++ decimal number else text.old.items) }
{
    text.extend_from_slice(Buffer::new().format(number).as_bytes())
}
