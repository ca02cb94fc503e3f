//! The first byte of a kind.

ghost use Rattle.std.specs.Prelude.{◌≡◌, ◌+◌, ◌<◌, ◌≤◌, ◌==◌, ℕ, true, false, length, slice_index};
ghost use Rattle.std.specs.List.{position_or_len};
ghost use Rattle.cg_scan.specs.Runs.{IsFirst, IsRun, first_set, is_blank_or, is_control};

use std::simd::prelude::*;

/// How many bytes are looked at together.
const LANES: usize = 16;

/// How many bytes stand before the first one of this value, or in all where there is none.
pub fn first_at(text: &[u8], value: u8) -> usize
    ensures first { result ≡ position_or_len (λ b. b == value) text.now }
    ensures within { result ≤ length text.now }
    ensures before { (k : ℕ) → k < result → (slice_index text.now k == value) ≡ false }
    ensures ends { result < length text.now → (slice_index text.now result == value) ≡ true }
{
    search(text, value)
}

/// The same, by runs of bytes.
#[inline(always)]
fn search(text: &[u8], value: u8) -> usize
    ensures within { result ≤ length text.now }
    ensures before { (k : ℕ) → k < result → (slice_index text.now k == value) ≡ false }
    ensures ends { result < length text.now → (slice_index text.now result == value) ≡ true }
{
    let mut seen = 0;
    'runs: while LANES <= text.len() - seen {
        let run = run_before(text, seen, value);
        seen += run;
        if run < LANES {
            return seen;
        }
    }
    next_at(text, seen, value)
}

/// The first place of this value from a place on, one byte at a time.
fn next_at(text: &[u8], from: usize, value: u8) -> usize
    requires { from ≤ length text.now }
    ensures { IsFirst (λ b. b == value) text.now from result }
{
    let mut at = from;
    'bytes: while at < text.len() && text[at] != value {
        at += 1;
    }
    at
}

/// How many of the bytes from a place on stand before the first one of this value.
#[inline(always)]
fn run_before(text: &[u8], from: usize, value: u8) -> usize
    requires { from + LANES ≤ length text.now }
    ensures { IsRun (λ b. b == value) text.now from LANES result }
{
    let stops = u8x16::from_slice(&text[from..]).simd_eq(u8x16::splat(value));
    first_set(stops.to_bitmask())
}

/// How many bytes stand before the first that is a space or below it, or of this value, or in all where there is none.
pub fn first_blank_or(text: &[u8], value: u8) -> usize
    ensures within { result ≤ length text.now }
    ensures before { (k : ℕ) → k < result → is_blank_or value (slice_index text.now k) ≡ false }
    ensures ends { result < length text.now → is_blank_or value (slice_index text.now result) ≡ true }
{
    let mut seen = 0;
    'runs: while LANES <= text.len() - seen {
        let run = run_before_either(text, seen, value);
        seen += run;
        if run < LANES {
            return seen;
        }
    }
    next_blank_or(text, seen, value)
}

/// The same from a place on, one byte at a time.
fn next_blank_or(text: &[u8], from: usize, value: u8) -> usize
    requires { from ≤ length text.now }
    ensures { IsFirst (is_blank_or value) text.now from result }
{
    let mut at = from;
    'bytes: while at < text.len() && !is_blank_or(text[at], value) {
        at += 1;
    }
    at
}

/// Whether a byte is a space or below it, or of this value.
fn is_blank_or(byte: u8, value: u8) -> bool
    ensures { result ≡ is_blank_or value byte }
{
    byte <= b' ' || byte == value
}

/// How many of the bytes from a place on stand before the first of either kind.
#[inline(always)]
fn run_before_either(text: &[u8], from: usize, value: u8) -> usize
    requires { from + LANES ≤ length text.now }
    ensures { IsRun (is_blank_or value) text.now from LANES result }
{
    let blank = run_before_control(text, from);
    let other = run_before(text, from, value);
    if other < blank { other } else { blank }
}

/// How many of the bytes from a place on stand before the first that is a space or below it.
#[inline(always)]
fn run_before_control(text: &[u8], from: usize) -> usize
    requires { from + LANES ≤ length text.now }
    ensures { IsRun is_control text.now from LANES result }
{
    let stops = u8x16::from_slice(&text[from..]).simd_le(u8x16::splat(b' '));
    first_set(stops.to_bitmask())
}

/// How many lanes come before the first that is marked.
#[inline(always)]
fn first_set(marks: u64) -> usize
    ensures { result ≡ first_set marks LANES }
{
    if marks == 0 {
        return LANES;
    }
    marks.trailing_zeros() as usize
}
