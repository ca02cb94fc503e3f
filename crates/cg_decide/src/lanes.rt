//! Words that hold 64 assignments of bits to leaves, each in a lane of its own.
//!
//! An assignment has a number, whose bits are those of the leaves, the last of which has the lowest. The lanes of a word hold 64
//! of them in a row, so that a leaf's word is one of six masks, or has the same bit in all lanes.

ghost use Rattle.std.specs.Prelude.{◌≡◌, ◌<◌, ◌+◌, ◌-◌, ◌*◌, ◌/◌, ◌%◌, ◌^◌, ◌==◌, ℕ, None, Some, IsTrue, length, slice_get};
ghost use Rattle.std.specs.Option.{IfSome};
ghost use Rattle.cg_cell.specs.Domain.{Seen};
ghost use Rattle.cg_aig.specs.Aig.{inverse, is_sound};
ghost use Rattle.cg_decide.specs.inner.Assignments.{AreQuads, IsPlaceWord, IsQuad, IsZero, LANES, lane_bit, word_not};

/// Four words, of assignments in a row.
#[derive(Clone, Copy)]
pub(crate) struct Quad {
    pub first: u64,
    pub second: u64,
    pub third: u64,
    pub fourth: u64,
}

/// The words that are 0 in all lanes.
pub(crate) fn zero() -> Quad
    ensures { (s : Seen) (number : ℕ) → IsQuad s 0 number result }
{
    Quad {
        first: 0,
        second: 0,
        third: 0,
        fourth: 0,
    }
}

/// The words of the leaf that has the bit at a place, among those of a number.
pub(crate) fn leaf_quad(place: u32, number: u64) -> Quad
    requires place { place < 32 }
    requires number { number < 2 ^ 32 }
    ensures { (s : Seen) (leaf : ℕ) → leaf < s.number → place ≡ s.number - 1 - leaf → IsQuad s (2 * (1 + leaf)) number result }
{
    Quad {
        first: place_word(place, 4 * number),
        second: place_word(place, 4 * number + 1),
        third: place_word(place, 4 * number + 2),
        fourth: place_word(place, 4 * number + 3),
    }
}

/// The word of the bits at a place of the assignments of a number.
fn place_word(place: u32, number: u64) -> u64
    requires { place < 32 }
    ensures { IsPlaceWord place number result }
{
    match place {
        0 => 0xaaaa_aaaa_aaaa_aaaa,
        1 => 0xcccc_cccc_cccc_cccc,
        2 => 0xf0f0_f0f0_f0f0_f0f0,
        3 => 0xff00_ff00_ff00_ff00,
        4 => 0xffff_0000_ffff_0000,
        5 => 0xffff_ffff_0000_0000,
        _ => same_word(number >> (place - 6)),
    }
}

/// The word that has the lowest bit of a number in all lanes.
fn same_word(number: u64) -> u64
    ensures { (i : ℕ) → i < LANES → lane_bit i result ≡ (number % 2 == 1) }
{
    if number % 2 == 1 { u64::MAX } else { 0 }
}

/// The words of a literal, by those of the nodes.
pub(crate) fn literal_quad(quads: &[Quad], literal: u32) -> Quad
    requires { literal / 2 < length quads.now }
    ensures { (s : Seen) (number : ℕ) → AreQuads s number quads.now → IsQuad s literal number result }
{
    let quad = quads[(literal / 2) as usize];
    if literal % 2 == 0 {
        quad
    } else {
        inverse(quad)
    }
}

/// The words with the other bit in each lane.
fn inverse(quad: Quad) -> Quad
    ensures { (s : Seen) (literal number : ℕ) → IsQuad s literal number quad → IsQuad s (inverse literal) number result }
{
    Quad {
        first: other(quad.first),
        second: other(quad.second),
        third: other(quad.third),
        fourth: other(quad.fourth),
    }
}

/// The word with the other bit in each lane.
fn other(word: u64) -> u64
    ensures { result ≡ word_not word }
{
    !word
}

/// The words that are 1 in the lanes in which both are.
pub(crate) fn both(a: Quad, b: Quad) -> Quad
    ensures { (s : Seen) (k number : ℕ) (p : ℕ × ℕ) → IsTrue (is_sound s) → slice_get s.pairs k ≡ Some p
        → IsQuad s p.0 number a → IsQuad s p.1 number b → IsQuad s (2 * (1 + s.number + k)) number result }
{
    Quad {
        first: a.first & b.first,
        second: a.second & b.second,
        third: a.third & b.third,
        fourth: a.fourth & b.fourth,
    }
}

/// The first of the 256 lanes that is 1, if there is one.
pub(crate) fn first_one(quad: Quad) -> Option<u32>
    ensures none { result ≡ None → IsZero quad }
    ensures within { IfSome result (λ lane. lane < 256) }
{
    if quad.first != 0 {
        Some(quad.first.trailing_zeros())
    } else if quad.second != 0 {
        Some(64 + quad.second.trailing_zeros())
    } else if quad.third != 0 {
        Some(128 + quad.third.trailing_zeros())
    } else if quad.fourth != 0 {
        Some(192 + quad.fourth.trailing_zeros())
    } else {
        None
    }
}
