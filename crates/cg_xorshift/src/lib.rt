//! Pseudo-random words, the same in each run, for guesses that are tried before they are used: no answer rests on which
//! words they are, and nothing of them is promised (xorshift, Marsaglia 2003). Rows by chance, which are defined, are those of
//! `cg_random`.
#![tactic(auto)]

mod random;

pub use random::Random;
