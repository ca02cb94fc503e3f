//! Stimuli made by chance.
//!
//! A netlist and a number of rows go in, and a stimulus of so many rows comes out, the same in every run and on every machine.
//! The numbers behind it are those of PCG32 (O'Neill, "PCG: A Family of Simple Fast Space-Efficient Statistically Good Algorithms
//! for Random Number Generation", 2014), as its reference program starts it.
//!
//! Modules, as data flows: [`chance`] (a bit from a word), [`rows`] (the whole stimulus).
#![tactic(auto)]

mod chance;
pub mod rows;
