//! What the functions of logic cells and registers are at words: 64 bits at once, each in a lane of its own.
//!
//! - `words`: the words of functions, of cells and of inverses.
#![tactic(auto)]

pub mod words;
