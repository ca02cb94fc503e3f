//! The writer of canonical BLIF texts.
//!
//! A netlist goes in; its canonical text comes out: one text for each netlist, and of equal netlists the same.
//!
//! The module `text` has it part by part: what the line of each part says, a statement as a line, and the rows of a cover.
#![tactic(auto)]

mod text;

pub use text::write_blif;
