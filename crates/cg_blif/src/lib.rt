//! Reads a BLIF text with the cells of a library.
//!
//! In go the bytes of a file, a library, and a net that is declared to be the clock where one is given. Out comes the
//! netlist that the text says, or the first fault of the text with its line. What a text says stands in
//! `cg_blif_text`; docs/FORMATS.md writes the format out.
//!
//! In the order in which data flows through them:
//!
//! - `lines`: the lines of a text, without comments and joined, as words;
//! - `statement`: what the words of a line say;
//! - `cover`: the rows behind a `.names` line;
//! - `parts`: the parts that a line says, given to a builder;
//! - `reader`: the netlist of a whole text;
//! - `fault`: why a line is not taken.
#![tactic(auto)]

mod cover;
mod fault;
mod lines;
mod parts;
mod reader;
mod statement;

pub use cg_blif_text::fault::BlifFault;
pub use reader::{BlifOptions, read_blif};
