//! A generated pipeline, its stimulus and the library of its cells, as texts.
//!
//! A size goes in, from which each text is made: a netlist with a valid bit that goes along with four ranks of data registers,
//! on which every kind of stage is found, and 100 rows of a stimulus.
//!
//! The modules:
//!
//! - [`netlist`]: the pipeline;
//! - [`stimulus`]: its stimulus;
//! - [`library`]: the library;
//! - `pieces`: nets by letter and number.
#![tactic(auto)]

pub mod library;
pub mod netlist;
mod pieces;
pub mod stimulus;
#[cfg(test)]
mod tests;
