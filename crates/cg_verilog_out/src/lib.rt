//! The writer of Verilog texts.
//!
//! A netlist goes in; its text comes out, one for each netlist and of equal netlists the same, or why it has none.
//!
//! The modules, in the order in which data flows through them:
//!
//! - [`fault`]: why a netlist has no text;
//! - `names`: names, each escaped;
//! - `literal`: literals and terms, as they are written;
//! - `term`: the term of a row, built of literals;
//! - `items`, `forms`, `places`: lines of declarations and plain registers, of assignments, of placed cells;
//! - `cover`: the assignment of a cover;
//! - `labels`: the labels of placed cells;
//! - `part_items`: the lines of logic cells, gating cells and registers;
//! - `refusals`: the first cause for which a netlist has no text;
//! - `text`: the text of a netlist.
#![tactic(auto)]

mod cover;
pub mod fault;
mod forms;
mod items;
mod labels;
mod literal;
mod names;
mod part_items;
mod places;
mod refusals;
mod term;
mod text;

pub use text::write_verilog;
