//! Reads a structural Verilog text with the cells of a library.
//!
//! In go the bytes of a file, a library, and a net that is declared to be the clock where one is given. Out comes the netlist
//! that the text says, or the first fault of the text with its line. What a text says stands in `cg_verilog_text`;
//! docs/FORMATS.md writes the format out.
//!
//! The modules, in the order in which data flows through them:
//!
//! - `fault`, `refusal`: the first fault of a text, and why an item is not told;
//! - `inits`: the inits that a text gives;
//! - `counter`, `declare`: inputs and outputs, told to a builder;
//! - `inputs`, `cover`, `assign`: an assignment, told to a builder;
//! - `placing`: a placed cell, told to a builder;
//! - `telling`: what the items of a text tell, one after another;
//! - `reader`: the netlist of a whole text.
#![tactic(auto)]

mod assign;
mod counter;
mod cover;
mod declare;
mod fault;
mod inits;
mod inputs;
mod placing;
mod reader;
mod refusal;
mod telling;

pub use cg_verilog_text::fault::VerilogFault;
pub use reader::read_verilog;
