//! A library's cell, placed in a text: from its name and its pins with their nets to a part of a netlist, and back.
//!
//! A text that places a cell of a library names the cell, and pins of it with nets. The cell is a part of a netlist where the
//! library has it and its pins have the nets that they have to have; else it has the first of three faults. Formats of texts
//! that say such cells add what they say of them alone: how a pin and its net are written, whether a pin may be named without
//! a net, and on which line a fault stands.
//!
//! The modules, in the order in which data flows through them:
//!
//! - [`pin`]: the pins of a placed cell that a text names;
//! - [`fault`]: why a placed cell is no part;
//! - `given`: the nets that words give to the pins of a cell;
//! - [`adding`]: a placed cell, told to a builder;
//! - [`pins`]: and back: the pins of a part's cell, with their nets;
//! - [`laws`]: what is true of placed cells and of the parts that they are.
#![tactic(auto)]

pub mod adding;
pub mod fault;
mod given;
pub mod laws;
pub mod pin;
pub mod pins;
