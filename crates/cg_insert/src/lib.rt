//! From machines to netlists: a gating cell for each enable.
//!
//! A machine and a library go in. Out comes the netlist in which each enable has a gating cell, whose output is the clock
//! of the registers that have that enable; an added gate is a cell of the library.
//!
//! The modules, in the order in which data flows through them:
//!
//! - `names`: the names of the nets, those of the added ones made of the prefix and a number.
//! - `logic`: added gates, told to a builder as cells of the library.
//! - `clocked`: the enables of a machine, and the gating cells and registers that they make, told to a builder.
//! - `insert`: the netlist: all its parts, told to a builder.
//! - `laws`: what is proved of the netlist that a machine's enables make.
#![tactic(auto)]

mod clocked;
pub mod insert;
pub mod laws;
mod logic;
mod names;
