//! Definitions and laws of parts by the names of their nets, which the contracts of what builds, reads and writes netlists
//! cite: what parts say, and their faults. There is no code here but those faults and the calls whose contracts are the laws.
//!
//! A part is an input, an output, a clock, a logic cell, a gating cell or a register. The definitions are functions and
//! relations of lists of parts; the crate `cg_netlist_builder` is the code that hears parts and finds their faults.
//!
//! The modules:
//!
//! - `fault`: why parts make no netlist.
//! - `part_laws`: what is true of parts by name, of their faults, and of the netlists that they say.
#![tactic(auto)]

pub mod fault;
pub mod part_laws;
