//! From netlists with gating cells to machines: the gating cells are lifted to enables.
//!
//! A netlist goes in. Out comes the machine of the netlist without its gating cells, in which every register is on the clock,
//! and a register that was clocked by a gating cell has an enable: the and of the enable nets on the chain of gating cells from
//! the clock to it.
//!
//! The modules:
//!
//! - [`refused`]: gating cells that are not lifted.
//! - `extract`: the netlist without its gating cells, with the numbers that its nets get, and its machine, into which gating cells
//!   are taken by depth.
//! - `laws`: what is proved of that machine.
#![tactic(auto)]

pub mod extract;
pub mod laws;
pub mod refused;
