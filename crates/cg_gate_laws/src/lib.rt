//! Definitions and laws of gated netlists, which the contracts of `gate` cite: the plan's machine written with gating cells
//! shows what the netlist shows. There is no code here but the two calls whose contracts are these laws.
//!
//! Gating cells that the netlist has already are lifted to enables, and hints of the engineer's own are tried, before the plan begins. A
//! plan for gating cells with a test input changes no output, whatever the test input does; it takes no hints.
//!
//! The modules:
//!
//! - `test_laws`: what is proved of plans for gating cells with a test input.
//! - `laws`: what is proved of gated netlists.
#![tactic(auto)]

pub mod laws;
pub mod test_laws;
