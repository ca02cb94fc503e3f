//! Why each register of a netlist that was gated is gated, or why it is not, and how often each rises.
//!
//! A netlist, its gated netlist, the hints and the plan go in, and where a stimulus is played how often each register of both rises. A
//! text comes out: a line for each register with its clock net, its cause and its rises, and a line of the sums.
//!
//! The modules, in the order in which data flows through them:
//!
//! - [`rises`]: how often each register of a netlist rises where a stimulus is played;
//! - [`told`]: what is told of, a netlist that was gated;
//! - `seen`: what was tried for each register: one pass over the hints, and one over the stages;
//! - [`cause`]: why a register is gated, or why it is not;
//! - `finding`: the causes of all registers;
//! - `outcome`: what came of a stage or a hint, without bits;
//! - `line`: the line of a register;
//! - `sums`: the line of the sums;
//! - [`text`]: the text;
//! - [`laws`]: what causes say of their registers, and that the rises of registers are the edges.
#![tactic(auto)]

pub mod cause;
mod finding;
pub mod laws;
mod line;
mod outcome;
pub mod rises;
mod seen;
mod sums;
pub mod text;
pub mod told;
