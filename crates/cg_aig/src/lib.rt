//! And-inverter lists: functions of numbered leaves as ands and inverters, where each pair of operands
//! stands once.
//!
//! In go a number of leaves and the operations `and`, `or`, `xor` and `mux` on literals. Out come a literal
//! for each operation, the pairs of the and-nodes in the order in which they were made, and the bit of a
//! literal where the leaves have given bits. A list is a [`cg_cell::domain::Domain`], so each function of a
//! cell is built in it by the call that also computes the function's bit.
//!
//! In the order in which data flows through them:
//!
//! - `lit`: literals;
//! - `fault`: why a call is refused;
//! - `list`: the list of nodes;
//! - `function`: expressions and covers, built into a list;
//! - `values`: the values of nodes, where the leaves have given bits.
#![tactic(auto)]

mod fault;
mod function;
mod list;
mod lit;
mod values;

pub use fault::AigFault;
pub use list::Aig;
pub use lit::AigLit;
