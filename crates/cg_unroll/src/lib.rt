//! Claims of a machine, built as and-inverter lists with a goal.
//!
//! What is asked of a machine before registers get an enable comes in as an enable, registers and a target, and goes out
//! as an and-inverter list with a goal, which is 1 at bits of its leaves exactly where these bits violate the claim. All
//! kinds of claims take one path: what the goal reaches is found first, by the crate below, then the leaves are counted,
//! and then the list is built.
//!
//! The modules:
//!
//! - `literals`: a literal for each net or each register, where most have none.
//! - `tables`: the literals of the nets and of the states of the copies, and those of the leaves at their places.
//! - `edge`: the registers at the edge of a cone.
//! - `lay`: the cells of one copy, put into the list.
//! - `copy`: one copy of the machine, as far as a claim reaches it.
//! - `next`: the next bit of a register in one copy.
//! - `states`: the states of registers after the first cycle.
//! - `goal`: the goal of a claim.
//! - `build`: the list and the goal, built from what is reached.
//! - `unroller`: the object that builds claims one after another, in buffers that are kept.
//! - `hold`: the hold claims of one register, one literal after another.
//! - `claim`: claims, and calls that build one each.
#![tactic(auto)]

mod build;
pub mod claim;
pub mod copy;
mod edge;
pub mod goal;
pub mod hold;
mod lay;
pub mod literals;
pub mod next;
mod states;
pub mod tables;
pub mod unroller;
