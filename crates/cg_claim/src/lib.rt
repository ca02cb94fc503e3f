//! Definitions and laws of claims, which the contracts of what finds, builds and tells claims cite. There is no code here but
//! the call whose contract is the laws.
//!
//! Claims are what is asked of a machine before registers get an enable, as an and-inverter list with a goal.
//!
//! A claim is a question about one cycle of a machine, or about two that follow each other. The machine is copied once
//! for each cycle, what the goal reaches in the copies is built as an and-inverter list, and the goal is 1 at bits of
//! its leaves exactly where these bits violate the claim.
//!
//! The modules:
//!
//! - `name`: what a claim is about.
//! - `leaf`: the leaves of a claim, and bits of them.
//! - `laws`: what is proved of claims.
#![tactic(auto)]

pub mod laws;
pub mod leaf;
pub mod name;
