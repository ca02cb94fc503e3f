//! The decision of a claim that is built.
//!
//! An and-inverter list goes in with its goal, what its leaves stand for, and whether a proof is wanted. Out come leaves with bits at
//! which the goal is 1, or that it never is, with the proof where one is wanted. Where none is, all bits of few leaves are tried
//! before a search. The claims of stages and those of hints are decided here.
//!
//! In the order in which data flows through them:
//!
//! - `verdict`: what is decided.
//! - `decider`: what decides.
//! - `trying`: what those share who try one thing after another.
#![tactic(auto)]

pub mod decider;
pub mod trying;
pub mod verdict;
