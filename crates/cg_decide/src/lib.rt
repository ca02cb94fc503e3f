//! Whether a literal of an and-inverter list is ever 1.
//!
//! In go a list and a literal of it, the goal. Out come leaf bits under which it is 1, or the formula that says that
//! it is, with a log that proves that nothing satisfies that formula. Where no log is asked for, a search is the last
//! resort.
//!
//! In the order in which data flows through them:
//!
//! - `assumed`: what nodes are where a literal is 1, which shows most goals that are never 1 to be so;
//! - `patterns`: random leaf bits, many at a time, since most goals that are ever 1 are so under some of them;
//! - `lanes`: words that hold the bits of leaves and nodes, 64 assignments at a time;
//! - `exhaustive`: all leaf bits of a list of few leaves, which decide a goal without a search;
//! - `decision`: [`Decider`] and [`decide`], the decision.
#![tactic(auto)]

mod assumed;
mod decision;
mod exhaustive;
mod lanes;
mod patterns;
#[cfg(test)]
mod tests;

pub use decision::{Decider, Decision, decide};
