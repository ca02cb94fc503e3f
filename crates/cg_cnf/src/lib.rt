//! A goal of an and-inverter list as a formula, which is satisfiable exactly where the goal can be 1.
//!
//! In go a list and a goal. Out comes a formula in conjunctive form: three clauses for each and-node, and one
//! for the goal. So that a goal is never 1 is shown by a proof that its formula can't be satisfied.
//!
//! - `goal`: [`formula`], the formula of a goal.
#![tactic(auto)]

mod goal;

pub use goal::formula;
