//! A solver for formulas in conjunctive form that shows what it answers: bits that satisfy the formula, or a log of
//! clauses, each with its hints, that ends with the empty clause.
//!
//! It learns a clause from each conflict (conflict-driven clause learning, Marques-Silva and Sakallah 1996), looks at
//! two literals of each clause, and never restarts. Its clauses, its log so far and the literals that are true stand in
//! `cg_sat_state`; what to look at, to decide and to delete is proposed by `cg_sat_guide`, on which no answer rests. It shares
//! no code with the checker of logs.
//!
//! In the order in which data flows through them:
//!
//! - `problem`: what a search is about;
//! - `scan`, `propagate`: what follows from the literals that are true;
//! - `learn`: the clause that a conflict teaches, with its hints;
//! - `undo`, `units`, `forget`: the trail cut, clauses of single literals, clauses deleted;
//! - `choose`: what is decided where nothing follows;
//! - `search`: [`Solver`] and [`solve`], the search.
#![tactic(auto)]

mod choose;
mod forget;
mod learn;
mod problem;
mod propagate;
mod scan;
mod search;
mod undo;
mod units;

pub use search::{Solved, Solver, solve};
