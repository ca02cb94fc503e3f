//! Formulas in conjunctive form: literals, clauses, when a formula is satisfiable, and the DIMACS CNF text.
//!
//! Who makes formulas, who looks for an assignment or a proof, and who checks a proof stand on this crate, and none
//! of them on another: what they share is what a formula means, and no code that reasons about one.
//!
//! - `formula`: [`Lit`], [`Clause`] and [`Formula`];
//! - `clause_list`: [`ClauseList`], the clauses of a formula in one list of literals;
//! - `token`: the words of a clause, read and written, for every text that has clauses;
//! - `dimacs`: the DIMACS CNF text of a formula, read and written.
#![tactic(auto)]

mod clause_list;
mod dimacs;
mod formula;
mod token;

pub use clause_list::ClauseList;
pub use dimacs::{DimacsFault, LAYOUT, read_dimacs, write_dimacs};
pub use formula::{Clause, Formula, Lit};
pub use token::{ClauseToken, push_clause, read_clause_token};
