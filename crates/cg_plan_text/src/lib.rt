//! The texts of a plan.
//!
//! A plan goes in, with the hints that were tried before it and what was counted beside it; its lines, its proof file, its report and
//! what is said of it come out.
//!
//! The modules, in the order in which data flows through them:
//!
//! - `names`: the names of nets, registers and outputs;
//! - `claim`: the words of claims and leaves;
//! - `outcome`: the words of what comes of a stage;
//! - `stage`: the line of a stage;
//! - `hint`: the lines of hints;
//! - [`lines`]: the lines of a plan;
//! - [`proof`]: the proof file;
//! - [`summary`]: what is said, and the report.
#![tactic(auto)]

pub mod claim;
pub mod hint;
pub mod lines;
pub mod names;
pub mod outcome;
pub mod proof;
mod stage;
pub mod summary;
