//! Planning: which stages a machine gets.
//!
//! A machine, a library and settings go in. Stages are looked for and tried one after the other, each on the machine so far,
//! and the plan comes out: the machine at the end, the stages with what came of them, and the proofs of the claims on which
//! the inserted ones stand.
//!
//! The modules:
//!
//! - `cells`: how a stage ends by its registers and its cells alone.
//! - `claims`: the claims of a stage, by their names and as they are built, and how a stage ends by the measure of one.
//! - `insert`: what a stage adds to a machine.
//! - `judge`: what tries stages one after another, and decides a claim that is built.
//! - `trial`: a stage that is tried on a machine.
//! - `plan`: the plan of a machine, in the making and whole.
#![tactic(auto)]

mod cells;
mod claims;
mod insert;
mod judge;
pub mod plan;
pub mod trial;

/// Who is told how far a plan is.
pub use cg_hold::progress;
