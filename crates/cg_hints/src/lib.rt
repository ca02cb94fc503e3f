//! Hints that are tried on a machine.
//!
//! A machine and hints that fit it go in, and out come what comes of each, the machine with their effects, and, where proofs are
//! wanted, one of each claim of those that are inserted. What a hint is, what it claims and what it does is defined in `cg_hint_laws`.
//!
//! The modules, in the order in which data flows through them:
//!
//! - `rules`: by what hints are judged.
//! - `cells`: how a hint ends by its registers and its cells alone.
//! - `claims`: the claims of a hint, and the sizes of those that are built.
//! - `standing`: what is known of a hint once some of its claims had their turn.
//! - `decide`: the decision of a claim that is built.
//! - `insert`: what a hint adds to a machine.
//! - `judge`: what tries hints one after another.
//! - `apply`: one hint, or many, tried on a machine.
#![tactic(auto)]

pub mod apply;
mod cells;
mod claims;
mod decide;
mod insert;
pub mod judge;
pub mod rules;
mod standing;
