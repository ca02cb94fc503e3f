//! Hint texts: conditions of the engineer's own, read for a netlist.
//!
//! The bytes of a text and a netlist go in, and hints come out, or the text's first fault. What a hint is is defined in
//! `cg_hint_laws`; in `specs/` stands what a text says. A crate of its own, since who reads a text needs nothing of what tries
//! hints.
//!
//! The modules, in the order in which data flows through them:
//!
//! - `fault`: why a text is refused.
//! - `word`: a word of a line.
//! - `form`: the form of a line.
//! - `names`: the nets and the registers that words name.
//! - `read`: the hints of a text, or its first fault.
//! - `laws`: what is proved of hints that are read.
#![tactic(auto)]

pub mod fault;
mod form;
pub mod laws;
mod names;
pub mod read;
mod word;
