//! What a BLIF text is.
//!
//! The types that a reader and a writer of BLIF share, and, in `specs/`, the definitions that their contracts cite:
//! the logical lines of a text, what a line says, which netlist a text says with the cells of a library, or the fault
//! of its first line that has one, and the canonical text of a netlist. The laws about these definitions stand in
//! `proofs/`. The format is the Berkeley Logic Interchange Format (University of California, Berkeley, 1992) in this
//! project's own profile, which docs/FORMATS.md writes out.
//!
//! Modules, as data flows: [`statement`] (a line: its words, its command, where it stands, and what it says), [`fault`] (why a
//! line says nothing, and why a text is no netlist), [`laws`] (what is true of texts).
#![tactic(auto)]

pub mod fault;
pub mod laws;
pub mod statement;
