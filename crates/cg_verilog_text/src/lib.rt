//! What a structural Verilog text is.
//!
//! The types that a reader and a writer of Verilog share, and, in `specs/`, the definitions that their contracts cite: the
//! tokens of a text, the items that they are, the netlist that a text says with the cells of a library, or its first fault, the
//! text that is written of a netlist, and when two netlists are V-equal: the same, but for what Verilog does not keep. The laws
//! about these definitions stand in `proofs/`. The language is the structural part of Verilog (IEEE 1364-2005) in this
//! project's own profile.
//!
//! Modules, as data flows: [`kind`] (what a token is), [`lexeme`] (what begins at a byte), [`fault`] (why a text is no
//! netlist), [`laws`] (what is true of texts and of V-equal netlists).
#![tactic(auto)]

pub mod fault;
pub mod kind;
pub mod laws;
pub mod lexeme;
