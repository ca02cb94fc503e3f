//! The modes, each from its files to what is to be put out, with its texts and its promise.
//!
//! - [`gate`]: a netlist is read with the cells of a library, its clock is gated as is [`wanted`], and it is written;
//! - [`sim`]: a stimulus is played on a netlist;
//! - [`lrat`]: a proof log is checked against a formula;
//! - [`demo`]: a generated pipeline is gated, and a summary is said of it.
//!
//! What they read of their files is `cg_source`'s.

pub mod demo;
pub mod gate;
pub mod lrat;
pub mod sim;
pub mod wanted;
