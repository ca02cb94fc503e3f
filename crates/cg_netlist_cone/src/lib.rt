//! Walks back over logic cells: from some nets to their cone, which is what they depend on at the same moment.
//!
//! Whoever has logic cells with what drives them, as a netlist or one with more cells behind its own, is a `Wiring`; one walk
//! serves all of them.
//!
//! The modules, in the order in which data flows through them:
//!
//! - `ascending`: numbers in ascending order.
//! - `wiring`: what a walk back over logic cells asks for.
//! - `edge`: what drives the nets of a cone.
//! - `reach`: walks back over logic cells, from some nets to their cone.
//! - `cone`: what nets depend on at the same moment.
#![tactic(auto)]

pub mod ascending;
pub mod cone;
pub mod edge;
pub mod reach;
pub mod wiring;
