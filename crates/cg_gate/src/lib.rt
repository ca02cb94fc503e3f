//! Gating: from a netlist to the texts of its gated netlist.
//!
//! A netlist, a library and what is asked for go in; the text of the gated netlist comes out, with the proof file, the report and
//! what is said of them. Nothing is read or written here.
//!
//! The modules, in the order in which data flows through them:
//!
//! - [`request`]: what is asked for, and [`fault`]: why it is not done.
//! - `counting`: how often nets are 0 on a stimulus.
//! - `planning`: the hints of a netlist, and its plan.
//! - `proving`: the proof file of these, behind which their certificates are let go.
//! - `playing`: what comes of a stimulus on both netlists.
//! - `registers`: why each register is gated, or why it is not.
//! - [`gate`]: all of it, and its texts.
#![tactic(auto)]

mod counting;
pub mod fault;
pub mod gate;
mod planning;
mod playing;
mod proving;
mod registers;
pub mod request;
