//! Parts of a netlist, told to a builder by the names of their nets.
//!
//! A netlist, or some of its parts, and the names of its nets go in; a builder has then been told these parts. So one netlist
//! is made of another: what stays is told as it is, and what changes is told in its place.
//!
//! The module [`parts`] has the names of a netlist's nets, and behind them the calls in the order in which parts are told:
//! inputs, outputs and the clock, logic cells and gating cells, and registers, each on a clock that is given.
#![tactic(auto)]

pub mod parts;
