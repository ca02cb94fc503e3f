//! The hold stages of a machine: registers that keep their bits wherever one literal of the cone of their inputs is 0.
//!
//! A machine, a width and, where there is a stimulus, how often its nets are 0 go in, and the list of stages comes out. Each
//! register is looked at once, over the nets of its own cone.
//!
//! The modules:
//!
//! - `words`: words of 64 bits, each bit that of a cycle of its own.
//! - `nets`: the words of nets in 64 cycles.
//! - `moves`: in which cycles registers take another bit.
//! - `cycles`: a few cycles with random bits, which settle most literals.
//! - `search`: what they are looked for on, and what is looked at: a register with the cone of its inputs.
//! - `cone_cycles`: a few cycles in which only that cone is looked at.
//! - `trial`: what comes of one literal: some cycle shows that it does not hold the register, or its claims decide.
//! - `choice`: the literals of a register in the order in which they are tried, and the one that it takes.
//! - `candidates`: the registers that took each literal, and the hold stages of them.
//! - `progress`: who is told how far long work is, this and that of the crates above.
#![tactic(auto)]

pub mod candidates;
mod choice;
mod cone_cycles;
mod cycles;
mod moves;
mod nets;
pub mod progress;
mod search;
mod trial;
mod words;
