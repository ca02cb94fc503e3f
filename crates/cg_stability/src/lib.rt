//! The stages of a round of stability: registers that stand on registers with enables alone, and that need no clock in
//! the cycle after one in which none of these was loaded.
//!
//! A machine and the stages that were tried before go in, and the list of stages that are tried in a round comes out. It
//! is found by one walk back from each register.
//!
//! The modules:
//!
//! - `key`: the keys of registers, by which they are put into groups.
//! - `candidates`: the stages of a round.
#![tactic(auto)]

pub mod candidates;
mod key;
