//! Definitions and laws of the lists of stages, which the contracts of what finds the stages cite. There is no code here but
//! the call whose contract is the laws.
//!
//! The lists tell which stages are tried: the hold, stability and unobservability stages of a machine.
//!
//! The definitions are functions of a machine and of the stages that were tried before; the code that finds the stages stands
//! above.
//!
//! The modules:
//!
//! - `net_zeros`: how often nets are 0 under a stimulus, by which the literals of registers are ordered.
//! - `laws`: what is proved of the lists.
#![tactic(auto)]

pub mod laws;
pub mod net_zeros;
