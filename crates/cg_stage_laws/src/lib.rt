//! Definitions and laws of stages, which the contracts of what lists, tries and inserts stages cite. There is no code here
//! but the call whose contract is the laws.
//!
//! Stages are groups of registers that get one enable; here stand what is claimed of them, and why no output changes.
//!
//! The definitions are functions of a machine and a stage over plain data; the code that finds, tries and inserts stages
//! stands above.
//!
//! The modules:
//!
//! - `laws`: what is proved of stages.
#![tactic(auto)]

pub mod laws;
