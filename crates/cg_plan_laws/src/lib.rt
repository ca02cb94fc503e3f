//! Definitions and laws of plans, which the contracts of what makes, tells and writes plans cite. There is no code here but
//! the call whose contract is the laws.
//!
//! A plan tells what comes of each stage that is tried, and which stages are inserted.
//!
//! The definitions are functions of a machine, a library and settings; the code that tries stages stands over them.
//!
//! The modules:
//!
//! - `settings`: what bounds a plan.
//! - `outcome`: what comes of a stage.
//! - `certificate`: proofs of the claims of inserted stages.
//! - `laws`: what is proved of plans.
#![tactic(auto)]

pub mod certificate;
pub mod laws;
pub mod outcome;
pub mod settings;
