//! Laws of what a claim reaches, in the words of paths. There is no code here but the call whose contract is the laws.
//!
//! What a claim reaches in its copies of the machine makes its leaves, and so its width. It is found copy by copy, from the last to
//! the first; here stands that it is what paths lead to from the goal, where each part of a copy asks for the next.
//!
//! The modules:
//!
//! - `laws`: what is proved of what a claim reaches.
#![tactic(auto)]

pub mod laws;
