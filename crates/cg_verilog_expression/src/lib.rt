//! Nets and what stands behind the `=` of an `assign` in a structural Verilog text, read one after another.
//!
//! In go the tokens of a text. Out comes a net or a form, and the tokens behind it are left; or the line of the first token that may not
//! stand there. What forms are stands in `cg_verilog_text`; `cg_verilog_tokens` reads the tokens.
//!
//! The modules, in the order in which data flows through them:
//!
//! - [`stop`]: why nothing was read;
//! - `ahead`, [`reading`]: reading tokens, with the next one at hand;
//! - [`net`]: reading nets;
//! - [`term`], [`terms`], `before`, [`form`]: reading what stands behind the `=` of an `assign`.
#![tactic(auto)]

mod ahead;
mod before;
pub mod form;
pub mod net;
pub mod reading;
pub mod stop;
pub mod term;
pub mod terms;
