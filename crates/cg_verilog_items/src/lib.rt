//! The items of a structural Verilog text, read one after another.
//!
//! In go the tokens of a text. Out come its items with their lines, as far as they can be read, or the line of the first token that
//! no item allows. What items are stands in `cg_verilog_text`; `cg_verilog_expression` reads the tokens one by one, nets, and what stands
//! behind the `=` of an `assign`.
//!
//! The modules, in the order in which data flows through them:
//!
//! - [`names`], [`declaration`]: reading names with commas, the head of a text, and what is declared;
//! - [`placed`], [`always`]: reading a placed cell, and registers;
//! - [`item`]: reading an item.
#![tactic(auto)]

pub mod always;
pub mod declaration;
pub mod item;
pub mod names;
pub mod placed;
