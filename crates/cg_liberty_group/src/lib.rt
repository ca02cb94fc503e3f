//! What a `cell` group of a Liberty text says.
//!
//! In go the statements of a text, behind the `{` of a group. Out comes what is looked at of a cell: its name, its pins
//! with what is said of each, its `ff` groups and its attributes, or the fault at which reading it was given up. Groups
//! and attributes that no rule here names are passed over and cost no memory. Which cell that makes, and whether it can
//! be one, is asked elsewhere.
//!
//! The text is cut into statements by `cg_liberty_text`. In the order in which data flows through them:
//!
//! - [`group`]: what is looked at of a cell and of the `pin` and `ff` groups in it, statement by statement;
//! - [`pin_text`]: the pins that a `pin` group describes, as the text has them;
//! - [`groups`]: a cell, read up to the `}` of its group, and groups that are passed over;
//! - [`fault`]: what reading a group may be given up for.
#![tactic(auto)]

pub mod fault;
pub mod group;
pub mod groups;
pub mod pin_text;
