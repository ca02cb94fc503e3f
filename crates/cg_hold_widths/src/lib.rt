//! How wide the hold claims of registers are, of many registers at once.
//!
//! The variables of the hold claims of a register are the data inputs in the cone of the nets that its next bit asks for, the
//! registers that show their bits there, and the register itself. Registers are taken in groups of 64, and each net has a mask: its
//! bit `i` is 1 where the net is in the cone of register `i` of the group. So one walk back over logic cells serves a whole group,
//! and costs the union of its cones, beside the variables that are counted.
//!
//! The modules, in the order in which data flows through them:
//!
//! - `masks`: masks of nets.
//! - `roots`: the nets at which the cones of a group begin.
//! - `back`: masks that are led back over logic cells.
//! - `leaves`: the masks of the variables of a group.
//! - `counts`: how many masks have each bit.
//! - `widths`: how wide the hold claims of registers are.
#![tactic(auto)]

mod back;
mod counts;
mod leaves;
mod masks;
mod roots;
pub mod widths;
