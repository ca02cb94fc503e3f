//! Machines: a netlist without gating cells as a map from cycle to cycle, with an enable for some of its registers.
//!
//! Gates and delay registers are added behind the netlist's own parts, so that no number of a net, of a logic cell or
//! of a register ever changes.
//!
//! The modules:
//!
//! - `delays`: the delay registers that were added, found by the net that they delay.
//! - `gates`: the gates that were added, found by what they compute.
//! - `machine`: machines, what is added to them, and names that are taken before anything is.
//! - `cycle`: the bits of the nets in a cycle, and the next bits of the registers.
//! - `order`: walk order.
//! - `cone`: what nets depend on in the same cycle.
//! - `tries`: walks over the cells of a cone, up to the first fault.
//! - `view`: what a machine shows of an added gate.
//! - `stage`: registers that are to get one enable, as data.
//! - `laws`: what is proved of machines.
#![tactic(auto)]

pub mod cone;
mod cycle;
mod delays;
mod gates;
pub mod laws;
pub mod machine;
mod order;
pub mod stage;
mod tries;
pub mod view;
