//! Netlists as plain data, and what they mean.
//!
//! `Netlist::new` makes a netlist of parts that are one: well formed, with their nets in net order. Who has parts by the
//! names of their nets makes it by the crate `cg_netlist_builder`; what such parts say stands in `cg_netlist_parts`. The numbers and the
//! names of nets stand in `cg_net`.
//!
//! The modules, in the order in which data flows through them:
//!
//! - `fault`: why a part is not taken.
//! - `parts`: logic cells, gating cells and registers as a netlist keeps them, and what it shows of one of them.
//! - `net_driver`: which logic cell drives each net.
//! - `fan_in`: the logic cells that drive the inputs of each logic cell.
//! - `ranks`: how deep each logic cell lies under the registers and inputs, and whose cones hold a cycle.
//! - `cycles`: the ranks of logic cells, and marks on the nets that those behind a cycle drive.
//! - `levels`: the logic cells in an order in which each stands behind those that drive its inputs.
//! - `driver`: what drives each net.
//! - `netlist`: well-formed netlists, and what they answer.
//! - `walk`: walks over the logic cells.
//! - `next`: the next bits of registers.
//! - `chains`: the gating cells in an order in which each stands behind the one that drives its clock pin.
//! - `walk_laws`: what is true of walk order, and of the bits that a walk leaves.
//! - `history`: that a netlist has one history for each start and waveform.
#![tactic(auto)]

pub mod chains;
pub mod cycles;
pub mod driver;
mod fan_in;
pub mod fault;
pub mod history;
mod levels;
mod net_driver;
pub mod netlist;
mod next;
pub mod parts;
mod ranks;
pub mod walk;
pub mod walk_laws;
