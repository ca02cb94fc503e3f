//! What a claim of a machine reaches, and where registers may show.
//!
//! What is asked of a machine comes in as an enable, registers and two sides of a goal in copies of the machine, and goes
//! out as the cones of the copies, the registers whose states after the first cycle are reached, and the leaves in the
//! order of their numbers. All kinds of claims take one path, from the last copy to the first.
//!
//! The modules:
//!
//! - `asked`: what a claim asks, as data.
//! - `roots`: the nets that it asks for in each copy.
//! - `own`: whether a register's next bit asks for the register's own bit.
//! - `sources`: the registers whose states it asks for in each copy.
//! - `leaves`: its leaves.
//! - `named`: the registers that it says something of, as sets.
//! - `unseen`: the registers of unobservability claims.
//! - `reached`: what it reaches.
//! - `fanout`: what reads the nets of a machine, and with that where registers may show.
//! - `tables`: the readers of its nets, grown with the machine.
//! - `learn`: these readers, noted one part after another.
//! - `readers`: the readers of each net, as lists.
//! - `spread`: the nets at which registers can show.
//! - `targets`: the targets that show these nets, by their names.
#![tactic(auto)]

pub mod asked;
pub mod fanout;
mod learn;
pub mod leaves;
mod named;
pub mod own;
pub mod reached;
mod readers;
pub mod roots;
pub mod sources;
mod spread;
mod tables;
mod targets;
pub mod unseen;
