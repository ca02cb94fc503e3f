//! Building netlists of parts by the names of their nets.
//!
//! A `Builder` takes the parts of a netlist in file order, nets by their names. `Builder::finish` answers a
//! `Netlist`, which is well formed and numbers its nets in net order, or the first fault of what was built.
//!
//! The modules, in the order in which data flows through them:
//!
//! - `adding`: a part as it is told: its nets are mentioned, and it goes behind the others of its kind.
//! - `inits`: inits that plain registers are given behind all parts.
//! - `parts`: the parts so far, by the numbers of their nets, and these nets by what they are to them.
//! - `builder`: building netlists, part by part.
//! - `order`: the nets in net order, and the parts with these numbers.
//! - `finish`: the faults of what was built, in order, each at the first net that has a mark; or the netlist.
#![tactic(auto)]

mod adding;
pub mod builder;
mod finish;
mod inits;
mod order;
mod parts;
