//! The supports of registers, and the groups of registers by their keys, as the lists of stability and unobservability stages
//! have them.
//!
//! The support of a register is the data inputs and registers that stand at the edge of the cone of its inputs, and the
//! register itself where its function names its own bit. It is found by one walk back from the register's inputs, which
//! touches the nets of their cone and no others. A register has a key or none; the registers with one key form a group, and
//! the groups stand in the order of their first register.
//!
//! The modules:
//!
//! - `cone`: the nets from which logic cells lead to some nets.
//! - `edge`: what drives the nets of a cone from outside.
//! - `support`: the support of a register.
//! - `front`: a walk back that may end before it has found a whole cone.
//! - `early`: what such a walk shows of the support of a register.
//! - `finder`: what finds cones and supports, one after another.
//! - `key`: keys of registers.
//! - `leaving`: registers that a round leaves out.
//! - `group`: the groups of registers by their keys.
#![tactic(auto)]

mod cone;
mod early;
mod edge;
pub mod finder;
mod front;
pub mod group;
pub mod key;
pub mod leaving;
pub mod support;
