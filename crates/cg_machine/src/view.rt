//! What a machine shows of an added gate.

use cg_cell::fit::FitKind;
use cg_net::id::NetId;

/// An added gate: its input nets in the order of its pins, and its output net.
#[derive(Clone, Copy)]
pub struct GateView<'a> {
    /// What it computes.
    pub kind: FitKind,

    /// The input nets, in the order of the pins.
    pub inputs: &'a [NetId],

    /// The output net.
    pub output: NetId,
}
