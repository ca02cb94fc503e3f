//! What a claim over cycles asks of a machine, as data.

use cg_list::Seq;
use cg_machine::stage::NetLit;
use cg_net::id::RegId;

/// What a claim asks: whether, where a condition is 0 in the first cycle, a register can change its bit some cycles later.
/// Without a register it is whether the condition can be 0.
#[derive(Clone, Copy)]
pub struct Question<'a> {
    /// The terms of the condition, joined by or; the literals of one are joined by and.
    pub terms: &'a [Seq<NetLit>],

    /// How many cycles there are behind the first.
    pub after: u8,

    /// The register that may change its bit in the last cycle.
    pub register: Option<RegId>,
}
