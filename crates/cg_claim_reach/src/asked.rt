//! What a claim asks of a machine, as data.

use cg_machine::stage::NetLit;
use cg_net::id::{NetId, RegId};

/// A copy of the machine.
#[derive(Clone, Copy)]
pub enum Frame {
    /// The first cycle.
    Before,

    /// The cycle after it.
    After,

    /// That cycle with other bits in some registers.
    Changed,
}

/// What one side of a goal shows of a copy.
#[derive(Clone, Copy)]
pub enum Part {
    /// The bit of a net.
    Net(NetId),

    /// The next bit of a register.
    Next(RegId),

    /// The bit of a register.
    State(RegId),

    /// The joined enable.
    Enable,
}

/// A side of a goal: a part of a copy.
#[derive(Clone, Copy)]
pub struct Side {
    /// The copy.
    pub frame: Frame,

    /// What it shows of the copy.
    pub part: Part,
}

/// What a claim asks: whether, where the joined enable is 0 in the first cycle, two sides can differ. Without sides it is
/// whether the joined enable can be 0.
#[derive(Clone, Copy)]
pub struct Asked<'a> {
    /// The literals of the joined enable.
    pub enables: &'a [NetLit],

    /// The registers that hold their next bits after the first cycle.
    pub follows: &'a [RegId],

    /// The registers that may have other bits in the last copy.
    pub changes: &'a [RegId],

    /// The two sides that may differ.
    pub sides: Option<(Side, Side)>,
}
