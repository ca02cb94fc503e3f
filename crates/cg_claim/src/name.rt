//! What a claim is about.

use cg_net::id::RegId;

/// The name of a claim of a stage.
#[derive(Clone, Copy, Debug, PartialEq, Eq)]
pub enum ClaimName {
    /// That the stage can idle: its enable can be 0.
    Idle,

    /// That a register keeps its bit where the enable is 0.
    Hold(RegId),

    /// That a register keeps its bit a cycle after the enable was 0.
    Stable(RegId),

    /// That an output, counted from 0, does not show the registers of the stage a cycle after the enable was 0.
    Output(u32),

    /// That the next bit of a register does not show them.
    Next(RegId),

    /// That the enable does not show them.
    Enable,
}
