//! What comes of a hint.

ghost use Rattle.std.specs.Prelude.{◌≡◌};
ghost use Rattle.cg_hint_laws.specs.Trying.{is_inserted};

use cg_cell::fit::FitKind;
use cg_claim::leaf::LeafBit;
use cg_list::Seq;
use cg_net::id::RegId;

/// The name of a claim of a hint.
#[derive(Clone, Copy, Debug, PartialEq, Eq)]
pub enum HintClaim {
    /// That the condition can be 0.
    Idle,

    /// That a register keeps its bit as the hint says.
    Hold(RegId),
}

/// What comes of a hint that is tried.
#[derive(Debug, Drop)]
pub enum HintOutcome {
    /// Its registers get the enable.
    Inserted,

    /// This register has an enable already.
    Taken(RegId),

    /// The library has no cell of this kind, which the hint needs.
    NoCell(FitKind),

    /// The claim has this many leaves, more than the width.
    Wide(HintClaim, u32),

    /// Its condition is never 0.
    NeverIdle,

    /// The claim is false, as these bits of its leaves show, one for each leaf in order.
    Refuted(HintClaim, Seq<LeafBit>),
}

impl HintOutcome {
    /// Whether the registers of the hint get the enable.
    pub fn is_inserted(&self) -> bool
        ensures { result ≡ is_inserted self.now }
    {
        matches!(self, HintOutcome::Inserted)
    }
}
