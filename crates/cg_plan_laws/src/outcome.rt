//! What comes of a stage.

ghost use Rattle.std.specs.Prelude.{◌≡◌};
ghost use Rattle.cg_plan_laws.specs.Plan.{is_inserted};

use cg_cell::fit::FitKind;
use cg_claim::leaf::LeafBit;
use cg_claim::name::ClaimName;
use cg_list::Seq;

/// What comes of a stage that is tried.
#[derive(Debug, Drop)]
pub enum Outcome {
    /// Its registers get the enable.
    Inserted,

    /// The claim is false, as these bits of its leaves show, one for each leaf in order.
    Refuted(ClaimName, Seq<LeafBit>),

    /// The claim has this many leaves, more than the settings allow.
    Wide(ClaimName, u32),

    /// Its enable is never 0.
    NeverIdle,

    /// It has this many registers, fewer than the settings ask for.
    Small(u32),

    /// The library has no cell of this kind, which it needs.
    NoCell(FitKind),
}

impl Outcome {
    /// Whether the stage gets its enable.
    pub fn is_inserted(&self) -> bool
        ensures { result ≡ is_inserted self.now }
    {
        matches!(self, Outcome::Inserted)
    }
}
