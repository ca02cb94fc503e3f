//! What is known of a hint once some of its claims had their turn.

ghost use Rattle.std.specs.Prelude.{◌≡◌};
ghost use Rattle.cg_hints.specs.inner.Standing.{end_of};

use cg_hint_laws::outcome::HintOutcome;
use cg_limit::Limit;
use cg_netlist::fault::AddFault;

/// What is known of a hint once some of its claims had their turn, none of which is too wide.
#[derive(Drop)]
pub(crate) enum Standing {
    /// Nothing stands against it.
    Open,

    /// It ends so, unless a claim that is left is too wide or too large.
    Settled(HintOutcome),

    /// A claim has too many nodes: the hint is refused, unless a claim that is left is too wide.
    Large,
}

impl Standing {
    /// How the hint ends by its claims once all had their turn, if it does.
    pub(crate) fn end(self) -> Result<Option<HintOutcome>, AddFault>
        ensures { result ≡ end_of self }
    {
        match self {
            Standing::Open => Ok(None),
            Standing::Settled(outcome) => Ok(Some(outcome)),
            Standing::Large => Err(AddFault::Limit(Limit::ClaimNodes)),
        }
    }
}
