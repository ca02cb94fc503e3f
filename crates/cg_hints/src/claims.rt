//! The claims of a hint, and the sizes of those that are built.

ghost use Rattle.std.specs.Prelude.{◌≡◌, ◌∷◌, map, IfOk};
ghost use Rattle.cg_hint_laws.specs.Trying.{question_of};
ghost use Rattle.cg_hint_laws.specs.declared.outcome.HintClaim.TheVariants.{Hold, Idle};
ghost use Rattle.cg_hints.specs.inner.Sizes.{SizedAs, is_large, too_many};
ghost use Rattle.cg_unroll_cycles.specs.Asking.{question_of as asked_question};

use cg_hint_laws::hint::Hint;
use cg_hint_laws::outcome::HintClaim;
use cg_machine::machine::Machine;
use cg_net::id::RegId;
use cg_unroll::claim::ClaimFault;
use cg_unroll_cycles::question::Question;
use std::alloc::{AllocError, Global};

/// The claims of a hint on a machine. None may be wider than the width, and proofs of them are wanted or not.
#[derive(Clone, Copy)]
pub(crate) struct Claims<'a> {
    pub machine: &'a Machine,
    pub number: u32,
    pub hint: &'a Hint,
    pub width: u32,
    pub proof: bool,
}

/// What a claim of a hint asks.
pub(crate) fn question<'a>(hint: &'a Hint, claim: HintClaim) -> Question<'a>
    ensures { asked_question result ≡ question_of hint.entry.now claim }
{
    let terms = hint.terms.as_slice();
    match claim {
        HintClaim::Idle => Question {
            terms,
            after: 0,
            register: None,
        },
        HintClaim::Hold(reg) => Question {
            terms,
            after: hint.after,
            register: Some(reg),
        },
    }
}

/// The claims of a hint with these registers in order: that it can idle, and one for each register.
pub(crate) fn claims_of(alloc: Global, regs: &[RegId]) -> Result<Vec<HintClaim>, AllocError>
    ensures { IfOk result (λ claims. claims.items ≡ Idle ∷ map Hold regs.now) }
{
    let mut claims = Vec::new(alloc);
    claims.push(HintClaim::Idle)?;
    for reg in regs {
        claims.push(HintClaim::Hold(*reg))?;
    }
    Ok(claims)
}

/// What is wrong with the size of a claim, if anything.
#[derive(Clone, Copy)]
pub(crate) enum Size {
    /// It may be decided.
    Fits,

    /// It has this many leaves, more than the width.
    Wide(u32),

    /// It is not too wide, but has more leaves and and-nodes than a list may have.
    Large,
}

impl Size {
    /// How many leaves there are, where these are too many.
    pub(crate) fn too_many(self) -> Option<u32>
        ensures { result ≡ too_many self }
    {
        match self {
            Size::Wide(leaves) => Some(leaves),
            Size::Fits | Size::Large => None,
        }
    }

    /// Whether there are too many nodes, but not too many leaves.
    pub(crate) fn is_large(self) -> bool
        ensures { result ≡ is_large self }
    {
        match self {
            Size::Large => true,
            Size::Fits | Size::Wide(_) => false,
        }
    }
}

/// The size of a claim that is refused so.
pub(crate) fn refused_size(fault: ClaimFault) -> Result<Size, AllocError>
    ensures { IfOk result (SizedAs fault) }
{
    match fault {
        ClaimFault::Wide(leaves) => Ok(Size::Wide(leaves)),
        ClaimFault::Limit(_) => Ok(Size::Large),
        ClaimFault::NoMemory => Err(AllocError),
    }
}
