//! The words of what came of a stage or a hint, without the bits of a refuted claim.

ghost use Rattle.std.specs.Prelude.{◌≡◌, ◌++◌, OnOk};
ghost use Rattle.cg_hint_laws.specs.Answers.{without_bits as without_hint_bits};
ghost use Rattle.cg_plan_laws.specs.Reported.{without_bits};
ghost use Rattle.cg_plan_text.specs.HintWords.{hint_outcome_words};
ghost use Rattle.cg_plan_text.specs.Words.{outcome_words};
ghost use Rattle.cg_plan_text.specs.inner.Spaced.{spaced};

use cg_hint_laws::outcome::HintOutcome;
use cg_machine::machine::Machine;
use cg_plan_laws::outcome::Outcome;
use cg_plan_text::claim::push_claim;
use cg_plan_text::hint::{push_hint_claim, push_hint_outcome};
use cg_plan_text::names::push_word;
use cg_plan_text::outcome::push_outcome;
use std::alloc::AllocError;

/// Puts the words of what came of a stage behind a text, each behind a space.
#[tactic(auto, using(crate::proofs::LineLemmas::pieces))]
pub(crate) fn push_stage_end(
    text: &mut Vec<u8>,
    machine: &Machine,
    outcome: &Outcome,
) -> Result<(), AllocError>
    ensures { OnOk result (text.new.items ≡ text.old.items ++ spaced (outcome_words machine.now (without_bits outcome.now))) }
{
    match outcome {
        Outcome::Refuted(claim, _) => {
            push_word(text, b"refuted")?;
            push_claim(text, machine, *claim)
        }
        _ => push_outcome(text, machine, outcome),
    }
}

/// Puts the words of what came of a hint behind a text, each behind a space.
#[tactic(auto, using(crate::proofs::LineLemmas::pieces))]
pub(crate) fn push_hint_end(
    text: &mut Vec<u8>,
    machine: &Machine,
    outcome: &HintOutcome,
) -> Result<(), AllocError>
    ensures { OnOk result (text.new.items ≡ text.old.items ++ spaced (hint_outcome_words machine.now (without_hint_bits outcome.now))) }
{
    match outcome {
        HintOutcome::Refuted(claim, _) => {
            push_word(text, b"refuted")?;
            push_hint_claim(text, machine, *claim)
        }
        _ => push_hint_outcome(text, machine, outcome),
    }
}
